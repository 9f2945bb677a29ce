//! What is salvaged.

ghost use Rattle.std.specs.Prelude.{◌≡◌, ◌<◌, false, not, ◌&&◌, IsTrue, IfOk, OnOk, [], length, map, is_some};
ghost use Rattle.std.specs.List.{AllByRecursion};
ghost use Rattle.std.specs.List.Sorted.{IsStrictlySortedBy};
ghost use Rattle.std.specs.Ordering.{nat_cmp};
ghost use Rattle.std.specs.Cmp.Lexicographic.{slice_cmp};
ghost use Rattle.ips_outside.specs.Outside.{Reads};
ghost use Rattle.ips_after.specs.After as after;
ghost use Rattle.ips_after.specs.Request.{Request, takes};
ghost use Rattle.ips_after.specs.Salvage as salvage;
ghost use Rattle.ips_change.specs.content.Failing.{HasFailed};
ghost use Rattle.ips_change.specs.Told.{naming};
ghost use Rattle.ips_change.specs.survey.Rows.{HasLooked, IsRowOf};
ghost use Rattle.ips_change.specs.survey.Marks.{IsMarkOf, row_paths};
ghost use Rattle.ips_change.specs.survey.Tables.{IsTable};
ghost use Rattle.ips_salvage.specs.Destroying.{destroys_else, goes_else};

use crate::away::taken_away;
use crate::falling::going;
use crate::giving::given_up_at;
use crate::there::is_there;
use ips_change::survey::{Row, Table};
use ips_files::CHUNK;
use ips_folder::Folder;
use ips_outside::Failed;
use ips_text::Or;
use std::alloc::Global;

/// At each row whether what stands at its path is salvaged, by the marks of what is destroyed. It looks only at paths whose rows don't know what
/// stands, where that goes.
pub fn salvaged<F: Folder>(
    alloc: Global,
    folder: &mut F,
    table: &Table<'_>,
    destroyed: &[bool],
) -> Result<Vec<bool>, Or<Failed>>
    requires order { IsStrictlySortedBy (slice_cmp nat_cmp) (row_paths table.now.rows.items) }
    requires said { length table.now.said.items ≡ length table.now.rows.items }
    requires destroyed { length destroyed.now ≡ length table.now.rows.items }
    ensures long { IfOk result (λ salvaged. length salvaged.items ≡ length table.now.rows.items) }
    ensures found { IsTrue (F.outside.tells folder.old) → IfOk result (λ salvaged. (r : Request) → IsTable r table.now.rows.items table.now.said.items → AllByRecursion (HasLooked (F.outside.state folder.old).held) table.now.rows.items
        → IsMarkOf (destroys_else (naming r) (F.outside.state folder.old).held) (row_paths table.now.rows.items) destroyed.now
        → salvaged.items ≡ map (salvage.salvaged (naming r) (F.outside.state folder.old).held) (row_paths table.now.rows.items)) }
    ensures reads { Reads F.outside folder.old folder.new (HasFailed result) }
{
    let going = going(alloc, table, destroyed)?;
    let away = taken_away(alloc, table)?;
    let mut salvaged = Vec::new(alloc);
    ask_all(alloc, folder, table, &going, &away, &mut salvaged)?;
    Ok(salvaged)
}

// Adds for each row whether what stands at its path and goes isn't given up.
fn ask_all<F: Folder>(
    alloc: Global,
    folder: &mut F,
    table: &Table<'_>,
    going: &[bool],
    away: &[bool],
    salvaged: &mut Vec<bool>,
) -> Result<(), Or<Failed>>
    requires order { IsStrictlySortedBy (slice_cmp nat_cmp) (row_paths table.now.rows.items) }
    requires going { length going.now ≡ length table.now.rows.items }
    requires away { length away.now ≡ length table.now.rows.items }
    requires none { salvaged.old.items ≡ [] }
    ensures long { OnOk result (length salvaged.new.items ≡ length table.now.rows.items) }
    ensures found { IsTrue (F.outside.tells folder.old) → OnOk result ((r : Request) → IsTable r table.now.rows.items table.now.said.items → AllByRecursion (HasLooked (F.outside.state folder.old).held) table.now.rows.items
        → IsMarkOf (λ q. takes (r.over.at q)) (row_paths table.now.rows.items) away.now
        → going.now ≡ map (goes_else (naming r) (F.outside.state folder.old).held) (row_paths table.now.rows.items)
        → salvaged.new.items ≡ map (salvage.salvaged (naming r) (F.outside.state folder.old).held) (row_paths table.now.rows.items)) }
    ensures reads { Reads F.outside folder.old folder.new (HasFailed result) }
{
    let mut buffer = vec![in alloc; 0u8; CHUNK]?;
    ask(alloc, folder, table, going, away, &mut buffer, salvaged)
}

// The same, with a buffer to read in.
fn ask<F: Folder>(
    alloc: Global,
    folder: &mut F,
    table: &Table<'_>,
    going: &[bool],
    away: &[bool],
    buffer: &mut [u8],
    salvaged: &mut Vec<bool>,
) -> Result<(), Or<Failed>>
    requires order { IsStrictlySortedBy (slice_cmp nat_cmp) (row_paths table.now.rows.items) }
    requires going { length going.now ≡ length table.now.rows.items }
    requires away { length away.now ≡ length table.now.rows.items }
    requires room { 0 < length buffer.old }
    requires none { salvaged.old.items ≡ [] }
    ensures long { OnOk result (length salvaged.new.items ≡ length table.now.rows.items) }
    ensures found { IsTrue (F.outside.tells folder.old) → OnOk result ((r : Request) → IsTable r table.now.rows.items table.now.said.items → AllByRecursion (HasLooked (F.outside.state folder.old).held) table.now.rows.items
        → IsMarkOf (λ q. takes (r.over.at q)) (row_paths table.now.rows.items) away.now
        → going.now ≡ map (goes_else (naming r) (F.outside.state folder.old).held) (row_paths table.now.rows.items)
        → salvaged.new.items ≡ map (salvage.salvaged (naming r) (F.outside.state folder.old).held) (row_paths table.now.rows.items)) }
    ensures reads { Reads F.outside folder.old folder.new (HasFailed result) }
{
    for i in 0..table.rows.len() {
        salvaged.push(ask_at(
            alloc,
            folder,
            &table.rows,
            away,
            &table.rows[i],
            going[i],
            buffer,
        )?)?;
    }
    Ok(())
}

// Whether something stands at the row's path and goes, and isn't given up.
fn ask_at<F: Folder>(
    alloc: Global,
    folder: &mut F,
    rows: &[Row<'_>],
    away: &[bool],
    row: &Row<'_>,
    goes: bool,
    buffer: &mut [u8],
) -> Result<bool, Or<Failed>>
    requires order { IsStrictlySortedBy (slice_cmp nat_cmp) (row_paths rows.now) }
    requires away { length away.now ≡ length rows.now }
    requires room { 0 < length buffer.old }
    ensures kept { length buffer.new ≡ length buffer.old }
    ensures found { IsTrue (F.outside.tells folder.old) → HasLooked (F.outside.state folder.old).held row.now
        → IfOk result (λ saved. (r : Request) → IsRowOf r row.now → IsMarkOf (λ q. takes (r.over.at q)) (row_paths rows.now) away.now
        → saved ≡ (is_some ((F.outside.state folder.old).held.look row.now.path.now.bytes) && (not (after.given_up (naming r) (F.outside.state folder.old).held row.now.path.now.bytes) && goes))) }
    ensures untouched { goes ≡ false → folder.new ≡ folder.old }
    ensures reads { Reads F.outside folder.old folder.new (HasFailed result) }
{
    if !goes {
        return Ok(false);
    }
    if !is_there(folder, row)? {
        return Ok(false);
    }
    Ok(!given_up_at(alloc, folder, rows, away, row, buffer)?)
}
