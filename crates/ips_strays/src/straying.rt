//! What stands without a row where something goes.

ghost use Rattle.std.specs.Prelude.{◌≡◌, false, not, ◌&&◌, IsTrue, IfOk, OnOk, List, ℕ, [], length, map};
ghost use Rattle.std.specs.List.{AllByRecursion};
ghost use Rattle.std.specs.List.Sorted.{IsStrictlySortedBy};
ghost use Rattle.std.specs.Ordering.{nat_cmp};
ghost use Rattle.std.specs.Cmp.Lexicographic.{slice_cmp};
ghost use Rattle.ips_outside.specs.Image.{Image};
ghost use Rattle.ips_outside.specs.Outside.{Reads};
ghost use Rattle.ips_after.specs.Lists.{listed};
ghost use Rattle.ips_after.specs.Request.{IsRequest, Request, takes};
ghost use Rattle.ips_after.specs.Salvage as salvage;
ghost use Rattle.ips_change.specs.content.Failing.{HasFailed};
ghost use Rattle.ips_change.specs.Told.{naming};
ghost use Rattle.ips_change.specs.survey.Rows.{HasLooked};
ghost use Rattle.ips_change.specs.survey.Marks.{IsMarkOf, row_paths};
ghost use Rattle.ips_change.specs.survey.Tables.{IsTable};
ghost use Rattle.ips_salvage.specs.Destroying.{destroys_else, goes_else};
ghost use Rattle.ips_found.specs.Found.{AreThings, thing_paths};
ghost use Rattle.ips_strays.specs.Strays.{Adds, hangs_among, opens};

use crate::hanging::gather_below;
use ips_change::survey::{Row, Table, is_reached};
use ips_folder::Folder;
use ips_found::Thing;
use ips_outside::Failed;
use ips_salvage::{going, taken_away};
use ips_text::Or;
use std::alloc::{AllocError, Global};

/// Just the paths without a row at which something stands that is salvaged, by bytes, each once, with what stands there, by the marks of what is
/// destroyed. It lists only directories that go with what is in them.
pub fn strays<F: Folder>(
    alloc: Global,
    folder: &mut F,
    table: &Table<'_>,
    destroyed: &[bool],
) -> Result<Vec<Thing>, Or<Failed>>
    requires order { IsStrictlySortedBy (slice_cmp nat_cmp) (row_paths table.now.rows.items) }
    requires said { length table.now.said.items ≡ length table.now.rows.items }
    requires destroyed { length destroyed.now ≡ length table.now.rows.items }
    requires looked { IsTrue (F.outside.tells folder.old) → AllByRecursion (HasLooked (F.outside.state folder.old).held) table.now.rows.items }
    ensures order { IfOk result (λ strays. IsStrictlySortedBy (slice_cmp nat_cmp) (thing_paths strays.items)) }
    ensures listed { IsTrue (F.outside.tells folder.old) → IfOk result (λ strays. (r : Request) → IsRequest r → IsTable r table.now.rows.items table.now.said.items
        → IsMarkOf (destroys_else (naming r) (F.outside.state folder.old).held) (row_paths table.now.rows.items) destroyed.now
        → (q : List ℕ) → listed (thing_paths strays.items) q ≡ (salvage.salvaged (naming r) (F.outside.state folder.old).held q && not (listed (row_paths table.now.rows.items) q))) }
    ensures found { IsTrue (F.outside.tells folder.old) → IfOk result (λ strays. AreThings (F.outside.state folder.old).held strays.items) }
    ensures reads { Reads F.outside folder.old folder.new (HasFailed result) }
{
    let mut strays = Vec::new(alloc);
    gather_all(alloc, folder, table, destroyed, &mut strays)?;
    sort(&mut strays)?;
    Ok(strays)
}

/// Puts them by bytes, each path once.
pub fn sort(strays: &mut Vec<Thing>) -> Result<(), AllocError>
    ensures order { OnOk result (IsStrictlySortedBy (slice_cmp nat_cmp) (thing_paths strays.new.items)) }
    ensures same { OnOk result ((q : List ℕ) → listed (thing_paths strays.new.items) q ≡ listed (thing_paths strays.old.items) q) }
    ensures found { OnOk result ((t : Image) → AreThings t strays.old.items → AreThings t strays.new.items) }
{
    strays.sort_by(|a, b| a.path.cmp(&b.path))?;
    strays.dedup_by(|a, b| a.path == b.path);
    Ok(())
}

// Adds what stands below a row without a row of its own, where that row's directory goes and isn't taken away.
fn gather_all<F: Folder>(
    alloc: Global,
    folder: &mut F,
    table: &Table<'_>,
    destroyed: &[bool],
    strays: &mut Vec<Thing>,
) -> Result<(), Or<Failed>>
    requires order { IsStrictlySortedBy (slice_cmp nat_cmp) (row_paths table.now.rows.items) }
    requires said { length table.now.said.items ≡ length table.now.rows.items }
    requires destroyed { length destroyed.now ≡ length table.now.rows.items }
    requires looked { IsTrue (F.outside.tells folder.old) → AllByRecursion (HasLooked (F.outside.state folder.old).held) table.now.rows.items }
    ensures found { IsTrue (F.outside.tells folder.old) → OnOk result ((r : Request) → IsTable r table.now.rows.items table.now.said.items
        → IsMarkOf (destroys_else (naming r) (F.outside.state folder.old).held) (row_paths table.now.rows.items) destroyed.now
        → Adds (F.outside.state folder.old).held (hangs_among (opens r (F.outside.state folder.old).held) (row_paths table.now.rows.items) (row_paths table.now.rows.items)) strays.old.items strays.new.items) }
    ensures things { IsTrue (F.outside.tells folder.old) → OnOk result (AreThings (F.outside.state folder.old).held strays.old.items → AreThings (F.outside.state folder.old).held strays.new.items) }
    ensures reads { Reads F.outside folder.old folder.new (HasFailed result) }
{
    let going = going(alloc, table, destroyed)?;
    let away = taken_away(alloc, table)?;
    gather_open(alloc, folder, &table.rows, &going, &away, strays)
}

// The same, by the marks of what goes and of what is taken away.
fn gather_open<F: Folder>(
    alloc: Global,
    folder: &mut F,
    rows: &[Row<'_>],
    going: &[bool],
    away: &[bool],
    strays: &mut Vec<Thing>,
) -> Result<(), Or<Failed>>
    requires order { IsStrictlySortedBy (slice_cmp nat_cmp) (row_paths rows.now) }
    requires going { length going.now ≡ length rows.now }
    requires away { length away.now ≡ length rows.now }
    requires looked { IsTrue (F.outside.tells folder.old) → AllByRecursion (HasLooked (F.outside.state folder.old).held) rows.now }
    ensures found { IsTrue (F.outside.tells folder.old) → OnOk result ((r : Request)
        → going.now ≡ map (goes_else (naming r) (F.outside.state folder.old).held) (row_paths rows.now)
        → IsMarkOf (λ q. takes (r.over.at q)) (row_paths rows.now) away.now
        → Adds (F.outside.state folder.old).held (hangs_among (opens r (F.outside.state folder.old).held) (row_paths rows.now) (row_paths rows.now)) strays.old.items strays.new.items) }
    ensures things { IsTrue (F.outside.tells folder.old) → OnOk result (AreThings (F.outside.state folder.old).held strays.old.items → AreThings (F.outside.state folder.old).held strays.new.items) }
    ensures reads { Reads F.outside folder.old folder.new (HasFailed result) }
{
    for i in 0..rows.len() {
        let row = &rows[i];
        if is_open(rows, away, going[i], row.path.bytes()) {
            gather_below(alloc, folder, rows, row, strays)?;
        }
    }
    Ok(())
}

// Whether what stands at the path, where this tells whether it goes, isn't taken away.
fn is_open(rows: &[Row<'_>], away: &[bool], goes: bool, path: &[u8]) -> bool
    requires order { IsStrictlySortedBy (slice_cmp nat_cmp) (row_paths rows.now) }
    requires away { length away.now ≡ length rows.now }
    ensures { (r : Request) (t : Image) → goes ≡ goes_else (naming r) t path.now → IsMarkOf (λ q. takes (r.over.at q)) (row_paths rows.now) away.now → result ≡ opens r t path.now }
{
    goes && !is_reached(rows, away, path)
}
