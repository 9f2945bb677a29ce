//! The paths at which a directory is made for what is made below.

ghost use Rattle.std.specs.Prelude.{◌≡◌, ℕ, Bool, false, not, ◌&&◌, ◌||◌, IsTrue, IfOk, OnOk, List, [], length, map, is_none};
ghost use Rattle.std.specs.List.{AllByRecursion};
ghost use Rattle.std.specs.List.Sorted.{IsStrictlySortedBy};
ghost use Rattle.std.specs.Ordering.{nat_cmp};
ghost use Rattle.std.specs.Cmp.Lexicographic.{slice_cmp};
ghost use Rattle.ips_outside.specs.Image as image;
ghost use Rattle.ips_outside.specs.Outside.{Reads};
ghost use Rattle.ips_after.specs.After as after;
ghost use Rattle.ips_after.specs.Request.{IsRequest, Request};
ghost use Rattle.ips_change.specs.content.Failing.{HasFailed};
ghost use Rattle.ips_change.specs.Told.{change_told, naming};
ghost use Rattle.ips_change.specs.survey.Rows.{HasLooked};
ghost use Rattle.ips_change.specs.survey.Marks.{row_paths};
ghost use Rattle.ips_change.specs.survey.Tables.{IsTable};

use crate::making::made;
use crate::taking::taken;
use ips_change::Change;
use ips_change::survey::{Row, Said, Table, is_dir_at, marked_below};
use ips_outside::{Failed, Source};
use ips_text::Or;
use std::alloc::Global;

/// At each row whether a directory is made there for what is made below, by what becomes of each path with hard links. It looks only at
/// paths below which something is made.
pub fn supports<S: Source>(
    alloc: Global,
    source: &mut S,
    table: &Table<'_>,
    changes: &[Change<'_>],
) -> Result<Vec<bool>, Or<Failed>>
    requires order { IsStrictlySortedBy (slice_cmp nat_cmp) (row_paths table.now.rows.items) }
    requires said { length table.now.said.items ≡ length table.now.rows.items }
    requires changes { length changes.now ≡ length table.now.rows.items }
    ensures long { IfOk result (λ supports. length supports.items ≡ length table.now.rows.items) }
    ensures found { IsTrue (S.outside.tells source.old) → IfOk result (λ supports. (r : Request) → IsRequest r → IsTable r table.now.rows.items table.now.said.items → AllByRecursion (HasLooked (S.outside.state source.old).held) table.now.rows.items
        → map (change_told r.bytes) changes.now ≡ map (after.linked (naming r) (S.outside.state source.old).held) (row_paths table.now.rows.items)
        → supports.items ≡ map (after.is_support (naming r) (S.outside.state source.old).held) (row_paths table.now.rows.items)) }
    ensures reads { Reads S.outside source.old source.new (HasFailed result) }
{
    let made = made(alloc, table, changes)?;
    let below = marked_below(alloc, &table.rows, &made)?;
    let taken = taken(alloc, table)?;
    let mut supports = Vec::new(alloc);
    ask(source, table, &below, &taken, &mut supports)?;
    Ok(supports)
}

// Adds for each row whether a directory is made there for what is made below.
fn ask<S: Source>(
    source: &mut S,
    table: &Table<'_>,
    below: &[bool],
    taken: &[bool],
    supports: &mut Vec<bool>,
) -> Result<(), Or<Failed>>
    requires said { length table.now.said.items ≡ length table.now.rows.items }
    requires below { length below.now ≡ length table.now.rows.items }
    requires taken { length taken.now ≡ length table.now.rows.items }
    requires none { supports.old.items ≡ [] }
    ensures long { OnOk result (length supports.new.items ≡ length table.now.rows.items) }
    ensures found { IsTrue (S.outside.tells source.old) → OnOk result ((r : Request) → IsTable r table.now.rows.items table.now.said.items → AllByRecursion (HasLooked (S.outside.state source.old).held) table.now.rows.items
        → below.now ≡ map (after.holds_made (naming r) (S.outside.state source.old).held) (row_paths table.now.rows.items)
        → taken.now ≡ map (after.is_taken (naming r) (S.outside.state source.old).held) (row_paths table.now.rows.items)
        → supports.new.items ≡ map (after.is_support (naming r) (S.outside.state source.old).held) (row_paths table.now.rows.items)) }
    ensures reads { Reads S.outside source.old source.new (HasFailed result) }
{
    for i in 0..table.rows.len() {
        supports.push(ask_at(source, &table.rows[i], table.said[i], below[i], taken[i])?)?;
    }
    Ok(())
}

// Whether no directory is at the row's path for what is made below, of which nothing is said: none stands, or the one that stands goes.
fn ask_at<S: Source>(
    source: &mut S,
    row: &Row<'_>,
    said: Option<Said>,
    below: bool,
    taken: bool,
) -> Result<bool, Or<Failed>>
    ensures found { IsTrue (S.outside.tells source.old) → HasLooked (S.outside.state source.old).held row.now
        → IfOk result (λ support. support ≡ (is_none said && ((not (image.is_dir ((S.outside.state source.old).held.look row.now.path.now.bytes)) || taken) && below))) }
    ensures untouched { (is_none said && (not taken && below)) ≡ false → source.new ≡ source.old }
    ensures reads { Reads S.outside source.old source.new (HasFailed result) }
{
    if said.is_some() || !below {
        return Ok(false);
    }
    if taken {
        return Ok(true);
    }
    Ok(!is_dir_at(source, row)?)
}
