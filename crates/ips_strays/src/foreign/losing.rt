//! The first directory with names that are no paths, which would go unsaved.

ghost use Rattle.std.specs.Prelude.{◌≡◌, IsTrue, IfOk, OnOk, length, map};
ghost use Rattle.std.specs.List.{AllByRecursion};
ghost use Rattle.std.specs.List.Sorted.{IsStrictlySortedBy};
ghost use Rattle.std.specs.Ordering.{nat_cmp};
ghost use Rattle.std.specs.Cmp.Lexicographic.{slice_cmp};
ghost use Rattle.ips_outside.specs.Outside.{Reads};
ghost use Rattle.ips_after.specs.After as after;
ghost use Rattle.ips_after.specs.Request.{IsRequest, Request};
ghost use Rattle.ips_change.specs.content.Failing.{HasFailed};
ghost use Rattle.ips_change.specs.Told.{change_told, naming};
ghost use Rattle.ips_change.specs.survey.Rows.{HasLooked};
ghost use Rattle.ips_change.specs.survey.Marks.{row_paths};
ghost use Rattle.ips_change.specs.survey.Tables.{IsTable};
ghost use Rattle.ips_emptied.specs.Emptying.{marked_in};
ghost use Rattle.ips_found.specs.Found.{AreThings};
ghost use Rattle.ips_strays.specs.foreign.Foreign as spec;
ghost use Rattle.ips_strays.specs.foreign.Foreign.{Gathers, IsFirstThing};
ghost use Rattle.ips_movable.specs.First.{IsFirstPath, loses_foreign};

use crate::foreign::asking::{ask, is_of_records};
use crate::foreign::gone::marked_gone;
use crate::sort;
use ips_change::Change;
use ips_change::survey::Table;
use ips_folder::Folder;
use ips_found::{Found, Thing};
use ips_outside::Failed;
use ips_salvage::taken_away;
use ips_text::{Or, RelPath};
use std::alloc::{AllocError, Global};

/// The first path by bytes at which a directory with names that are no paths goes unsaved, outside the folder of the records; None where there is
/// none. It lists only directories that were wanted and go, and those at or below what account files and records take away.
pub fn foreign<F: Folder>(
    alloc: Global,
    folder: &mut F,
    table: &Table<'_>,
    changes: &[Change<'_>],
    emptied: &[bool],
) -> Result<Option<RelPath>, Or<Failed>>
    requires order { IsStrictlySortedBy (slice_cmp nat_cmp) (row_paths table.now.rows.items) }
    requires said { length table.now.said.items ≡ length table.now.rows.items }
    requires changes { length changes.now ≡ length table.now.rows.items }
    requires emptied { length emptied.now ≡ length table.now.rows.items }
    requires looked { IsTrue (F.outside.tells folder.old) → AllByRecursion (HasLooked (F.outside.state folder.old).held) table.now.rows.items }
    ensures found { IsTrue (F.outside.tells folder.old) → IfOk result (λ first. (r : Request) → IsRequest r → IsTable r table.now.rows.items table.now.said.items
        → map (change_told r.bytes) changes.now ≡ map (after.supported (naming r) (F.outside.state folder.old).held) (row_paths table.now.rows.items)
        → IsFirstPath (loses_foreign (naming r) (F.outside.state folder.old).held (marked_in (row_paths table.now.rows.items) emptied.now)) first) }
    ensures reads { Reads F.outside folder.old folder.new (HasFailed result) }
{
    let mut things = Vec::new(alloc);
    gather_all(alloc, folder, table, changes, emptied, &mut things)?;
    Ok(first(alloc, &things)?)
}

// Adds, to no things, what stands where such a directory may, by bytes.
fn gather_all<F: Folder>(
    alloc: Global,
    folder: &mut F,
    table: &Table<'_>,
    changes: &[Change<'_>],
    emptied: &[bool],
    things: &mut Vec<Thing>,
) -> Result<(), Or<Failed>>
    requires order { IsStrictlySortedBy (slice_cmp nat_cmp) (row_paths table.now.rows.items) }
    requires said { length table.now.said.items ≡ length table.now.rows.items }
    requires changes { length changes.now ≡ length table.now.rows.items }
    requires emptied { length emptied.now ≡ length table.now.rows.items }
    requires looked { IsTrue (F.outside.tells folder.old) → AllByRecursion (HasLooked (F.outside.state folder.old).held) table.now.rows.items }
    ensures found { IsTrue (F.outside.tells folder.old) → OnOk result ((r : Request) → IsRequest r → IsTable r table.now.rows.items table.now.said.items
        → map (change_told r.bytes) changes.now ≡ map (after.supported (naming r) (F.outside.state folder.old).held) (row_paths table.now.rows.items)
        → Gathers r (F.outside.state folder.old).held (marked_in (row_paths table.now.rows.items) emptied.now) (row_paths table.now.rows.items) things.old.items things.new.items) }
    ensures things { IsTrue (F.outside.tells folder.old) → OnOk result (AreThings (F.outside.state folder.old).held things.old.items → AreThings (F.outside.state folder.old).held things.new.items) }
    ensures reads { Reads F.outside folder.old folder.new (HasFailed result) }
{
    let gone = marked_gone(alloc, table, changes, emptied)?;
    let away = taken_away(alloc, table)?;
    ask(alloc, folder, &table.rows, &gone, &away, things)?;
    sort(things)?;
    Ok(())
}

// The path of the first of these things that is lost.
fn first(alloc: Global, things: &[Thing]) -> Result<Option<RelPath>, AllocError>
    ensures { IfOk result (IsFirstThing things.now) }
{
    for i in 0..things.len() {
        if is_lost(&things[i]) {
            return Ok(Some(things[i].path.copy(alloc)?));
        }
    }
    Ok(None)
}

// Whether the thing is a directory with names that are no paths, outside the folder of the records.
fn is_lost(thing: &Thing) -> bool
    ensures { result ≡ spec.is_lost_thing thing.now }
{
    matches!(thing.found, Found::Dir { foreign: true, .. }) && !is_of_records(thing.path.bytes())
}
