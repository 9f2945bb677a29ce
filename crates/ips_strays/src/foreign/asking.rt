//! What stands where a directory may go unsaved.

ghost use Rattle.std.specs.Prelude.{◌≡◌, ◌&&◌, ℕ, Bool, IsTrue, OnOk, List, length, map};
ghost use Rattle.std.specs.List.{AllByRecursion};
ghost use Rattle.std.specs.List.Sorted.{IsStrictlySortedBy};
ghost use Rattle.std.specs.Ordering.{nat_cmp};
ghost use Rattle.std.specs.Cmp.Lexicographic.{slice_cmp};
ghost use Rattle.ips_text.specs.Ancestry as ancestry;
ghost use Rattle.ips_outside.specs.Outside.{Reads};
ghost use Rattle.ips_steps.specs.Private.{records_name};
ghost use Rattle.ips_after.specs.After.{change_after};
ghost use Rattle.ips_after.specs.Change.{replaces};
ghost use Rattle.ips_outside.specs.Image.{Image};
ghost use Rattle.ips_after.specs.Request.{Request, takes};
ghost use Rattle.ips_change.specs.content.Failing.{HasFailed};
ghost use Rattle.ips_change.specs.Told.{naming};
ghost use Rattle.ips_change.specs.survey.Rows.{HasLooked, IsRowOf};
ghost use Rattle.ips_change.specs.survey.Marks.{IsMarkOf, row_paths};
ghost use Rattle.ips_change.specs.survey.Tables.{IsTable};
ghost use Rattle.ips_found.specs.Found.{AreThings};
ghost use Rattle.ips_strays.specs.Strays.{Adds};
ghost use Rattle.ips_strays.specs.foreign.Foreign.{asks, asks_among, gives_dir};

use crate::{add_row, gather};
use ips_change::survey::{Row, is_reached};
use ips_folder::Folder;
use ips_found::Thing;
use ips_meaning::Entry;
use ips_outside::Failed;
use ips_text::{Or, covers};
use std::alloc::Global;

// Adds what stands at or below what is taken away, and at each row whose directory was wanted and goes, outside the folder of the records.
pub(crate) fn ask<F: Folder>(
    alloc: Global,
    folder: &mut F,
    rows: &[Row<'_>],
    gone: &[bool],
    away: &[bool],
    things: &mut Vec<Thing>,
) -> Result<(), Or<Failed>>
    requires order { IsStrictlySortedBy (slice_cmp nat_cmp) (row_paths rows.now) }
    requires gone { length gone.now ≡ length rows.now }
    requires away { length away.now ≡ length rows.now }
    requires looked { IsTrue (F.outside.tells folder.old) → AllByRecursion (HasLooked (F.outside.state folder.old).held) rows.now }
    ensures found { IsTrue (F.outside.tells folder.old) → OnOk result ((r : Request) (emptied : List ℕ → Bool) → AllByRecursion (IsRowOf r) rows.now
        → IsMarkOf (λ q. replaces (change_after (naming r) (F.outside.state folder.old).held emptied q)) (row_paths rows.now) gone.now
        → away.now ≡ map (λ q. takes (r.over.at q)) (row_paths rows.now)
        → Adds (F.outside.state folder.old).held (asks_among r (F.outside.state folder.old).held emptied (row_paths rows.now)) things.old.items things.new.items) }
    ensures things { IsTrue (F.outside.tells folder.old) → OnOk result (AreThings (F.outside.state folder.old).held things.old.items → AreThings (F.outside.state folder.old).held things.new.items) }
    ensures reads { Reads F.outside folder.old folder.new (HasFailed result) }
{
    for i in 0..rows.len() {
        let row = &rows[i];
        ask_at(alloc, folder, rows, gone, row, away[i], things)?;
    }
    Ok(())
}

// The same at one row, where what stands is taken away or not.
fn ask_at<F: Folder>(
    alloc: Global,
    folder: &mut F,
    rows: &[Row<'_>],
    gone: &[bool],
    row: &Row<'_>,
    taken: bool,
    things: &mut Vec<Thing>,
) -> Result<(), Or<Failed>>
    requires order { IsStrictlySortedBy (slice_cmp nat_cmp) (row_paths rows.now) }
    requires gone { length gone.now ≡ length rows.now }
    requires looked { IsTrue (F.outside.tells folder.old) → HasLooked (F.outside.state folder.old).held row.now }
    ensures found { IsTrue (F.outside.tells folder.old) → OnOk result ((r : Request) (emptied : List ℕ → Bool) → IsRowOf r row.now
        → IsMarkOf (λ q. replaces (change_after (naming r) (F.outside.state folder.old).held emptied q)) (row_paths rows.now) gone.now
        → taken ≡ takes (r.over.at row.now.path.now.bytes)
        → Adds (F.outside.state folder.old).held (asks r (F.outside.state folder.old).held emptied row.now.path.now.bytes) things.old.items things.new.items) }
    ensures things { IsTrue (F.outside.tells folder.old) → OnOk result (AreThings (F.outside.state folder.old).held things.old.items → AreThings (F.outside.state folder.old).held things.new.items) }
    ensures reads { Reads F.outside folder.old folder.new (HasFailed result) }
{
    if is_of_records(row.path.bytes()) {
        return Ok(());
    }
    if taken {
        return gather(alloc, folder, row.path, things);
    }
    if is_given(rows, gone, row) {
        return add_row(alloc, folder, row, things);
    }
    Ok(())
}

// Whether a directory was wanted at the row's path, and what stands there goes.
fn is_given(rows: &[Row<'_>], gone: &[bool], row: &Row<'_>) -> bool
    requires order { IsStrictlySortedBy (slice_cmp nat_cmp) (row_paths rows.now) }
    requires gone { length gone.now ≡ length rows.now }
    ensures { (r : Request) (t : Image) (emptied : List ℕ → Bool) → IsRowOf r row.now → IsMarkOf (λ q. replaces (change_after (naming r) t emptied q)) (row_paths rows.now) gone.now
        → result ≡ gives_dir r t emptied row.now.path.now.bytes }
{
    matches!(row.old, Some(Entry::Dir { .. })) && is_reached(rows, gone, row.path.bytes())
}

// Whether the path is that of the folder of the records, or below it.
#[tactic(auto, unfolding(ips_steps::specs::Private::records_name))]
pub(crate) fn is_of_records(path: &[u8]) -> bool
    ensures { result ≡ ancestry.covers records_name path.now }
{
    covers(b"var/pkg", path)
}
