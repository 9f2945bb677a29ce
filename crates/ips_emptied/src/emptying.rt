//! Which directories are emptied.

ghost use Rattle.std.specs.Prelude.{◌≡◌, false, IsTrue, IfOk, OnOk, length, map};
ghost use Rattle.std.specs.List.{AllByRecursion};
ghost use Rattle.std.specs.List.Sorted.{IsStrictlySortedBy};
ghost use Rattle.std.specs.Ordering.{nat_cmp};
ghost use Rattle.std.specs.Cmp.Lexicographic.{slice_cmp};
ghost use Rattle.ips_outside.specs.Outside.{Reads};
ghost use Rattle.ips_after.specs.After as after;
ghost use Rattle.ips_after.specs.Request.{IsRequest, Request};
ghost use Rattle.ips_change.specs.content.Failing.{HasFailed};
ghost use Rattle.ips_change.specs.Stands.{is_dir_seen};
ghost use Rattle.ips_change.specs.Told.{change_told, naming};
ghost use Rattle.ips_change.specs.survey.Rows.{HasLooked};
ghost use Rattle.ips_change.specs.survey.Marks.{IsMarkOf, row_paths};
ghost use Rattle.ips_change.specs.survey.Tables.{IsTable};
ghost use Rattle.ips_emptied.specs.Emptying.{AreAnswers, IsAnswer, marked_in};

use crate::candidates::candidates;
use crate::children::{all_go, list};
use crate::settling::replaced;
use ips_change::survey::{Row, Table, is_reached};
use ips_change::{Change, Stands};
use ips_folder::Folder;
use ips_outside::Failed;
use ips_text::Or;
use std::alloc::Global;

/// At each row whether its directory is emptied, by what becomes of each path with the directories that are made for what is below, and by
/// where these are made. It lists only directories that may be emptied.
pub fn emptied<F: Folder>(
    alloc: Global,
    folder: &mut F,
    table: &Table<'_>,
    changes: &[Change<'_>],
    supports: &[bool],
) -> Result<Vec<bool>, Or<Failed>>
    requires order { IsStrictlySortedBy (slice_cmp nat_cmp) (row_paths table.now.rows.items) }
    requires looked { IsTrue (F.outside.tells folder.old) → AllByRecursion (HasLooked (F.outside.state folder.old).held) table.now.rows.items }
    requires said { length table.now.said.items ≡ length table.now.rows.items }
    requires changes { length changes.now ≡ length table.now.rows.items }
    requires supports { length supports.now ≡ length table.now.rows.items }
    ensures long { IfOk result (λ emptied. length emptied.items ≡ length table.now.rows.items) }
    ensures marks { IfOk result (λ emptied. IsMarkOf (marked_in (row_paths table.now.rows.items) emptied.items) (row_paths table.now.rows.items) emptied.items) }
    ensures found { IsTrue (F.outside.tells folder.old) → IfOk result (λ emptied. (r : Request) → IsRequest r → IsTable r table.now.rows.items table.now.said.items
        → map (change_told r.bytes) changes.now ≡ map (after.supported (naming r) (F.outside.state folder.old).held) (row_paths table.now.rows.items)
        → supports.now ≡ map (after.is_support (naming r) (F.outside.state folder.old).held) (row_paths table.now.rows.items)
        → after.IsEmptied (naming r) (F.outside.state folder.old).held (marked_in (row_paths table.now.rows.items) emptied.items)) }
    ensures reads { Reads F.outside folder.old folder.new (HasFailed result) }
{
    let replaced = replaced(alloc, table, changes)?;
    let candidates = candidates(alloc, table, changes, supports)?;
    ask_all(alloc, folder, &table.rows, &candidates, &replaced)
}

// The marks of the rows whose directories are emptied.
fn ask_all<F: Folder>(
    alloc: Global,
    folder: &mut F,
    rows: &[Row<'_>],
    candidates: &[bool],
    replaced: &[bool],
) -> Result<Vec<bool>, Or<Failed>>
    requires order { IsStrictlySortedBy (slice_cmp nat_cmp) (row_paths rows.now) }
    requires looked { IsTrue (F.outside.tells folder.old) → AllByRecursion (HasLooked (F.outside.state folder.old).held) rows.now }
    requires candidates { length candidates.now ≡ length rows.now }
    requires replaced { length replaced.now ≡ length rows.now }
    ensures long { IfOk result (λ emptied. length emptied.items ≡ length rows.now) }
    ensures found { IsTrue (F.outside.tells folder.old) → IfOk result (λ emptied. AreAnswers (F.outside.state folder.old).held rows.now candidates.now replaced.now emptied.items) }
    ensures reads { Reads F.outside folder.old folder.new (HasFailed result) }
{
    let mut emptied = vec![in alloc; false; rows.len()]?;
    ask(alloc, folder, rows, candidates, replaced, &mut emptied)?;
    Ok(emptied)
}

// Sets these marks from the last on: what is below a path stands behind it.
fn ask<F: Folder>(
    alloc: Global,
    folder: &mut F,
    rows: &[Row<'_>],
    candidates: &[bool],
    replaced: &[bool],
    emptied: &mut [bool],
) -> Result<(), Or<Failed>>
    requires order { IsStrictlySortedBy (slice_cmp nat_cmp) (row_paths rows.now) }
    requires looked { IsTrue (F.outside.tells folder.old) → AllByRecursion (HasLooked (F.outside.state folder.old).held) rows.now }
    requires candidates { length candidates.now ≡ length rows.now }
    requires replaced { length replaced.now ≡ length rows.now }
    requires emptied { length emptied.old ≡ length rows.now }
    ensures found { IsTrue (F.outside.tells folder.old) → OnOk result (AreAnswers (F.outside.state folder.old).held rows.now candidates.now replaced.now emptied.new) }
    ensures reads { Reads F.outside folder.old folder.new (HasFailed result) }
{
    let mut i = rows.len();
    while i > 0 {
        i -= 1;
        let gone = ask_at(
            alloc,
            folder,
            rows,
            replaced,
            emptied,
            &rows[i],
            candidates[i],
        )?;
        emptied[i] = gone;
    }
    Ok(())
}

// Whether the directory at the row's path is emptied, where it is a candidate or not, by the marks of the rows of its children.
fn ask_at<F: Folder>(
    alloc: Global,
    folder: &mut F,
    rows: &[Row<'_>],
    replaced: &[bool],
    emptied: &[bool],
    row: &Row<'_>,
    candidate: bool,
) -> Result<bool, Or<Failed>>
    requires order { IsStrictlySortedBy (slice_cmp nat_cmp) (row_paths rows.now) }
    requires looked { IsTrue (F.outside.tells folder.old) → HasLooked (F.outside.state folder.old).held row.now }
    requires replaced { length replaced.now ≡ length rows.now }
    requires emptied { length emptied.now ≡ length rows.now }
    ensures found { IsTrue (F.outside.tells folder.old) → IfOk result (IsAnswer (F.outside.state folder.old).held rows.now replaced.now emptied.now row.now candidate) }
    ensures untouched { candidate ≡ false → folder.new ≡ folder.old }
    ensures reads { Reads F.outside folder.old folder.new (HasFailed result) }
{
    if !candidate {
        return Ok(false);
    }
    if !is_dir(row.stands) {
        return Ok(false);
    }
    let listing = list(alloc, folder, row.path)?;
    if listing.foreign {
        return Ok(false);
    }
    if is_reached(rows, replaced, row.path.bytes()) {
        return Ok(true);
    }
    Ok(all_go(rows, replaced, emptied, listing.names.as_slice()))
}

// Whether a directory stands.
fn is_dir(stands: Stands) -> bool
    ensures { result ≡ is_dir_seen stands }
{
    matches!(stands, Stands::Dir { .. })
}
