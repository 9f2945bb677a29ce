//! What becomes of a path, and where something goes or is replaced.

ghost use Rattle.std.specs.Prelude.{◌≡◌, ◌<◌, ℕ, IfOk, List, Option, Some, length, slice_get};
ghost use Rattle.std.specs.List.{AllByRecursion};
ghost use Rattle.std.specs.List.Sorted.{IsStrictlySortedBy};
ghost use Rattle.std.specs.Ordering.{nat_cmp};
ghost use Rattle.std.specs.Cmp.Lexicographic.{slice_cmp};
ghost use Rattle.ips_outside.specs.Image.{Image};
ghost use Rattle.ips_after.specs.Change as outcome;
ghost use Rattle.ips_after.specs.Request.{IsRequest, Request};
ghost use Rattle.ips_change.specs.Told.{change_told};
ghost use Rattle.ips_change.specs.declared.survey.said.Said as saying;
ghost use Rattle.ips_change.specs.survey.Rows.{IsRowOf};
ghost use Rattle.ips_change.specs.survey.Marks.{row_paths};
ghost use Rattle.ips_change.specs.survey.Tables.{IsTable};
ghost use Rattle.ips_emptied.specs.Joining.{HasAll, SettlesRows};
ghost use Rattle.ips_account_files.specs.ledger.Left.{AreReplaced, FitsFile, IsSilent, changes_by};

use ips_change::Change;
use ips_change::survey::{Row, place};
use ips_emptied::Settled;
use std::alloc::{AllocError, Global};

/// The marks of the rows at which what stands goes or is replaced, where nothing is said of any path.
pub fn replaced<'a>(
    alloc: Global,
    rows: &[Row<'a>],
    settled: &Settled<'a>,
) -> Result<Vec<bool>, AllocError>
    requires settled { HasAll rows.now settled.now }
    ensures long { IfOk result (λ marks. length marks.items ≡ length rows.now) }
    ensures marks { IfOk result (λ marks. (r : Request) (t : Image) (said : List (Option saying.Said)) → IsRequest r → IsTable r rows.now said → IsSilent r → SettlesRows r t rows.now settled.now
        → AreReplaced r t rows.now settled.now marks.items) }
{
    let mut marks = Vec::with_capacity(alloc, rows.len())?;
    for i in 0..rows.len() {
        marks.push(is_replacing(settled_at(rows, settled, i)))?;
    }
    Ok(marks)
}

/// Whether what stands at a path goes or is replaced where this becomes of it.
pub(crate) fn is_replacing(change: Change<'_>) -> bool
    ensures { (bytes : List ℕ → List ℕ) → result ≡ outcome.replaces (change_told bytes change.entry) }
{
    !matches!(change, Change::Kept | Change::Mode { .. })
}

/// What becomes of the path of a row, where nothing is said of any path.
pub(crate) fn settled_at<'a>(rows: &[Row<'a>], settled: &Settled<'a>, i: usize) -> Change<'a>
    requires within { i < length rows.now }
    requires settled { HasAll rows.now settled.now }
    ensures told { (r : Request) (t : Image) (p : List ℕ) → IsSilent r → SettlesRows r t rows.now settled.now → slice_get (row_paths rows.now) i ≡ Some p
        → change_told r.bytes result ≡ changes_by r t rows.now settled.now p }
    ensures fits { (r : Request) (p : List ℕ) → AllByRecursion (IsRowOf r) rows.now → slice_get (row_paths rows.now) i ≡ Some p → FitsFile (r.new.at p) result }
{
    if settled.emptied[i] {
        Change::Removed
    } else {
        settled.changes[i]
    }
}

/// What becomes of the path, where nothing is said of any path.
pub(crate) fn change_at<'a>(rows: &[Row<'a>], settled: &Settled<'a>, path: &[u8]) -> Change<'a>
    requires order { IsStrictlySortedBy (slice_cmp nat_cmp) (row_paths rows.now) }
    requires settled { HasAll rows.now settled.now }
    ensures told { (r : Request) (t : Image) (said : List (Option saying.Said)) → IsRequest r → IsTable r rows.now said → IsSilent r → SettlesRows r t rows.now settled.now
        → change_told r.bytes result ≡ changes_by r t rows.now settled.now path.now }
    ensures fits { (r : Request) → AllByRecursion (IsRowOf r) rows.now → FitsFile (r.new.at path.now) result }
{
    match place(rows, path) {
        Some(i) => settled_at(rows, settled, i),
        None => Change::Kept,
    }
}
