//! Marks below paths.

ghost use Rattle.std.specs.Prelude.{◌≡◌, ℕ, Bool, false, ◌||◌, ◌&&◌, IfOk, List, length, map};
ghost use Rattle.std.specs.List.Sorted.{IsStrictlySortedBy};
ghost use Rattle.std.specs.Ordering.{nat_cmp};
ghost use Rattle.std.specs.Cmp.Lexicographic.{slice_cmp};
ghost use Rattle.ips_text.specs.Ancestry.{is_below, same_path};
ghost use Rattle.ips_change.specs.survey.Marks.{IsMarkOf, holds_below, row_paths};

use crate::survey::placing::place;
use crate::survey::row::Row;
use ips_text::parent;
use std::alloc::{AllocError, Global};

/// At each row whether a mark stands below its path.
pub fn marked_below(
    alloc: Global,
    rows: &[Row<'_>],
    marks: &[bool],
) -> Result<Vec<bool>, AllocError>
    requires order { IsStrictlySortedBy (slice_cmp nat_cmp) (row_paths rows.now) }
    requires marks { length marks.now ≡ length rows.now }
    ensures long { IfOk result (λ found. length found.items ≡ length rows.now) }
    ensures below { IfOk result (λ found. (test : List ℕ → Bool) → IsMarkOf test (row_paths rows.now) marks.now → found.items ≡ map (holds_below test (row_paths rows.now)) (row_paths rows.now)) }
{
    let mut found = vec![in alloc; false; rows.len()]?;
    mark_all(rows, marks, &mut found);
    Ok(found)
}

// Marks the rows above each path that is marked, where none is yet.
fn mark_all(rows: &[Row<'_>], marks: &[bool], found: &mut [bool])
    requires order { IsStrictlySortedBy (slice_cmp nat_cmp) (row_paths rows.now) }
    requires marks { length marks.now ≡ length rows.now }
    requires found { length found.old ≡ length rows.now }
    requires none { found.old ≡ map (λ p. false) (row_paths rows.now) }
    ensures { (test : List ℕ → Bool) → IsMarkOf test (row_paths rows.now) marks.now → found.new ≡ map (holds_below test (row_paths rows.now)) (row_paths rows.now) }
{
    for i in 0..rows.len() {
        add(rows, found, rows[i].path.bytes(), marks[i]);
    }
}

// Marks the rows above the path, if that is marked.
fn add(rows: &[Row<'_>], found: &mut [bool], path: &[u8], marked: bool)
    requires order { IsStrictlySortedBy (slice_cmp nat_cmp) (row_paths rows.now) }
    requires found { length found.old ≡ length rows.now }
    ensures { (test : List ℕ → Bool) → found.old ≡ map test (row_paths rows.now) → found.new ≡ map (λ p. test p || (is_below p path.now && marked)) (row_paths rows.now) }
{
    if marked {
        mark_above(rows, found, path);
    }
}

// Marks the rows above the path.
fn mark_above(rows: &[Row<'_>], found: &mut [bool], path: &[u8])
    requires order { IsStrictlySortedBy (slice_cmp nat_cmp) (row_paths rows.now) }
    requires found { length found.old ≡ length rows.now }
    ensures { (test : List ℕ → Bool) → found.old ≡ map test (row_paths rows.now) → found.new ≡ map (λ p. test p || is_below p path.now) (row_paths rows.now) }
{
    let mut at = path;
    while let Some(dir) = parent(at) {
        mark(rows, found, dir);
        at = dir;
    }
}

/// Marks the row of the path, if it has one.
pub fn mark(rows: &[Row<'_>], found: &mut [bool], path: &[u8])
    requires order { IsStrictlySortedBy (slice_cmp nat_cmp) (row_paths rows.now) }
    requires found { length found.old ≡ length rows.now }
    ensures { (test : List ℕ → Bool) → found.old ≡ map test (row_paths rows.now) → found.new ≡ map (λ p. test p || same_path p path.now) (row_paths rows.now) }
{
    if let Some(i) = place(rows, path) {
        found[i] = true;
    }
}
