//! Marks at or above a path.

ghost use Rattle.std.specs.Prelude.{◌≡◌, ℕ, Bool, false, List, length, map};
ghost use Rattle.std.specs.List.Sorted.{IsStrictlySortedBy};
ghost use Rattle.std.specs.Ordering.{nat_cmp};
ghost use Rattle.std.specs.Cmp.Lexicographic.{slice_cmp};
ghost use Rattle.ips_after.specs.Change.{reached};
ghost use Rattle.ips_after.specs.Lists.{listed};
ghost use Rattle.ips_change.specs.survey.Marks.{IsMarkOf, row_paths};

use crate::survey::placing::place;
use crate::survey::row::Row;
use ips_text::parent;

/// Whether a mark stands at the path or at one above it.
pub fn is_reached(rows: &[Row<'_>], marks: &[bool], path: &[u8]) -> bool
    requires order { IsStrictlySortedBy (slice_cmp nat_cmp) (row_paths rows.now) }
    requires marks { length marks.now ≡ length rows.now }
    ensures { (test : List ℕ → Bool) → IsMarkOf test (row_paths rows.now) marks.now → result ≡ reached test path.now }
{
    if is_marked(rows, marks, path) {
        return true;
    }
    let mut at = path;
    while let Some(dir) = parent(at) {
        if is_marked(rows, marks, dir) {
            return true;
        }
        at = dir;
    }
    false
}

/// Whether a mark stands at the path.
pub fn is_marked(rows: &[Row<'_>], marks: &[bool], path: &[u8]) -> bool
    requires order { IsStrictlySortedBy (slice_cmp nat_cmp) (row_paths rows.now) }
    requires marks { length marks.now ≡ length rows.now }
    ensures { (test : List ℕ → Bool) → IsMarkOf test (row_paths rows.now) marks.now → result ≡ test path.now }
{
    match place(rows, path) {
        Some(i) => marks[i],
        None => false,
    }
}
