//! The row of a path.

ghost use Rattle.std.specs.Prelude.{◌≡◌, ◌<◌, false, Some, IfNone, IfSome, length, slice_get};
ghost use Rattle.std.specs.List.Sorted.{IsStrictlySortedBy};
ghost use Rattle.std.specs.Ordering.{nat_cmp};
ghost use Rattle.std.specs.Cmp.Lexicographic.{slice_cmp};
ghost use Rattle.ips_after.specs.Lists.{listed};
ghost use Rattle.ips_change.specs.survey.Marks.{row_paths};

use crate::survey::row::Row;
use std::cmp::Ordering;

/// The place of a path among rows in the order of their paths, where it has one.
pub fn place(rows: &[Row<'_>], path: &[u8]) -> Option<usize>
    requires { IsStrictlySortedBy (slice_cmp nat_cmp) (row_paths rows.now) }
    ensures within { IfSome result (λ i. i < length rows.now) }
    ensures some { IfSome result (λ i. slice_get (row_paths rows.now) i ≡ Some path.now) }
    ensures none { IfNone result (listed (row_paths rows.now) path.now ≡ false) }
{
    let mut low = 0;
    let mut high = rows.len();
    while low < high {
        let middle = low + (high - low) / 2;
        match compare(&rows[middle], path) {
            Ordering::Less => low = middle + 1,
            Ordering::Equal => return Some(middle),
            Ordering::Greater => high = middle,
        }
    }
    None
}

// How the row's path stands to a path.
fn compare(row: &Row<'_>, path: &[u8]) -> Ordering
    ensures { result ≡ slice_cmp nat_cmp row.now.path.now.bytes path.now }
{
    row.path.bytes().cmp(path)
}
