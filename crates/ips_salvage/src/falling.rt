//! What goes with something that is destroyed.

ghost use Rattle.std.specs.Prelude.{◌≡◌, IfOk, length, map};
ghost use Rattle.std.specs.List.{AllByRecursion};
ghost use Rattle.std.specs.List.Sorted.{IsStrictlySortedBy};
ghost use Rattle.std.specs.Ordering.{nat_cmp};
ghost use Rattle.std.specs.Cmp.Lexicographic.{slice_cmp};
ghost use Rattle.ips_outside.specs.Image.{Image};
ghost use Rattle.ips_after.specs.After as after;
ghost use Rattle.ips_after.specs.Request.{Request};
ghost use Rattle.ips_change.specs.Told.{naming};
ghost use Rattle.ips_change.specs.survey.Rows.{HasLooked, IsRowOf};
ghost use Rattle.ips_change.specs.survey.Marks.{IsMarkOf, row_paths};
ghost use Rattle.ips_change.specs.survey.Tables.{IsTable};
ghost use Rattle.ips_salvage.specs.Destroying.{destroys_else, goes_else};

use ips_change::drops_edit;
use ips_change::survey::{Row, Table, is_reached, is_top};
use std::alloc::{AllocError, Global};

/// At each row whether what stands at its path goes with something that is destroyed, as these marks say, or with a directory with a stated mode, or
/// is an edit that goes.
pub fn going(alloc: Global, table: &Table<'_>, destroyed: &[bool]) -> Result<Vec<bool>, AllocError>
    requires order { IsStrictlySortedBy (slice_cmp nat_cmp) (row_paths table.now.rows.items) }
    requires destroyed { length destroyed.now ≡ length table.now.rows.items }
    ensures long { IfOk result (λ going. length going.items ≡ length table.now.rows.items) }
    ensures told { IfOk result (λ going. (r : Request) (t : Image) → IsTable r table.now.rows.items table.now.said.items → AllByRecursion (HasLooked t) table.now.rows.items
        → IsMarkOf (destroys_else (naming r) t) (row_paths table.now.rows.items) destroyed.now
        → going.items ≡ map (goes_else (naming r) t) (row_paths table.now.rows.items)) }
{
    let tops = marked_tops(alloc, table)?;
    let mut going = Vec::with_capacity(alloc, table.rows.len())?;
    for i in 0..table.rows.len() {
        going.push(goes(&table.rows, destroyed, &tops, &table.rows[i]))?;
    }
    Ok(going)
}

// The marks of the rows at which a directory with a stated mode goes.
fn marked_tops(alloc: Global, table: &Table<'_>) -> Result<Vec<bool>, AllocError>
    ensures long { IfOk result (λ marks. length marks.items ≡ length table.now.rows.items) }
    ensures marks { IfOk result (λ marks. (r : Request) (t : Image) → IsTable r table.now.rows.items table.now.said.items → AllByRecursion (HasLooked t) table.now.rows.items
        → IsMarkOf (after.is_top (naming r) t) (row_paths table.now.rows.items) marks.items) }
{
    let mut marks = Vec::with_capacity(alloc, table.rows.len())?;
    for i in 0..table.rows.len() {
        marks.push(is_top(&table.rows[i]))?;
    }
    Ok(marks)
}

// Whether what stands at the row's path goes with something so marked, or is an edit that goes.
fn goes(rows: &[Row<'_>], destroyed: &[bool], tops: &[bool], row: &Row<'_>) -> bool
    requires order { IsStrictlySortedBy (slice_cmp nat_cmp) (row_paths rows.now) }
    requires destroyed { length destroyed.now ≡ length rows.now }
    requires tops { length tops.now ≡ length rows.now }
    ensures { (r : Request) (t : Image) → IsRowOf r row.now → HasLooked t row.now → IsMarkOf (destroys_else (naming r) t) (row_paths rows.now) destroyed.now → IsMarkOf (after.is_top (naming r) t) (row_paths rows.now) tops.now
        → result ≡ goes_else (naming r) t row.now.path.now.bytes }
{
    let path = row.path.bytes();
    is_reached(rows, destroyed, path)
        || is_reached(rows, tops, path)
        || drops_edit(row.old, row.new, row.stands)
}
