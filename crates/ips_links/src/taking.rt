//! The directories that go.

ghost use Rattle.std.specs.Prelude.{◌≡◌, ◌||◌, IfOk, length, map, is_some};
ghost use Rattle.std.specs.List.{AllByRecursion};
ghost use Rattle.std.specs.List.Sorted.{IsStrictlySortedBy};
ghost use Rattle.std.specs.Ordering.{nat_cmp};
ghost use Rattle.std.specs.Cmp.Lexicographic.{slice_cmp};
ghost use Rattle.ips_outside.specs.Image.{Image};
ghost use Rattle.ips_after.specs.After as after;
ghost use Rattle.ips_after.specs.Request.{Request};
ghost use Rattle.ips_change.specs.Told.{naming};
ghost use Rattle.ips_change.specs.survey.Rows.{HasLooked, IsRowOf};
ghost use Rattle.ips_change.specs.survey.Marks.{IsMarkOf, row_paths};
ghost use Rattle.ips_change.specs.survey.Tables.{IsTable};
ghost use Rattle.ips_links.specs.Supporting.{begins_taken};

use ips_change::survey::{Row, Said, Table, is_reached, is_top};
use std::alloc::{AllocError, Global};

/// At each row whether a directory that stands there goes: at or above its path one with a stated mode does, or account files and
/// records speak of it.
pub fn taken(alloc: Global, table: &Table<'_>) -> Result<Vec<bool>, AllocError>
    requires order { IsStrictlySortedBy (slice_cmp nat_cmp) (row_paths table.now.rows.items) }
    requires said { length table.now.said.items ≡ length table.now.rows.items }
    ensures long { IfOk result (λ taken. length taken.items ≡ length table.now.rows.items) }
    ensures told { IfOk result (λ taken. (r : Request) (t : Image) → IsTable r table.now.rows.items table.now.said.items → AllByRecursion (HasLooked t) table.now.rows.items
        → taken.items ≡ map (after.is_taken (naming r) t) (row_paths table.now.rows.items)) }
{
    let marks = starts(alloc, table)?;
    let mut taken = Vec::with_capacity(alloc, table.rows.len())?;
    for i in 0..table.rows.len() {
        taken.push(is_reached(&table.rows, &marks, table.rows[i].path.bytes()))?;
    }
    Ok(taken)
}

// The marks of the rows at which a directory with a stated mode goes, or of which account files and records speak.
fn starts(alloc: Global, table: &Table<'_>) -> Result<Vec<bool>, AllocError>
    requires said { length table.now.said.items ≡ length table.now.rows.items }
    ensures long { IfOk result (λ marks. length marks.items ≡ length table.now.rows.items) }
    ensures marks { IfOk result (λ marks. (r : Request) (t : Image) → IsTable r table.now.rows.items table.now.said.items → AllByRecursion (HasLooked t) table.now.rows.items
        → IsMarkOf (begins_taken (naming r) t) (row_paths table.now.rows.items) marks.items) }
{
    let mut marks = Vec::with_capacity(alloc, table.rows.len())?;
    for i in 0..table.rows.len() {
        marks.push(is_start(&table.rows[i], table.said[i]))?;
    }
    Ok(marks)
}

// Whether a directory with a stated mode goes at the row's path, or account files and records speak of it.
fn is_start(row: &Row<'_>, said: Option<Said>) -> bool
    ensures { (r : Request) (t : Image) → IsRowOf r row.now → HasLooked t row.now → result ≡ (after.is_top r t row.now.path.now.bytes || is_some said) }
{
    is_top(row) || said.is_some()
}
