//! Directories with a stated mode that are no longer wanted.

ghost use Rattle.std.specs.Prelude.{◌≡◌, IfOk, map};
ghost use Rattle.std.specs.List.{AllByRecursion};
ghost use Rattle.std.specs.Option.{option_map};
ghost use Rattle.ips_outside.specs.Image.{Image};
ghost use Rattle.ips_after.specs.After as after;
ghost use Rattle.ips_after.specs.Request.{Request};
ghost use Rattle.ips_change.specs.wanted.Wanted.{wanted_of};
ghost use Rattle.ips_change.specs.Stands.{is_dir_seen};
ghost use Rattle.ips_change.specs.survey.Rows.{HasLooked, IsRowOf};
ghost use Rattle.ips_change.specs.survey.Marks.{row_paths};

use crate::Stands;
use crate::survey::row::Row;
use ips_meaning::Entry;
use std::alloc::{AllocError, Global};

/// The marks of the rows at which a directory with a stated mode is no longer wanted and stands.
pub fn tops(alloc: Global, rows: &[Row<'_>]) -> Result<Vec<bool>, AllocError>
    ensures { IfOk result (λ marks. (r : Request) (t : Image) → AllByRecursion (IsRowOf r) rows.now → AllByRecursion (HasLooked t) rows.now → marks.items ≡ map (after.is_top r t) (row_paths rows.now)) }
{
    let mut marks = Vec::with_capacity(alloc, rows.len())?;
    for row in rows {
        marks.push(is_top(row))?;
    }
    Ok(marks)
}

/// Whether a directory with a stated mode is no longer wanted at the row's path, and a directory stands there.
pub fn is_top(row: &Row<'_>) -> bool
    ensures { (r : Request) (t : Image) → IsRowOf r row.now → HasLooked t row.now → result ≡ after.is_top r t row.now.path.now.bytes }
{
    row.new.is_none() && is_stated(row.old) && is_dir(row.stands)
}

// Whether a directory with a stated mode was wanted.
fn is_stated(old: Option<&Entry>) -> bool
    ensures { result ≡ after.is_stated (option_map (λ x. wanted_of x.now) old.entry) }
{
    match old {
        Some(Entry::Dir { mode }) => mode.is_some(),
        _ => false,
    }
}

// Whether a directory stands.
fn is_dir(stands: Stands) -> bool
    ensures { result ≡ is_dir_seen stands }
{
    matches!(stands, Stands::Dir { .. })
}
