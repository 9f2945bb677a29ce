//! What stands below a row without a row of its own.

ghost use Rattle.std.specs.Prelude.{◌≡◌, false, not, ◌&&◌, IsTrue, OnOk};
ghost use Rattle.std.specs.List.{list_any};
ghost use Rattle.std.specs.List.Sorted.{IsStrictlySortedBy};
ghost use Rattle.std.specs.Ordering.{nat_cmp};
ghost use Rattle.std.specs.Cmp.Lexicographic.{slice_cmp};
ghost use Rattle.ips_text.specs.Ancestry.{covers};
ghost use Rattle.ips_outside.specs.Outside.{Reads};
ghost use Rattle.ips_outside.specs.Children.{path_bytes};
ghost use Rattle.ips_after.specs.Lists.{listed};
ghost use Rattle.ips_change.specs.content.Failing.{HasFailed};
ghost use Rattle.ips_change.specs.survey.Rows.{HasLooked};
ghost use Rattle.ips_change.specs.survey.Marks.{row_paths};
ghost use Rattle.ips_strays.specs.Strays.{Adds, hangs};

use crate::gathering::gather;
use ips_change::survey::{Row, is_dir_at, place};
use ips_folder::{Folder, ListFault};
use ips_found::Thing;
use ips_outside::Failed;
use ips_text::{Or, RelPath};
use std::alloc::Global;

// Adds what stands at or below each child without a row of the directory at the row's path.
pub(crate) fn gather_below<F: Folder>(
    alloc: Global,
    folder: &mut F,
    rows: &[Row<'_>],
    row: &Row<'_>,
    strays: &mut Vec<Thing>,
) -> Result<(), Or<Failed>>
    requires order { IsStrictlySortedBy (slice_cmp nat_cmp) (row_paths rows.now) }
    requires looked { IsTrue (F.outside.tells folder.old) → HasLooked (F.outside.state folder.old).held row.now }
    ensures found { IsTrue (F.outside.tells folder.old) → OnOk result (Adds (F.outside.state folder.old).held (hangs (row_paths rows.now) row.now.path.now.bytes) strays.old.items strays.new.items) }
    ensures reads { Reads F.outside folder.old folder.new (HasFailed result) }
{
    if !is_dir_at(folder, row)? {
        return Ok(());
    }
    match folder.list(alloc, row.path) {
        Ok(listing) => gather_bare(alloc, folder, rows, listing.names.as_slice(), strays),
        Err(ListFault::Failed) => Err(Or::Bad(Failed)),
        Err(ListFault::OutOfMemory) => Err(Or::OutOfMemory),
    }
}

// Adds what stands at or below those of these paths that have no row.
fn gather_bare<F: Folder>(
    alloc: Global,
    folder: &mut F,
    rows: &[Row<'_>],
    paths: &[RelPath],
    strays: &mut Vec<Thing>,
) -> Result<(), Or<Failed>>
    requires order { IsStrictlySortedBy (slice_cmp nat_cmp) (row_paths rows.now) }
    ensures found { IsTrue (F.outside.tells folder.old)
        → OnOk result (Adds (F.outside.state folder.old).held (λ q. list_any (λ c. not (listed (row_paths rows.now) c) && covers c q) (path_bytes paths.now)) strays.old.items strays.new.items) }
    ensures reads { Reads F.outside folder.old folder.new (HasFailed result) }
{
    for path in paths {
        if !has_row(rows, path) {
            gather(alloc, folder, path, strays)?;
        }
    }
    Ok(())
}

// Whether the path has a row.
fn has_row(rows: &[Row<'_>], path: &RelPath) -> bool
    requires { IsStrictlySortedBy (slice_cmp nat_cmp) (row_paths rows.now) }
    ensures { result ≡ listed (row_paths rows.now) path.now.bytes }
{
    place(rows, path.bytes()).is_some()
}
