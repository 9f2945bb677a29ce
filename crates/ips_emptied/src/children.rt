//! The children of a directory, and whether they go.

ghost use Rattle.std.specs.Prelude.{◌≡◌, ℕ, ◌||◌, IsTrue, IfOk, List, length, map};
ghost use Rattle.std.specs.List.{list_all};
ghost use Rattle.std.specs.List.Sorted.{IsStrictlySortedBy};
ghost use Rattle.std.specs.Ordering.{nat_cmp};
ghost use Rattle.std.specs.Cmp.Lexicographic.{slice_cmp};
ghost use Rattle.ips_outside.specs.Image.{is_dir};
ghost use Rattle.ips_outside.specs.Outside.{Reads};
ghost use Rattle.ips_folder.specs.Listing.{IsListing};
ghost use Rattle.ips_change.specs.content.Failing.{HasFailed};
ghost use Rattle.ips_change.specs.survey.Marks.{row_paths};
ghost use Rattle.ips_emptied.specs.Emptying.{goes_by};

use ips_change::survey::{Row, is_marked};
use ips_folder::{Folder, ListFault, Listing};
use ips_outside::Failed;
use ips_text::{Or, RelPath};
use std::alloc::Global;

/// The children of a directory.
pub(crate) fn list<F: Folder>(
    alloc: Global,
    folder: &mut F,
    dir: &RelPath,
) -> Result<Listing, Or<Failed>>
    requires { IsTrue (F.outside.tells folder.old) → IsTrue (is_dir ((F.outside.state folder.old).held.look dir.now.bytes)) }
    ensures found { IsTrue (F.outside.tells folder.old) → IfOk result (IsListing (F.outside.state folder.old).held dir.now.bytes) }
    ensures reads { Reads F.outside folder.old folder.new (HasFailed result) }
{
    match folder.list(alloc, dir) {
        Ok(listing) => Ok(listing),
        Err(ListFault::Failed) => Err(Or::Bad(Failed)),
        Err(ListFault::OutOfMemory) => Err(Or::OutOfMemory),
    }
}

/// Whether all these children go: each is removed or replaced, or is itself emptied, as the marks of its row say.
pub(crate) fn all_go(
    rows: &[Row<'_>],
    replaced: &[bool],
    emptied: &[bool],
    children: &[RelPath],
) -> bool
    requires order { IsStrictlySortedBy (slice_cmp nat_cmp) (row_paths rows.now) }
    requires replaced { length replaced.now ≡ length rows.now }
    requires emptied { length emptied.now ≡ length rows.now }
    ensures { result ≡ list_all (goes_by (row_paths rows.now) replaced.now emptied.now) (map (λ p. p.bytes) children.now) }
{
    for i in 0..children.len() {
        if !goes(rows, replaced, emptied, children[i].bytes()) {
            return false;
        }
    }
    true
}

// Whether the child goes.
fn goes(rows: &[Row<'_>], replaced: &[bool], emptied: &[bool], child: &[u8]) -> bool
    requires order { IsStrictlySortedBy (slice_cmp nat_cmp) (row_paths rows.now) }
    requires replaced { length replaced.now ≡ length rows.now }
    requires emptied { length emptied.now ≡ length rows.now }
    ensures { result ≡ goes_by (row_paths rows.now) replaced.now emptied.now child.now }
{
    is_marked(rows, replaced, child) || is_marked(rows, emptied, child)
}
