//! What stands at a path, in full.

ghost use Rattle.std.specs.Prelude.{◌≡◌, false, IsTrue, IfOk, Some};
ghost use Rattle.std.specs.Option.{option_map};
ghost use Rattle.ips_outside.specs.Outside.{Reads, look_of};
ghost use Rattle.ips_outside.specs.declared.outside.Look.TheVariants as look;
ghost use Rattle.ips_change.specs.content.Failing.{HasFailed};
ghost use Rattle.ips_change.specs.survey.Rows.{HasLooked};
ghost use Rattle.ips_found.specs.Found.{found_of, found_told};
ghost use Rattle.ips_strays.specs.Strays.{is_told};

use ips_change::Stands;
use ips_change::content::look_at;
use ips_change::survey::Row;
use ips_folder::{Folder, ListFault};
use ips_found::Found;
use ips_outside::{Failed, Look};
use ips_text::{Or, RelPath};
use std::alloc::Global;

// What stands at the row's path. It calls nothing where the row tells.
pub(crate) fn found_at<F: Folder>(
    alloc: Global,
    folder: &mut F,
    row: &Row<'_>,
) -> Result<Option<Found>, Or<Failed>>
    requires looked { IsTrue (F.outside.tells folder.old) → HasLooked (F.outside.state folder.old).held row.now }
    ensures found { IsTrue (F.outside.tells folder.old) → IfOk result (λ found. option_map found_told found ≡ found_of ((F.outside.state folder.old).held.look row.now.path.now.bytes)) }
    ensures untouched { IsTrue (is_told row.now.stands) → folder.new ≡ folder.old }
    ensures reads { Reads F.outside folder.old folder.new (HasFailed result) }
{
    match row.stands {
        Stands::Unasked => seen_at(alloc, folder, row.path),
        Stands::Absent => Ok(None),
        Stands::Dir { mode } => Ok(Some(dir_at(alloc, folder, row.path, mode)?)),
        Stands::File { mode, .. } => Ok(Some(Found::File { mode })),
        Stands::Link { .. } => Ok(Some(link_at(alloc, folder, row.path)?)),
        Stands::Other => Ok(Some(Found::Other)),
    }
}

// What stands at the path.
fn seen_at<F: Folder>(
    alloc: Global,
    folder: &mut F,
    path: &RelPath,
) -> Result<Option<Found>, Or<Failed>>
    ensures found { IsTrue (F.outside.tells folder.old) → IfOk result (λ found. option_map found_told found ≡ found_of ((F.outside.state folder.old).held.look path.now.bytes)) }
    ensures reads { Reads F.outside folder.old folder.new (HasFailed result) }
{
    match look_at(folder, path)? {
        Look::Absent => Ok(None),
        Look::Dir { mode } => Ok(Some(dir_at(alloc, folder, path, mode)?)),
        Look::File { mode, .. } => Ok(Some(Found::File { mode })),
        Look::Link => Ok(Some(link_at(alloc, folder, path)?)),
        Look::Other => Ok(Some(Found::Other)),
    }
}

// The directory with this mode at the path, which is listed for names that are no paths.
fn dir_at<F: Folder>(
    alloc: Global,
    folder: &mut F,
    path: &RelPath,
    mode: u16,
) -> Result<Found, Or<Failed>>
    requires seen { IsTrue (F.outside.tells folder.old) → look.Dir mode ≡ look_of ((F.outside.state folder.old).held.look path.now.bytes) }
    ensures found { IsTrue (F.outside.tells folder.old) → IfOk result (λ found. Some (found_told found) ≡ found_of ((F.outside.state folder.old).held.look path.now.bytes)) }
    ensures reads { Reads F.outside folder.old folder.new (HasFailed result) }
{
    match folder.list(alloc, path) {
        Ok(listing) => Ok(Found::Dir {
            mode,
            foreign: listing.foreign,
        }),
        Err(ListFault::Failed) => Err(Or::Bad(Failed)),
        Err(ListFault::OutOfMemory) => Err(Or::OutOfMemory),
    }
}

// The symbolic link at the path, with what it says.
pub(crate) fn link_at<F: Folder>(
    alloc: Global,
    folder: &mut F,
    path: &RelPath,
) -> Result<Found, Or<Failed>>
    requires seen { IsTrue (F.outside.tells folder.old) → look.Link ≡ look_of ((F.outside.state folder.old).held.look path.now.bytes) }
    ensures found { IsTrue (F.outside.tells folder.old) → IfOk result (λ found. Some (found_told found) ≡ found_of ((F.outside.state folder.old).held.look path.now.bytes)) }
    ensures reads { Reads F.outside folder.old folder.new (HasFailed result) }
{
    match folder.target(alloc, path) {
        Ok(target) => Ok(Found::Link { target }),
        Err(ListFault::Failed) => Err(Or::Bad(Failed)),
        Err(ListFault::OutOfMemory) => Err(Or::OutOfMemory),
    }
}
