//! All that stands at or below a path.

ghost use Rattle.std.specs.Prelude.{◌≡◌, IsTrue, OnOk, Some};
ghost use Rattle.ips_text.specs.Ancestry.{covers};
ghost use Rattle.ips_outside.specs.Image.{Dir};
ghost use Rattle.ips_outside.specs.Outside.{Reads};
ghost use Rattle.ips_folder.specs.Listing.{IsListing};
ghost use Rattle.ips_change.specs.content.Failing.{HasFailed};
ghost use Rattle.ips_strays.specs.Strays.{Adds};

use crate::adding::add;
use crate::finding::link_at;
use ips_change::content::look_at;
use ips_folder::{Folder, ListFault, Listing};
use ips_found::{Found, Thing};
use ips_outside::{Failed, Look};
use ips_text::{Or, RelPath};
use std::alloc::Global;

/// Adds what stands at the path and all that stands below it.
#[cycle(walk)]
pub fn gather<F: Folder>(
    alloc: Global,
    folder: &mut F,
    path: &RelPath,
    strays: &mut Vec<Thing>,
) -> Result<(), Or<Failed>>
    ensures found { IsTrue (F.outside.tells folder.old) → OnOk result (Adds (F.outside.state folder.old).held (covers path.now.bytes) strays.old.items strays.new.items) }
    ensures reads { Reads F.outside folder.old folder.new (HasFailed result) }
{
    let found = match look_at(folder, path)? {
        Look::Absent => return Ok(()),
        Look::Dir { mode } => {
            return match folder.list(alloc, path) {
                Ok(listing) => gather_dir(alloc, folder, path, mode, &listing, strays),
                Err(ListFault::Failed) => Err(Or::Bad(Failed)),
                Err(ListFault::OutOfMemory) => Err(Or::OutOfMemory),
            };
        }
        Look::File { mode, .. } => Found::File { mode },
        Look::Link => link_at(alloc, folder, path)?,
        Look::Other => Found::Other,
    };
    add(alloc, path, found, strays)?;
    Ok(())
}

// Adds a directory with this mode and these children, and all that stands below it. A child has a longer path.
#[cycle(walk)]
fn gather_dir<F: Folder>(
    alloc: Global,
    folder: &mut F,
    dir: &RelPath,
    mode: u16,
    listing: &Listing,
    strays: &mut Vec<Thing>,
) -> Result<(), Or<Failed>>
    requires listing { IsTrue (F.outside.tells folder.old) → IsListing (F.outside.state folder.old).held dir.now.bytes listing.now }
    requires stands { IsTrue (F.outside.tells folder.old) → (F.outside.state folder.old).held.look dir.now.bytes ≡ Some (Dir mode listing.now.foreign) }
    ensures found { IsTrue (F.outside.tells folder.old) → OnOk result (Adds (F.outside.state folder.old).held (covers dir.now.bytes) strays.old.items strays.new.items) }
    ensures reads { Reads F.outside folder.old folder.new (HasFailed result) }
{
    let found = Found::Dir {
        mode,
        foreign: listing.foreign,
    };
    add(alloc, dir, found, strays)?;
    let children = listing.names.as_slice();
    for child in children {
        if child.bytes().len() > dir.bytes().len() {
            gather(alloc, folder, child, strays)?;
        }
    }
    Ok(())
}
