//! What stands at a place of the host, on which device, and by which mount.

ghost use Rattle.std.specs.Prelude.{◌≡◌, ◌%◌, ◌↔◌, ◌⊎◌, IfOk, IsTrue, pos};
ghost use Rattle.std.specs.Fs.{metadata_mode, metadata_len, file_type, IsDir, IsFile, IsSymlink};
ghost use Rattle.ips_outside.specs.Outside.{IsSmall};
ghost use Rattle.ips_host.specs.Mounted.{AreSmall, TellsOneMount};
ghost use Rattle.ips_host.specs.declared.fault.Refused.TheVariants.{System};

use crate::fault::{Refused, or_refused};
use crate::standing::mode_of;
use ips_outside::Look;
use std::fs;
use std::fs::{Files, Metadata};
use std::os::unix::fs::MetadataExt;

// The error of a file in use, of Linux.
const EBUSY: i32 = 16;

/// What stands at a place, and on which device.
#[derive(Clone, Copy)]
pub struct Seen {
    pub look: Look,
    pub device: u64,
}

/// What stands at the place, without following a link there, or none. Nothing stands below what is no directory.
pub fn seen_at<R: Files>(rt: &R, place: &str) -> Result<Option<Seen>, Refused>
    ensures { IfOk result AreSmall }
{
    match or_refused(fs::symlink_metadata(rt, place)) {
        Ok(found) => Ok(Some(seen_of(&found))),
        Err(why) => {
            if tells_absence(why) {
                Ok(None)
            } else {
                Err(why)
            }
        }
    }
}

fn seen_of(found: &Metadata) -> Seen
    ensures { IsSmall result.look }
{
    Seen {
        look: look_of(found),
        device: found.dev(),
    }
}

/// Whether the system tells by this error that nothing stands there: ENOENT or ENOTDIR.
pub fn tells_absence(why: Refused) -> bool
    ensures { IsTrue result ↔ ((why ≡ System (pos 2)) ⊎ (why ≡ System (pos 20))) }
{
    match why {
        Refused::System(number) => number == libc::ENOENT || number == libc::ENOTDIR,
        _ => false,
    }
}

/// The device of the directory to which a path leads, by links too.
pub fn device_behind<R: Files>(rt: &R, path: &str) -> Result<u64, Refused> {
    match or_refused(fs::metadata(rt, path)) {
        Ok(found) if found.is_dir() => Ok(found.dev()),
        Ok(_) => Err(Refused::System(libc::ENOTDIR)),
        Err(why) => Err(why),
    }
}

/// No fault where both paths, each a directory's with `/.` behind it, are there by one mount: no file gets a further name by another,
/// though the device is the same. A rename of such a path is refused by every system, and by that of another mount before all else.
pub fn one_mount<R: Files>(rt: &R, root: &str, dir: &str) -> Result<(), Refused> {
    match or_refused(fs::rename(rt, root, dir)) {
        Err(why) => {
            if tells_one_mount(why) {
                Ok(())
            } else {
                Err(why)
            }
        }
        Ok(()) => Err(Refused::Unnumbered),
    }
}

// EBUSY or EINVAL.
fn tells_one_mount(why: Refused) -> bool
    ensures { IsTrue result ↔ TellsOneMount why }
{
    match why {
        Refused::System(number) => number == EBUSY || number == libc::EINVAL,
        _ => false,
    }
}

// What a look answers where this stands.
fn look_of(metadata: &Metadata) -> Look
    ensures dir { IsDir (file_type metadata.now) → result ≡ Look.Dir (metadata_mode metadata.now % 4096) }
    ensures file { IsFile (file_type metadata.now) → result ≡ Look.File (metadata_mode metadata.now % 4096) (metadata_len metadata.now) }
    ensures link { IsSymlink (file_type metadata.now) → result ≡ Look.Link }
    ensures other { (IsDir (file_type metadata.now) → ⊥) → (IsFile (file_type metadata.now) → ⊥) → (IsSymlink (file_type metadata.now) → ⊥) → result ≡ Look.Other }
    ensures found { result ≡ Look.Absent → ⊥ }
    ensures mode { IsSmall result }
{
    let mode = mode_of(metadata);
    if metadata.is_dir() {
        Look::Dir { mode }
    } else if metadata.is_file() {
        let size = metadata.len();
        Look::File { mode, size }
    } else if metadata.is_symlink() {
        Look::Link
    } else {
        Look::Other
    }
}
