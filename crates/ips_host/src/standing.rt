//! Permission bits, and whether two files are one.

ghost use Rattle.std.specs.Prelude.{◌≡◌, ◌%◌, ◌↔◌, Ok, IfOk, IsOk, IsTrue};
ghost use Rattle.std.specs.Fs.{metadata_mode};
ghost use Rattle.ips_host.specs.Modes.{HasMode, Shows};

use crate::fault::{Refused, or_refused};
use std::fs;
use std::fs::{Files, Metadata, OpenFile, Permissions};
use std::os::unix::fs::{MetadataExt, PermissionsExt};

/// The permission bits, with those for setuid, setgid and sticky.
pub fn mode_of(metadata: &Metadata) -> u16
    ensures { result ≡ metadata_mode metadata.now % 4096 }
{
    (metadata.mode() % 0o10000) as u16
}

/// What was found, and no fault, just where its mode is this one, with each of its bits.
pub fn confirmed(found: Result<Metadata, Refused>, mode: u16) -> Result<Metadata, Refused>
    ensures exact { IsOk result ↔ Shows found mode }
    ensures same { IfOk result (λ it. found ≡ Ok it) }
    ensures mode { IfOk result (λ it. HasMode it mode) }
{
    match found {
        Ok(it) => {
            if mode_of(&it) == mode {
                Ok(it)
            } else {
                Err(Refused::Mode)
            }
        }
        Err(e) => Err(e),
    }
}

/// What stands at the place, where that has just this mode. No link is followed there.
pub fn found_with<R: Files>(rt: &R, place: &str, mode: u16) -> Result<Metadata, Refused>
    ensures { IfOk result (λ it. HasMode it mode) }
{
    confirmed(or_refused(fs::symlink_metadata(rt, place)), mode)
}

/// The open file, where it has just this mode.
pub fn open_with<F: OpenFile>(file: &F, mode: u16) -> Result<Metadata, Refused>
    ensures { IfOk result (λ it. HasMode it mode) }
{
    confirmed(or_refused(file.metadata()), mode)
}

/// Gives what stands at the place this mode. A link would be followed there.
pub fn give_mode<R: Files>(rt: &R, place: &str, mode: u16) -> Result<(), Refused> {
    let permissions = Permissions::from_mode(u32::from(mode));
    or_refused(fs::set_permissions(rt, place, permissions))
}

/// Gives the open file this mode.
pub fn give_open_mode<F: OpenFile>(file: &F, mode: u16) -> Result<(), Refused> {
    let permissions = Permissions::from_mode(u32::from(mode));
    or_refused(file.set_permissions(permissions))
}

/// A file of the host, whatever its names.
#[derive(Clone, Copy)]
pub struct Node {
    pub device: u64,
    pub number: u64,
}

/// The file at the place.
pub fn node_at<R: Files>(rt: &R, place: &str) -> Result<Node, Refused> {
    let metadata = fs::symlink_metadata(rt, place)?;
    if metadata.is_file() {
        let (device, number) = (metadata.dev(), metadata.ino());
        Ok(Node { device, number })
    } else {
        Err(Refused::Unfit)
    }
}

/// Whether two files are one: the same node of the same device.
pub fn is_one(a: Node, b: Node) -> bool
    ensures { IsTrue result ↔ (a ≡ b) }
{
    a.device == b.device && a.number == b.number
}
