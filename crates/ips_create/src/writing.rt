//! Texts written to their places.

ghost use Rattle.std.specs.Prelude.{◌≡◌, ◌≤◌, Some, IsTrue, IsErr, OnOk};
ghost use Rattle.ips_text.specs.Ancestry.{covers};
ghost use Rattle.ips_outside.specs.Image.{File, has_parent};
ghost use Rattle.ips_outside.specs.State.{IsSettled, nowhere};
ghost use Rattle.ips_outside.specs.Outside.{HasCause, Rose};
ghost use Rattle.ips_folder.specs.Calls.{ChangesOnly};
ghost use Rattle.ips_contents.specs.Contents.{HoldsAlone};

use ips_folder::Folder;
use ips_outside::{Failed, Source};
use ips_text::RelPath;

/// Puts a file of mode 0644 with these bytes at the path, in a directory that stands, in place of what stands there; and makes all safe.
pub(crate) fn write_safe<F: Folder>(
    folder: &mut F,
    path: &RelPath,
    bytes: &[u8],
) -> Result<(), Failed>
    requires { IsTrue (F.outside.tells folder.old) → IsTrue (has_parent (F.outside.state folder.old).held path.now.bytes) }
    ensures written { IsTrue (F.outside.tells folder.old) → OnOk result ((F.outside.state folder.new).held.look path.now.bytes ≡ Some (File 420 bytes.now)) }
    ensures safe { IsTrue (F.outside.tells folder.old) → OnOk result (IsSettled (F.outside.state folder.new)) }
    ensures any_moment { IsTrue (F.outside.tells folder.old) → ChangesOnly F.outside (covers path.now.bytes) (covers path.now.bytes) folder.old folder.new }
    ensures made { Rose (F.outside.changes folder.old) (F.outside.changes folder.new) }
    ensures cause { HasCause (F.outside.faults folder.old) (F.outside.faults folder.new) (IsErr result) }
    ensures same_kind { F.outside.tells folder.new ≡ F.outside.tells folder.old }
    ensures changes { F.outside.changes folder.old ≤ F.outside.changes folder.new }
{
    match write_text(folder, path, bytes) {
        Ok(()) => {}
        Err(Failed) => return Err(Failed),
    }
    match folder.sync() {
        Ok(()) => Ok(()),
        Err(Failed) => Err(Failed),
    }
}

// The same, not yet safe.
fn write_text<F: Folder>(folder: &mut F, path: &RelPath, bytes: &[u8]) -> Result<(), Failed>
    requires { IsTrue (F.outside.tells folder.old) → IsTrue (has_parent (F.outside.state folder.old).held path.now.bytes) }
    ensures written { IsTrue (F.outside.tells folder.old) → OnOk result ((F.outside.state folder.new).held.look path.now.bytes ≡ Some (File 420 bytes.now)) }
    ensures any_moment { IsTrue (F.outside.tells folder.old) → ChangesOnly F.outside (covers path.now.bytes) (covers path.now.bytes) folder.old folder.new }
    ensures made { Rose (F.outside.changes folder.old) (F.outside.changes folder.new) }
    ensures cause { HasCause (F.outside.faults folder.old) (F.outside.faults folder.new) (IsErr result) }
    ensures same_kind { F.outside.tells folder.new ≡ F.outside.tells folder.old }
    ensures changes { F.outside.changes folder.old ≤ F.outside.changes folder.new }
{
    match make_filled(folder, path, bytes) {
        Ok(()) => {}
        Err(Failed) => return Err(Failed),
    }
    match folder.set_mode(path, 0o644) {
        Ok(()) => Ok(()),
        Err(Failed) => Err(Failed),
    }
}

// Makes a file with these bytes, in place of what stands there.
fn make_filled<F: Folder>(folder: &mut F, path: &RelPath, bytes: &[u8]) -> Result<(), Failed>
    requires { IsTrue (F.outside.tells folder.old) → IsTrue (has_parent (F.outside.state folder.old).held path.now.bytes) }
    ensures filled { IsTrue (F.outside.tells folder.old) → OnOk result (HoldsAlone path.now.bytes 384 bytes.now (F.outside.state folder.new).held) }
    ensures any_moment { IsTrue (F.outside.tells folder.old) → ChangesOnly F.outside (covers path.now.bytes) nowhere folder.old folder.new }
    ensures made { Rose (F.outside.changes folder.old) (F.outside.changes folder.new) }
    ensures cause { HasCause (F.outside.faults folder.old) (F.outside.faults folder.new) (IsErr result) }
    ensures same_kind { F.outside.tells folder.new ≡ F.outside.tells folder.old }
    ensures changes { F.outside.changes folder.old ≤ F.outside.changes folder.new }
{
    match folder.remove(path) {
        Ok(()) => {}
        Err(Failed) => return Err(Failed),
    }
    match folder.make_file(path) {
        Ok(()) => {}
        Err(Failed) => return Err(Failed),
    }
    match folder.append(path, bytes) {
        Ok(()) => Ok(()),
        Err(Failed) => Err(Failed),
    }
}
