//! Paths of trials.

ghost use Rattle.std.specs.Prelude.{◌≡◌, ◌≤◌, None, IfOk, OnOk};
ghost use Rattle.ips_text.specs.Ancestry as ancestry;
ghost use Rattle.ips_text.specs.Path.{IsPath};
ghost use Rattle.ips_rehearse.specs.Tried.{dir_name, in_try};

use ips_text::RelPath;
use std::alloc::{AllocError, Global};

/// The path of the directory that gets the mode that is tried.
pub(crate) fn tried_dir() -> &'static [u8]
    ensures { result.now ≡ dir_name }
{
    b"var/pkg/stage/try/dir"
}

/// A path with room for each.
pub(crate) fn room(alloc: Global) -> Result<RelPath, AllocError>
    ensures { IfOk result (λ path. 1023 ≤ path.room) }
{
    match RelPath::with_room(alloc, b"var/pkg") {
        Ok(path) => Ok(path),
        Err(_) => Err(AllocError),
    }
}

/// A path of these bytes.
pub(crate) fn path_at(alloc: Global, bytes: &[u8]) -> Result<RelPath, AllocError>
    requires { IsPath bytes.now }
    ensures { IfOk result (λ path. path.bytes ≡ bytes.now) }
{
    let mut path = room(alloc)?;
    go(&mut path, bytes);
    Ok(path)
}

/// Goes to a path.
pub(crate) fn go(path: &mut RelPath, bytes: &[u8])
    requires room { 1023 ≤ path.old.room }
    requires path { IsPath bytes.now }
    ensures room { 1023 ≤ path.new.room }
    ensures there { path.new.bytes ≡ bytes.now }
{
    match path.set(bytes) {
        Ok(()) => {}
        Err(_) => unreachable!(),
    }
}

/// Goes to a name in the directory of trials.
pub(crate) fn go_in(alloc: Global, path: &mut RelPath, name: &[u8]) -> Result<(), AllocError>
    requires room { 1023 ≤ path.old.room }
    requires path { IsPath name.now }
    requires part { ancestry.parent name.now ≡ None }
    ensures room { 1023 ≤ path.new.room }
    ensures there { OnOk result (path.new.bytes ≡ in_try name.now) }
{
    let mut bytes = Vec::from_slice(alloc, b"var/pkg/stage/try/")?;
    bytes.extend_from_slice(name)?;
    go(path, &bytes);
    Ok(())
}
