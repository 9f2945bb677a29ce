//! The names in a directory of the host.

use crate::fault::Refused;
use ips_folder::{Listing, Paths};
use ips_text::{Or, PathFault, RelPath};
use std::alloc::{AllocError, Global};
use std::io::Read;

/// The children that a directory holds, from the names in it, each of which ends with a NUL. No read ends inside a name.
pub fn list_names<N: Read>(
    alloc: Global,
    names: &mut N,
    dir: &RelPath,
) -> Result<Listing, Refused> {
    let mut paths = Vec::new(alloc);
    let mut foreign = false;
    let mut buffer = [0; 4096];
    for _ in 0..u64::MAX {
        let count = names.read(&mut buffer)?;
        if count == 0 {
            paths.sort_unstable();
            let names = Paths::new(paths);
            return Ok(Listing { names, foreign });
        }
        if !add_all(alloc, &mut paths, dir, &buffer[..count])? {
            foreign = true;
        }
    }
    Err(Refused::Unnumbered)
}

// The path of a child, where it has one.
fn child(alloc: Global, dir: &RelPath, name: &[u8]) -> Result<RelPath, Or<PathFault>> {
    let mut bytes = Vec::from_slice(alloc, dir.bytes())?;
    bytes.push(b'/')?;
    bytes.extend_from_slice(name)?;
    RelPath::parse(alloc, &bytes)
}

// Adds the paths of the children with these names, and answers whether each has one.
fn add_all(
    alloc: Global,
    paths: &mut Vec<RelPath>,
    dir: &RelPath,
    names: &[u8],
) -> Result<bool, AllocError> {
    let mut have_paths = true;
    for name in names.split(|byte| *byte == 0) {
        if matches!(name, [] | [b'.'] | [b'.', b'.']) {
            continue;
        }
        match child(alloc, dir, name) {
            Ok(path) => paths.push(path)?,
            Err(Or::Bad(_)) => have_paths = false,
            Err(Or::OutOfMemory) => return Err(AllocError),
        }
    }
    Ok(have_paths)
}
