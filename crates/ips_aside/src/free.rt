//! The first free name in the salvage folder.

ghost use Rattle.std.specs.Prelude.{◌≡◌, IfOk, OnOk};
ghost use Rattle.ips_conflict.specs.Index.{has_path};
ghost use Rattle.ips_aside.specs.sides.Sides.{ending_of};
ghost use Rattle.ips_aside.specs.Lost.{IsFirstFree, first_name_of, in_folder};

use crate::sides::Put;
use ips_text::RelPath;
use std::alloc::{AllocError, Global};
use std::collections::BTreeSet;

// The first of the names of this file in the salvage folder that isn't marked.
pub(crate) fn free_name(
    alloc: Global,
    taken: &BTreeSet<Vec<u8>>,
    root: &RelPath,
    path: &RelPath,
    put: Put<'_>,
) -> Result<Vec<u8>, AllocError>
    ensures { IfOk result (λ name. IsFirstFree (has_path taken.now) (ending_of put.entry) (first_name_of root.now.bytes path.now.bytes put.entry) name.items) }
{
    let mut name = first_name(alloc, root, path, put)?;
    match grow(taken, put.ending(), &mut name) {
        Ok(()) => Ok(name),
        Err(fault) => Err(fault),
    }
}

// The path in the salvage folder with the file's extension.
fn first_name(
    alloc: Global,
    root: &RelPath,
    path: &RelPath,
    put: Put<'_>,
) -> Result<Vec<u8>, AllocError>
    ensures { IfOk result (λ name. name.items ≡ first_name_of root.now.bytes path.now.bytes put.entry) }
{
    let mut name = inside(alloc, root, path)?;
    name.extend_from_slice(put.ending())?;
    Ok(name)
}

/// The path in the salvage folder at `root`.
pub fn inside(alloc: Global, root: &RelPath, path: &RelPath) -> Result<Vec<u8>, AllocError>
    ensures { IfOk result (λ name. name.items ≡ in_folder root.now.bytes path.now.bytes) }
{
    let mut name = Vec::from_slice(alloc, root.bytes())?;
    name.push(b'/')?;
    name.extend_from_slice(path.bytes())?;
    Ok(name)
}

// Puts the extension on as long as the name is marked.
fn grow(taken: &BTreeSet<Vec<u8>>, ending: &[u8], name: &mut Vec<u8>) -> Result<(), AllocError>
    ensures { OnOk result (IsFirstFree (has_path taken.now) ending.now name.old.items name.new.items) }
{
    for _time in 0..u64::MAX {
        if !is_marked(taken, name.as_slice()) {
            return Ok(());
        }
        name.extend_from_slice(ending)?;
    }
    Err(AllocError)
}

// Whether the name is marked.
fn is_marked(taken: &BTreeSet<Vec<u8>>, name: &[u8]) -> bool
    ensures { result ≡ has_path taken.now name.now }
{
    taken.contains(name)
}
