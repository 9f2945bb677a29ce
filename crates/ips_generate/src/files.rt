//! Files and directories of the repository.

ghost use Rattle.std.specs.Prelude.{◌≡◌, ◌∷◌, ◌++◌, Some, IfOk, OnOk};
ghost use Rattle.ips_text.specs.Path.{IsPath};
ghost use Rattle.ips_outside.specs.Tree.{tree_image};
ghost use Rattle.ips_outside.specs.Image.{File};
ghost use Rattle.ips_generate.specs.Generated as spec;

use ips_outside::Tree;
use ips_text::{Or, RelPath};
use std::alloc::{AllocError, Global};

// The mode of each directory.
const DIR_MODE: u16 = 0o755;
// The mode of each file.
const FILE_MODE: u16 = 0o644;

// The path of these bytes.
fn path_of(alloc: Global, bytes: &[u8]) -> Result<RelPath, AllocError>
    requires { IsPath bytes.now }
    ensures { IfOk result (λ path. path.bytes ≡ bytes.now) }
{
    match RelPath::parse(alloc, bytes) {
        Ok(path) => Ok(path),
        Err(Or::OutOfMemory) => Err(AllocError),
        Err(Or::Bad(_)) => unreachable!(),
    }
}

/// Makes a directory, where nothing stands yet.
#[tactic(auto, unfolding(crate::specs::Generated::with_entry))]
pub fn put_dir(alloc: Global, tree: &mut Tree, path: &[u8]) -> Result<(), AllocError>
    requires { IsPath path.now }
    ensures { OnOk result (tree_image tree.new ≡ spec.with_dir path.now (tree_image tree.old)) }
{
    let path = path_of(alloc, path)?;
    match tree.dir(alloc, &path, DIR_MODE) {
        Err(Or::OutOfMemory) => Err(AllocError),
        Ok(()) | Err(Or::Bad(_)) => Ok(()),
    }
}

/// Makes a file, where nothing stands yet.
#[tactic(auto, unfolding(crate::specs::Generated::with_entry))]
pub fn put_top(alloc: Global, tree: &mut Tree, path: &[u8], bytes: &[u8]) -> Result<(), AllocError>
    requires { IsPath path.now }
    ensures { OnOk result (tree_image tree.new ≡ spec.with_entry path.now (File 420 bytes.now) (tree_image tree.old)) }
{
    let path = path_of(alloc, path)?;
    match tree.file(alloc, &path, FILE_MODE, bytes) {
        Err(Or::OutOfMemory) => Err(AllocError),
        Ok(()) | Err(Or::Bad(_)) => Ok(()),
    }
}

/// Makes a file of a directory, and the directory where nothing stands yet.
pub fn put_file(
    alloc: Global,
    tree: &mut Tree,
    dir: &[u8],
    last: &[u8],
    bytes: &[u8],
) -> Result<(), AllocError>
    requires { IsPath (dir.now ++ 47 ∷ last.now) }
    ensures { OnOk result (tree_image tree.new ≡ spec.with_file dir.now last.now bytes.now (tree_image tree.old)) }
{
    put_dir(alloc, tree, dir)?;
    let mut path = Vec::from_slice(alloc, dir)?;
    path.push(b'/')?;
    path.extend_from_slice(last)?;
    put_top(alloc, tree, path.as_slice(), bytes)
}
