//! Junk in place of names that were touched.

ghost use Rattle.std.specs.Prelude.{◌≡◌, cond, ℕ, List, [], Some, None, IfOk, OnOk, IsTrue, MatchOption, is_some, true};
ghost use Rattle.ips_text.specs.Path.{IsPath};
ghost use Rattle.ips_outside.specs.Image.{File, is_dir, has_parent};
ghost use Rattle.ips_outside.specs.Change.{with_entry_at};
ghost use Rattle.ips_outside.specs.Tree.{tree_image};
ghost use Rattle.ips_outside.specs.Tearing.{in_set};
ghost use Rattle.ips_folder.specs.Crash.{junk_in};
ghost use Rattle.ips_folder.specs.Junk.{with_dir, HasDirs, AddsJunk, HasJunk};

use ips_outside::{Look, Tree, TreeFault};
use ips_text::{Or, RelPath};
use std::alloc::{AllocError, Global};
use std::collections::BTreeSet;

/// Makes a directory of mode 0700 at each of the names whose parent is a directory. A parent stands before its children
/// in the order of bytes.
pub fn make_dirs(
    alloc: Global,
    tree: &mut Tree,
    names: &BTreeSet<Vec<u8>>,
) -> Result<(), AllocError>
    requires paths { (q : List ℕ) → IsTrue (in_set names.now q) → IsPath q }
    requires absent { (q : List ℕ) → IsTrue (in_set names.now q) → (tree_image tree.old).look q ≡ None }
    ensures { OnOk result (HasDirs (in_set names.now) (tree_image tree.old) (tree_image tree.new)) }
{
    for name in names.iter() {
        make_dir(alloc, tree, name)?;
    }
    Ok(())
}

fn make_dir(alloc: Global, tree: &mut Tree, name: &[u8]) -> Result<(), AllocError>
    requires path { IsPath name.now }
    requires absent { (tree_image tree.old).look name.now ≡ None }
    ensures { OnOk result (tree_image tree.new ≡ with_dir name.now (tree_image tree.old)) }
{
    let path = path_of(alloc, name)?;
    match tree.dir(alloc, &path, 0o700) {
        Ok(()) | Err(Or::Bad(TreeFault::NoParent)) => Ok(()),
        Err(Or::Bad(_)) => unreachable!(),
        Err(Or::OutOfMemory) => Err(AllocError),
    }
}

/// Puts an empty file `junk` of mode 0600 into each of the directories at these names, where nothing stands there.
pub fn add_junk(alloc: Global, tree: &mut Tree, names: &BTreeSet<Vec<u8>>) -> Result<(), AllocError>
    requires { (q : List ℕ) → IsTrue (in_set names.now q) → IsPath q }
    ensures { OnOk result (HasJunk (in_set names.now) (tree_image tree.old) (tree_image tree.new)) }
{
    for name in names.iter() {
        add_to(alloc, tree, name)?;
    }
    Ok(())
}

fn add_to(alloc: Global, tree: &mut Tree, name: &[u8]) -> Result<(), AllocError>
    requires { IsPath name.now }
    ensures { OnOk result (AddsJunk name.now (tree_image tree.old) (tree_image tree.new)) }
{
    let dir = path_of(alloc, name)?;
    if !is_dir(tree, &dir) {
        return Ok(());
    }
    match junk_path(alloc, name)? {
        Some(path) => put(alloc, tree, &path),
        None => Ok(()),
    }
}

fn is_dir(tree: &Tree, path: &RelPath) -> bool
    ensures { result ≡ is_dir ((tree_image tree.now).look path.now.bytes) }
{
    matches!(tree.look(path), Look::Dir { .. })
}

fn path_of(alloc: Global, name: &[u8]) -> Result<RelPath, AllocError>
    requires { IsPath name.now }
    ensures { IfOk result (λ path. path.bytes ≡ name.now) }
{
    match RelPath::parse(alloc, name) {
        Ok(path) => Ok(path),
        Err(Or::Bad(_)) => unreachable!(),
        Err(Or::OutOfMemory) => Err(AllocError),
    }
}

// The path of the file in a directory, where it is one.
fn junk_path(alloc: Global, name: &[u8]) -> Result<Option<RelPath>, AllocError>
    ensures { IfOk result (λ found. MatchOption found (IsPath (junk_in name.now) → ⊥) (λ path. path.bytes ≡ junk_in name.now)) }
{
    let mut bytes = Vec::from_slice(alloc, name)?;
    bytes.extend_from_slice(b"/junk")?;
    match RelPath::parse(alloc, &bytes) {
        Ok(path) => Ok(Some(path)),
        Err(Or::Bad(_)) => Ok(None),
        Err(Or::OutOfMemory) => Err(AllocError),
    }
}

// Puts an empty file at the path, where nothing stands there.
fn put(alloc: Global, tree: &mut Tree, path: &RelPath) -> Result<(), AllocError>
    requires { has_parent (tree_image tree.old) path.now.bytes ≡ true }
    ensures { OnOk result (tree_image tree.new ≡ cond (is_some ((tree_image tree.old).look path.now.bytes)) (tree_image tree.old) (with_entry_at path.now.bytes (Some (File 384 [])) (tree_image tree.old))) }
{
    match tree.file(alloc, path, 0o600, &[]) {
        Ok(()) | Err(Or::Bad(_)) => Ok(()),
        Err(Or::OutOfMemory) => Err(AllocError),
    }
}
