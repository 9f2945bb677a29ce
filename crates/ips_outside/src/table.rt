//! What a tree in memory is kept in: a map from paths to what stands there, and the nodes of the files by number.

ghost use Rattle.std.specs.Prelude.{◌≡◌, ◌<◌, List, ℕ, cond, Option, Some, None, OnOk, OnErr, IsTrue, is_some, length};
ghost use Rattle.std.specs.Option.{option_copied, option_map};
ghost use Rattle.ips_text.specs.Ancestry.{same_path};
ghost use Rattle.ips_outside.specs.Table.{kind_at, node_of, with_dir_mode, with_dir_mark, has_dir, IsKindCopy, IsNodeCopy};

use std::alloc::AllocError;
use std::collections::BTreeMap;

/// What stands at a path. A file is a name of a node, which it may share.
#[derive(Drop)]
pub enum Kind {
    /// `foreign` where the directory also holds names that are no paths.
    Dir { mode: u16, foreign: bool },
    File { node: usize },
    Link { target: Vec<u8> },
    Other,
}

impl Clone for Kind {
    ghost is_clone = { IsKindCopy };

    fn clone(&self) -> Result<Kind, AllocError> {
        Ok(match self {
            Kind::Dir { mode, foreign } => Kind::Dir {
                mode: *mode,
                foreign: *foreign,
            },
            Kind::File { node } => Kind::File { node: *node },
            Kind::Link { target } => Kind::Link {
                target: target.clone()?,
            },
            Kind::Other => Kind::Other,
        })
    }
}

impl Kind {
    fn set_dir_mode(&mut self, mode: u16)
        ensures { self.new ≡ with_dir_mode mode self.old }
    {
        if let Kind::Dir { mode: old, .. } = self {
            *old = mode;
        }
    }

    // Marks a directory, and answers whether it is one.
    fn mark(&mut self) -> bool
        ensures marked { self.new ≡ with_dir_mark self.old }
        ensures found { result ≡ has_dir (Some self.old) }
    {
        match self {
            Kind::Dir { foreign, .. } => {
                *foreign = true;
                true
            }
            _ => false,
        }
    }
}

/// What the names of a file share.
#[derive(Drop)]
pub struct Node {
    pub mode: u16,
    pub bytes: Vec<u8>,
}

impl Clone for Node {
    ghost is_clone = { IsNodeCopy };

    fn clone(&self) -> Result<Node, AllocError> {
        Ok(Node {
            mode: self.mode,
            bytes: self.bytes.clone()?,
        })
    }
}

pub type Paths = BTreeMap<Vec<u8>, Kind>;

/// What stands at a path.
pub fn find<'a>(paths: &'a Paths, path: &[u8]) -> Option<&'a Kind>
    ensures { option_copied result ≡ kind_at paths.now.entries path.now }
{
    paths.get(path)
}

/// The node of the file at a path, where a file stands there.
pub fn node_at(paths: &Paths, path: &[u8]) -> Option<usize>
    ensures { result ≡ node_of (kind_at paths.now.entries path.now) }
{
    match find(paths, path) {
        Some(Kind::File { node }) => Some(*node),
        _ => None,
    }
}

/// Puts a kind at a path, in place of what stands there.
pub fn put(paths: &mut Paths, path: Vec<u8>, kind: Kind) -> Result<(), AllocError>
    ensures put { OnOk result ((q : List ℕ) → kind_at paths.new.entries q ≡ cond (same_path path.items q) (Some kind) (kind_at paths.old.entries q)) }
    ensures as_before { OnErr result (paths.new.entries ≡ paths.old.entries) }
{
    paths.insert(path, kind)?;
    Ok(())
}

/// Takes away what stands at a path.
pub fn take(paths: &mut Paths, path: &[u8])
    ensures taken { (q : List ℕ) → kind_at paths.new.entries q ≡ cond (same_path path.now q) None (kind_at paths.old.entries q) }
    ensures fewer { IsTrue (is_some (kind_at paths.old.entries path.now)) → length paths.new.entries < length paths.old.entries }
{
    paths.remove(path);
}

/// Sets the mode of the directory at a path, where one stands.
pub fn set_dir_mode(paths: &mut Paths, path: &[u8], mode: u16)
    ensures { (q : List ℕ) → kind_at paths.new.entries q ≡ cond (same_path path.now q) (option_map (with_dir_mode mode) (kind_at paths.old.entries q)) (kind_at paths.old.entries q) }
{
    if let Some(kind) = paths.get_mut(path) {
        kind.set_dir_mode(mode);
    }
}

/// Marks the directory at a path as one that also holds names that are no paths, and answers whether one stands there.
pub fn mark_dir(paths: &mut Paths, path: &[u8]) -> bool
    ensures marked { (q : List ℕ) → kind_at paths.new.entries q ≡ cond (same_path path.now q) (option_map with_dir_mark (kind_at paths.old.entries q)) (kind_at paths.old.entries q) }
    ensures found { result ≡ has_dir (kind_at paths.old.entries path.now) }
{
    match paths.get_mut(path) {
        Some(kind) => kind.mark(),
        None => false,
    }
}
