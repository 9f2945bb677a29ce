//! A tree of files in memory.
#![tactic(auto, unfolding(crate::specs::Tree::tree_image))]

ghost use Rattle.std.specs.Prelude.{◌≡◌, ◌<◌, [], ℕ, false, IsTrue, IsFalse, List, Option, Some, None, IfOk, OnOk, OnErr, ◌≤◌, length};
ghost use Rattle.std.specs.Option.{option_copied};
ghost use Rattle.ips_outside.specs.Image.{IsImage, Dir, File, Link, Other, nothing, is_dir, is_file, file_bytes, link_target, has_small_mode};
ghost use Rattle.ips_outside.specs.Change.{with_entry_at, joined, moded, appended, marked};
ghost use Rattle.ips_outside.specs.Outside.{look_of, IsSmall, readable, IsRead};
ghost use Rattle.ips_outside.specs.Table.{image_of, entry_of, node_of};
ghost use Rattle.ips_outside.specs.Order.{HasRoom};
ghost use Rattle.ips_outside.specs.Children.{is_foreign, AreChildren, path_bytes};
ghost use Rattle.ips_outside.specs.Tearing.{IsTorn, in_set};
ghost use Rattle.ips_outside.specs.Making.{fault_at, hard_fault_at, Refuses};

use crate::listing::children;
use crate::outside::Look;
use crate::refusal::TreeFault;
use crate::subtree::{key, spare, take_away};
use crate::table::{Kind, Node, Paths, find, mark_dir, node_at, put, set_dir_mode};
use crate::tearing::{cut_others, kept_nodes};
use ips_text::{Or, RelPath, parent};
use std::alloc::{AllocError, Global};
use std::collections::{BTreeMap, BTreeSet};

/// Directories, files, links and others by their paths. What stands above each of them is a directory, and each file
/// is a name of a node, which has a mode and bytes. Modes are permission bits, below 0o10000.
#[derive(Drop)]
pub struct Tree {
    paths: Paths,
    // A node whose names are all gone stays until the tree goes.
    nodes: Vec<Node>,
    // What `remove` goes by, so that it takes no memory.
    spare: Vec<u8>,
    ghost room: { HasRoom paths.entries spare },
    ghost formed: { IsImage (image_of paths.entries nodes.items) },
}

impl Tree {
    ghost use Rattle.ips_outside.specs.Tree.{tree_image};

    /// The tree in which nothing stands.
    pub fn new(alloc: Global) -> Tree
        ensures { tree_image result ≡ nothing }
    {
        Tree {
            paths: BTreeMap::new(alloc),
            nodes: Vec::new(alloc),
            spare: Vec::new(alloc),
        }
    }

    /// What stands at the path.
    pub fn look(&self, path: &RelPath) -> Look
        ensures found { result ≡ look_of ((tree_image self.now).look path.now.bytes) }
        ensures mode { IsSmall result }
        ensures formed { IsImage (tree_image self.now) }
    {
        match find(&self.paths, path.bytes()) {
            None => Look::Absent,
            Some(kind) => match kind {
                Kind::Dir { mode, .. } => Look::Dir { mode: *mode },
                Kind::File { node } => {
                    let node = &self.nodes[*node];
                    Look::File {
                        mode: node.mode,
                        size: node.bytes.len() as u64,
                    }
                }
                Kind::Link { .. } => Look::Link,
                Kind::Other => Look::Other,
            },
        }
    }

    /// The bytes of the file at the path, where a file stands there.
    pub fn bytes(&self, path: &RelPath) -> Option<&[u8]>
        ensures { option_copied result ≡ file_bytes ((tree_image self.now).look path.now.bytes) }
    {
        let node = node_at(&self.paths, path.bytes())?;
        Some(&self.nodes[node].bytes)
    }

    /// Reads the file's bytes from the place `at` on into the front of the buffer, and answers how many, as
    /// `Source::read` does.
    pub fn read(&self, path: &RelPath, at: u64, buf: &mut [u8]) -> usize
        ensures fits { result ≤ length buf.old }
        ensures found { IsRead (readable ((tree_image self.now).look path.now.bytes)) at buf.new result }
    {
        match self.bytes(path) {
            Some(bytes) => read_from(bytes, at, buf),
            None => 0,
        }
    }

    /// The target of the symbolic link at the path, where a link stands there.
    pub fn target(&self, path: &RelPath) -> Option<&[u8]>
        ensures { option_copied result ≡ link_target ((tree_image self.now).look path.now.bytes) }
    {
        match find(&self.paths, path.bytes()) {
            Some(Kind::Link { target }) => Some(target),
            _ => None,
        }
    }

    /// Whether both paths are names of one file.
    pub fn same(&self, a: &RelPath, b: &RelPath) -> bool
        ensures { result ≡ (tree_image self.now).same a.now.bytes b.now.bytes }
    {
        match (
            node_at(&self.paths, a.bytes()),
            node_at(&self.paths, b.bytes()),
        ) {
            (Some(first), Some(second)) => first == second,
            _ => false,
        }
    }

    /// Whether the directory at the path is marked as one that also holds names that are no paths; false where no
    /// directory stands.
    pub fn is_foreign(&self, path: &RelPath) -> bool
        ensures { result ≡ is_foreign ((tree_image self.now).look path.now.bytes) }
    {
        match find(&self.paths, path.bytes()) {
            Some(Kind::Dir { foreign, .. }) => *foreign,
            _ => false,
        }
    }

    /// The paths of all that stands right below the directory at the path, each once, in the order of their bytes; none
    /// where no directory stands.
    pub fn children(&self, alloc: Global, dir: &RelPath) -> Result<Vec<RelPath>, AllocError>
        ensures { IfOk result (λ paths. AreChildren (tree_image self.now) dir.now.bytes (path_bytes paths.items)) }
    {
        children(alloc, &self.paths, dir.bytes())
    }

    // Why nothing can be made at the path.
    fn fault(&self, path: &RelPath) -> Option<TreeFault>
        ensures { result ≡ fault_at (tree_image self.now) path.now.bytes }
    {
        if let Some(above) = parent(path.bytes()) {
            match find(&self.paths, above) {
                Some(Kind::Dir { .. }) => {}
                _ => return Some(TreeFault::NoParent),
            }
        }
        match find(&self.paths, path.bytes()) {
            Some(_) => Some(TreeFault::Taken),
            None => None,
        }
    }

    // Puts what is no file where nothing stands.
    fn put_plain(&mut self, alloc: Global, path: &RelPath, kind: Kind) -> Result<(), AllocError>
        requires free { fault_at (tree_image self.old) path.now.bytes ≡ None }
        requires plain { node_of (Some kind) ≡ None }
        requires mode { IsTrue (has_small_mode (entry_of [] (Some kind))) }
        ensures made { OnOk result (tree_image self.new ≡ with_entry_at path.now.bytes (entry_of [] (Some kind)) (tree_image self.old)) }
        ensures as_before { OnErr result (tree_image self.new ≡ tree_image self.old) }
    {
        let key = key(alloc, path, &mut self.spare)?;
        put(&mut self.paths, key, kind)
    }

    // Adds what is no file.
    fn add(&mut self, alloc: Global, path: &RelPath, kind: Kind) -> Result<(), Or<TreeFault>>
        requires plain { node_of (Some kind) ≡ None }
        requires mode { IsTrue (has_small_mode (entry_of [] (Some kind))) }
        ensures made { OnOk result (tree_image self.new ≡ with_entry_at path.now.bytes (entry_of [] (Some kind)) (tree_image self.old)) }
        ensures as_before { OnErr result (tree_image self.new ≡ tree_image self.old) }
        ensures refused { Refuses (fault_at (tree_image self.old) path.now.bytes) result }
    {
        if let Some(fault) = self.fault(path) {
            return Err(Or::Bad(fault));
        }
        self.put_plain(alloc, path, kind)?;
        Ok(())
    }

    /// Adds a directory, with permission bits below 0o10000.
    pub fn dir(&mut self, alloc: Global, path: &RelPath, mode: u16) -> Result<(), Or<TreeFault>>
        requires { mode < 4096 }
        ensures made { OnOk result (tree_image self.new ≡ with_entry_at path.now.bytes (Some (Dir mode false)) (tree_image self.old)) }
        ensures as_before { OnErr result (tree_image self.new ≡ tree_image self.old) }
        ensures refused { Refuses (fault_at (tree_image self.old) path.now.bytes) result }
    {
        let kind = Kind::Dir {
            mode,
            foreign: false,
        };
        self.add(alloc, path, kind)
    }

    /// Adds a file with a node of its own, with permission bits below 0o10000.
    pub fn file(
        &mut self,
        alloc: Global,
        path: &RelPath,
        mode: u16,
        bytes: &[u8],
    ) -> Result<(), Or<TreeFault>>
        requires { mode < 4096 }
        ensures made { OnOk result (tree_image self.new ≡ with_entry_at path.now.bytes (Some (File mode bytes.now)) (tree_image self.old)) }
        ensures as_before { OnErr result (tree_image self.new ≡ tree_image self.old) }
        ensures refused { Refuses (fault_at (tree_image self.old) path.now.bytes) result }
    {
        if let Some(fault) = self.fault(path) {
            return Err(Or::Bad(fault));
        }
        let key = key(alloc, path, &mut self.spare)?;
        let bytes = Vec::from_slice(alloc, bytes)?;
        self.nodes.reserve(1)?;
        let node = self.nodes.len();
        put(&mut self.paths, key, Kind::File { node })?;
        self.nodes.push_reserved(Node { mode, bytes });
        Ok(())
    }

    /// Adds a symbolic link. Its target may be any bytes.
    pub fn link(
        &mut self,
        alloc: Global,
        path: &RelPath,
        target: &[u8],
    ) -> Result<(), Or<TreeFault>>
        ensures made { OnOk result (tree_image self.new ≡ with_entry_at path.now.bytes (Some (Link target.now)) (tree_image self.old)) }
        ensures as_before { OnErr result (tree_image self.new ≡ tree_image self.old) }
        ensures refused { Refuses (fault_at (tree_image self.old) path.now.bytes) result }
    {
        if let Some(fault) = self.fault(path) {
            return Err(Or::Bad(fault));
        }
        let target = Vec::from_slice(alloc, target)?;
        self.put_plain(alloc, path, Kind::Link { target })?;
        Ok(())
    }

    /// Adds what is neither a directory nor a file nor a symbolic link, as a device or a named pipe.
    pub fn other(&mut self, alloc: Global, path: &RelPath) -> Result<(), Or<TreeFault>>
        ensures made { OnOk result (tree_image self.new ≡ with_entry_at path.now.bytes (Some Other) (tree_image self.old)) }
        ensures as_before { OnErr result (tree_image self.new ≡ tree_image self.old) }
        ensures refused { Refuses (fault_at (tree_image self.old) path.now.bytes) result }
    {
        self.add(alloc, path, Kind::Other)
    }

    /// Adds a further name, `path`, of the file at `to`: a hard link. Both names have one mode and the same bytes.
    pub fn hard(&mut self, alloc: Global, path: &RelPath, to: &RelPath) -> Result<(), Or<TreeFault>>
        ensures made { OnOk result (tree_image self.new ≡ joined path.now.bytes to.now.bytes (tree_image self.old)) }
        ensures as_before { OnErr result (tree_image self.new ≡ tree_image self.old) }
        ensures refused { Refuses (hard_fault_at (tree_image self.old) path.now.bytes to.now.bytes) result }
    {
        let file = node_at(&self.paths, to.bytes());
        if let Some(fault) = self.fault(path) {
            return Err(Or::Bad(fault));
        }
        let Some(node) = file else {
            return Err(Or::Bad(TreeFault::NoFile));
        };
        let key = key(alloc, path, &mut self.spare)?;
        let name = Kind::File { node };
        put(&mut self.paths, key, name)?;
        Ok(())
    }

    /// Marks the directory at the path as one that also holds names that are no paths. It answers false, and changes
    /// nothing, exactly where no directory stands there. It takes no memory.
    pub fn mark_foreign(&mut self, path: &RelPath) -> bool
        ensures marked { tree_image self.new ≡ marked path.now.bytes (tree_image self.old) }
        ensures found { result ≡ is_dir ((tree_image self.old).look path.now.bytes) }
        ensures as_before { IsFalse result → tree_image self.new ≡ tree_image self.old }
    {
        mark_dir(&mut self.paths, path.bytes())
    }

    /// Takes away what stands at the path, with all below it, and does nothing where nothing stands. It takes no memory.
    pub fn remove(&mut self, path: &RelPath)
        ensures { tree_image self.new ≡ with_entry_at path.now.bytes None (tree_image self.old) }
    {
        let name = path.bytes();
        if find(&self.paths, name).is_some() {
            take_away(&mut self.paths, &mut self.spare, name);
        }
    }

    /// Puts bytes at the end of a file that has no other name.
    pub fn append(&mut self, path: &RelPath, bytes: &[u8]) -> Result<(), AllocError>
        requires file { IsTrue (is_file ((tree_image self.old).look path.now.bytes)) }
        requires sole { (q : List ℕ) → IsTrue ((tree_image self.old).same path.now.bytes q) → q ≡ path.now.bytes }
        ensures appended { OnOk result (tree_image self.new ≡ appended path.now.bytes bytes.now (tree_image self.old)) }
        ensures as_before { OnErr result (tree_image self.new ≡ tree_image self.old) }
    {
        if let Some(node) = node_at(&self.paths, path.bytes()) {
            self.nodes[node].bytes.extend_from_slice(bytes)?;
        }
        Ok(())
    }

    /// Sets the permission bits, below 0o10000, of the directory or file at the path; all names of a file have them.
    /// What has none stays.
    pub fn set_mode(&mut self, path: &RelPath, mode: u16)
        requires { mode < 4096 }
        ensures { tree_image self.new ≡ moded mode path.now.bytes (tree_image self.old) }
    {
        let name = path.bytes();
        match node_at(&self.paths, name) {
            Some(node) => self.nodes[node].mode = mode,
            None => set_dir_mode(&mut self.paths, name, mode),
        }
    }

    /// Cuts to half its length each file that has no name but these, as a crash may that tears them.
    pub fn tear(&mut self, alloc: Global, names: &BTreeSet<Vec<u8>>) -> Result<(), AllocError>
        ensures torn { OnOk result (IsTorn (in_set names.now) (tree_image self.old) (tree_image self.new)) }
        ensures as_before { OnErr result (tree_image self.new ≡ tree_image self.old) }
    {
        let kept = kept_nodes(alloc, &self.paths, self.nodes.len(), names)?;
        cut_others(&mut self.nodes, &kept);
        Ok(())
    }

    /// Another tree that holds the same.
    pub fn copy(&self, alloc: Global) -> Result<Tree, AllocError>
        ensures { IfOk result (λ copy. tree_image copy ≡ tree_image self.now) }
    {
        let paths = self.paths.clone()?;
        let nodes = self.nodes.to_vec(alloc)?;
        let spare = spare(alloc)?;
        Ok(Tree {
            paths,
            nodes,
            spare,
        })
    }
}

// Copies the bytes from a place on into the front of the buffer, as many as there are and fit.
fn read_from(bytes: &[u8], at: u64, buf: &mut [u8]) -> usize
    ensures fits { result ≤ length buf.old }
    ensures found { IsRead bytes.now at buf.new result }
{
    let Some(rest) = bytes.get(at as usize..) else {
        return 0;
    };
    let count = rest.len().min(buf.len());
    buf[..count].copy_from_slice(&rest[..count]);
    count
}
