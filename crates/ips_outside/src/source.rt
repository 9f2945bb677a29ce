//! Sources of files in memory.
#![tactic(auto, unfolding(crate::specs::Memory::tally_of))]

ghost use Rattle.std.specs.Prelude.{◌≡◌, ◌<◌, ◌≤◌, IsTrue, IfOk, IsErr, IsOk, is_err, length};
ghost use Rattle.ips_outside.specs.Outside.{Reads, look_of, IsSmall, readable, IsRead};
ghost use Rattle.ips_outside.specs.State.{untouched};
ghost use Rattle.ips_outside.specs.Tally.{fresh, next_fails, after_call};
ghost use Rattle.ips_outside.specs.Tree.{tree_image};
ghost use Rattle.ips_outside.specs.Memory.{mem_outside, mem_sane, sure_outside, sure_sane, tally_of};

use crate::calls::Calls;
use crate::outside::{Failed, Look, Source};
use crate::tree::Tree;
use ips_text::RelPath;

/// A source in memory of which some calls fail.
#[derive(Drop)]
pub struct MemSource {
    tree: Tree,
    calls: Calls,
}

impl MemSource {
    /// A source of this tree. Its calls are numbered from 1 on, and the listed ones fail.
    pub fn new(tree: Tree, fails: Vec<u64>) -> MemSource
        ensures tree { mem_outside.state result ≡ untouched (tree_image tree) }
        ensures calls { tally_of result ≡ fresh fails.items }
    {
        MemSource {
            tree,
            calls: Calls::new(fails),
        }
    }
}

impl Source for MemSource {
    ghost outside = { mem_outside };

    ghost sane = { mem_sane };

    fn look(&mut self, path: &RelPath) -> Result<Look, Failed>
        ensures reads { Reads mem_outside self.old self.new (IsErr result) }
        ensures found { IsTrue (mem_outside.tells self.old) → IfOk result (λ found. found ≡ look_of ((mem_outside.state self.old).held.look path.now.bytes)) }
        ensures mode { IfOk result IsSmall }
        ensures fails { is_err result ≡ next_fails (tally_of self.old) }
        ensures counted { tally_of self.new ≡ after_call (is_err result) (tally_of self.old) }
        ensures rises { IsErr result → (tally_of self.old).failed < (tally_of self.new).failed }
    {
        if self.calls.fails(false) {
            return Err(Failed);
        }
        Ok(self.tree.look(path))
    }

    fn read(&mut self, path: &RelPath, at: u64, buf: &mut [u8]) -> Result<usize, Failed>
        ensures reads { Reads mem_outside self.old self.new (IsErr result) }
        ensures fits { IfOk result (λ count. count ≤ length buf.old) }
        ensures found { IsTrue (mem_outside.tells self.old) → IfOk result (IsRead (readable ((mem_outside.state self.old).held.look path.now.bytes)) at buf.new) }
        ensures fails { is_err result ≡ next_fails (tally_of self.old) }
        ensures counted { tally_of self.new ≡ after_call (is_err result) (tally_of self.old) }
        ensures rises { IsErr result → (tally_of self.old).failed < (tally_of self.new).failed }
    {
        if self.calls.fails(false) {
            return Err(Failed);
        }
        Ok(self.tree.read(path, at, buf))
    }
}

/// A source in memory that never fails.
#[derive(Drop)]
pub struct SureSource {
    tree: Tree,
}

impl SureSource {
    /// A source of this tree.
    pub fn new(tree: Tree) -> SureSource
        ensures { sure_outside.state result ≡ untouched (tree_image tree) }
    {
        SureSource { tree }
    }
}

impl Source for SureSource {
    ghost outside = { sure_outside };

    ghost sane = { sure_sane };

    fn look(&mut self, path: &RelPath) -> Result<Look, Failed>
        ensures reads { Reads sure_outside self.old self.new (IsErr result) }
        ensures found { IsTrue (sure_outside.tells self.old) → IfOk result (λ found. found ≡ look_of ((sure_outside.state self.old).held.look path.now.bytes)) }
        ensures mode { IfOk result IsSmall }
        ensures never_fails { IsOk result }
    {
        Ok(self.tree.look(path))
    }

    fn read(&mut self, path: &RelPath, at: u64, buf: &mut [u8]) -> Result<usize, Failed>
        ensures reads { Reads sure_outside self.old self.new (IsErr result) }
        ensures fits { IfOk result (λ count. count ≤ length buf.old) }
        ensures found { IsTrue (sure_outside.tells self.old) → IfOk result (IsRead (readable ((sure_outside.state self.old).held.look path.now.bytes)) at buf.new) }
        ensures never_fails { IsOk result }
    {
        Ok(self.tree.read(path, at, buf))
    }
}
