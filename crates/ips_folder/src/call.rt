//! The calls that change a folder, as a record keeps them.

ghost use Rattle.std.specs.Prelude.{◌≡◌, OnOk, OnErr, Ok, Err, Some, None, MatchOption};
ghost use Rattle.ips_text.specs.declared.refusal.Or.TheVariants.{OutOfMemory};
ghost use Rattle.ips_text.specs.Reading.{IfBad};
ghost use Rattle.ips_outside.specs.Tree.{tree_image};

use ips_outside::{Tree, TreeFault};
use ips_text::{Or, RelPath};
use std::alloc::{AllocError, Global};

/// A call that changes a folder, or makes safe what was changed.
#[derive(Drop)]
pub enum Call {
    MakeDir { path: RelPath, mode: u16 },
    MakeFile { path: RelPath },
    Append { path: RelPath, bytes: Vec<u8> },
    MakeLink { path: RelPath, target: Vec<u8> },
    MakeHard { path: RelPath, to: RelPath },
    Remove { path: RelPath },
    SetMode { path: RelPath, mode: u16 },
    Sync,
}

impl Call {
    ghost use Rattle.ips_folder.specs.History.{change_of, zeroing, name_of, CanDo};

    /// Carries the call out on a tree.
    pub fn carry_out(&self, alloc: Global, tree: &mut Tree) -> Result<(), AllocError>
        requires { CanDo self.now (tree_image tree.old) }
        ensures done { OnOk result (tree_image tree.new ≡ change_of self.now (tree_image tree.old)) }
        ensures refused { OnErr result (tree_image tree.new ≡ tree_image tree.old) }
    {
        match self {
            Call::MakeDir { path, mode } => made(tree.dir(alloc, path, *mode)),
            Call::MakeFile { path } => made(tree.file(alloc, path, 0o600, &[])),
            Call::Append { path, bytes } => tree.append(path, bytes),
            Call::MakeLink { path, target } => made(tree.link(alloc, path, target)),
            Call::MakeHard { path, to } => made(tree.hard(alloc, path, to)),
            Call::Remove { path } => {
                tree.remove(path);
                Ok(())
            }
            Call::SetMode { path, mode } => {
                tree.set_mode(path, *mode);
                Ok(())
            }
            Call::Sync => Ok(()),
        }
    }

    /// Carries the call out, but where it sets a mode, that is 0.
    pub fn carry_out_zeroing(&self, alloc: Global, tree: &mut Tree) -> Result<(), AllocError>
        requires { CanDo (zeroing self.now) (tree_image tree.old) }
        ensures done { OnOk result (tree_image tree.new ≡ change_of (zeroing self.now) (tree_image tree.old)) }
    {
        match self {
            Call::SetMode { path, .. } => {
                tree.set_mode(path, 0);
                Ok(())
            }
            _ => self.carry_out(alloc, tree),
        }
    }

    /// The name that the call touches.
    pub fn name(&self) -> Option<&RelPath>
        ensures { MatchOption result (name_of self.now ≡ None) (λ name. name_of self.now ≡ Some name.now.bytes) }
    {
        match self {
            Call::MakeDir { path, .. }
            | Call::MakeFile { path }
            | Call::Append { path, .. }
            | Call::MakeLink { path, .. }
            | Call::MakeHard { path, .. }
            | Call::Remove { path } => Some(path),
            Call::SetMode { .. } | Call::Sync => None,
        }
    }
}

// The answer of a maker of a tree that nothing but want of memory could hinder.
fn made(answer: Result<(), Or<TreeFault>>) -> Result<(), AllocError>
    requires { IfBad answer (λ _. ⊥) }
    ensures done { OnOk result (answer ≡ Ok tt) }
    ensures refused { OnErr result (answer ≡ Err OutOfMemory) }
{
    match answer {
        Ok(()) => Ok(()),
        Err(Or::OutOfMemory) => Err(AllocError),
        Err(Or::Bad(_)) => unreachable!(),
    }
}
