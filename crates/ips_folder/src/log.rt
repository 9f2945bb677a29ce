//! A tree with a log of the calls that made it what it is.

ghost use Rattle.std.specs.Prelude.{◌≡◌, ◌++◌, ◌∷◌, [], true, length, IfOk, OnOk, OnErr};
ghost use Rattle.ips_outside.specs.Tree.{tree_image};
ghost use Rattle.ips_folder.specs.History.{IsLeft, IsSynced, CanAll, CanAll-prop, CanDo, change_of, is_change, begun};

mod crash;
mod junk;

use crate::call::Call;
use ips_outside::Tree;
use std::alloc::{AllocError, Global};

/// A tree, what it was at first, and the calls since then. So many of them were made at the last sync.
#[derive(Drop)]
pub struct CallLog {
    first: Tree,
    tree: Tree,
    calls: Vec<Call>,
    synced: usize,
    ghost left: { IsLeft (tree_image first) (tree_image tree) calls.items },
    ghost safe: { IsSynced (tree_image first) calls.items synced },
    ghost could: { CanAll calls.items (tree_image first) } by { CanAll-prop calls.items (tree_image first) },
}

impl CallLog {
    ghost use Rattle.ips_folder.specs.Memory.{moment_of, IsRecorded, IsSameRecord};

    /// A log that begins with this tree.
    pub fn new(alloc: Global, tree: Tree) -> Result<CallLog, AllocError>
        ensures tree { IfOk result (λ log. moment_of log ≡ begun (tree_image tree)) }
        ensures calls { IfOk result (λ log. log.calls.items ≡ []) }
    {
        Ok(CallLog {
            first: tree.copy(alloc)?,
            tree,
            calls: Vec::new(alloc),
            synced: 0,
        })
    }

    /// The tree.
    pub fn tree(&self) -> &Tree
        ensures tree { result.now ≡ self.now.tree }
        ensures held { tree_image result.now ≡ (moment_of self.now).state.held }
    {
        &self.tree
    }

    /// Carries out and records a call that changes something, or does neither where memory is refused.
    pub fn keep(&mut self, alloc: Global, call: Call) -> Result<(), AllocError>
        requires change { is_change call ≡ true }
        requires can { CanDo call (tree_image self.old.tree) }
        ensures recorded { OnOk result (IsRecorded call self.old self.new) }
        ensures as_before { OnErr result (IsSameRecord self.old self.new) }
    {
        extend(alloc, &mut self.tree, &mut self.calls, call)
    }

    /// Records a sync, unless memory is refused.
    pub fn settle(&mut self) -> Result<(), AllocError>
        ensures recorded { OnOk result (IsRecorded Call.Sync self.old self.new) }
        ensures as_before { OnErr result (IsSameRecord self.old self.new) }
    {
        push(&mut self.calls, &mut self.synced)
    }
}

// Carries a call out and records it, or does neither where memory is refused.
fn extend(
    alloc: Global,
    tree: &mut Tree,
    calls: &mut Vec<Call>,
    call: Call,
) -> Result<(), AllocError>
    requires { CanDo call (tree_image tree.old) }
    ensures change { OnOk result (tree_image tree.new ≡ change_of call (tree_image tree.old)) }
    ensures recorded { OnOk result (calls.new.items ≡ calls.old.items ++ call ∷ []) }
    ensures no_change { OnErr result (tree_image tree.new ≡ tree_image tree.old) }
    ensures not_recorded { OnErr result (calls.new.items ≡ calls.old.items) }
{
    calls.reserve(1)?;
    call.carry_out(alloc, tree)?;
    calls.push_reserved(call);
    Ok(())
}

// Records a sync and how many calls there are then, or does neither where memory is refused.
fn push(calls: &mut Vec<Call>, synced: &mut usize) -> Result<(), AllocError>
    ensures recorded { OnOk result (calls.new.items ≡ calls.old.items ++ Call.Sync ∷ []) }
    ensures counted { OnOk result (synced.new ≡ length calls.new.items) }
    ensures not_recorded { OnErr result (calls.new.items ≡ calls.old.items) }
    ensures not_counted { OnErr result (synced.new ≡ synced.old) }
{
    calls.push(Call::Sync)?;
    *synced = calls.len();
    Ok(())
}
