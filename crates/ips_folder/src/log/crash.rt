//! What a crash leaves of a tree, by the log of the calls on it.

ghost use Rattle.std.specs.Prelude.{◌≡◌, ◌||◌, true, ℕ, List, IfOk, OnOk, IsTrue};
ghost use Rattle.std.specs.List.{list_all};
ghost use Rattle.ips_text.specs.Ancestry.{same_path};
ghost use Rattle.ips_text.specs.Path.{IsPath};
ghost use Rattle.ips_outside.specs.State.{MayLeave};
ghost use Rattle.ips_outside.specs.Tree.{tree_image};
ghost use Rattle.ips_outside.specs.Tearing.{in_set};
ghost use Rattle.ips_folder.specs.History.{begun, replay, CanAll, is_change, name_of};
ghost use Rattle.ips_folder.specs.Crash.{without, touch, touches, name_it, names_it, IsLeftBy};
ghost use Rattle.ips_folder.specs.Memory.{first_moment, moment_of};

use crate::call::Call;
use crate::log::CallLog;
use crate::log::junk::{add_junk, make_dirs};
use crate::stop::Choice;
use ips_outside::Tree;
use std::alloc::{AllocError, Global};
use std::collections::BTreeSet;

impl CallLog {
    /// The tree that a crash leaves by this choice.
    pub fn crashed(&self, alloc: Global, choice: Choice) -> Result<Tree, AllocError>
        ensures left { IfOk result (λ tree. IsLeftBy choice (moment_of self.now) (tree_image tree)) }
        ensures may_be { IfOk result (λ tree. MayLeave (moment_of self.now).state (tree_image tree)) }
    {
        match choice {
            Choice::Before => self.safe(alloc),
            Choice::After => self.tree.copy(alloc),
            Choice::Gone => self.gone(alloc),
            Choice::Junk => self.junked(alloc),
            Choice::Torn => self.torn(alloc),
        }
    }

    // The calls until the last sync.
    fn until_sync(&self) -> &[Call]
        ensures could { CanAll result.now (tree_image self.now.first) }
        ensures safe { (replay result.now (first_moment self.now)).state.held ≡ (moment_of self.now).safe }
    {
        &self.calls[..self.synced]
    }

    // The calls since then, none of which is a sync.
    fn since_sync(&self) -> &[Call]
        ensures could { CanAll result.now (moment_of self.now).safe }
        ensures changes { list_all is_change result.now ≡ true }
        ensures now { replay result.now (begun (moment_of self.now).safe) ≡ moment_of self.now }
    {
        &self.calls[self.synced..]
    }

    // What was held at the last sync.
    fn safe(&self, alloc: Global) -> Result<Tree, AllocError>
        ensures { IfOk result (λ tree. tree_image tree ≡ (moment_of self.now).safe) }
    {
        let mut tree = self.first.copy(alloc)?;
        repeat(alloc, &mut tree, self.until_sync())?;
        Ok(tree)
    }

    // What is held, but with mode 0 wherever a mode was set since the last sync.
    fn zeroed(&self, alloc: Global) -> Result<Tree, AllocError>
        ensures { IfOk result (λ tree. tree_image tree ≡ (moment_of self.now).zeroed) }
    {
        let mut tree = self.safe(alloc)?;
        repeat_zeroing(alloc, &mut tree, self.since_sync())?;
        Ok(tree)
    }

    // The same without the touched names.
    fn gone(&self, alloc: Global) -> Result<Tree, AllocError>
        ensures { IfOk result (λ tree. tree_image tree ≡ without (moment_of self.now).state.whole (moment_of self.now).zeroed) }
    {
        let mut tree = self.zeroed(alloc)?;
        remove_names(&mut tree, self.since_sync());
        Ok(tree)
    }

    // The same with junk at the touched names.
    fn junked(&self, alloc: Global) -> Result<Tree, AllocError>
        ensures { IfOk result (λ tree. IsLeftBy Choice.Junk (moment_of self.now) (tree_image tree)) }
    {
        let mut tree = self.gone(alloc)?;
        let touched = names(alloc, self.since_sync())?;
        make_dirs(alloc, &mut tree, &touched)?;
        add_junk(alloc, &mut tree, &touched)?;
        Ok(tree)
    }

    // What is held, with mode 0 as before, and with the files cut that have no name but touched ones.
    fn torn(&self, alloc: Global) -> Result<Tree, AllocError>
        ensures { IfOk result (λ tree. IsLeftBy Choice.Torn (moment_of self.now) (tree_image tree)) }
    {
        let mut tree = self.zeroed(alloc)?;
        let touched = names(alloc, self.since_sync())?;
        tree.tear(alloc, &touched)?;
        Ok(tree)
    }
}

// Carries the calls out once more.
fn repeat(alloc: Global, tree: &mut Tree, calls: &[Call]) -> Result<(), AllocError>
    requires { CanAll calls.now (tree_image tree.old) }
    ensures { OnOk result (tree_image tree.new ≡ (replay calls.now (begun (tree_image tree.old))).state.held) }
{
    for call in calls {
        call.carry_out(alloc, tree)?;
    }
    Ok(())
}

// Carries the calls out once more, but with mode 0 wherever they set one.
fn repeat_zeroing(alloc: Global, tree: &mut Tree, calls: &[Call]) -> Result<(), AllocError>
    requires can { CanAll calls.now (tree_image tree.old) }
    requires changes { list_all is_change calls.now ≡ true }
    ensures { OnOk result (tree_image tree.new ≡ (replay calls.now (begun (tree_image tree.old))).zeroed) }
{
    for call in calls {
        call.carry_out_zeroing(alloc, tree)?;
    }
    Ok(())
}

// Removes what the calls touched.
fn remove_names(tree: &mut Tree, calls: &[Call])
    ensures { tree_image tree.new ≡ without (touches calls.now) (tree_image tree.old) }
{
    for call in calls {
        remove_name(tree, call);
    }
}

// Removes what a call touched.
fn remove_name(tree: &mut Tree, call: &Call)
    ensures { tree_image tree.new ≡ without (touch (name_of call.now)) (tree_image tree.old) }
{
    if let Some(name) = call.name() {
        tree.remove(name);
    }
}

// The names that the calls touched.
fn names(alloc: Global, calls: &[Call]) -> Result<BTreeSet<Vec<u8>>, AllocError>
    ensures names { IfOk result (λ names. (q : List ℕ) → in_set names q ≡ names_it calls.now q) }
    ensures paths { IfOk result (λ names. (q : List ℕ) → IsTrue (in_set names q) → IsPath q) }
{
    let mut names = BTreeSet::new(alloc);
    for call in calls {
        add_name(alloc, &mut names, call)?;
    }
    Ok(names)
}

// Adds the name that a call touched.
fn add_name(alloc: Global, names: &mut BTreeSet<Vec<u8>>, call: &Call) -> Result<(), AllocError>
    ensures names { OnOk result ((q : List ℕ) → in_set names.new q ≡ (name_it (name_of call.now) q || in_set names.old q)) }
    ensures path { OnOk result ((q : List ℕ) → IsTrue (name_it (name_of call.now) q) → IsPath q) }
{
    match call.name() {
        Some(name) => add(names, Vec::from_slice(alloc, name.bytes())?),
        None => Ok(()),
    }
}

// Adds a name to a set.
fn add(names: &mut BTreeSet<Vec<u8>>, name: Vec<u8>) -> Result<(), AllocError>
    ensures { OnOk result ((q : List ℕ) → in_set names.new q ≡ (same_path name.items q || in_set names.old q)) }
{
    names.insert(name)?;
    Ok(())
}
