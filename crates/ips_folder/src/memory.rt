//! A folder in memory, which keeps a record of its calls.

ghost use Rattle.std.specs.Prelude.{◌≡◌, ◌||◌, not, true, false, is_err, IfOk};
ghost use Rattle.ips_outside.specs.State.{MayLeave};
ghost use Rattle.ips_outside.specs.Outside.{OneMore};
ghost use Rattle.ips_outside.specs.Tree.{tree_image};
ghost use Rattle.ips_folder.specs.Crash.{IsLeftBy};
ghost use Rattle.ips_folder.specs.History.{CanDo, is_change};
ghost use Rattle.ips_folder.specs.Memory.{mem_folder, moment, stop_of, choice_of, starved, Begins, is_over, is_past, is_stopped, must_fail, IsActed, IsCounted, IsRefused};

mod calls;

use crate::call::Call;
use crate::log::CallLog;
use crate::stop::{Choice, Stop};
use ips_outside::{Calls, Failed, Tree};
use std::alloc::{AllocError, Global};

/// A folder in memory. Its calls are numbered from 1 on. Those whose numbers are listed fail, and so does each from the
/// stop on. A call that writes has its whole effect all the same, if it doesn't come after the stop; a sync that fails has
/// none. A call to which memory is refused fails and has no effect.
#[derive(Drop)]
pub struct MemFolder {
    alloc: Global,
    log: CallLog,
    calls: Calls,
    stop: Option<Stop>,
    starved: u64,
    changes: u64,
}

impl MemFolder {
    /// A folder that holds the tree. The calls with the listed numbers fail, and each from the stop on.
    pub fn new(
        alloc: Global,
        tree: Tree,
        fails: Vec<u64>,
        stop: Option<Stop>,
    ) -> Result<MemFolder, AllocError>
        ensures begins { IfOk result (Begins tree fails.items stop) }
    {
        Ok(MemFolder {
            alloc,
            log: CallLog::new(alloc, tree)?,
            calls: Calls::new(fails),
            stop,
            starved: 0,
            changes: 0,
        })
    }

    /// What the folder holds.
    pub fn tree(&self) -> &Tree
        ensures held { tree_image result.now ≡ (mem_folder.state self.now).held }
        ensures may_stay { MayLeave (mem_folder.state self.now) (tree_image result.now) }
    {
        self.log.tree()
    }

    /// The tree that a crash leaves now: what the stop says of the names that were touched since the last sync, or what
    /// is held, where the folder has no stop. A touched name whose parent is no directory there is left out. After Gone,
    /// Junk and Torn each mode that was set since the last sync is 0.
    pub fn crashed(&self, alloc: Global) -> Result<Tree, AllocError>
        ensures left { IfOk result (λ tree. IsLeftBy (choice_of (stop_of self.now)) (moment self.now) (tree_image tree)) }
        ensures may_be { IfOk result (λ tree. MayLeave (mem_folder.state self.now) (tree_image tree)) }
    {
        self.log.crashed(alloc, choice(&self.stop))
    }

    /// How many calls failed because memory was refused to them.
    pub fn starved(&self) -> u64
        ensures counted { result ≡ starved self.now }
    {
        self.starved
    }

    // Whether the next call comes after the stop.
    fn is_over(&self) -> bool
        ensures { result ≡ is_over self.now }
    {
        is_past(&self.stop, self.calls.made())
    }

    // Whether the next call is the stop or comes after it.
    fn is_stopped(&self) -> bool
        ensures { result ≡ is_stopped self.now.stop self.now.calls.made }
    {
        is_stopped(&self.stop, self.calls.made())
    }

    // Whether the next call is one of those that fail.
    fn must_fail(&self) -> bool
        ensures { result ≡ must_fail self.now }
    {
        self.calls.next_fails() || self.is_stopped()
    }

    // Counts a call, which fails where it must or where memory was refused to it, and its failure.
    fn answer(&mut self, served: bool) -> Result<(), Failed>
        ensures failed { is_err result ≡ (must_fail self.old || not served) }
        ensures counted { IsCounted self.old self.new (is_err result) }
        ensures log { self.new.log ≡ self.old.log }
        ensures starved { self.new.starved ≡ self.old.starved }
        ensures changes { self.new.changes ≡ self.old.changes }
    {
        let refused = self.is_stopped() || !served;
        if self.calls.fails(refused) {
            Err(Failed)
        } else {
            Ok(())
        }
    }

    // The same for a call that may change something.
    fn answer_change(&mut self, served: bool) -> Result<(), Failed>
        ensures failed { is_err result ≡ (must_fail self.old || not served) }
        ensures counted { IsCounted self.old self.new (is_err result) }
        ensures log { self.new.log ≡ self.old.log }
        ensures starved { self.new.starved ≡ self.old.starved }
        ensures changes { OneMore self.old.changes self.new.changes }
    {
        self.changes = self.changes.saturating_add(1);
        self.answer(served)
    }

    // A call that may change something, to which memory was refused.
    fn starve(&mut self) -> Result<(), Failed>
        ensures { IsRefused self.old self.new (is_err result) }
    {
        self.starved = self.starved.saturating_add(1);
        self.answer_change(false)
    }

    // Carries a call out that changes something and records it, unless it comes after the stop or memory is refused.
    fn act(&mut self, call: Call) -> Result<(), Failed>
        requires change { is_change call ≡ true }
        requires can { CanDo call (tree_image self.old.log.tree) }
        ensures { IsActed call self.old self.new (is_err result) }
    {
        if self.is_over() {
            return self.answer_change(true);
        }
        match self.log.keep(self.alloc, call) {
            Ok(()) => self.answer_change(true),
            Err(_) => self.starve(),
        }
    }

    // Records a sync, unless memory is refused.
    fn settle(&mut self) -> Result<(), Failed>
        requires { must_fail self.old ≡ false }
        ensures { IsActed Call.Sync self.old self.new (is_err result) }
    {
        match self.log.settle() {
            Ok(()) => self.answer_change(true),
            Err(_) => self.starve(),
        }
    }
}

// What a crash does.
fn choice(stop: &Option<Stop>) -> Choice
    ensures { result ≡ choice_of stop.now }
{
    match stop {
        Some(stop) => stop.choice,
        None => Choice::After,
    }
}

// Whether the call after so many is the stop or comes after it.
fn is_stopped(stop: &Option<Stop>, made: u64) -> bool
    ensures { result ≡ is_stopped stop.now made }
{
    match stop {
        Some(stop) => stop.call.saturating_sub(1) <= made,
        None => false,
    }
}

// Whether the call after so many comes after the stop.
fn is_past(stop: &Option<Stop>, made: u64) -> bool
    ensures { result ≡ is_past stop.now made }
{
    match stop {
        Some(stop) => stop.call <= made,
        None => false,
    }
}
