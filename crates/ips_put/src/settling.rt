//! What was stopped, brought to its end before anything else.

ghost use Rattle.std.specs.Prelude.{◌≡◌, ◌⊎◌, ◌≤◌, Bool, List, Result, Err, None, IsTrue, OnOk};
ghost use Rattle.ips_text.specs.declared.refusal.Or as refused;
ghost use Rattle.ips_text.specs.declared.refusal.Or.TheVariants.{Bad};
ghost use Rattle.ips_outside.specs.State.{IsSettled};
ghost use Rattle.ips_outside.specs.Outside.{HasCause};
ghost use Rattle.ips_folder.specs.Calls.{Throughout};
ghost use Rattle.ips_steps.specs.Private.{gate_name};
ghost use Rattle.ips_steps.specs.declared.step.Sort.{Sort};
ghost use Rattle.ips_kinds.specs.Tallies.{seen_by, taken};
ghost use Rattle.ips_journal.specs.Text.{journal_text};
ghost use Rattle.ips_commit.specs.Calls.{Recovers};
ghost use Rattle.ips_commit.specs.declared.fault.CommitFault as commit;
ghost use Rattle.ips_commit.specs.declared.fault.CommitFault.TheVariants as fault;
ghost use Rattle.ips_put.specs.Settling.{EndsAs, Settles, SettlesFrom};
ghost use Rattle.ips_sends.specs.Keeps.{Keeps};
ghost use Rattle.ips_sends.specs.Whole.{Attempt, AreWholeOrOut};

use ips_commit::{CommitFault, Pending, pending, recover};
use ips_folder::Folder;
use ips_kinds::Kind;
use ips_outside::{Failed, Source};
use ips_text::Or;
use std::alloc::Global;

/// Makes safe what was written before, and brings to its end what was stopped: then nothing is touched, and nothing stands at the
/// gate. What is said of attempts at publications is kept at every moment.
pub fn settle<F: Folder>(
    alloc: Global,
    folder: &mut F,
    kinds: &mut Vec<Box<dyn Kind>>,
) -> Result<(), Or<CommitFault>>
    requires takers { (s : Sort) → IsTrue (taken (seen_by sorts finished kinds.old.items) s) }
    ensures kept { IsTrue (F.outside.tells folder.old) → (xs : List Attempt) → Keeps journal_text (AreWholeOrOut xs) (F.outside.state folder.old)
        → Throughout F.outside folder.old folder.new (Keeps journal_text (AreWholeOrOut xs)) }
    ensures safe { IsTrue (F.outside.tells folder.old) → OnOk result (IsSettled (F.outside.state folder.new)) }
    ensures shut { IsTrue (F.outside.tells folder.old) → OnOk result ((F.outside.state folder.new).held.look gate_name ≡ None) }
    ensures cause { HasCause (F.outside.faults folder.old) (F.outside.faults folder.new) ((result ≡ Err (Bad fault.Unchanged)) ⊎ (result ≡ Err (Bad fault.Unfinished))) }
    ensures settles { IsTrue (F.outside.tells folder.old) → Settles F.outside folder.old folder.new (seen_by sorts finished kinds.old.items) (seen_by sorts finished kinds.new.items) result }
    ensures same_kind { F.outside.tells folder.new ≡ F.outside.tells folder.old }
{
    let Ok(()) = folder.sync() else {
        return Err(Or::Bad(CommitFault::Unchanged));
    };
    finish(alloc, folder, kinds)
}

// The same, where nothing is touched.
fn finish<F: Folder>(
    alloc: Global,
    folder: &mut F,
    kinds: &mut Vec<Box<dyn Kind>>,
) -> Result<(), Or<CommitFault>>
    requires takers { (s : Sort) → IsTrue (taken (seen_by sorts finished kinds.old.items) s) }
    requires safe { IsTrue (F.outside.tells folder.old) → IsSettled (F.outside.state folder.old) }
    ensures kept { IsTrue (F.outside.tells folder.old) → (xs : List Attempt) → Keeps journal_text (AreWholeOrOut xs) (F.outside.state folder.old)
        → Throughout F.outside folder.old folder.new (Keeps journal_text (AreWholeOrOut xs)) }
    ensures safe { IsTrue (F.outside.tells folder.old) → OnOk result (IsSettled (F.outside.state folder.new)) }
    ensures shut { IsTrue (F.outside.tells folder.old) → OnOk result ((F.outside.state folder.new).held.look gate_name ≡ None) }
    ensures cause { HasCause (F.outside.faults folder.old) (F.outside.faults folder.new) ((result ≡ Err (Bad fault.Unchanged)) ⊎ (result ≡ Err (Bad fault.Unfinished))) }
    ensures settles { IsTrue (F.outside.tells folder.old) → SettlesFrom F.outside (F.outside.state folder.old) folder.new (seen_by sorts finished kinds.old.items) (seen_by sorts finished kinds.new.items) result }
    ensures same_kind { F.outside.tells folder.new ≡ F.outside.tells folder.old }
{
    let found = match pending(alloc, folder) {
        Ok(found) => found,
        Err(Or::Bad(Failed)) => return Err(Or::Bad(CommitFault::Unchanged)),
        Err(Or::OutOfMemory) => return Err(Or::OutOfMemory),
    };
    match found {
        Pending::Nothing => Ok(()),
        Pending::Leftover | Pending::Open => restore(alloc, folder, kinds),
    }
}

// Brings to its end what was stopped.
fn restore<F: Folder>(
    alloc: Global,
    folder: &mut F,
    kinds: &mut Vec<Box<dyn Kind>>,
) -> Result<(), Or<CommitFault>>
    requires takers { (s : Sort) → IsTrue (taken (seen_by sorts finished kinds.old.items) s) }
    requires safe { IsTrue (F.outside.tells folder.old) → IsSettled (F.outside.state folder.old) }
    ensures kept { IsTrue (F.outside.tells folder.old) → (xs : List Attempt) → Keeps journal_text (AreWholeOrOut xs) (F.outside.state folder.old)
        → Throughout F.outside folder.old folder.new (Keeps journal_text (AreWholeOrOut xs)) }
    ensures safe { IsTrue (F.outside.tells folder.old) → OnOk result (IsSettled (F.outside.state folder.new)) }
    ensures shut { IsTrue (F.outside.tells folder.old) → OnOk result ((F.outside.state folder.new).held.look gate_name ≡ None) }
    ensures cause { HasCause (F.outside.faults folder.old) (F.outside.faults folder.new) ((result ≡ Err (Bad fault.Unchanged)) ⊎ (result ≡ Err (Bad fault.Unfinished))) }
    ensures recovers { (found : Result Bool (refused.Or commit.CommitFault)) × EndsAs found result × Recovers F.outside folder.old folder.new (seen_by sorts finished kinds.old.items) (seen_by sorts finished kinds.new.items) found }
    ensures same_kind { F.outside.tells folder.new ≡ F.outside.tells folder.old }
{
    match recover(alloc, folder, kinds) {
        Ok(_) => Ok(()),
        Err(fault) => Err(fault),
    }
}
