//! What a run that was stopped left, brought to an end.

ghost use Rattle.std.specs.Prelude.{◌≡◌, ◌≢◌, ◌≤◌, ℕ, List, Option, Bool, None, Err, IsTrue, IfErr, OnOk};
ghost use Rattle.std.specs.List.{list_all};
ghost use Rattle.ips_outside.specs.Image.{Image};
ghost use Rattle.ips_outside.specs.State.{IsSettled};
ghost use Rattle.ips_outside.specs.Outside.{HasCause, Rose};
ghost use Rattle.ips_outside.specs.Children.{path_bytes};
ghost use Rattle.ips_folder.specs.Calls.{Throughout};
ghost use Rattle.ips_steps.specs.Steps.{Step, after};
ghost use Rattle.ips_steps.specs.Private.{gate_name, mark_front, begins, visible};
ghost use Rattle.ips_steps.specs.Owed.{steps_left, IsOpen, FolderOwes};
ghost use Rattle.ips_steps.specs.declared.step.Sort.{Sort};
ghost use Rattle.ips_kinds.specs.Tallies.{seen_by, taken, all_counted};
ghost use Rattle.ips_journal.specs.Text.{journal_text};
ghost use Rattle.ips_commit.specs.Pending.{AreMarkNames, HasCommitted};
ghost use Rattle.ips_commit.specs.Calls.{Recovers};
ghost use Rattle.ips_commit.specs.Recovering.{CanRollForward, IsJournalled, IsPlaced, IsUnfinished, SaysOfLaying};
ghost use Rattle.ips_commit.specs.declared.fault.CommitFault.TheVariants as fault;

use crate::fault::CommitFault;
use crate::gate::clear_left;
use crate::names::OwnNames;
use crate::placing::{Left, find_left};
use crate::ready::Ready;
use crate::rolling::roll;
use crate::sweeping::keep_first;
use ips_folder::Folder;
use ips_journal::StepReader;
use ips_kinds::Kind;
use ips_outside::Source;
use ips_text::{Or, RelPath};
use std::alloc::Global;

/// Brings to an end what a run that was stopped left. Where something stands at the gate it lays the steps that the marks
/// leave, each by the first kind that takes it, with a mark after each thousand, closes the gate and
/// sweeps, and answers true. It reads the whole journal and lists the marks before its first change, and takes away each mark
/// that isn't one of the first without a gap before it makes one. Where the gate is closed it only takes away what is left, whatever mode a trial
/// has left, and answers false. Each sort of step has
/// to have a kind that takes it, and nothing may be touched, as behind a sync.
pub fn recover<F: Folder>(
    alloc: Global,
    folder: &mut F,
    kinds: &mut Vec<Box<dyn Kind>>,
) -> Result<bool, Or<CommitFault>>
    requires safe { IsTrue (F.outside.tells folder.old) → IsSettled (F.outside.state folder.old) }
    requires takers { (s : Sort) → IsTrue (taken (seen_by sorts finished kinds.old.items) s) }

    // What was owed is owed at every moment, an open gate is rolled forward and a closed one swept, and each refusal has its cause.
    ensures recovers { Recovers F.outside folder.old folder.new (seen_by sorts finished kinds.old.items) (seen_by sorts finished kinds.new.items) result }
{
    let Ok(mut ready) = Ready::new(alloc) else {
        return Err(Or::OutOfMemory);
    };
    let memory = &mut ready;
    restore(
        alloc,
        folder,
        kinds,
        &memory.names,
        &mut memory.reader,
        &mut memory.mark,
    )
}

// The same with the memory that is needed lent.
fn restore<F: Folder>(
    alloc: Global,
    folder: &mut F,
    kinds: &mut Vec<Box<dyn Kind>>,
    names: &OwnNames,
    reader: &mut StepReader,
    mark: &mut RelPath,
) -> Result<bool, Or<CommitFault>>
    requires path { 1023 ≤ mark.old.room }
    requires safe { IsTrue (F.outside.tells folder.old) → IsSettled (F.outside.state folder.old) }
    requires takers { (s : Sort) → IsTrue (taken (seen_by sorts finished kinds.old.items) s) }
    ensures path { 1023 ≤ mark.new.room }
    ensures recovers { Recovers F.outside folder.old folder.new (seen_by sorts finished kinds.old.items) (seen_by sorts finished kinds.new.items) result }
{
    let Left {
        is_open,
        marks,
        count,
    } = match find_left(alloc, folder, names, reader) {
        Ok(left) => left,
        Err(fault) => return Err(fault),
    };
    if is_open {
        match roll_forward(folder, names, reader, kinds, &marks, count, mark) {
            Ok(()) => return Ok(true),
            Err(fault) => return Err(Or::Bad(fault)),
        }
    }
    let Ok(()) = clear_left(folder, names, &marks) else {
        return Err(Or::Bad(CommitFault::Unchanged));
    };
    Ok(false)
}

// The same behind an open gate: takes away the marks that aren't among the first so many, and makes that safe, which is the
// first call that may change something; then lays the steps that these leave, closes the gate and sweeps.
fn roll_forward<F: Folder>(
    folder: &mut F,
    names: &OwnNames,
    reader: &mut StepReader,
    kinds: &mut Vec<Box<dyn Kind>>,
    marks: &[RelPath],
    count: u64,
    mark: &mut RelPath,
) -> Result<(), CommitFault>
    requires safe { IsTrue (F.outside.tells folder.old) → IsSettled (F.outside.state folder.old) }
    requires open { IsTrue reader.old.is_open }
    requires takers { (s : Sort) → IsTrue (taken (seen_by sorts finished kinds.old.items) s) }
    requires own { IsTrue (list_all (begins mark_front) (path_bytes marks.now)) }
    requires path { 1023 ≤ mark.old.room }
    requires few { count ≤ 18446744073709552 }
    requires gate { IsTrue (F.outside.tells folder.old) → (F.outside.state folder.old).held.look gate_name ≢ None }
    requires marks { IsTrue (F.outside.tells folder.old) → AreMarkNames (F.outside.state folder.old).held (path_bytes marks.now) }
    requires placed { IsTrue (F.outside.tells folder.old) → IsPlaced (F.outside.state folder.old).held reader.old count }
    ensures owed { IsTrue (F.outside.tells folder.old) → (b : Image) (a : Option Image) (due : Bool) → FolderOwes journal_text b a due (F.outside.state folder.old)
        → Throughout F.outside folder.old folder.new (FolderOwes journal_text b a due) }
    ensures done { IsTrue (F.outside.tells folder.old)
        → OnOk result ((steps : List Step) × (count : ℕ) × CanRollForward (F.outside.state folder.old).held steps count
        × HasCommitted (visible (after (steps_left count steps) (F.outside.state folder.old).held)) (F.outside.state folder.new)
        × (seen_by sorts finished kinds.new.items ≡ all_counted (steps_left count steps) (seen_by sorts finished kinds.old.items))) }
    ensures meant { IsTrue (F.outside.tells folder.old) → (steps : List Step) (count : ℕ) (a : Image) → IsOpen journal_text steps count a (F.outside.state folder.old).held
        → OnOk result (HasCommitted a (F.outside.state folder.new)) × IfErr result (λ why. why ≡ fault.Unfinished) }
    ensures refused { IsTrue (F.outside.tells folder.old) → IfErr result (SaysOfLaying (F.outside.state folder.old).held (F.outside.state folder.new).held (seen_by sorts finished kinds.old.items) (seen_by sorts finished kinds.new.items)) }
    ensures stopped { IsTrue (F.outside.tells folder.old) → (steps : List Step) (count : ℕ) → IsJournalled (F.outside.state folder.old).held steps count
        → IfErr result (λ why. why ≡ fault.Unfinished
        → IsUnfinished (F.outside.state folder.old).held (F.outside.state folder.new) steps count (seen_by sorts finished kinds.old.items) (seen_by sorts finished kinds.new.items)) }
    ensures begun { IfErr result (λ why. why ≡ fault.Unchanged → ⊥) }
    ensures path { 1023 ≤ mark.new.room }
    ensures cause { HasCause (F.outside.faults folder.old) (F.outside.faults folder.new) (result ≡ Err fault.Unfinished) }
    ensures same_kind { F.outside.tells folder.new ≡ F.outside.tells folder.old }
    ensures changes { F.outside.changes folder.old ≤ F.outside.changes folder.new }
    ensures changed { Rose (F.outside.changes folder.old) (F.outside.changes folder.new) }
{
    let Ok(()) = keep_first(folder, marks, count) else {
        return Err(CommitFault::Unfinished);
    };
    match roll(folder, names, reader, kinds, mark, count) {
        Ok(_) => Ok(()),
        Err(fault) => Err(fault),
    }
}
