//! The steps behind an open gate laid to the end, the gate closed, and what is left swept.

ghost use Rattle.std.specs.Prelude.{◌≡◌, ◌*◌, ◌≤◌, ℕ, List, Bool, Some, Err, IsTrue, IfOk, IfErr, length, take};
ghost use Rattle.ips_outside.specs.Image.{Image};
ghost use Rattle.ips_outside.specs.Outside.{HasCause};
ghost use Rattle.ips_folder.specs.Calls.{Throughout};
ghost use Rattle.ips_steps.specs.Steps.{Step, after};
ghost use Rattle.ips_steps.specs.Private.{visible};
ghost use Rattle.ips_steps.specs.Owed.{steps_left, IsOpen, FolderOwes};
ghost use Rattle.ips_steps.specs.declared.step.Sort.{Sort};
ghost use Rattle.ips_kinds.specs.Tallies.{seen_by, taken, all_counted};
ghost use Rattle.ips_journal.specs.Text.{journal_text};
ghost use Rattle.ips_journal.specs.Reading.{IsAt, journal_of};
ghost use Rattle.ips_commit.specs.Pending.{HasCommitted};
ghost use Rattle.ips_commit.specs.Phases.{IsUnderWay};
ghost use Rattle.ips_commit.specs.Recovering.{CanRollForward, IsJournalled, IsUnfinished, SaysOfSteps};
ghost use Rattle.ips_commit.specs.declared.fault.CommitFault.TheVariants as fault;

use crate::fault::CommitFault;
use crate::gate::finish;
use crate::laying::lay_marked;
use crate::names::OwnNames;
use ips_folder::Folder;
use ips_journal::{StepFault, StepReader};
use ips_kinds::Kind;
use ips_outside::Source;
use ips_text::RelPath;

/// Lays the steps from the reader's place on, behind so many marks, closes the gate and sweeps. It answers how many steps were
/// laid.
pub(crate) fn roll<F: Folder>(
    folder: &mut F,
    names: &OwnNames,
    reader: &mut StepReader,
    kinds: &mut Vec<Box<dyn Kind>>,
    mark: &mut RelPath,
    first: u64,
) -> Result<u64, CommitFault>
    requires open { IsTrue reader.old.is_open }
    requires takers { (s : Sort) → IsTrue (taken (seen_by sorts finished kinds.old.items) s) }
    requires path { 1023 ≤ mark.old.room }
    requires few { first ≤ 18446744073709552 }
    requires way { IsTrue (F.outside.tells folder.old) → IsUnderWay (F.outside.state folder.old) first }
    requires at { IsTrue (F.outside.tells folder.old) → (front : List Step) × IsAt (journal_of (F.outside.state folder.old).held) front reader.old }
    ensures owed { IsTrue (F.outside.tells folder.old) → (steps : List Step) (b a : Image) (due : Bool)
        → IsOpen journal_text steps first a (F.outside.state folder.old).held → IsAt (journal_of (F.outside.state folder.old).held) (take (1000 * first) steps) reader.old
        → Throughout F.outside folder.old folder.new (FolderOwes journal_text b (Some a) due) }
    ensures done { IsTrue (F.outside.tells folder.old) → (steps : List Step)
        → IsJournalled (F.outside.state folder.old).held steps first → IsAt (journal_of (F.outside.state folder.old).held) (take (1000 * first) steps) reader.old
        → IfOk result (λ count. (count ≡ length (steps_left first steps)) × CanRollForward (F.outside.state folder.old).held steps first
        × HasCommitted (visible (after (steps_left first steps) (F.outside.state folder.old).held)) (F.outside.state folder.new)
        × (seen_by sorts finished kinds.new.items ≡ all_counted (steps_left first steps) (seen_by sorts finished kinds.old.items))) }
    ensures meant { IsTrue (F.outside.tells folder.old) → (steps : List Step) (a : Image)
        → IsOpen journal_text steps first a (F.outside.state folder.old).held → IsAt (journal_of (F.outside.state folder.old).held) (take (1000 * first) steps) reader.old
        → IfErr result (λ why. why ≡ fault.Unfinished) }
    ensures refused { IsTrue (F.outside.tells folder.old) → (steps : List Step)
        → IsJournalled (F.outside.state folder.old).held steps first → IsAt (journal_of (F.outside.state folder.old).held) (take (1000 * first) steps) reader.old
        → IfErr result (SaysOfSteps (F.outside.state folder.old).held (F.outside.state folder.new).held (seen_by sorts finished kinds.old.items) (seen_by sorts finished kinds.new.items) steps first) }
    ensures stopped { IsTrue (F.outside.tells folder.old) → (steps : List Step)
        → IsJournalled (F.outside.state folder.old).held steps first → IsAt (journal_of (F.outside.state folder.old).held) (take (1000 * first) steps) reader.old
        → IfErr result (λ why. why ≡ fault.Unfinished
        → IsUnfinished (F.outside.state folder.old).held (F.outside.state folder.new) steps first (seen_by sorts finished kinds.old.items) (seen_by sorts finished kinds.new.items)) }
    ensures begun { IfErr result (λ why. why ≡ fault.Unchanged → ⊥) }
    ensures path { 1023 ≤ mark.new.room }
    ensures cause { HasCause (F.outside.faults folder.old) (F.outside.faults folder.new) (result ≡ Err fault.Unfinished) }
    ensures same_kind { F.outside.tells folder.new ≡ F.outside.tells folder.old }
    ensures changes { F.outside.changes folder.old ≤ F.outside.changes folder.new }
{
    let laid = match lay_marked(folder, reader, kinds, mark, first) {
        Ok(laid) => laid,
        Err(StepFault::FolderFault) => return Err(CommitFault::Unfinished),
        Err(StepFault::BadJournal { line }) => return Err(CommitFault::BadJournal { line }),
    };
    let Ok(()) = finish(folder, names, mark, laid.0) else {
        return Err(CommitFault::Unfinished);
    };
    Ok(laid.1)
}
