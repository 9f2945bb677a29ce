//! A change that stands ready, carried out.

ghost use Rattle.std.specs.Prelude.{◌≡◌, ◌≤◌, [], List, Option, None, false, IsTrue, IsFalse};
ghost use Rattle.ips_outside.specs.Image.{Image};
ghost use Rattle.ips_outside.specs.State.{IsSettled, nowhere};
ghost use Rattle.ips_outside.specs.Outside.{HasCause, Rose};
ghost use Rattle.ips_folder.specs.Calls.{CanMake, ChangesOnly, Throughout};
ghost use Rattle.ips_steps.specs.Steps.{Step};
ghost use Rattle.ips_steps.specs.Private.{gate_name, visible};
ghost use Rattle.ips_steps.specs.Owed.{FolderOwes};
ghost use Rattle.ips_steps.specs.declared.step.Sort.{Sort};
ghost use Rattle.ips_kinds.specs.Tallies.{seen_by, taken};
ghost use Rattle.ips_journal.specs.Text.{journal_text};
ghost use Rattle.ips_actuate.specs.Running.{IsFaultOfRun};
ghost use Rattle.ips_commit.specs.Answers.{IsToldOrMasked};
ghost use Rattle.ips_commit.specs.Pending.{HasNoOtherMark, is_swept};
ghost use Rattle.ips_commit.specs.Staging.{IsStaged, IsCleared};
ghost use Rattle.ips_commit.specs.Recovering.{IsOpenedOver};
ghost use Rattle.ips_run.specs.Ending.{HasPayloadFault, TellsAtMost, is_done, is_left, is_failed, is_folder_fault, is_source_fault, is_spawn_fault};
ghost use Rattle.ips_run.specs.Comes.{HasRun, IsCarriedTo};
ghost use Rattle.ips_run.specs.Phases.{IsCarried, IsUnrun, IsUnrunBefore, uncommitted_as};

use crate::ending::Ending;
use crate::preparing::Prepared;
use ips_actuate::{ActFault, Words, run_all};
use ips_commit::{CommitFault, Ready, commit, discard};
use ips_folder::Folder;
use ips_kinds::Kind;
use ips_outside::{Failed, Source, Spawner};

// Runs the actuators before, commits what stands ready, and runs the actuators after. Where one before isn't run to its end, what
// stands ready is taken away.
pub(crate) fn carry_out<T: Drop, F: Folder, P: Spawner>(
    prepared: Prepared<T>,
    folder: &mut F,
    spawner: &mut P,
    kinds: &mut Vec<Box<dyn Kind>>,
) -> Ending<T>
    requires gate { IsTrue (F.outside.tells folder.old) → CanMake (F.outside.state folder.old).held gate_name }
    requires unmarked { IsTrue (F.outside.tells folder.old) → HasNoOtherMark (F.outside.state folder.old).held [] }
    requires takers { (s : Sort) → IsTrue (taken (seen_by sorts finished kinds.old.items) s) }
    ensures carried { IsTrue (F.outside.tells folder.old) → (steps : List Step) (a : Image) → IsStaged steps a (F.outside.state folder.old)
        → IsCarried F.outside a result (seen_by sorts finished kinds.old.items) (seen_by sorts finished kinds.new.items) folder.old folder.new }
    ensures told { IsTrue (F.outside.tells folder.old) → (steps : List Step) (a : Image) → IsStaged steps a (F.outside.state folder.old)
        → IsCarriedTo steps prepared.before.items prepared.after.items prepared.told
        (seen_by sorts finished kinds.old.items) (seen_by sorts finished kinds.new.items) (HasRun P.running spawner.old spawner.new) result }
    ensures journal { IsTrue (F.outside.tells folder.old) → (steps : List Step) (a : Image) → IsStaged steps a (F.outside.state folder.old)
        → IsTrue (is_done result) → IsOpenedOver F.outside steps folder.old folder.new }
    ensures folder { HasCause (F.outside.faults folder.old) (F.outside.faults folder.new) (IsTrue (is_folder_fault result)) }
    ensures spawner { HasCause (P.running.faults spawner.old) (P.running.faults spawner.new)
        (IsToldOrMasked (P.running.faults spawner.old) (P.running.faults spawner.new) (IsTrue (is_spawn_fault result)) (IsTrue (is_failed result))) }
    ensures changed { IsTrue (is_left result) → Rose (F.outside.changes folder.old) (F.outside.changes folder.new) }
    ensures payload { HasPayloadFault result }
    ensures tells { TellsAtMost prepared.told result }
    ensures later { F.outside.changes folder.old ≤ F.outside.changes folder.new }
    ensures read { IsFalse (is_source_fault result) }
    ensures same_kind { F.outside.tells folder.new ≡ F.outside.tells folder.old }
{
    let Prepared {
        ready,
        mut before,
        mut after,
        told,
    } = prepared;
    match run_all(spawner, &before) {
        Ok(()) => {}
        Err(fault) => return given_up(fault, &mut before, ready, folder),
    }
    match commit(ready, folder, kinds) {
        Ok(_) => {}
        Err(fault) => return uncommitted(fault),
    }
    match run_all(spawner, &after) {
        Ok(()) => Ending::Done(told),
        Err(fault) => unrun(fault, true, &mut after),
    }
}

// How a run ends where an actuator before the commit wasn't run to its end: what stands ready is taken away.
fn given_up<T: Drop, F: Folder>(
    fault: ActFault,
    before: &mut Vec<Words>,
    ready: Ready,
    folder: &mut F,
) -> Ending<T>
    requires fault { IsFaultOfRun before.old.items fault }
    requires unmarked { IsTrue (F.outside.tells folder.old) → HasNoOtherMark (F.outside.state folder.old).held [] }
    ensures unrun { IsUnrunBefore before.old.items fault result }
    ensures any_moment { IsTrue (F.outside.tells folder.old) → ChangesOnly F.outside is_swept nowhere folder.old folder.new }
    ensures owed { IsTrue (F.outside.tells folder.old) → IsSettled (F.outside.state folder.old) → (F.outside.state folder.old).held.look gate_name ≡ None → (a : Option Image)
        → Throughout F.outside folder.old folder.new (FolderOwes journal_text (visible (F.outside.state folder.old).held) a false) }
    ensures cleared { IsTrue (F.outside.tells folder.old) → IsFalse (is_failed result) → IsCleared (F.outside.state folder.new).held }
    ensures folder { HasCause (F.outside.faults folder.old) (F.outside.faults folder.new) (IsTrue (is_folder_fault result)) }
    ensures later { F.outside.changes folder.old ≤ F.outside.changes folder.new }
    ensures same_kind { F.outside.tells folder.new ≡ F.outside.tells folder.old }
{
    match discard(ready, folder) {
        Ok(()) => unrun(fault, false, before),
        Err(Failed) => Ending::FolderFault { unfinished: false },
    }
}

// How a run ends where an actuator of the list wasn't run to its end. Its words are taken out.
fn unrun<T: Drop>(fault: ActFault, after: bool, list: &mut Vec<Words>) -> Ending<T>
    requires { IsFaultOfRun list.old.items fault }
    ensures { IsUnrun list.old.items after fault result }
{
    match fault {
        ActFault::Failed { index, status } => Ending::ActuatorFailed {
            after,
            words: list.swap_remove(index),
            status,
        },
        ActFault::Spawn { .. } => Ending::SpawnFault { after },
    }
}

// How a run ends where a change isn't committed.
pub(crate) fn uncommitted<T: Drop>(fault: CommitFault) -> Ending<T>
    ensures { result ≡ uncommitted_as fault }
{
    match fault {
        CommitFault::Unchanged => Ending::FolderFault { unfinished: false },
        CommitFault::Unfinished => Ending::FolderFault { unfinished: true },
        CommitFault::BadJournal { line } => Ending::BadJournal { line },
    }
}
