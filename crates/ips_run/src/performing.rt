//! A run.

ghost use Rattle.std.specs.Prelude.{◌≡◌, ◌≢◌, ◌⊎◌, None, IsTrue, IsFalse};
ghost use Rattle.ips_outside.specs.Outside.{HasCause, OneMore, Reads};
ghost use Rattle.ips_steps.specs.Private.{gate_name};
ghost use Rattle.ips_steps.specs.declared.step.Sort.{Sort};
ghost use Rattle.ips_kinds.specs.Tallies.{seen_by, taken};
ghost use Rattle.ips_commit.specs.Answers.{IsToldOrMasked};
ghost use Rattle.ips_commit.specs.Pending.{IsBare};
ghost use Rattle.ips_history.specs.Directories.{shows, creates, fixes, image_for};
ghost use Rattle.ips_history.specs.Run.{IsRun};
ghost use Rattle.ips_run.specs.Ending.{HasPayloadFault, TellsAsSaid, claim_of, is_done, is_left, is_failed, is_refused, is_folder_fault, is_source_fault, is_spawn_fault};
ghost use Rattle.ips_run.specs.Comes.{Comes, HasRun, Leaves};
ghost use Rattle.ips_run.specs.Phases.{HasFailedInCommit, HasFailedInRecovery, HasListed, IsKeptOrSettled, IsLeftReady, IsUnbegun};
ghost use Rattle.ips_run.specs.Unopened.{NeverOpens};

use crate::creating::create;
use crate::deciding::shown;
use crate::ending::Ending;
use crate::next::{Next, phase_behind};
use crate::operation::Operation;
use crate::recovering::recovered;
use crate::requesting::request;
use ips_commit::pending;
use ips_folder::Folder;
use ips_kinds::Kind;
use ips_outside::{Failed, Source, Spawner};
use ips_text::Or;
use std::alloc::Global;

/// Carries out an operation on an image: makes safe what was written before and looks at the gate; then it brings to an end what
/// was stopped, or shows what is asked for, or decides on a change, stages it, runs the actuators before it, commits it and runs
/// the actuators after it. An operation that makes an image gets the directories of its records first, where nothing stands. Each
/// sort of step has to have a kind that takes it.
pub fn perform<T: Drop, S: Source, F: Folder, P: Spawner, C: Operation<T>>(
    alloc: Global,
    operation: &C,
    source: &mut S,
    folder: &mut F,
    spawner: &mut P,
    kinds: &mut Vec<Box<dyn Kind>>,
) -> Ending<T>
    requires takers { (s : Sort) → IsTrue (taken (seen_by sorts finished kinds.old.items) s) }

    // What it claims of the image, at every moment and at its end, and what is left to be resumed.
    ensures run { IsTrue (F.outside.tells folder.old) → IsRun F.outside (C.means operation.now (S.outside.tells source.old) (S.outside.state source.old).held)
        (C.effect operation.now) (claim_of result) (seen_by sorts finished kinds.old.items) (seen_by sorts finished kinds.new.items) folder.old folder.new }

    // Each ending has its cause, and these actuators and no others were run.
    ensures comes { IsTrue (F.outside.tells folder.old) → Comes (C.effect operation.now)
        (C.decides operation.now (S.outside.tells source.old) (S.outside.state source.old).held (image_for (C.effect operation.now) (F.outside.state folder.old).held))
        (S.outside.tells source.old) (S.outside.state source.old).held (F.outside.state folder.old).held (F.outside.state folder.new).held
        (seen_by sorts finished kinds.old.items) (seen_by sorts finished kinds.new.items) (HasRun P.running spawner.old spawner.new) result }

    // A fault of the folder is told exactly where its count rose. So is one of the repository or the spawner, unless a call on the folder
    // failed too, as where what was staged was to be taken away: then that is told.
    ensures folder { HasCause (F.outside.faults folder.old) (F.outside.faults folder.new) (IsTrue (is_folder_fault result)) }
    ensures source { Reads S.outside source.old source.new
        (IsToldOrMasked (S.outside.faults source.old) (S.outside.faults source.new) (IsTrue (is_source_fault result)) (IsTrue (is_failed result) × IsFalse (shows (C.effect operation.now)))) }
    ensures spawner { HasCause (P.running.faults spawner.old) (P.running.faults spawner.new)
        (IsToldOrMasked (P.running.faults spawner.old) (P.running.faults spawner.new) (IsTrue (is_spawn_fault result)) (IsTrue (is_failed result) × IsFalse (shows (C.effect operation.now)))) }

    // What is told is that of a decision, whether or not anything is told of the image.
    ensures says { TellsAsSaid (C.says operation.now) result }

    // A payload is said to have a fault only that a payload can have, whether or not anything is told.
    ensures payload { HasPayloadFault result }

    // Where something is shown, no fault is the repository's or a spawner's, whether or not the folder tells its image.
    ensures shows_unasked { IsTrue (shows (C.effect operation.now)) → IsFalse (is_source_fault result) }
    ensures shows_unspawned { IsTrue (shows (C.effect operation.now)) → IsFalse (is_spawn_fault result) }

    // Unfinished: since a moment that neither the clock nor a count puts before this run, and at which a change stood ready, or the gate
    // stood open behind the opening sync, a call failed and one was made that may have changed something.
    ensures begun { IsTrue (F.outside.tells folder.old) → IsTrue (is_left result) → HasFailedInCommit F.outside folder.old folder.new ⊎ HasFailedInRecovery F.outside folder.old folder.new }

    // Done, whether or not each actuator behind the commit was run: the journal that stood ready and safe in this run listed just the steps
    // of the decision by which it is told, and these were counted.
    ensures listed { IsTrue (F.outside.tells folder.old) → IsTrue (is_done result) → HasListed F.outside
        (C.decides operation.now (S.outside.tells source.old) (S.outside.state source.old).held (image_for (C.effect operation.now) (F.outside.state folder.old).held)) result
        (seen_by sorts finished kinds.old.items) (seen_by sorts finished kinds.new.items) folder.old folder.new }

    // A refusal behind a closed gate, a fault that is told as unchanged among them: nothing has happened at any moment; or since the opening
    // sync has answered nothing stood at the gate, nor would have after a crash. Of an operation that makes directories of its records this
    // is said from the moment on at which they are safe; of what is done before, or where they never are, nothing is said of the gate here.
    ensures unopened { IsTrue (F.outside.tells folder.old) → (F.outside.state folder.old).held.look gate_name ≡ None
        → IsTrue (is_refused result) → NeverOpens F.outside (C.effect operation.now) folder.old folder.new }

    // Unchanged: no sign of a commit is left. The gate isn't touched, and no list of steps stands ready and safe, with nothing touched, unless
    // the image is the one from before; or one was to be taken away, since an actuator before it wasn't run to its end. Not said of an operation
    // that makes an image, nor of a fix that finds something pending.
    ensures unbegun { IsTrue (F.outside.tells folder.old) → IsFalse (creates (C.effect operation.now))
        → (IsTrue (fixes (C.effect operation.now)) → IsBare (F.outside.state folder.old).held)
        → IsTrue (is_failed result) → IsUnbegun (F.outside.state folder.old) (F.outside.state folder.new)
        ⊎ IsLeftReady F.outside (C.decides operation.now (S.outside.tells source.old) (S.outside.state source.old).held (image_for (C.effect operation.now) (F.outside.state folder.old).held))
        (seen_by sorts finished kinds.old.items) (seen_by sorts finished kinds.new.items) (HasRun P.running spawner.old spawner.new) folder.old folder.new }

    // Refused, unless a call on the image failed: of a change that was staged nothing is left, and else no more than there was.
    ensures left { IsTrue (F.outside.tells folder.old) → Leaves (C.effect operation.now) (F.outside.state folder.old).held (F.outside.state folder.new).held result }

    // The opening sync is the only call that may change something, where something is shown, and where an open gate is left as it
    // was; and nothing but that has happened to the image.
    ensures shows { IsTrue (shows (C.effect operation.now)) → OneMore (F.outside.changes folder.old) (F.outside.changes folder.new) }
    ensures untouched { IsTrue (F.outside.tells folder.old) → (F.outside.state folder.old).held.look gate_name ≢ None → IsTrue (is_refused result)
        → OneMore (F.outside.changes folder.old) (F.outside.changes folder.new) }
    ensures shows_kept { IsTrue (F.outside.tells folder.old) → IsTrue (shows (C.effect operation.now)) → IsKeptOrSettled F.outside folder.old folder.new }
    ensures untouched_kept { IsTrue (F.outside.tells folder.old) → (F.outside.state folder.old).held.look gate_name ≢ None → IsTrue (is_refused result)
        → IsKeptOrSettled F.outside folder.old folder.new }
    ensures same_kind { F.outside.tells folder.new ≡ F.outside.tells folder.old }
{
    let Ok(()) = folder.sync() else {
        return Ending::FolderFault { unfinished: false };
    };
    let found = match pending(alloc, folder) {
        Ok(found) => found,
        Err(Or::Bad(Failed)) => return Ending::FolderFault { unfinished: false },
        Err(Or::OutOfMemory) => return Ending::OutOfMemory,
    };
    match phase_behind(operation.effect(), found) {
        Next::Refuse => Ending::Unfinished,
        Next::Recover => recovered(alloc, folder, kinds),
        Next::Show => shown(alloc, operation, source, folder),
        Next::Change => request(alloc, operation, source, folder, spawner, kinds),
        Next::Create => create(alloc, operation, source, folder, spawner, kinds),
    }
}
