//! A change made ready.

ghost use Rattle.std.specs.Prelude.{◌≡◌, ◌≤◌, Option, None, false, IsTrue, IsFalse, IfOk, OnOk, OnErr, IfErr, map};
ghost use Rattle.ips_outside.specs.Image.{Image, is_dir};
ghost use Rattle.ips_outside.specs.State.{IsSettled};
ghost use Rattle.ips_outside.specs.Outside.{HasCause, Reads};
ghost use Rattle.ips_folder.specs.Calls.{Throughout};
ghost use Rattle.ips_steps.specs.Private.{records_name, gate_name, visible};
ghost use Rattle.ips_steps.specs.Owed.{FolderOwes};
ghost use Rattle.ips_steps.specs.View.{step_of};
ghost use Rattle.ips_journal.specs.Text.{journal_text};
ghost use Rattle.ips_commit.specs.Answers.{IsToldOrMasked};
ghost use Rattle.ips_contents.specs.Contents.{AreIntactContents};
ghost use Rattle.ips_commit.specs.Staging.{CanStage, HasStaged};
ghost use Rattle.ips_history.specs.Directories.{shows, creates};
ghost use Rattle.ips_history.specs.declared.effect.Effect.{Effect};
ghost use Rattle.ips_run.specs.declared.operation.Change.{Change};
ghost use Rattle.ips_run.specs.declared.operation.Decision.TheVariants as decision;
ghost use Rattle.ips_run.specs.Planned.{CanBeListed};
ghost use Rattle.ips_run.specs.Ending.{EndsAs, TellsAsSaid, is_told, IsEarly, is_failed, is_folder_fault, is_source_fault};
ghost use Rattle.ips_run.specs.Comes.{IsUnready, Leaves};
ghost use Rattle.ips_run.specs.Phases.{IsReadied, IsUnbegun, IsUnstaged};

use crate::deciding::decided;
use crate::ending::Ending;
use crate::operation::{Change, Operation};
use ips_actuate::Words;
use ips_commit::{Ready, stage};
use ips_contents::StageFault;
use ips_folder::Folder;
use ips_outside::Source;
use ips_text::Or;
use std::alloc::Global;

// A change that stands ready, the actuators before it and after it, and what it tells.
#[derive(Drop)]
pub(crate) struct Prepared<T> {
    pub(crate) ready: Ready,
    pub(crate) before: Vec<Words>,
    pub(crate) after: Vec<Words>,
    pub(crate) told: T,
}

// Decides on a change, and stages it. Nothing that is seen is changed.
pub(crate) fn prepare<T: Drop, S: Source, F: Folder, C: Operation<T>>(
    alloc: Global,
    operation: &C,
    source: &mut S,
    folder: &mut F,
) -> Result<Prepared<T>, Ending<T>>
    requires shut { IsTrue (F.outside.tells folder.old) → (F.outside.state folder.old).held.look gate_name ≡ None }
    requires records { IsTrue (F.outside.tells folder.old) → IsTrue (creates (C.effect operation.now)) → IsTrue (is_dir ((F.outside.state folder.old).held.look records_name)) }
    ensures owed { IsTrue (F.outside.tells folder.old) → IsSettled (F.outside.state folder.old) → (a : Option Image)
        → Throughout F.outside folder.old folder.new (FolderOwes journal_text (visible (F.outside.state folder.old).held) a false) }
    ensures seen { IsTrue (F.outside.tells folder.old) → visible (F.outside.state folder.new).held ≡ visible (F.outside.state folder.old).held }
    ensures readied { IsTrue (F.outside.tells folder.old) → IfOk result (IsReadied (C.means operation.now (S.outside.tells source.old) (S.outside.state source.old).held)
        (C.decides operation.now (S.outside.tells source.old) (S.outside.state source.old).held (F.outside.state folder.old).held)
        (S.outside.tells source.old) (S.outside.state source.old).held (F.outside.state folder.old) (F.outside.state folder.new)) }
    ensures changes { IfOk result (λ _. IsFalse (shows (C.effect operation.now))) }
    ensures says { IfOk result (λ p. (c : Change T) × C.says operation.now (decision.Change c) × (p.told ≡ c.told)) }
    ensures told { IfErr result (TellsAsSaid (C.says operation.now)) }
    ensures early { IfErr result IsEarly }
    ensures unready { IsTrue (F.outside.tells folder.old) → IfErr result (IsUnready (C.effect operation.now)
        (C.decides operation.now (S.outside.tells source.old) (S.outside.state source.old).held (F.outside.state folder.old).held)
        (S.outside.tells source.old) (S.outside.state source.old).held) }
    ensures left { IsTrue (F.outside.tells folder.old) → IfErr result (Leaves (C.effect operation.now) (F.outside.state folder.old).held (F.outside.state folder.new).held) }
    ensures unbegun { IsTrue (F.outside.tells folder.old) → OnErr result (IsUnbegun (F.outside.state folder.old) (F.outside.state folder.new)) }
    ensures later { F.outside.changes folder.old ≤ F.outside.changes folder.new }
    ensures source { Reads S.outside source.old source.new
        (IsToldOrMasked (S.outside.faults source.old) (S.outside.faults source.new) (EndsAs is_source_fault result) (EndsAs is_failed result)) }
    ensures cause { HasCause (F.outside.faults folder.old) (F.outside.faults folder.new) (EndsAs is_folder_fault result) }
    ensures same_kind { F.outside.tells folder.new ≡ F.outside.tells folder.old }
{
    let change = match decided(alloc, operation, source, folder) {
        Ok(change) => change,
        Err(ending) => return Err(ending),
    };
    let ready = match ready_for(alloc, &change, source, folder) {
        Ok(ready) => ready,
        Err(ending) => return Err(ending),
    };
    let Change {
        publisher: _,
        steps: _,
        staged: _,
        before,
        after,
        told,
    } = change;
    Ok(Prepared {
        ready,
        before,
        after,
        told,
    })
}

// Stages a change.
fn ready_for<T: Drop, S: Source, F: Folder>(
    alloc: Global,
    change: &Change<T>,
    source: &mut S,
    folder: &mut F,
) -> Result<Ready, Ending<T>>
    requires listed { CanBeListed change.now }
    requires can { IsTrue (F.outside.tells folder.old) → CanStage (map step_of change.now.steps.items) change.now.staged.items (F.outside.state folder.old).held }
    ensures owed { IsTrue (F.outside.tells folder.old) → IsSettled (F.outside.state folder.old) → (a : Option Image)
        → Throughout F.outside folder.old folder.new (FolderOwes journal_text (visible (F.outside.state folder.old).held) a false) }
    ensures seen { IsTrue (F.outside.tells folder.old) → visible (F.outside.state folder.new).held ≡ visible (F.outside.state folder.old).held }
    ensures staged { IsTrue (F.outside.tells folder.old) → OnOk result
        (HasStaged (S.outside.tells source.old) (S.outside.state source.old).held change.now.publisher (map step_of change.now.steps.items) change.now.staged.items (F.outside.state folder.old).held (F.outside.state folder.new)) }
    ensures intact { IsTrue (S.outside.tells source.old) → OnOk result (AreIntactContents (S.outside.state source.old).held change.now.publisher change.now.staged.items) }
    ensures early { IfErr result IsEarly }
    ensures silent { IfErr result (λ x. IsFalse (is_told x)) }
    ensures unstaged { IfErr result (IsUnstaged (S.outside.tells source.old) (S.outside.state source.old).held change.now) }
    ensures left { IsTrue (F.outside.tells folder.old) → (effect : Effect) → IfErr result (Leaves effect (F.outside.state folder.old).held (F.outside.state folder.new).held) }
    ensures unbegun { IsTrue (F.outside.tells folder.old) → OnErr result (IsUnbegun (F.outside.state folder.old) (F.outside.state folder.new)) }
    ensures later { F.outside.changes folder.old ≤ F.outside.changes folder.new }
    ensures source { Reads S.outside source.old source.new
        (IsToldOrMasked (S.outside.faults source.old) (S.outside.faults source.new) (EndsAs is_source_fault result) (EndsAs is_failed result)) }
    ensures cause { HasCause (F.outside.faults folder.old) (F.outside.faults folder.new) (EndsAs is_folder_fault result) }
    ensures same_kind { F.outside.tells folder.new ≡ F.outside.tells folder.old }
{
    match stage(
        alloc,
        change.publisher.as_str(),
        &change.steps,
        &change.staged,
        source,
        folder,
    ) {
        Ok(ready) => Ok(ready),
        Err(Or::Bad(StageFault::Payload { name, fault })) => Err(Ending::BadPayload {
            name,
            fault,
        }),
        Err(Or::Bad(StageFault::SourceFault)) => Err(Ending::SourceFault),
        Err(Or::Bad(StageFault::FolderFault)) => Err(Ending::FolderFault { unfinished: false }),
        Err(Or::OutOfMemory) => Err(Ending::OutOfMemory),
    }
}
