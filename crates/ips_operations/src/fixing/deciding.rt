//! The steps of a decision: the state that the records tell, what its packages mean, what is found against that, the steps that repair it, and the change.

ghost use Rattle.std.specs.Prelude.{◌≡◌, ◌<◌, None, IsTrue, IfOk, OnOk};
ghost use Rattle.ips_outside.specs.Image.{is_dir};
ghost use Rattle.ips_steps.specs.Private.{gate_name, records_name};
ghost use Rattle.ips_state.specs.State.{recorded};
ghost use Rattle.ips_state.specs.Lawful.{IsLawful};
ghost use Rattle.ips_asked.specs.Formed.{CanBeKept, IsFormedCommand};
ghost use Rattle.ips_plan.specs.image_plan.Meaning.{StateMeans};
ghost use Rattle.ips_tell.specs.told.Told.{IsToldAs};
ghost use Rattle.ips_operations.specs.fixing.Decides.{IsNewState};
ghost use Rattle.ips_operations.specs.fixing.Deciding.{AnswersRepair, AreFindings, CanRepair, IsDecisionOf};
ghost use Rattle.ips_operations.specs.fixing.Fixes.{IsNoted, Repairing, repairs};
ghost use Rattle.ips_operations.specs.fixing.Told.{unrepaired_told};

use ips_folder::Folder;
use ips_image::load;
use ips_meaning::{Finding, Want};
use ips_next::add_line;
use ips_outside::Failed;
use ips_plan::image_plan::meaning;
use ips_repair::{RepairFault, repair};
use ips_report::Outcome;
use ips_run::{DecideFault, Decision};
use ips_state::State;
use ips_tell::refusals::{unmeant, unread};
use ips_tell::told::change_of_steps;
use ips_text::Or;
use ips_verify::findings;
use ips_words::Command;
use std::alloc::{AllocError, Global};

// What the command decides.
pub(crate) fn decided<F: Folder>(
    alloc: Global,
    command: &Command,
    moment: u64,
    folder: &mut F,
) -> Result<Decision<Outcome>, Or<DecideFault>>
    requires moment { moment < 253370764800 }
    requires formed { IsFormedCommand command.now }
    requires fixes { IsTrue (repairs command.now.what) }
    requires shut { IsTrue (F.outside.tells folder.old) → (F.outside.state folder.old).held.look gate_name ≡ None }
    ensures decided { IsTrue (F.outside.tells folder.old) → IsDecisionOf (record { command = command.now; moment = moment }) (F.outside.state folder.old).held result }
    ensures answers { AnswersRepair F.outside folder.old folder.new result }
{
    match load(alloc, folder) {
        Ok(state) if state.format == 1 => Ok(Decision::Refused(Outcome::OldFormat)),
        Ok(mut state) => stated(alloc, command, moment, &mut state, folder),
        Err(fault) => unread(fault),
    }
}

// The same, where the records tell this state.
fn stated<F: Folder>(
    alloc: Global,
    command: &Command,
    moment: u64,
    state: &mut State,
    folder: &mut F,
) -> Result<Decision<Outcome>, Or<DecideFault>>
    requires can { CanRepair F.outside (record { command = command.now; moment = moment }) folder.old state.old }
    ensures decided { IsTrue (F.outside.tells folder.old) → IsDecisionOf (record { command = command.now; moment = moment }) (F.outside.state folder.old).held result }
    ensures answers { AnswersRepair F.outside folder.old folder.new result }
{
    match meaning(alloc, state) {
        Ok(want) => compared(alloc, command, moment, state, &want, folder),
        Err(Or::Bad(fault)) => Ok(unmeant(fault)),
        Err(Or::OutOfMemory) => Err(Or::OutOfMemory),
    }
}

// The same, where its packages mean this.
fn compared<F: Folder>(
    alloc: Global,
    command: &Command,
    moment: u64,
    state: &mut State,
    want: &Want,
    folder: &mut F,
) -> Result<Decision<Outcome>, Or<DecideFault>>
    requires can { CanRepair F.outside (record { command = command.now; moment = moment }) folder.old state.old }
    requires meant { StateMeans state.old want.now }
    ensures decided { IsTrue (F.outside.tells folder.old) → IsDecisionOf (record { command = command.now; moment = moment }) (F.outside.state folder.old).held result }
    ensures answers { AnswersRepair F.outside folder.old folder.new result }
{
    match findings(alloc, want, folder) {
        Ok(found) if found.is_empty() => Ok(Decision::Nothing),
        Ok(found) => damaged(alloc, command, moment, state, want, &found, folder),
        Err(Or::Bad(Failed)) => Err(Or::Bad(DecideFault::FolderFault)),
        Err(Or::OutOfMemory) => Err(Or::OutOfMemory),
    }
}

// The same, where this is found, and that is something.
fn damaged<F: Folder>(
    alloc: Global,
    command: &Command,
    moment: u64,
    state: &mut State,
    want: &Want,
    found: &[Finding],
    folder: &mut F,
) -> Result<Decision<Outcome>, Or<DecideFault>>
    requires can { CanRepair F.outside (record { command = command.now; moment = moment }) folder.old state.old }
    requires meant { StateMeans state.old want.now }
    requires found { AreFindings F.outside folder.old want.now found.now }
    ensures decided { IsTrue (F.outside.tells folder.old) → IsDecisionOf (record { command = command.now; moment = moment }) (F.outside.state folder.old).held result }
    ensures answers { AnswersRepair F.outside folder.old folder.new result }
{
    match noted(alloc, command, moment, state) {
        Ok(()) => mended(alloc, moment, state, want, found, folder),
        Err(AllocError) => Err(Or::OutOfMemory),
    }
}

// Puts the line of the command behind the history of the state.
fn noted(alloc: Global, command: &Command, moment: u64, state: &mut State) -> Result<(), AllocError>
    requires moment { moment < 253370764800 }
    requires kept { CanBeKept command.now.history }
    requires lawful { IsLawful (recorded state.old) }
    ensures noted { OnOk result (IsNoted (record { command = command.now; moment = moment }) state.old state.new) }
    ensures lawful { OnOk result (IsLawful (recorded state.new)) }
{
    add_line(alloc, moment, &command.history, &mut state.history)?;
    Ok(())
}

// What is decided where this is the new state.
fn mended<F: Folder>(
    alloc: Global,
    moment: u64,
    new: &State,
    want: &Want,
    found: &[Finding],
    folder: &mut F,
) -> Result<Decision<Outcome>, Or<DecideFault>>
    requires moment { moment < 253370764800 }
    requires lawful { IsLawful (recorded new.now) }
    requires meant { StateMeans new.now want.now }
    requires found { AreFindings F.outside folder.old want.now found.now }
    requires shut { IsTrue (F.outside.tells folder.old) → (F.outside.state folder.old).held.look gate_name ≡ None }
    requires records { IsTrue (F.outside.tells folder.old) → IsTrue (is_dir ((F.outside.state folder.old).held.look records_name)) }
    ensures decided { IsTrue (F.outside.tells folder.old) → (a : Repairing) → a.moment ≡ moment → IsNewState a (F.outside.state folder.old).held new.now → IsDecisionOf a (F.outside.state folder.old).held result }
    ensures answers { AnswersRepair F.outside folder.old folder.new result }
{
    let Ok(publisher) = new.publisher.copy(alloc) else {
        return Err(Or::OutOfMemory);
    };
    match repair(alloc, new, want, found, moment, folder) {
        Ok(emitted) => Ok(Decision::Change(change_of_steps(alloc, publisher, emitted))),
        Err(fault) => unrepaired(fault),
    }
}

// It is told that the image isn't repaired.
fn unrepaired(fault: Or<RepairFault>) -> Result<Decision<Outcome>, Or<DecideFault>>
    ensures told { result ≡ unrepaired_told fault }
    ensures says { IfOk result IsToldAs }
{
    match fault {
        Or::Bad(RepairFault::Unmovable(path)) => Ok(Decision::Refused(Outcome::Unmovable { path })),
        Or::Bad(RepairFault::TooLarge(excess)) => Ok(Decision::Refused(Outcome::TooLarge {
            which: excess.which,
            count: excess.count,
        })),
        Or::Bad(RepairFault::FolderFault) => Err(Or::Bad(DecideFault::FolderFault)),
        Or::OutOfMemory => Err(Or::OutOfMemory),
    }
}
