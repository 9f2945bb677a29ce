//! The steps of a decision: whether there is an image, the state that the command begins, the steps that make it, and the change.

ghost use Rattle.std.specs.Prelude.{◌≡◌, ◌≢◌, ◌↔◌, ◌<◌, Bool, None, Err, IsTrue, IfOk};
ghost use Rattle.ips_text.specs.declared.refusal.Or.TheVariants.{Bad};
ghost use Rattle.ips_outside.specs.Image.{Image, is_dir};
ghost use Rattle.ips_outside.specs.Outside.{Reads};
ghost use Rattle.ips_outside.specs.declared.outside.Look.TheVariants.{Absent};
ghost use Rattle.ips_text.specs.Path.{IsPath};
ghost use Rattle.ips_steps.specs.Private.{gate_name, records_name};
ghost use Rattle.ips_history.specs.declared.effect.Effect.TheVariants as effects;
ghost use Rattle.ips_state.specs.Records.{image_path};
ghost use Rattle.ips_state.specs.State.{recorded};
ghost use Rattle.ips_state.specs.Lawful.{IsLawful};
ghost use Rattle.ips_asked.specs.Formed.{IsFormedCommand};
ghost use Rattle.ips_plan.specs.created.Made.{IsBlank};
ghost use Rattle.ips_run.specs.Planned.{CanBeListed, IfChange, IsOfEffect, IsPlanned};
ghost use Rattle.ips_run.specs.declared.operation.DecideFault.TheVariants as fault;
ghost use Rattle.ips_tell.specs.told.Told.{IsToldAs};
ghost use Rattle.ips_operations.specs.creating.Creations.{Creation, IsBegun, makes_image};
ghost use Rattle.ips_operations.specs.creating.Decides.{Decides, makes_of};
ghost use Rattle.ips_operations.specs.creating.Told.{unmade_told};

use crate::creating::beginning::begun;
use ips_folder::Folder;
use ips_load::path_of;
use ips_outside::{Failed, Look};
use ips_plan::created::{CreateFault, create};
use ips_report::Outcome;
use ips_run::{DecideFault, Decision};
use ips_state::State;
use ips_tell::told::change_of_steps;
use ips_text::Or;
use ips_words::Command;
use std::alloc::{AllocError, Global};

// What the command decides.
pub(crate) fn decided<F: Folder>(
    alloc: Global,
    command: &Command,
    moment: u64,
    folder: &mut F,
) -> Result<Decision<Outcome>, Or<DecideFault>>
    requires moment { moment < 253370764800 }
    requires formed { IsFormedCommand command.now }
    requires makes { IsTrue (makes_image command.now.what) }
    requires shut { IsTrue (F.outside.tells folder.old) → (F.outside.state folder.old).held.look gate_name ≡ None }
    requires records { IsTrue (F.outside.tells folder.old) → IsTrue (is_dir ((F.outside.state folder.old).held.look records_name)) }
    ensures decided { IsTrue (F.outside.tells folder.old) → IfOk result (Decides (record { command = command.now; moment = moment }) (F.outside.state folder.old).held) }
    ensures of_effect { IfOk result (IsOfEffect effects.Creates) }
    ensures says { IfOk result IsToldAs }
    ensures lists { IfOk result (IfChange CanBeListed) }
    ensures planned { IsTrue (F.outside.tells folder.old) → (tells : Bool) (repository : Image)
        → IfOk result (IfChange (IsPlanned (makes_of (record { command = command.now; moment = moment })) tells repository (F.outside.state folder.old).held)) }
    ensures unasked { result ≢ Err (Bad fault.SourceFault) }
    ensures reads { Reads F.outside folder.old folder.new (result ≡ Err (Bad fault.FolderFault)) }
{
    let Ok(head) = path_of(alloc, b"var/pkg/image") else {
        return Err(Or::OutOfMemory);
    };
    match folder.look(&head) {
        Ok(found) if is_absent(&found) => begin(alloc, command, moment, folder),
        Ok(_) => Ok(Decision::Refused(Outcome::ImageExists)),
        Err(Failed) => Err(Or::Bad(DecideFault::FolderFault)),
    }
}

// Whether nothing stands there.
fn is_absent(found: &Look) -> bool
    ensures { IsTrue result ↔ found.now ≡ Absent }
{
    matches!(found, Look::Absent)
}

// The same, where there is no image.
fn begin<F: Folder>(
    alloc: Global,
    command: &Command,
    moment: u64,
    folder: &mut F,
) -> Result<Decision<Outcome>, Or<DecideFault>>
    requires moment { moment < 253370764800 }
    requires formed { IsFormedCommand command.now }
    requires makes { IsTrue (makes_image command.now.what) }
    requires none { IsTrue (F.outside.tells folder.old) → (F.outside.state folder.old).held.look image_path ≡ None }
    requires shut { IsTrue (F.outside.tells folder.old) → (F.outside.state folder.old).held.look gate_name ≡ None }
    requires records { IsTrue (F.outside.tells folder.old) → IsTrue (is_dir ((F.outside.state folder.old).held.look records_name)) }
    ensures decided { IsTrue (F.outside.tells folder.old) → IfOk result (Decides (record { command = command.now; moment = moment }) (F.outside.state folder.old).held) }
    ensures of_effect { IfOk result (IsOfEffect effects.Creates) }
    ensures says { IfOk result IsToldAs }
    ensures lists { IfOk result (IfChange CanBeListed) }
    ensures planned { IsTrue (F.outside.tells folder.old) → (tells : Bool) (repository : Image)
        → IfOk result (IfChange (IsPlanned (makes_of (record { command = command.now; moment = moment })) tells repository (F.outside.state folder.old).held)) }
    ensures unasked { result ≢ Err (Bad fault.SourceFault) }
    ensures reads { Reads F.outside folder.old folder.new (result ≡ Err (Bad fault.FolderFault)) }
{
    match begun(alloc, command, moment) {
        Ok(state) => lay(alloc, &state, moment, folder),
        Err(AllocError) => Err(Or::OutOfMemory),
    }
}

// The same, where this is the state that the command begins.
fn lay<F: Folder>(
    alloc: Global,
    state: &State,
    moment: u64,
    folder: &mut F,
) -> Result<Decision<Outcome>, Or<DecideFault>>
    requires moment { moment < 253370764800 }
    requires lawful { IsLawful (recorded state.now) }
    requires blank { IsBlank state.now }
    requires shut { IsTrue (F.outside.tells folder.old) → (F.outside.state folder.old).held.look gate_name ≡ None }
    requires records { IsTrue (F.outside.tells folder.old) → IsTrue (is_dir ((F.outside.state folder.old).held.look records_name)) }
    ensures decided { IsTrue (F.outside.tells folder.old) → (a : Creation) → a.moment ≡ moment → IsBegun a state.now → (F.outside.state folder.old).held.look image_path ≡ None → IfOk result (Decides a (F.outside.state folder.old).held) }
    ensures of_effect { IfOk result (IsOfEffect effects.Creates) }
    ensures says { IfOk result IsToldAs }
    ensures lists { IfOk result (IfChange CanBeListed) }
    ensures planned { IsTrue (F.outside.tells folder.old) → (a : Creation) (tells : Bool) (repository : Image) → IsBegun a state.now → IfOk result (IfChange (IsPlanned (makes_of a) tells repository (F.outside.state folder.old).held)) }
    ensures unasked { result ≢ Err (Bad fault.SourceFault) }
    ensures reads { Reads F.outside folder.old folder.new (result ≡ Err (Bad fault.FolderFault)) }
{
    let Ok(publisher) = state.publisher.copy(alloc) else {
        return Err(Or::OutOfMemory);
    };
    match create(alloc, state, moment, folder) {
        Ok(emitted) => Ok(Decision::Change(change_of_steps(alloc, publisher, emitted))),
        Err(fault) => unmade(fault),
    }
}

// It is told that the image isn't made.
fn unmade(fault: Or<CreateFault>) -> Result<Decision<Outcome>, Or<DecideFault>>
    ensures told { result ≡ unmade_told fault }
    ensures says { IfOk result IsToldAs }
{
    match fault {
        Or::Bad(CreateFault::Unmovable(path)) => Ok(Decision::Refused(Outcome::Unmovable { path })),
        Or::Bad(CreateFault::TooLarge(excess)) => Ok(Decision::Refused(Outcome::TooLarge {
            which: excess.which,
            count: excess.count,
        })),
        Or::Bad(CreateFault::FolderFault) => Err(Or::Bad(DecideFault::FolderFault)),
        Or::OutOfMemory => Err(Or::OutOfMemory),
    }
}
