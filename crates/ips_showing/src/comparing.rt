//! What differs from the packages.

ghost use Rattle.std.specs.Prelude.{◌≡◌, ◌≢◌, Err, IsTrue, IfOk};
ghost use Rattle.ips_text.specs.declared.refusal.Or.TheVariants.{Bad};
ghost use Rattle.ips_outside.specs.Image.{Image};
ghost use Rattle.ips_outside.specs.Outside.{Reads};
ghost use Rattle.ips_history.specs.declared.effect.Effect.TheVariants as effect;
ghost use Rattle.ips_meaning.specs.Want.{PackagesMean};
ghost use Rattle.ips_state.specs.State.{recorded};
ghost use Rattle.ips_load.specs.Held.{Holds};
ghost use Rattle.ips_run.specs.Planned.{IsOfEffect};
ghost use Rattle.ips_tell.specs.told.Told.{IsToldAs};
ghost use Rattle.ips_run.specs.declared.operation.DecideFault.TheVariants as fault;
ghost use Rattle.ips_showing.specs.Asked as asked;
ghost use Rattle.ips_showing.specs.Shows.{AreCompared, Loaded, Shows};

use crate::answers::text_shown;
use ips_folder::Folder;
use ips_meaning::{Finding, Want, want};
use ips_outside::Failed;
use ips_report::Outcome;
use ips_run::{DecideFault, Decision};
use ips_state::State;
use ips_tell::refusals::unmeant;
use ips_text::{Or, Text};
use ips_verify::findings;
use std::alloc::Global;

// What `verify` decides, where the records tell this state.
pub(crate) fn compared<F: Folder>(
    alloc: Global,
    state: &State,
    folder: &mut F,
) -> Result<Decision<Outcome>, Or<DecideFault>>
    requires { IsTrue (F.outside.tells folder.old) → Holds (F.outside.state folder.old).held (recorded state.now) }
    ensures decided { IsTrue (F.outside.tells folder.old) → IfOk result (Shows (F.outside.state folder.old).held asked.Verify) }
    ensures of_effect { IfOk result (IsOfEffect effect.Shows) }
    ensures says { IfOk result IsToldAs }
    ensures unasked { result ≢ Err (Bad fault.SourceFault) }
    ensures reads { Reads F.outside folder.old folder.new (result ≡ Err (Bad fault.FolderFault)) }
{
    match want(alloc, &state.installed, &state.settings, &state.mediators) {
        Ok(want) => against(alloc, state, &want, folder),
        Err(Or::Bad(fault)) => Ok(unmeant(fault)),
        Err(Or::OutOfMemory) => Err(Or::OutOfMemory),
    }
}

// The same, where the packages mean this.
fn against<F: Folder>(
    alloc: Global,
    state: &State,
    want: &Want,
    folder: &mut F,
) -> Result<Decision<Outcome>, Or<DecideFault>>
    requires holds { IsTrue (F.outside.tells folder.old) → Holds (F.outside.state folder.old).held (recorded state.now) }
    requires mean { PackagesMean state.now.settings state.now.mediators.items state.now.installed.items want.now }
    ensures decided { IsTrue (F.outside.tells folder.old) → IfOk result (Shows (F.outside.state folder.old).held asked.Verify) }
    ensures of_effect { IfOk result (IsOfEffect effect.Shows) }
    ensures says { IfOk result IsToldAs }
    ensures unasked { result ≢ Err (Bad fault.SourceFault) }
    ensures reads { Reads F.outside folder.old folder.new (result ≡ Err (Bad fault.FolderFault)) }
{
    match findings(alloc, want, folder) {
        Ok(found) => judged(alloc, found),
        Err(Or::Bad(Failed)) => Err(Or::Bad(DecideFault::FolderFault)),
        Err(Or::OutOfMemory) => Err(Or::OutOfMemory),
    }
}

// What is decided of the findings.
fn judged(alloc: Global, found: Vec<Finding>) -> Result<Decision<Outcome>, Or<DecideFault>>
    ensures decided { (t : Image) (l : Loaded t) → AreCompared t l.state found.items → IfOk result (Shows t asked.Verify) }
    ensures of_effect { IfOk result (IsOfEffect effect.Shows) }
    ensures says { IfOk result IsToldAs }
    ensures unasked { result ≢ Err (Bad fault.SourceFault) }
    ensures kept { result ≢ Err (Bad fault.FolderFault) }
{
    if found.is_empty() {
        return text_shown(Text::new(alloc, "ok\n"));
    }
    Ok(Decision::Refused(Outcome::Damaged { findings: found }))
}
