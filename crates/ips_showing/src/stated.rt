//! What the records tell.

ghost use Rattle.std.specs.Prelude.{◌≡◌, ◌≢◌, Err, IsTrue, IfOk};
ghost use Rattle.ips_text.specs.declared.refusal.Or.TheVariants.{Bad};
ghost use Rattle.ips_outside.specs.Image.{Image};
ghost use Rattle.ips_outside.specs.Outside.{Reads};
ghost use Rattle.ips_history.specs.declared.effect.Effect.TheVariants as effect;
ghost use Rattle.ips_state.specs.State.{recorded};
ghost use Rattle.ips_load.specs.Held.{Holds};
ghost use Rattle.ips_run.specs.Planned.{IsOfEffect};
ghost use Rattle.ips_tell.specs.told.Told.{IsToldAs};
ghost use Rattle.ips_run.specs.declared.operation.DecideFault.TheVariants as fault;
ghost use Rattle.ips_showing.specs.Asked.{Contents, IsOfRecords, asked};
ghost use Rattle.ips_showing.specs.Shows.{IsPackageText, Shows};

use crate::answers::{text_shown, unnamed};
use crate::comparing::compared;
use crate::showing::Showing;
use ips_filter::Settings;
use ips_fmri::Pattern;
use ips_folder::Folder;
use ips_image::load;
use ips_manifest::Package;
use ips_report::Outcome;
use ips_run::{DecideFault, Decision};
use ips_shown::{contents_text, history_text, list_text, named};
use ips_state::State;
use ips_tell::refusals::unread;
use ips_text::{Or, Text};
use std::alloc::{AllocError, Global};

// What is decided where all records are asked for.
pub(crate) fn loaded<F: Folder>(
    alloc: Global,
    showing: &Showing<'_>,
    folder: &mut F,
) -> Result<Decision<Outcome>, Or<DecideFault>>
    requires { IsOfRecords (asked showing.now) }
    ensures decided { IsTrue (F.outside.tells folder.old) → IfOk result (Shows (F.outside.state folder.old).held (asked showing.now)) }
    ensures of_effect { IfOk result (IsOfEffect effect.Shows) }
    ensures says { IfOk result IsToldAs }
    ensures unasked { result ≢ Err (Bad fault.SourceFault) }
    ensures reads { Reads F.outside folder.old folder.new (result ≡ Err (Bad fault.FolderFault)) }
{
    match load(alloc, folder) {
        Ok(state) => stated(alloc, showing, &state, folder),
        Err(fault) => unread(fault),
    }
}

// The same, where the records tell this state.
fn stated<F: Folder>(
    alloc: Global,
    showing: &Showing<'_>,
    state: &State,
    folder: &mut F,
) -> Result<Decision<Outcome>, Or<DecideFault>>
    requires asks { IsOfRecords (asked showing.now) }
    requires holds { IsTrue (F.outside.tells folder.old) → Holds (F.outside.state folder.old).held (recorded state.now) }
    ensures decided { IsTrue (F.outside.tells folder.old) → IfOk result (Shows (F.outside.state folder.old).held (asked showing.now)) }
    ensures of_effect { IfOk result (IsOfEffect effect.Shows) }
    ensures says { IfOk result IsToldAs }
    ensures unasked { result ≢ Err (Bad fault.SourceFault) }
    ensures reads { Reads F.outside folder.old folder.new (result ≡ Err (Bad fault.FolderFault)) }
{
    match showing {
        Showing::Listing => text_shown(list_text(alloc, &state.installed)),
        Showing::History => text_shown(history_text(alloc, &state.history)),
        Showing::Contents { pattern, manifest } => delivered(alloc, state, pattern, *manifest),
        Showing::Verify => compared(alloc, state, folder),
        Showing::Search { .. } => unreachable!(),
    }
}

// What is decided of the package that the pattern names.
fn delivered(
    alloc: Global,
    state: &State,
    pattern: &Pattern,
    manifest: bool,
) -> Result<Decision<Outcome>, Or<DecideFault>>
    ensures decided { (t : Image) → Holds t (recorded state.now) → IfOk result (Shows t (Contents pattern.now manifest)) }
    ensures of_effect { IfOk result (IsOfEffect effect.Shows) }
    ensures says { IfOk result IsToldAs }
    ensures unasked { result ≢ Err (Bad fault.SourceFault) }
    ensures kept { result ≢ Err (Bad fault.FolderFault) }
{
    match named(alloc, state.publisher.as_str(), &state.installed, pattern) {
        Ok(held) => text_shown(package_text(alloc, held, &state.settings, manifest)),
        Err(Or::Bad(why)) => Ok(unnamed(why)),
        Err(Or::OutOfMemory) => Err(Or::OutOfMemory),
    }
}

// What the package delivers, or its manifest.
fn package_text(
    alloc: Global,
    held: &Package,
    settings: &Settings,
    manifest: bool,
) -> Result<Text, AllocError>
    ensures { IfOk result (IsPackageText manifest settings.now held.now) }
{
    if manifest {
        held.manifest.print(alloc)
    } else {
        contents_text(alloc, held, settings)
    }
}
