//! What a command asks of an image's records.

ghost use Rattle.std.specs.Prelude.{◌≡◌, [], ◌∷◌, map, OnOk};
ghost use Rattle.ips_mediate.specs.declared.set.SetMediator as mediate;
ghost use Rattle.ips_state.specs.State.{installed, recorded};
ghost use Rattle.ips_asked.specs.Asked as asked;
ghost use Rattle.ips_asked.specs.Named.{ArePutIn};
ghost use Rattle.ips_asked.specs.Asked.{AreMediatorsAsked, AreSettingsAsked, IsAskedBy, IsAvoidAsked, IsFreezeAsked, origins_asked};

use crate::avoiding::avoid_too;
use crate::copying::{copy_text, copy_version};
use crate::named::put_in;
use crate::origins::{set_origin, unset_origin};
use crate::removing::{remove_freezes, remove_mediator, remove_stems};
use crate::setting::{set_facets, set_variant};
use ips_filter::Settings;
use ips_fmri::{Fmri, Version};
use ips_manifest::Package;
use ips_mediate::SetMediator;
use ips_state::{Origin, State};
use ips_text::Text;
use ips_words::What;
use std::alloc::{AllocError, Global};

/// Changes the records as the command asks, before any package is chosen: variants and facets, avoided stems, freezes, mediators,
/// origins and the format. A command that asks for nothing of these leaves them. Where memory runs out, a part may be changed.
pub fn ask(alloc: Global, what: &What, state: &mut State) -> Result<(), AllocError>
    ensures { OnOk result (IsAskedBy what.now (recorded state.old) (recorded state.new)) }
{
    state.format = format_asked(what, state.format);
    ask_origins(alloc, what, &state.publisher, &mut state.origins)?;
    ask_settings(alloc, what, &mut state.settings)?;
    ask_avoid(alloc, what, &state.installed, &mut state.avoid)?;
    ask_freeze(alloc, what, &mut state.freeze)?;
    ask_mediators(alloc, what, &mut state.mediators)
}

// The format that is asked for.
fn format_asked(what: &What, format: u8) -> u8
    ensures { result ≡ asked.format_asked what.now format }
{
    match what {
        What::UpdateFormat => 2,
        _ => format,
    }
}

// Changes the origins as the command asks.
fn ask_origins(
    alloc: Global,
    what: &What,
    publisher: &Text,
    origins: &mut Vec<Origin>,
) -> Result<(), AllocError>
    ensures { OnOk result (origins.new.items ≡ origins_asked what.now publisher.now origins.old.items) }
{
    match what {
        What::SetPublisher {
            name,
            first,
            sticky,
        } => set_origin(alloc, origins, publisher, name, *first, *sticky),
        What::UnsetPublisher { name } => {
            unset_origin(origins, publisher, name);
            Ok(())
        }
        _ => Ok(()),
    }
}

// Changes variants and facets as the command asks.
fn ask_settings(alloc: Global, what: &What, settings: &mut Settings) -> Result<(), AllocError>
    ensures { OnOk result (AreSettingsAsked what.now settings.old settings.new) }
{
    match what {
        What::ChangeFacet { facets, .. } => set_facets(alloc, settings, facets),
        What::ChangeVariant { name, value, .. } => set_variant(alloc, settings, name, value),
        _ => Ok(()),
    }
}

// Changes the avoided stems as the command asks.
fn ask_avoid(
    alloc: Global,
    what: &What,
    packages: &[Package],
    avoid: &mut Vec<Text>,
) -> Result<(), AllocError>
    ensures { OnOk result (IsAvoidAsked what.now (map installed packages.now) avoid.old.items avoid.new.items) }
{
    match what {
        What::Avoid { stems } => avoid_too(alloc, avoid, packages, stems),
        What::Unavoid { stems } => remove_stems(alloc, avoid, stems),
        _ => Ok(()),
    }
}

// Changes the freezes as the command asks.
fn ask_freeze(alloc: Global, what: &What, freeze: &mut Vec<Fmri>) -> Result<(), AllocError>
    ensures { OnOk result (IsFreezeAsked what.now freeze.old.items freeze.new.items) }
{
    match what {
        What::Freeze { freezes } => put_in(alloc, freeze, freezes),
        What::Unfreeze { stems } => remove_freezes(alloc, freeze, stems),
        _ => Ok(()),
    }
}

// Changes the settings of mediators as the command asks.
fn ask_mediators(
    alloc: Global,
    what: &What,
    mediators: &mut Vec<SetMediator>,
) -> Result<(), AllocError>
    ensures { OnOk result (AreMediatorsAsked what.now mediators.old.items mediators.new.items) }
{
    match what {
        What::SetMediator {
            name,
            version,
            implementation,
        } => set_mediator(alloc, mediators, name, version, implementation),
        What::UnsetMediator { name } => {
            remove_mediator(mediators, name);
            Ok(())
        }
        _ => Ok(()),
    }
}

// Puts a setting in the place of an older one of that mediator.
fn set_mediator(
    alloc: Global,
    mediators: &mut Vec<SetMediator>,
    name: &Text,
    version: &Option<Version>,
    implementation: &Option<Text>,
) -> Result<(), AllocError>
    ensures { OnOk result (ArePutIn (λ (m : mediate.SetMediator). m.name) (record { name = name.now; version = version.now; implementation = implementation.now } ∷ []) mediators.old.items mediators.new.items) }
{
    let mediator = SetMediator {
        name: name.copy(alloc)?,
        version: copy_version(alloc, version)?,
        implementation: copy_text(alloc, implementation)?,
    };
    put_in(alloc, mediators, &[mediator])
}
