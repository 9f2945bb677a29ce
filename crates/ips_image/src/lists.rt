//! The lists of an image, loaded one after another.

ghost use Rattle.std.specs.Prelude.{◌≡◌, IsTrue, IfOk};
ghost use Rattle.ips_text.specs.Reading.{IfBad};
ghost use Rattle.ips_text.specs.declared.refusal.Or.TheVariants.{Bad};
ghost use Rattle.ips_outside.specs.Outside.{Reads};
ghost use Rattle.ips_load.specs.Fault.{IsListFault};
ghost use Rattle.ips_load.specs.declared.fault.StateFault.TheVariants as fault;
ghost use Rattle.ips_image.specs.Held.{AreLists, HoldsLists, ArePlaces};

use ips_fmri::Fmri;
use ips_load::{StateFault, load_history, load_mediators, load_names, load_stems, path_of};
use ips_mediate::SetMediator;
use ips_outside::Source;
use ips_text::{Or, RelPath, Text};
use std::alloc::{AllocError, Global};

/// What the lists of an image say.
#[derive(Drop)]
pub struct Lists {
    /// The stems that group dependencies don't ask for, by their bytes.
    pub avoid: Vec<Text>,
    /// The stems that are kept at a version, by their bytes.
    pub freeze: Vec<Fmri>,
    /// What is set of mediators, by the bytes of their names.
    pub mediators: Vec<SetMediator>,
    /// A line for each request that was carried out.
    pub history: Vec<Text>,
}

// Where the lists stand.
#[derive(Drop)]
pub(crate) struct Places {
    pub(crate) avoid: RelPath,
    pub(crate) freeze: RelPath,
    pub(crate) mediators: RelPath,
    pub(crate) history: RelPath,
}

/// The lists of an image, in this order: avoided stems, freezes, mediators, history.
pub fn load_lists<F: Source>(alloc: Global, folder: &mut F) -> Result<Lists, Or<StateFault>>
    ensures lawful { IfOk result AreLists }
    ensures found { IsTrue (F.outside.tells folder.old) → IfOk result (HoldsLists (F.outside.state folder.old).held) }
    ensures fault { IsTrue (F.outside.tells folder.old) → IfBad result (IsListFault (F.outside.state folder.old).held) }
    ensures reads { Reads F.outside folder.old folder.new (result ≡ Err (Bad fault.FolderFault)) }
{
    let places = made_places(alloc)?;
    let avoid = load_stems(alloc, folder, &places.avoid)?;
    let freeze = load_names(alloc, folder, &places.freeze)?;
    let mediators = load_mediators(alloc, folder, &places.mediators)?;
    let history = load_history(alloc, folder, &places.history)?;
    Ok(Lists {
        avoid,
        freeze,
        mediators,
        history,
    })
}

// Where the lists stand.
fn made_places(alloc: Global) -> Result<Places, AllocError>
    ensures { IfOk result ArePlaces }
{
    Ok(Places {
        avoid: path_of(alloc, b"var/pkg/avoid")?,
        freeze: path_of(alloc, b"var/pkg/freeze")?,
        mediators: path_of(alloc, b"var/pkg/mediators")?,
        history: path_of(alloc, b"var/pkg/history")?,
    })
}
