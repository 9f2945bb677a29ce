//! The manifest and its contents.

ghost use Rattle.std.specs.Prelude.{◌≡◌, ◌++◌, ◌∷◌, false, [], IfOk, OnOk, map};
ghost use Rattle.std.specs.List.{AllByRecursion, flat_map};
ghost use Rattle.ips_fmri.specs.Name.{IsPublisher, IsStem};
ghost use Rattle.ips_fmri.specs.Version.{IsVersion};
ghost use Rattle.ips_manifest.specs.Manifest.{StandsOnLine};
ghost use Rattle.ips_sends.specs.Published.{fmri_text, named_actions};
ghost use Rattle.ips_prepare.specs.Prepared.{IsEntry, actions_of, actions_filled, contents_in};

use crate::naming::first_lines;
use crate::prepared::{Content, Prepared};
use ips_filling::Filled;
use ips_fmri::Version;
use ips_manifest::Manifest;
use std::alloc::{AllocError, Global};

/// The manifest of these lines, in which the name of the package stands, and their contents.
pub fn prepare(
    alloc: Global,
    publisher: &str,
    stem: &str,
    version: &Version,
    filled: Vec<Filled>,
) -> Result<Prepared, AllocError>
    requires publisher { IsPublisher publisher.now }
    requires stem { IsStem false stem.now }
    requires version { IsVersion version.now }
    requires entries { AllByRecursion IsEntry filled.items }
    ensures named { IfOk result (λ p. actions_of p.manifest.lines.items ≡ named_actions (fmri_text publisher.now stem.now version.now) (actions_filled filled.items)) }
    ensures stand { IfOk result (λ p. AllByRecursion StandsOnLine p.manifest.lines.items) }
    ensures contents { IfOk result (λ p. p.contents.items ≡ flat_map contents_in filled.items) }
{
    let lines = first_lines(alloc, publisher, stem, version, filled.as_slice())?;
    let mut prepared = Prepared {
        manifest: Manifest { lines },
        contents: Vec::new(alloc),
    };
    match add_all(&mut prepared, filled) {
        Ok(()) => Ok(prepared),
        Err(AllocError) => Err(AllocError),
    }
}

// Adds lines, and their contents.
fn add_all(prepared: &mut Prepared, filled: Vec<Filled>) -> Result<(), AllocError>
    requires entries { AllByRecursion IsEntry filled.items }
    requires stand { AllByRecursion StandsOnLine prepared.old.manifest.lines.items }
    ensures lines { OnOk result (prepared.new.manifest.lines.items ≡ prepared.old.manifest.lines.items ++ map (λ f. f.line) filled.items) }
    ensures stand { OnOk result (AllByRecursion StandsOnLine prepared.new.manifest.lines.items) }
    ensures contents { OnOk result (prepared.new.contents.items ≡ prepared.old.contents.items ++ flat_map contents_in filled.items) }
{
    for one in filled {
        add(prepared, one)?;
    }
    Ok(())
}

// Adds a line, and its content, where it has one.
fn add(prepared: &mut Prepared, filled: Filled) -> Result<(), AllocError>
    ensures lines { OnOk result (prepared.new.manifest.lines.items ≡ prepared.old.manifest.lines.items ++ filled.line ∷ []) }
    ensures contents { OnOk result (prepared.new.contents.items ≡ prepared.old.contents.items ++ contents_in filled) }
{
    let Filled { line, path } = filled;
    if let (Some(path), Some(name)) = (path, line.action.payload) {
        prepared.contents.push(Content { path, name })?;
    }
    prepared.manifest.lines.push(line)?;
    Ok(())
}
