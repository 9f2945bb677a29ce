//! What the record of a part holds.

ghost use Rattle.std.specs.Prelude.{◌≡◌, ◌⊎◌, ◌++◌, Some, IfOk, OnOk};
ghost use Rattle.std.specs.List.{flat_map};
ghost use Rattle.ips_fmri.specs.Fmri.{fmri_text};
ghost use Rattle.ips_manifest.specs.Manifest.{manifest_text};
ghost use Rattle.ips_records.specs.Lines.{ended};
ghost use Rattle.ips_state.specs.State.{recorded, installed};
ghost use Rattle.ips_state.specs.Text.{versioned_stem};
ghost use Rattle.ips_entries.specs.Part.{HasPart, record_text, text_of_index, text_of_package};

use crate::part::Part;
use ips_index::Index;
use ips_manifest::{Manifest, Package};
use ips_state::{State, head_text, mediators_text, names_text, package_record, texts_text};
use std::alloc::{AllocError, Global};

/// What the record of this part of the state holds.
pub fn text_of(alloc: Global, state: &State, part: Part) -> Result<Vec<u8>, AllocError>
    requires format { (state.now.format ≡ 1) ⊎ (state.now.format ≡ 2) }
    requires part { HasPart (recorded state.now) part }
    ensures { IfOk result (λ bytes. bytes.items ≡ record_text (recorded state.now) part) }
{
    match part {
        Part::Image => head_text(alloc, state),
        Part::Installed => installed_text(alloc, &state.installed),
        Part::Avoid => texts_text(alloc, &state.avoid),
        Part::Freeze => names_text(alloc, &state.freeze),
        Part::Mediators => mediators_text(alloc, &state.mediators),
        Part::History => texts_text(alloc, &state.history),
        Part::Index => index_bytes(alloc, &state.index),
        Part::Package(number) => package_bytes(alloc, state.format == 1, &state.installed[number]),
    }
}

// The list of packages, in format 1.
fn installed_text(alloc: Global, packages: &[Package]) -> Result<Vec<u8>, AllocError>
    ensures { IfOk result (λ bytes. bytes.items ≡ flat_map (λ p. ended (fmri_text (versioned_stem (installed p)))) packages.now) }
{
    let mut out = Vec::new(alloc);
    push_installed(alloc, &mut out, packages)?;
    Ok(out)
}

// Writes the line of each package.
fn push_installed(alloc: Global, out: &mut Vec<u8>, packages: &[Package]) -> Result<(), AllocError>
    ensures { OnOk result (out.new.items ≡ out.old.items ++ flat_map (λ p. ended (fmri_text (versioned_stem (installed p)))) packages.now) }
{
    for package in packages {
        push_named(alloc, out, package)?;
    }
    Ok(())
}

// Writes the line of a package: its stem and its version.
fn push_named(alloc: Global, out: &mut Vec<u8>, held: &Package) -> Result<(), AllocError>
    ensures { OnOk result (out.new.items ≡ out.old.items ++ ended (fmri_text (versioned_stem (installed held.now)))) }
{
    let version = held.version.print(alloc)?;
    out.extend_from_slice(held.stem.as_str().as_bytes())?;
    out.push(b'@')?;
    out.extend_from_slice(version.as_str().as_bytes())?;
    out.push(b'\n')?;
    Ok(())
}

// The text of an index, where there is one.
fn index_bytes(alloc: Global, index: &Option<Index>) -> Result<Vec<u8>, AllocError>
    ensures { IfOk result (λ bytes. bytes.items ≡ text_of_index index.now) }
{
    match index {
        Some(index) => index.print(alloc),
        None => Ok(Vec::new(alloc)),
    }
}

// What stands of a package: its manifest in format 1, which the flag tells, and else its record.
fn package_bytes(alloc: Global, first: bool, held: &Package) -> Result<Vec<u8>, AllocError>
    ensures { IfOk result (λ bytes. bytes.items ≡ text_of_package first (Some (installed held.now))) }
{
    if first {
        manifest_bytes(alloc, &held.manifest)
    } else {
        package_record(alloc, held)
    }
}

// The text of a manifest.
fn manifest_bytes(alloc: Global, manifest: &Manifest) -> Result<Vec<u8>, AllocError>
    ensures { IfOk result (λ bytes. bytes.items ≡ manifest_text manifest.now.lines.items) }
{
    let text = manifest.print(alloc)?;
    Vec::from_slice(alloc, text.as_str().as_bytes())
}
