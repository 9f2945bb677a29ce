//! The packages of format 1: a manifest for each that is listed.

ghost use Rattle.std.specs.Prelude.{◌≡◌, [], Some, IsTrue, IfOk, OnOk, map};
ghost use Rattle.std.specs.List.{AllByRecursion};
ghost use Rattle.ips_text.specs.Reading.{IfBad};
ghost use Rattle.ips_text.specs.declared.refusal.Or.TheVariants.{Bad};
ghost use Rattle.ips_outside.specs.Outside.{Reads};
ghost use Rattle.ips_records.specs.Form.{IsNamed, HasVersion};
ghost use Rattle.ips_state.specs.State.{installed};
ghost use Rattle.ips_state.specs.Text.{versioned_stem};
ghost use Rattle.ips_state.specs.Form.{IsPackage};
ghost use Rattle.ips_state.specs.Records as records;
ghost use Rattle.ips_load.specs.Held.{HoldsManifest};
ghost use Rattle.ips_load.specs.Fault.{IsBadManifest, IsFileFault, IsManifestsFault};
ghost use Rattle.ips_load.specs.declared.fault.StateFault.TheVariants as fault;

use ips_fmri::{Fmri, Version};
use ips_load::{StateFault, load_manifest, manifest_path};
use ips_manifest::Package;
use ips_outside::Source;
use ips_text::Or;
use std::alloc::{AllocError, Global};

/// Adds the packages of these names to a list that is empty, each with the manifest that stands in its place.
pub fn load_manifests<F: Source>(
    alloc: Global,
    folder: &mut F,
    names: &[Fmri],
    packages: &mut Vec<Package>,
) -> Result<(), Or<StateFault>>
    requires named { AllByRecursion IsNamed names.now }
    requires empty { packages.old.items ≡ [] }
    ensures names { OnOk result (map versioned_stem (map installed packages.new.items) ≡ names.now) }
    ensures lawful { OnOk result (AllByRecursion IsPackage (map installed packages.new.items)) }
    ensures found { IsTrue (F.outside.tells folder.old) → OnOk result (AllByRecursion (HoldsManifest (F.outside.state folder.old).held) (map installed packages.new.items)) }
    ensures fault { IsTrue (F.outside.tells folder.old) → IfBad result (IsManifestsFault (F.outside.state folder.old).held names.now) }
    ensures reads { Reads F.outside folder.old folder.new (result ≡ Err (Bad fault.FolderFault)) }
{
    for name in names {
        let package = match load_listed(alloc, folder, name) {
            Ok(package) => package,
            Err(fault) => return Err(fault),
        };
        packages.push(package)?;
    }
    Ok(())
}

// The package of a name, with the manifest that stands in its place.
fn load_listed<F: Source>(
    alloc: Global,
    folder: &mut F,
    name: &Fmri,
) -> Result<Package, Or<StateFault>>
    requires named { IsNamed name.now }
    ensures name { IfOk result (λ p. versioned_stem (installed p) ≡ name.now) }
    ensures lawful { IfOk result (λ p. IsPackage (installed p)) }
    ensures found { IsTrue (F.outside.tells folder.old) → IfOk result (λ p. HoldsManifest (F.outside.state folder.old).held (installed p)) }
    ensures fault { IsTrue (F.outside.tells folder.old) → IfBad result (IsFileFault IsBadManifest (F.outside.state folder.old).held (records.manifest_path name.now.stem)) }
    ensures reads { Reads F.outside folder.old folder.new (result ≡ Err (Bad fault.FolderFault)) }
{
    let path = manifest_path(alloc, name.stem.as_str())?;
    let stem = name.stem.copy(alloc)?;
    let version = version_of(alloc, &name.version)?;
    match load_manifest(alloc, folder, &path) {
        Ok(manifest) => Ok(Package {
            stem,
            version,
            manifest,
        }),
        Err(fault) => Err(fault),
    }
}

// The version, where there is one.
fn version_of(alloc: Global, version: &Option<Version>) -> Result<Version, AllocError>
    requires { HasVersion version.now }
    ensures { IfOk result (λ v. version.now ≡ Some v) }
{
    match version {
        Some(version) => version.copy(alloc),
        None => unreachable!(),
    }
}
