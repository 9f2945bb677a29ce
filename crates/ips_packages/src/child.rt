//! The record of a package, in format 2.

ghost use Rattle.std.specs.Prelude.{◌≡◌, false, IsTrue, IfOk, IfNone, IfSome};
ghost use Rattle.ips_text.specs.Reading.{IfBad};
ghost use Rattle.ips_text.specs.declared.refusal.Or.TheVariants.{Bad};
ghost use Rattle.ips_fmri.specs.Name.{IsStem};
ghost use Rattle.ips_outside.specs.Outside.{Reads};
ghost use Rattle.ips_state.specs.State.{installed};
ghost use Rattle.ips_state.specs.Form.{IsPackage};
ghost use Rattle.ips_state.specs.Records.{package_path};
ghost use Rattle.ips_load.specs.Held.{HoldsPackage};
ghost use Rattle.ips_load.specs.Fault.{IsBadPackage, IsFileFault, IsPackagePlace, IsChildFault};
ghost use Rattle.ips_load.specs.declared.fault.StateFault.TheVariants as fault;

use crate::record::{past, read_record};
use ips_load::{StateFault, bad_line, load_bytes};
use ips_manifest::Package;
use ips_outside::Source;
use ips_records::{stem, word};
use ips_text::{Or, RelPath, Text};
use std::alloc::{AllocError, Global};

/// The package whose record stands at the path, a child of the folder of packages.
pub fn load_child<F: Source>(
    alloc: Global,
    folder: &mut F,
    path: &RelPath,
) -> Result<Package, Or<StateFault>>
    ensures place { IfOk result (λ p. path.now.bytes ≡ package_path p.stem) }
    ensures lawful { IfOk result (λ p. IsPackage (installed p)) }
    ensures found { IsTrue (F.outside.tells folder.old) → IfOk result (λ p. HoldsPackage (F.outside.state folder.old).held (installed p)) }
    ensures fault { IsTrue (F.outside.tells folder.old) → IfBad result (IsChildFault (F.outside.state folder.old).held path.now.bytes) }
    ensures reads { Reads F.outside folder.old folder.new (result ≡ Err (Bad fault.FolderFault)) }
{
    match stem_at(alloc, path) {
        Ok(Some(stem)) => load_record(alloc, folder, path, stem),
        Ok(None) => Err(bad_line(alloc, path, 0)),
        Err(_) => Err(Or::OutOfMemory),
    }
}

// The stem whose record has its place at the path.
fn stem_at(alloc: Global, path: &RelPath) -> Result<Option<Text>, AllocError>
    ensures stem { IfOk result (λ found. IfSome found (IsStem false)) }
    ensures some { IfOk result (λ found. IfSome found (λ stem. path.now.bytes ≡ package_path stem)) }
    ensures none { IfOk result (λ found. IfNone found (IsPackagePlace path.now.bytes → ⊥)) }
{
    let Some(name) = past(b"var/pkg/packages/", path.bytes()) else {
        return Ok(None);
    };
    let Some(word) = word(alloc, name)? else {
        return Ok(None);
    };
    stem(alloc, word.as_str().as_bytes())
}

// The package of a stem, whose record stands at the path.
fn load_record<F: Source>(
    alloc: Global,
    folder: &mut F,
    path: &RelPath,
    stem: Text,
) -> Result<Package, Or<StateFault>>
    requires stem { IsStem false stem }
    requires place { path.now.bytes ≡ package_path stem }
    ensures place { IfOk result (λ p. path.now.bytes ≡ package_path p.stem) }
    ensures lawful { IfOk result (λ p. IsPackage (installed p)) }
    ensures found { IsTrue (F.outside.tells folder.old) → IfOk result (λ p. HoldsPackage (F.outside.state folder.old).held (installed p)) }
    ensures fault { IsTrue (F.outside.tells folder.old) → IfBad result (IsFileFault IsBadPackage (F.outside.state folder.old).held path.now.bytes) }
    ensures reads { Reads F.outside folder.old folder.new (result ≡ Err (Bad fault.FolderFault)) }
{
    let bytes = load_bytes(alloc, folder, path)?;
    match read_record(alloc, &bytes) {
        Ok((version, manifest)) => Ok(Package {
            stem,
            version,
            manifest,
        }),
        Err(Or::Bad(line)) => Err(bad_line(alloc, path, line)),
        Err(Or::OutOfMemory) => Err(Or::OutOfMemory),
    }
}
