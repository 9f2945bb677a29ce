//! The manifests of installed packages, in format 1.

ghost use Rattle.std.specs.Prelude.{◌≡◌, ℕ, List, false, IsTrue, IfOk};
ghost use Rattle.ips_text.specs.Reading.{IfBad};
ghost use Rattle.ips_text.specs.declared.refusal.Or.TheVariants.{Bad};
ghost use Rattle.ips_outside.specs.Outside.{Reads};
ghost use Rattle.ips_fmri.specs.Name.{IsStem};
ghost use Rattle.ips_manifest.specs.Manifest.{IsManifestOf};
ghost use Rattle.ips_load.specs.Held.{Stands};
ghost use Rattle.ips_state.specs.Records as records;
ghost use Rattle.ips_load.specs.Fault.{IsBadManifest, IsFileFault};
ghost use Rattle.ips_load.specs.declared.fault.StateFault.TheVariants as fault;

use crate::fault::StateFault;
use crate::files::{bad_line, load_bytes, path_of};
use ips_manifest::Manifest;
use ips_outside::Source;
use ips_text::{Or, RelPath, quote};
use std::alloc::{AllocError, Global};

/// Where the manifest of a stem stands.
pub fn manifest_path(alloc: Global, stem: &str) -> Result<RelPath, AllocError>
    requires { IsStem false stem.now }
    ensures { IfOk result (λ path. path.bytes ≡ records.manifest_path stem.now) }
{
    let quoted = quote(alloc, stem.as_bytes())?;
    let mut bytes = Vec::from_slice(alloc, b"var/pkg/manifests/")?;
    bytes.extend_from_slice(quoted.as_str().as_bytes())?;
    path_of(alloc, &bytes)
}

/// The manifest at a path.
pub fn load_manifest<F: Source>(
    alloc: Global,
    folder: &mut F,
    path: &RelPath,
) -> Result<Manifest, Or<StateFault>>
    ensures means { IfOk result (λ manifest. (text : List ℕ) × IsManifestOf text manifest.lines.items) }
    ensures found { IsTrue (F.outside.tells folder.old) → IfOk result (λ manifest. (text : List ℕ) × Stands (F.outside.state folder.old).held path.now.bytes text × IsManifestOf text manifest.lines.items) }
    ensures fault { IsTrue (F.outside.tells folder.old) → IfBad result (IsFileFault IsBadManifest (F.outside.state folder.old).held path.now.bytes) }
    ensures reads { Reads F.outside folder.old folder.new (result ≡ Err (Bad fault.FolderFault)) }
{
    let bytes = load_bytes(alloc, folder, path)?;
    match Manifest::read(alloc, &bytes) {
        Ok(manifest) => Ok(manifest),
        Err(Or::Bad(fault)) => Err(bad_line(alloc, path, fault.line)),
        Err(Or::OutOfMemory) => Err(Or::OutOfMemory),
    }
}
