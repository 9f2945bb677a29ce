//! The text of a package's record, in format 2.

ghost use Rattle.std.specs.Prelude.{◌≡◌, ◌++◌, ℕ, List, IfOk, IfNone, IfSome, codes};
ghost use Rattle.ips_text.specs.Reading.{IfBad};
ghost use Rattle.ips_fmri.specs.Version.{Parts, IsVersion, version_text};
ghost use Rattle.ips_manifest.specs.Manifest.{IsManifestOf};
ghost use Rattle.ips_records.specs.Lines.{ended};
ghost use Rattle.ips_state.specs.Text.{package_head};
ghost use Rattle.ips_load.specs.Fault.{IsBadPackage};
ghost use Rattle.ips_packages.specs.Placed.{IsBadBehind};

use ips_fmri::Version;
use ips_manifest::Manifest;
use ips_records::cut;
use ips_text::Or;
use std::alloc::{AllocError, Global};

/// The version and the manifest that the text of a package's record tells, or the number of its first bad line.
pub fn read_record(alloc: Global, bytes: &[u8]) -> Result<(Version, Manifest), Or<u64>>
    ensures version { IfOk result (λ x. IsVersion x.0) }
    ensures text { IfOk result (λ x. (text : List ℕ) × (bytes.now ≡ package_head x.0 ++ text) × IsManifestOf text x.1.lines.items) }
    ensures bad { IfBad result (λ line. IsBadPackage bytes.now line) }
{
    let Some(behind) = past(b"package 2\n", bytes) else {
        return Err(Or::Bad(1));
    };
    match version_line(alloc, behind) {
        Ok(Some((version, text))) => with_manifest(alloc, version, text),
        Ok(None) => Err(Or::Bad(2)),
        Err(_) => Err(Or::OutOfMemory),
    }
}

// The version, and the manifest of this text, which stands behind two lines; or the number of its first bad line.
fn with_manifest(
    alloc: Global,
    version: Version,
    text: &[u8],
) -> Result<(Version, Manifest), Or<u64>>
    ensures version { IfOk result (λ x. x.0 ≡ version) }
    ensures manifest { IfOk result (λ x. IsManifestOf text.now x.1.lines.items) }
    ensures bad { IfBad result (λ line. IsBadBehind text.now line) }
{
    match Manifest::read(alloc, text) {
        Ok(manifest) => Ok((version, manifest)),
        Err(Or::Bad(fault)) => Err(Or::Bad(fault.line + 2)),
        Err(Or::OutOfMemory) => Err(Or::OutOfMemory),
    }
}

// The version that the first line tells, and what stands behind that line.
fn version_line(alloc: Global, bytes: &[u8]) -> Result<Option<(Version, &[u8])>, AllocError>
    ensures version { IfOk result (λ found. IfSome found (λ x. IsVersion x.0)) }
    ensures some { IfOk result (λ found. IfSome found (λ x. bytes.now ≡ ended (codes "version " ++ version_text x.0) ++ x.1.now)) }
    ensures none { IfOk result (λ found. IfNone found ((v : Parts) (rest : List ℕ) → IsVersion v → bytes.now ≡ ended (codes "version " ++ version_text v) ++ rest → ⊥)) }
{
    let Some(behind) = past(b"version ", bytes) else {
        return Ok(None);
    };
    let Some((line, text)) = cut(b'\n', behind) else {
        return Ok(None);
    };
    match version_in(alloc, line)? {
        Some(version) => Ok(Some((version, text))),
        None => Ok(None),
    }
}

// The version that the bytes are, where they are one.
fn version_in(alloc: Global, bytes: &[u8]) -> Result<Option<Version>, AllocError>
    ensures version { IfOk result (λ found. IfSome found (λ v. IsVersion v)) }
    ensures some { IfOk result (λ found. IfSome found (λ v. version_text v ≡ bytes.now)) }
    ensures none { IfOk result (λ found. IfNone found ((v : Parts) → IsVersion v → version_text v ≡ bytes.now → ⊥)) }
{
    let Ok(text) = str::from_utf8(bytes) else {
        return Ok(None);
    };
    match Version::parse(alloc, text) {
        Ok(version) => Ok(Some(version)),
        Err(Or::Bad(_)) => Ok(None),
        Err(Or::OutOfMemory) => Err(AllocError),
    }
}

/// What stands behind these bytes, where the others begin with them.
pub fn past<'a>(front: &[u8], bytes: &'a [u8]) -> Option<&'a [u8]>
    ensures some { IfSome result (λ rest. bytes.now ≡ front.now ++ rest.now) }
    ensures none { IfNone result ((rest : List ℕ) → bytes.now ≡ front.now ++ rest → ⊥) }
{
    bytes.strip_prefix(front)
}
