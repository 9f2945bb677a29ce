//! The manifests of a repository.

ghost use Rattle.std.specs.Prelude.{◌≡◌, ◌≤◌, ℕ, List, IsTrue, Ok, IfOk, length, vec_len};
ghost use Rattle.ips_text.specs.Reading.{Gives, IfBad};
ghost use Rattle.ips_text.specs.declared.refusal.Or.TheVariants.{Bad};
ghost use Rattle.ips_outside.specs.Outside.{Reads};
ghost use Rattle.ips_manifest.specs.Manifest.{IsManifestOf};
ghost use Rattle.ips_manifest.specs.declared.line.Line as declared;
ghost use Rattle.ips_repo.specs.Answer.{Answers};
ghost use Rattle.ips_repo.specs.Manifest.{manifest_file, manifest_in, manifest_limit, fault_of_manifest, IsBytesFault, IsTextFault};
ghost use Rattle.ips_repo.specs.declared.fault.RepoFault.TheVariants as fault;

use crate::fault::RepoFault;
use crate::places::manifest_place;
use ips_files::{FileFault, read_whole};
use ips_fmri::Version;
use ips_manifest::Manifest;
use ips_outside::Source;
use ips_text::{Or, Which};
use std::alloc::Global;

/// The most bytes that a manifest may have.
const MANIFEST_BYTES: u64 = 16_777_216;

/// The bytes of the manifest of a version of a stem, from its file.
pub(crate) fn manifest_bytes<S: Source>(
    alloc: Global,
    source: &mut S,
    publisher: &str,
    stem: &str,
    version: &Version,
) -> Result<Vec<u8>, Or<RepoFault>>
    ensures meant { IsTrue (S.outside.tells source.old) → Answers (λ bytes. bytes.items) result
        (manifest_in (manifest_file publisher.now stem.now version.now (S.outside.state source.old).held)) }
    ensures within { IfOk result (λ bytes. vec_len bytes ≤ manifest_limit) }
    ensures faults { IfBad result IsBytesFault }
    ensures reads { Reads S.outside source.old source.new (result ≡ Err (Bad fault.SourceFault)) }
{
    let Some(place) = manifest_place(alloc, publisher, stem, version)? else {
        return Err(Or::Bad(RepoFault::ManifestMissing));
    };
    match read_whole(alloc, source, &place, MANIFEST_BYTES) {
        Ok(bytes) => Ok(bytes),
        Err(Or::Bad(fault)) => Err(Or::Bad(bytes_fault(fault))),
        Err(Or::OutOfMemory) => Err(Or::OutOfMemory),
    }
}

// Why the bytes of a manifest aren't read.
fn bytes_fault(fault: FileFault) -> RepoFault
    ensures { result ≡ fault_of_manifest fault }
{
    match fault {
        FileFault::Missing => RepoFault::ManifestMissing,
        FileFault::TooLarge { count } => RepoFault::TooLarge {
            which: Which::ManifestBytes,
            count,
        },
        FileFault::SourceFault => RepoFault::SourceFault,
    }
}

/// The manifest that the bytes are, and how many they are.
pub(crate) fn sized_manifest(alloc: Global, bytes: &[u8]) -> Result<(Manifest, u64), Or<RepoFault>>
    ensures found { IfOk result (λ m. IsManifestOf bytes.now m.0.lines.items × (m.1 ≡ length bytes.now)) }
    ensures only { (lines : List declared.Line) → IsManifestOf bytes.now lines → Gives (λ m. m.0.lines.items) result (Ok lines) }
    ensures faults { IfBad result (IsTextFault bytes.now) }
{
    match Manifest::read(alloc, bytes) {
        Ok(manifest) => Ok((manifest, bytes.len() as u64)),
        Err(Or::Bad(fault)) => Err(Or::Bad(RepoFault::BadManifest(fault))),
        Err(Or::OutOfMemory) => Err(Or::OutOfMemory),
    }
}
