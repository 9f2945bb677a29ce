//! Manifests that are read from the repository.

ghost use Rattle.std.specs.Prelude.{◌≡◌, ◌≤◌, Some, Err, IsTrue, IfOk, length};
ghost use Rattle.ips_text.specs.Reading.{IfBad};
ghost use Rattle.ips_text.specs.declared.refusal.Or.TheVariants.{Bad};
ghost use Rattle.ips_files.specs.Files.{file_at};
ghost use Rattle.ips_outside.specs.Outside.{Reads};
ghost use Rattle.ips_repo.specs.Places.{manifest_place};
ghost use Rattle.ips_repo.specs.Manifest as repo_manifest;
ghost use Rattle.ips_request.specs.Manifests.{IsFetched, IsFetchFault, IsUnread, IsThere, all_manifests_limit, name_of};
ghost use Rattle.ips_request.specs.declared.fault.ProblemFault.TheVariants as fault;
ghost use Rattle.ips_problem.specs.Recordable.{IsManifest};

use ips_fmri::{Fmri, Version};
use ips_manifest::Manifest;
use ips_outside::Source;
use ips_repo::{Repo, RepoFault};
use ips_request::{ProblemFault, missing};
use ips_text::{Or, Text, Which};
use std::alloc::{AllocError, Global};

/// The most bytes of all manifests that a request reads from the repository.
const ALL_MANIFESTS: u64 = 268_435_456;

/// The repository's manifest of a version of a stem, which is one whatever the source tells. `total` counts the bytes that were read from
/// the repository.
pub fn fetched<S: Source>(
    alloc: Global,
    repo: &Repo,
    source: &mut S,
    stem: &str,
    version: &Version,
    total: &mut u64,
) -> Result<Manifest, Or<ProblemFault>>
    requires { total.old ≤ all_manifests_limit }
    ensures found { IsTrue (S.outside.tells source.old) → IfOk result (λ m. IsThere
        (file_at (S.outside.state source.old).held (manifest_place repo.now.publisher stem.now version.now)) (IsFetched total.old total.new m.lines.items)) }
    ensures bad { IsTrue (S.outside.tells source.old) → IfBad result (IsFetchFault total.old
        (file_at (S.outside.state source.old).held (manifest_place repo.now.publisher stem.now version.now)) (name_of (record { stem = stem.now; version = version.now }))) }
    ensures manifest { IfOk result (λ m. IsManifest m.lines.items) }
    ensures few { total.new ≤ all_manifests_limit }
    ensures reads { Reads S.outside source.old source.new (result ≡ Err (Bad fault.SourceFault)) }
{
    match repo.manifest_bytes(alloc, source, stem, version) {
        Ok(bytes) => parsed(alloc, stem, version, bytes.as_slice(), total),
        Err(Or::Bad(fault)) => Err(unread(alloc, stem, version, fault)),
        Err(Or::OutOfMemory) => Err(Or::OutOfMemory),
    }
}

// The manifest of these bytes, where the repository's manifests don't pass their limit with it.
fn parsed(
    alloc: Global,
    stem: &str,
    version: &Version,
    bytes: &[u8],
    total: &mut u64,
) -> Result<Manifest, Or<ProblemFault>>
    requires few { total.old ≤ all_manifests_limit }
    requires fits { length bytes.now ≤ repo_manifest.manifest_limit }
    ensures found { IfOk result (λ m. IsFetched total.old total.new m.lines.items bytes.now) }
    ensures bad { IfBad result (λ why. IsFetchFault total.old (Some bytes.now) (name_of (record { stem = stem.now; version = version.now })) why × (why ≡ fault.SourceFault → ⊥)) }
    ensures few { total.new ≤ all_manifests_limit }
{
    let count = *total + bytes.len() as u64;
    if count > ALL_MANIFESTS {
        return Err(Or::Bad(ProblemFault::TooLarge {
            which: Which::AllManifests,
            count,
        }));
    }
    *total = count;
    match Manifest::read(alloc, bytes) {
        Ok(manifest) => Ok(manifest),
        Err(Or::Bad(fault)) => {
            let fmri = name(alloc, stem, version)?;
            Err(Or::Bad(ProblemFault::BadManifest { fmri, fault }))
        }
        Err(Or::OutOfMemory) => Err(Or::OutOfMemory),
    }
}

// Why the bytes of a manifest weren't read, as a fault of the problem.
fn unread(alloc: Global, stem: &str, version: &Version, fault: RepoFault) -> Or<ProblemFault>
    ensures { IsUnread fault (name_of (record { stem = stem.now; version = version.now })) result }
{
    match fault {
        RepoFault::TooLarge { which, count } => Or::Bad(ProblemFault::TooLarge { which, count }),
        RepoFault::SourceFault => Or::Bad(ProblemFault::SourceFault),
        _ => missing(alloc, stem, version),
    }
}

// The name of what a manifest is of.
fn name(alloc: Global, stem: &str, version: &Version) -> Result<Text, AllocError>
    ensures { IfOk result (λ text. text ≡ name_of (record { stem = stem.now; version = version.now })) }
{
    let stem = Text::new(alloc, stem)?;
    let version = Some(version.copy(alloc)?);
    let fmri = Fmri {
        publisher: None,
        stem,
        version,
    };
    fmri.print(alloc)
}
