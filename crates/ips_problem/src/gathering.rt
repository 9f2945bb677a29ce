//! What is known of a stem in reach.

ghost use Rattle.std.specs.Prelude.{◌≡◌, ◌<◌, ◌≤◌, ◌^◌, ℕ, filter, Err, IsTrue, IfOk, is_some, List, Option, option_map, vec_len};
ghost use Rattle.std.specs.List.{AllByRecursion};
ghost use Rattle.ips_text.specs.Reading.{IfBad};
ghost use Rattle.ips_text.specs.declared.refusal.Or.TheVariants.{Bad};
ghost use Rattle.ips_fmri.specs.Version.{Parts};
ghost use Rattle.ips_outside.specs.Outside.{Reads};
ghost use Rattle.ips_request.specs.Candidates as candidate;
ghost use Rattle.ips_request.specs.Candidates.{candidates_in};
ghost use Rattle.ips_request.specs.Case.{IsReading, ManifestReading, installed_version, own};
ghost use Rattle.ips_request.specs.Manifests as fault_of;
ghost use Rattle.ips_request.specs.Manifests.{IsFetched, IsFetchFault, IsManifestFault, IsOwnFault, IsThere, all_manifests_limit, name_of};
ghost use Rattle.ips_request.specs.Reads.{is_gone_at, stands_at};
ghost use Rattle.ips_request.specs.Subject.{case_in, case_of, files_of, repo_of};
ghost use Rattle.ips_request.specs.declared.fault.ProblemFault.TheVariants as fault;
ghost use Rattle.ips_problem.specs.Gathered as spec;
ghost use Rattle.ips_problem.specs.Asked.{tells_where};
ghost use Rattle.ips_problem.specs.Recordable.{IsManifest, IsOverSound, IsSoundRead};
ghost use Rattle.ips_problem.specs.Gathered.{AreReadBehind, Got, GotFault, IsFaultAmong, IsJudgedRead, IsReadBehind, IsRowOf, coming_from};

use crate::fetching::fetched;
use crate::forms::version_again;
use crate::rows::Row;
use ips_fmri::Version;
use ips_manifest::Manifest;
use ips_outside::Source;
use ips_repo::Repo;
use ips_request::{ProblemFault, Read, Subject, arranged, judged, missing, newest_first};
use ips_text::Or;
use std::alloc::{AllocError, Global};

/// What is known of a stem: the manifests that are needed are read, and its candidates are put in order. `total` counts the bytes
/// that were read from the repository.
pub fn row_of<S: Source>(
    alloc: Global,
    subject: &Subject<'_>,
    source: &mut S,
    stem: &str,
    total: &mut u64,
) -> Result<Row, Or<ProblemFault>>
    requires { total.old ≤ all_manifests_limit }
    ensures row { IsTrue (tells_where (is_some subject.now.repo) (S.outside.tells source.old)) → IfOk result (λ row. (r : ManifestReading) → IsReading subject.now.state.now.settings r
        → IsRowOf (case_in subject.now (S.outside.state source.old).held r) stem.now row) }
    ensures read { IsTrue (tells_where (is_some subject.now.repo) (S.outside.tells source.old)) → IfOk result (λ row. (r : ManifestReading) → IsReading subject.now.state.now.settings r
        → AreReadBehind (case_in subject.now (S.outside.state source.old).held r) total.old total.new stem.now (fault_of.needed (case_in subject.now (S.outside.state source.old).held r) stem.now) row.reads.items) }
    ensures bad { IsTrue (tells_where (is_some subject.now.repo) (S.outside.tells source.old)) → IfBad result (λ why. (r : ManifestReading) → IsReading subject.now.state.now.settings r
        → IsFaultAmong subject.now.state.now.settings (case_in subject.now (S.outside.state source.old).held r) total.old stem.now (fault_of.needed (case_in subject.now (S.outside.state source.old).held r) stem.now) why) }
    ensures few { total.new ≤ all_manifests_limit }
    ensures sound { IfOk result (λ row. IsOverSound subject.now → AllByRecursion IsSoundRead row.reads.items) }
    ensures candidates { IfOk result (λ row. vec_len row.candidates < 2 ^ 32) }
    ensures reads { Reads S.outside source.old source.new (result ≡ Err (Bad fault.SourceFault)) }
    ensures asks { result ≡ Err (Bad fault.SourceFault) → IsTrue (is_some subject.now.repo) }
{
    let versions = needed(alloc, subject, stem)?;
    match read_all(alloc, subject, source, stem, versions.as_slice(), total) {
        Ok(reads) => Ok(arranged_row(alloc, subject, stem, reads)?),
        Err(why) => Err(why),
    }
}

// The versions of the stem whose manifests are needed, newest first.
fn needed(alloc: Global, subject: &Subject<'_>, stem: &str) -> Result<Vec<Version>, AllocError>
    ensures { IfOk result (λ v. (file : List ℕ → Parts → Option (List ℕ)) (r : ManifestReading) → v.items ≡ fault_of.needed (case_of subject.now file r) stem.now) }
{
    let newest = newest_first(alloc, subject.listed(stem), subject.installed_version(stem))?;
    chosen(alloc, subject, stem, newest.as_slice())
}

// Those of the versions whose manifests are needed.
fn chosen(
    alloc: Global,
    subject: &Subject<'_>,
    stem: &str,
    versions: &[Version],
) -> Result<Vec<Version>, AllocError>
    ensures { IfOk result (λ v. (file : List ℕ → Parts → Option (List ℕ)) (r : ManifestReading) → v.items ≡ filter (fault_of.is_needed subject.now.kind (case_of subject.now file r) stem.now) versions.now) }
{
    let mut needed = Vec::new(alloc);
    for version in versions {
        if subject.needs(stem, version) {
            needed.push(version.copy(alloc)?)?;
        }
    }
    Ok(needed)
}

// Reads the manifests of these versions of the stem.
fn read_all<S: Source>(
    alloc: Global,
    subject: &Subject<'_>,
    source: &mut S,
    stem: &str,
    versions: &[Version],
    total: &mut u64,
) -> Result<Vec<Read>, Or<ProblemFault>>
    requires { total.old ≤ all_manifests_limit }
    ensures read { IsTrue (tells_where (is_some subject.now.repo) (S.outside.tells source.old)) → IfOk result (λ reads. (r : ManifestReading) → IsReading subject.now.state.now.settings r
        → AreReadBehind (case_in subject.now (S.outside.state source.old).held r) total.old total.new stem.now versions.now reads.items) }
    ensures bad { IsTrue (tells_where (is_some subject.now.repo) (S.outside.tells source.old)) → IfBad result (λ why. (r : ManifestReading) → IsReading subject.now.state.now.settings r
        → IsFaultAmong subject.now.state.now.settings (case_in subject.now (S.outside.state source.old).held r) total.old stem.now versions.now why) }
    ensures few { total.new ≤ all_manifests_limit }
    ensures sound { IfOk result (λ reads. IsOverSound subject.now → AllByRecursion IsSoundRead reads.items) }
    ensures reads { Reads S.outside source.old source.new (result ≡ Err (Bad fault.SourceFault)) }
    ensures asks { result ≡ Err (Bad fault.SourceFault) → IsTrue (is_some subject.now.repo) }
{
    let mut reads = Vec::new(alloc);
    for version in versions {
        let read = match read_version(alloc, subject, source, stem, version, total) {
            Ok(read) => read,
            Err(why) => return Err(why),
        };
        reads.push(read)?;
    }
    Ok(reads)
}

// Reads the manifest of a version of the stem, and judges it whole.
fn read_version<S: Source>(
    alloc: Global,
    subject: &Subject<'_>,
    source: &mut S,
    stem: &str,
    version: &Version,
    total: &mut u64,
) -> Result<Read, Or<ProblemFault>>
    requires { total.old ≤ all_manifests_limit }
    ensures read { IsTrue (tells_where (is_some subject.now.repo) (S.outside.tells source.old)) → IfOk result (λ read. (r : ManifestReading) → IsReading subject.now.state.now.settings r
        → IsReadBehind (case_in subject.now (S.outside.state source.old).held r) total.old total.new stem.now version.now read) }
    ensures bad { IsTrue (tells_where (is_some subject.now.repo) (S.outside.tells source.old)) → IfBad result (λ why. (r : ManifestReading) → IsReading subject.now.state.now.settings r
        → IsManifestFault subject.now.state.now.settings (case_in subject.now (S.outside.state source.old).held r) total.old (record { stem = stem.now; version = version.now }) why) }
    ensures few { total.new ≤ all_manifests_limit }
    ensures sound { IfOk result (λ read. IsOverSound subject.now → IsSoundRead read) }
    ensures reads { Reads S.outside source.old source.new (result ≡ Err (Bad fault.SourceFault)) }
    ensures asks { result ≡ Err (Bad fault.SourceFault) → IsTrue (is_some subject.now.repo) }
{
    match manifest_of(alloc, subject, source, stem, version, total) {
        Ok(manifest) => judged_read(alloc, subject, stem, version, manifest),
        Err(why) => Err(why),
    }
}

// The manifest of a version of the stem: the image's, where the version is installed, and else the repository's.
fn manifest_of<S: Source>(
    alloc: Global,
    subject: &Subject<'_>,
    source: &mut S,
    stem: &str,
    version: &Version,
    total: &mut u64,
) -> Result<Manifest, Or<ProblemFault>>
    requires { total.old ≤ all_manifests_limit }
    ensures got { IsTrue (tells_where (is_some subject.now.repo) (S.outside.tells source.old)) → IfOk result (λ m. (r : ManifestReading)
        → Got (own (case_in subject.now (S.outside.state source.old).held r) stem.now version.now) (files_of (repo_of subject.now) (S.outside.state source.old).held stem.now version.now) total.old total.new m.lines.items) }
    ensures bad { IsTrue (tells_where (is_some subject.now.repo) (S.outside.tells source.old)) → IfBad result (λ why. (r : ManifestReading)
        → GotFault (own (case_in subject.now (S.outside.state source.old).held r) stem.now version.now) (files_of (repo_of subject.now) (S.outside.state source.old).held stem.now version.now) total.old (name_of (record { stem = stem.now; version = version.now })) why) }
    ensures few { total.new ≤ all_manifests_limit }
    ensures manifest { IfOk result (λ m. IsOverSound subject.now → IsManifest m.lines.items) }
    ensures reads { Reads S.outside source.old source.new (result ≡ Err (Bad fault.SourceFault)) }
    ensures asks { result ≡ Err (Bad fault.SourceFault) → IsTrue (is_some subject.now.repo) }
{
    match subject.own(stem, version) {
        Some(package) => Ok(package.manifest.copy(alloc)?),
        None => from_repository(alloc, subject.repo, source, stem, version, total),
    }
}

// The repository's manifest of a version of a stem. Without a repository it is missing.
fn from_repository<S: Source>(
    alloc: Global,
    repo: Option<&Repo>,
    source: &mut S,
    stem: &str,
    version: &Version,
    total: &mut u64,
) -> Result<Manifest, Or<ProblemFault>>
    requires { total.old ≤ all_manifests_limit }
    ensures found { IsTrue (tells_where (is_some repo.entry) (S.outside.tells source.old)) → IfOk result (λ m. IsThere
        (files_of (option_map (λ r. r.now) repo.entry) (S.outside.state source.old).held stem.now version.now) (IsFetched total.old total.new m.lines.items)) }
    ensures bad { IsTrue (tells_where (is_some repo.entry) (S.outside.tells source.old)) → IfBad result (IsFetchFault total.old
        (files_of (option_map (λ r. r.now) repo.entry) (S.outside.state source.old).held stem.now version.now) (name_of (record { stem = stem.now; version = version.now }))) }
    ensures few { total.new ≤ all_manifests_limit }
    ensures manifest { IfOk result (λ m. IsManifest m.lines.items) }
    ensures reads { Reads S.outside source.old source.new (result ≡ Err (Bad fault.SourceFault)) }
    ensures asks { result ≡ Err (Bad fault.SourceFault) → IsTrue (is_some repo.entry) }
{
    match repo {
        Some(repo) => fetched(alloc, repo, source, stem, version, total),
        None => Err(missing(alloc, stem, version)),
    }
}

// A manifest of a version of the stem that was read, judged whole.
fn judged_read(
    alloc: Global,
    subject: &Subject<'_>,
    stem: &str,
    version: &Version,
    manifest: Manifest,
) -> Result<Read, Or<ProblemFault>>
    ensures read { IfOk result (λ read. (file : List ℕ → Parts → Option (List ℕ)) (r : ManifestReading)
        → IsJudgedRead subject.now.state.now.settings (case_of subject.now file r) stem.now version.now manifest.lines.items read) }
    ensures sound { IfOk result (λ read. IsManifest manifest.lines.items → IsSoundRead read) }
    ensures bad { IfBad result (IsOwnFault subject.now.state.now.settings manifest.lines.items (name_of (record { stem = stem.now; version = version.now }))) }
{
    let tests = judged(alloc, stem, version, &manifest, &subject.state.settings)?;
    let gone = manifest.is_obsolete();
    let version: Version = version_again(alloc, version)?;
    let comes = subject.may_come(stem, &version);
    let stands = subject.own(stem, &version).is_some();
    let newest = subject.is_greatest(stem, &version);
    Ok(Read {
        version,
        manifest,
        tests,
        gone,
        comes,
        stands,
        newest,
    })
}

// What is known of a stem of which these manifests were read.
fn arranged_row(
    alloc: Global,
    subject: &Subject<'_>,
    stem: &str,
    reads: Vec<Read>,
) -> Result<Row, AllocError>
    ensures candidates { IfOk result (λ row. (file : List ℕ → Parts → Option (List ℕ)) (r : ManifestReading)
        → row.candidates.items ≡ candidates_in (candidate.role (case_of subject.now file r) stem.now) subject.now.kind (is_gone_at reads.items) (stands_at reads.items) (coming_from 0 reads.items)) }
    ensures spared { IfOk result (λ row. (file : List ℕ → Parts → Option (List ℕ)) (r : ManifestReading)
        → candidate.is_obsolete_at (case_of subject.now file r) stem.now (candidate.greatest (case_of subject.now file r) stem.now) ≡ spec.is_newest_gone reads.items → row.spared ≡ candidate.is_spared (case_of subject.now file r) stem.now) }
    ensures before { IfOk result (λ row. (file : List ℕ → Parts → Option (List ℕ)) (r : ManifestReading) → row.before ≡ installed_version (case_of subject.now file r) stem.now) }
    ensures reads { IfOk result (λ row. row.reads.items ≡ reads.items) }
    ensures few { IfOk result (λ row. vec_len row.candidates < 2 ^ 32) }
{
    let coming = coming(alloc, reads.as_slice())?;
    let role = subject.role(stem);
    let candidates = arranged(
        alloc,
        role,
        subject.kind,
        reads.as_slice(),
        coming.as_slice(),
    )?;
    if candidates.len() > u32::MAX as usize {
        return Err(AllocError);
    }
    let before = version_before(alloc, subject, stem)?;
    let spared = subject.spares(stem, is_newest_gone(reads.as_slice()));
    Ok(Row {
        before,
        spared,
        reads,
        candidates,
    })
}

// The version at which the stem is installed before the request.
fn version_before(
    alloc: Global,
    subject: &Subject<'_>,
    stem: &str,
) -> Result<Option<Version>, AllocError>
    ensures { IfOk result (λ v. (file : List ℕ → Parts → Option (List ℕ)) (r : ManifestReading) → v ≡ installed_version (case_of subject.now file r) stem.now) }
{
    match subject.installed_version(stem) {
        Some(version) => Ok(Some(version.copy(alloc)?)),
        None => Ok(None),
    }
}

// The numbers of the versions to which the stem may come.
fn coming(alloc: Global, reads: &[Read]) -> Result<Vec<usize>, AllocError>
    ensures { IfOk result (λ numbers. numbers.items ≡ coming_from 0 reads.now) }
{
    let mut numbers = Vec::new(alloc);
    for (number, read) in reads.iter().enumerate() {
        if read.comes {
            numbers.push(number)?;
        }
    }
    Ok(numbers)
}

// Whether the greatest version of the catalog is obsolete.
fn is_newest_gone(reads: &[Read]) -> bool
    ensures { result ≡ spec.is_newest_gone reads.now }
{
    for read in reads {
        if read.newest && read.gone {
            return true;
        }
    }
    false
}
