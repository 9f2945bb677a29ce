//! What is put, and what stands in its way.

ghost use Rattle.std.specs.Prelude.{◌≡◌, IsTrue, IfOk, Err};
ghost use Rattle.std.specs.List.{AllByRecursion, Contains, flat_map};
ghost use Rattle.std.specs.Str.{IsUtf8};
ghost use Rattle.ips_text.specs.Reading.{IfBad};
ghost use Rattle.ips_text.specs.declared.refusal.Or.TheVariants.{Bad};
ghost use Rattle.ips_outside.specs.Image.{Image};
ghost use Rattle.ips_outside.specs.Outside.{Reads};
ghost use Rattle.ips_outside.specs.Children.{path_bytes};
ghost use Rattle.ips_catalog.specs.Listed.{versions_of};
ghost use Rattle.ips_manifest.specs.Draft.{CanBeFilled};
ghost use Rattle.ips_manifest.specs.Manifest.{StandsOnLine};
ghost use Rattle.ips_ways.specs.Ways.{IsFree};
ghost use Rattle.ips_listing.specs.Text.{with_version};
ghost use Rattle.ips_sends.specs.Whole.{content_of};
ghost use Rattle.ips_sends.specs.Judged as spec;
ghost use Rattle.ips_sends.specs.Judged.{Judges, Publish};
ghost use Rattle.ips_prepare.specs.Prepared.{HasName, IsEntry, IsSourced, actions_of, contents_in, names_of};
ghost use Rattle.ips_judged.specs.Steps as steps;
ghost use Rattle.ips_judged.specs.Steps.{IsWhy, IsBarred, SaysBarred, AreOver, put_with};
ghost use Rattle.ips_judged.specs.Answers.{IsAsked, HasPassed, AreTaken, ArePrepared, SaysOfJudging, asked_of, put_of};
ghost use Rattle.ips_judged.specs.declared.verdict.JudgeFault.TheVariants as fault;

use crate::contents::take_in;
use crate::opening::refused;
use crate::verdict::{Asked, JudgeFault, Publication, Refusal};
use ips_filling::Filled;
use ips_folder::Folder;
use ips_manifest::{Draft, Manifest};
use ips_outside::{Failed, Source};
use ips_prepare::{Content, Over, Prepared, Texts, limit_passed, prepare, print_texts, ways};
use ips_repo::Repo;
use ips_text::{Or, RelPath};
use ips_ways::first_in_the_way;
use std::alloc::{AllocError, Global};

/// What is to be put of these drafts.
pub(crate) fn publication<S: Source, F: Folder>(
    alloc: Global,
    proto: &mut S,
    target: &mut F,
    asked: &Asked,
    repo: &Repo,
    drafts: Vec<Draft>,
) -> Result<Publication, Or<JudgeFault>>
    requires asked { IsAsked asked.now }
    requires new { Contains (versions_of repo.now.catalog asked.now.stem) asked.now.version → ⊥ }
    requires fillable { AllByRecursion CanBeFilled drafts.items }
    ensures publishes { IsTrue (S.outside.tells proto.old) → IsTrue (F.outside.tells target.old)
        → HasPassed (S.outside.state proto.old).held (F.outside.state target.old).held asked.now repo.now.catalog drafts.items
        → IfOk result (λ p. Judges (S.outside.state proto.old).held (F.outside.state target.old).held (asked_of asked.now) (Publish (put_of p))) }
    ensures refused { IsTrue (S.outside.tells proto.old) → IsTrue (F.outside.tells target.old)
        → HasPassed (S.outside.state proto.old).held (F.outside.state target.old).held asked.now repo.now.catalog drafts.items
        → IfBad result (SaysOfJudging (S.outside.state proto.old).held (F.outside.state target.old).held asked.now) }
    ensures stand { IfOk result (λ p. AllByRecursion StandsOnLine p.prepared.manifest.lines.items) }
    ensures contents { IfOk result (λ p. names_of p.prepared.contents.items ≡ flat_map content_of (put_of p).actions) }
    ensures names { IfOk result (λ p. AllByRecursion HasName p.prepared.contents.items) }
    ensures sourced { IsTrue (S.outside.tells proto.old) → IfOk result (λ p. AllByRecursion (IsSourced (S.outside.state proto.old).held) p.prepared.contents.items) }
    ensures ways { IfOk result (λ p. path_bytes p.ways.items ≡ spec.ways asked.now.publisher asked.now.stem (names_of p.prepared.contents.items)) }
    ensures free { IsTrue (F.outside.tells target.old) → IfOk result (λ p. IsFree (F.outside.state target.old).held (path_bytes p.ways.items)) }
    ensures utf8 { IfOk result (λ p. IsUtf8 p.texts.catalog.items) }
    ensures reads_proto { Reads S.outside proto.old proto.new (result ≡ Err (Bad fault.SourceFault)) }
    ensures reads { Reads F.outside target.old target.new (result ≡ Err (Bad fault.FolderFault)) }
{
    match take_in(alloc, proto, drafts) {
        Ok(filled) => of_filled(alloc, target, asked, repo, filled),
        Err(fault) => Err(fault),
    }
}

// What is to be put of these filled lines.
fn of_filled<F: Folder>(
    alloc: Global,
    target: &mut F,
    asked: &Asked,
    repo: &Repo,
    filled: Vec<Filled>,
) -> Result<Publication, Or<JudgeFault>>
    requires asked { IsAsked asked.now }
    requires new { Contains (versions_of repo.now.catalog asked.now.stem) asked.now.version → ⊥ }
    requires entries { AllByRecursion IsEntry filled.items }
    ensures publishes { IsTrue (F.outside.tells target.old) → (proto : Image) → AreTaken proto (F.outside.state target.old).held asked.now repo.now.catalog filled.items
        → IfOk result (λ p. Judges proto (F.outside.state target.old).held (asked_of asked.now) (Publish (put_of p))) }
    ensures refused { IsTrue (F.outside.tells target.old) → (proto : Image) → AreTaken proto (F.outside.state target.old).held asked.now repo.now.catalog filled.items
        → IfBad result (SaysOfJudging proto (F.outside.state target.old).held asked.now) }
    ensures stand { IfOk result (λ p. AllByRecursion StandsOnLine p.prepared.manifest.lines.items) }
    ensures contents { IfOk result (λ p. names_of p.prepared.contents.items ≡ flat_map content_of (put_of p).actions) }
    ensures same { IfOk result (λ p. p.prepared.contents.items ≡ flat_map contents_in filled.items) }
    ensures ways { IfOk result (λ p. path_bytes p.ways.items ≡ spec.ways asked.now.publisher asked.now.stem (names_of p.prepared.contents.items)) }
    ensures free { IsTrue (F.outside.tells target.old) → IfOk result (λ p. IsFree (F.outside.state target.old).held (path_bytes p.ways.items)) }
    ensures utf8 { IfOk result (λ p. IsUtf8 p.texts.catalog.items) }
    ensures own { IfBad result steps.IsOfTarget }
    ensures reads { Reads F.outside target.old target.new (result ≡ Err (Bad fault.FolderFault)) }
{
    match prepare(
        alloc,
        asked.publisher.as_str(),
        asked.stem.as_str(),
        &asked.version,
        filled,
    ) {
        Ok(prepared) => of_prepared(alloc, target, asked, repo, prepared),
        Err(AllocError) => Err(Or::OutOfMemory),
    }
}

// What is to be put of this manifest and its contents.
fn of_prepared<F: Folder>(
    alloc: Global,
    target: &mut F,
    asked: &Asked,
    repo: &Repo,
    prepared: Prepared,
) -> Result<Publication, Or<JudgeFault>>
    requires asked { IsAsked asked.now }
    requires new { Contains (versions_of repo.now.catalog asked.now.stem) asked.now.version → ⊥ }
    requires names { AllByRecursion HasName prepared.contents.items }
    requires contents { names_of prepared.contents.items ≡ flat_map content_of (actions_of prepared.manifest.lines.items) }
    ensures publishes { IsTrue (F.outside.tells target.old) → (proto : Image) → ArePrepared proto (F.outside.state target.old).held asked.now repo.now.catalog (actions_of prepared.manifest.lines.items)
        → IfOk result (λ p. Judges proto (F.outside.state target.old).held (asked_of asked.now) (Publish (put_of p))) }
    ensures refused { IsTrue (F.outside.tells target.old) → (proto : Image) → ArePrepared proto (F.outside.state target.old).held asked.now repo.now.catalog (actions_of prepared.manifest.lines.items)
        → IfBad result (SaysOfJudging proto (F.outside.state target.old).held asked.now) }
    ensures same { IfOk result (λ p. p.prepared ≡ prepared) }
    ensures ways { IfOk result (λ p. path_bytes p.ways.items ≡ spec.ways asked.now.publisher asked.now.stem (names_of prepared.contents.items)) }
    ensures free { IsTrue (F.outside.tells target.old) → IfOk result (λ p. IsFree (F.outside.state target.old).held (path_bytes p.ways.items)) }
    ensures utf8 { IfOk result (λ p. IsUtf8 p.texts.catalog.items) }
    ensures own { IfBad result steps.IsOfTarget }
    ensures reads { Reads F.outside target.old target.new (result ≡ Err (Bad fault.FolderFault)) }
{
    match free_ways(alloc, target, asked, prepared.contents.as_slice()) {
        Ok(ways) => with_texts(alloc, asked, repo, prepared, ways),
        Err(fault) => Err(fault),
    }
}

// The directories on the way, where nothing else stands at one of them.
fn free_ways<F: Folder>(
    alloc: Global,
    target: &mut F,
    asked: &Asked,
    contents: &[Content],
) -> Result<Vec<RelPath>, Or<JudgeFault>>
    requires asked { IsAsked asked.now }
    requires names { AllByRecursion HasName contents.now }
    ensures ways { IfOk result (λ ways. path_bytes ways.items ≡ spec.ways asked.now.publisher asked.now.stem (names_of contents.now)) }
    ensures free { IsTrue (F.outside.tells target.old) → IfOk result (λ ways. IsFree (F.outside.state target.old).held (spec.ways asked.now.publisher asked.now.stem (names_of contents.now))) }
    ensures barred { IsTrue (F.outside.tells target.old) → IfBad result (IsWhy (IsBarred (F.outside.state target.old).held (spec.ways asked.now.publisher asked.now.stem (names_of contents.now)))) }
    ensures own { IfBad result steps.IsOfTarget }
    ensures reads { Reads F.outside target.old target.new (result ≡ Err (Bad fault.FolderFault)) }
{
    let ways = match ways(
        alloc,
        asked.publisher.as_str(),
        asked.stem.as_str(),
        contents,
    ) {
        Ok(ways) => ways,
        Err(AllocError) => return Err(Or::OutOfMemory),
    };
    match first_in_the_way(target, ways.as_slice()) {
        Ok(None) => Ok(ways),
        Ok(Some(at)) => Err(barred(alloc, &ways[at])),
        Err(Failed) => Err(Or::Bad(JudgeFault::FolderFault)),
    }
}

// This path is in the way.
fn barred(alloc: Global, path: &RelPath) -> Or<JudgeFault>
    ensures { SaysBarred path.now.bytes result }
{
    match path.copy(alloc) {
        Ok(path) => Or::Bad(refused(Refusal::Blocked { path })),
        Err(AllocError) => Or::OutOfMemory,
    }
}

// The same with the texts.
fn with_texts(
    alloc: Global,
    asked: &Asked,
    repo: &Repo,
    prepared: Prepared,
    ways: Vec<RelPath>,
) -> Result<Publication, Or<JudgeFault>>
    requires new { Contains (versions_of repo.now.catalog asked.now.stem) asked.now.version → ⊥ }
    ensures same { IfOk result (λ p. p.prepared ≡ prepared) }
    ensures ways { IfOk result (λ p. p.ways.items ≡ ways.items) }
    ensures put { IfOk result (λ p. put_of p ≡ put_with asked.now.publisher (with_version asked.now.stem asked.now.version repo.now.catalog) (actions_of prepared.manifest.lines.items)) }
    ensures within { IfOk result (λ p. steps.IsWithin asked.now.publisher (with_version asked.now.stem asked.now.version repo.now.catalog) (actions_of prepared.manifest.lines.items)) }
    ensures over { IfBad result (IsWhy (AreOver asked.now.publisher (with_version asked.now.stem asked.now.version repo.now.catalog) (actions_of prepared.manifest.lines.items))) }
    ensures utf8 { IfOk result (λ p. IsUtf8 p.texts.catalog.items) }
    ensures refused { IfBad result steps.IsRefused }
{
    match texts(alloc, asked, repo, &prepared.manifest) {
        Ok(texts) => Ok(Publication {
            prepared,
            ways,
            texts,
        }),
        Err(fault) => Err(fault),
    }
}

// The texts of the manifest and of the catalog, within the limits.
fn texts(
    alloc: Global,
    asked: &Asked,
    repo: &Repo,
    manifest: &Manifest,
) -> Result<Texts, Or<JudgeFault>>
    requires new { Contains (versions_of repo.now.catalog asked.now.stem) asked.now.version → ⊥ }
    ensures manifest { IfOk result (λ texts. texts.manifest ≡ (put_with asked.now.publisher (with_version asked.now.stem asked.now.version repo.now.catalog) (actions_of manifest.now.lines.items)).manifest) }
    ensures catalog { IfOk result (λ texts. texts.catalog.items ≡ (put_with asked.now.publisher (with_version asked.now.stem asked.now.version repo.now.catalog) (actions_of manifest.now.lines.items)).catalog) }
    ensures within { IfOk result (λ texts. steps.IsWithin asked.now.publisher (with_version asked.now.stem asked.now.version repo.now.catalog) (actions_of manifest.now.lines.items)) }
    ensures over { IfBad result (IsWhy (AreOver asked.now.publisher (with_version asked.now.stem asked.now.version repo.now.catalog) (actions_of manifest.now.lines.items))) }
    ensures utf8 { IfOk result (λ texts. IsUtf8 texts.catalog.items) }
    ensures refused { IfBad result steps.IsRefused }
{
    let printed = print_texts(
        alloc,
        asked.publisher.as_str(),
        asked.stem.as_str(),
        &asked.version,
        repo.catalog(),
        manifest,
    );
    let texts = match printed {
        Ok(texts) => texts,
        Err(AllocError) => return Err(Or::OutOfMemory),
    };
    match limit_passed(repo.catalog(), asked.stem.as_str(), &asked.version, &texts) {
        None => Ok(texts),
        Some(Over { which, count }) => Err(Or::Bad(refused(Refusal::TooLarge { which, count }))),
    }
}
