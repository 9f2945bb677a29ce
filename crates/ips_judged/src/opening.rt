//! The steps up to the drafts: the repository, and the manifest.

ghost use Rattle.std.specs.Prelude.{◌≡◌, IsTrue, IfOk, Ok, Err};
ghost use Rattle.std.specs.List.{AllByRecursion};
ghost use Rattle.ips_text.specs.Reading.{IfBad};
ghost use Rattle.ips_text.specs.declared.refusal.Or.TheVariants.{Bad};
ghost use Rattle.ips_outside.specs.Outside.{Reads};
ghost use Rattle.ips_manifest.specs.Draft.{CanBeFilled, IsDraftOf};
ghost use Rattle.ips_repo.specs.Opening.{IsOffered};
ghost use Rattle.ips_repo.specs.Opening as spec;
ghost use Rattle.ips_judged.specs.Steps as steps;
ghost use Rattle.ips_judged.specs.Steps.{IsWhy, IsUnopened, AreDraftsAt, IsNoDraft};
ghost use Rattle.ips_judged.specs.declared.verdict.JudgeFault.TheVariants as fault;

use crate::verdict::{JudgeFault, Refusal};
use ips_files::{FileFault, read_whole};
use ips_folder::Folder;
use ips_manifest::{Draft, read_draft};
use ips_outside::Source;
use ips_repo::{Repo, RepoFault};
use ips_text::{Or, RelPath, Which};
use std::alloc::Global;

/// The most bytes that a manifest may have.
pub(crate) const MANIFEST_BYTES: u64 = 16_777_216;

/// Opens the repository of the publisher.
pub(crate) fn open<F: Folder>(
    alloc: Global,
    target: &mut F,
    publisher: &str,
) -> Result<Repo, Or<JudgeFault>>
    ensures publisher { IfOk result (λ repo. repo.publisher ≡ publisher.now) }
    ensures opened { IsTrue (F.outside.tells target.old) → IfOk result (λ repo. spec.opening publisher.now (F.outside.state target.old).held ≡ Ok repo.catalog) }
    ensures refused { IsTrue (F.outside.tells target.old) → IfBad result (IsWhy (IsUnopened publisher.now (F.outside.state target.old).held)) }
    ensures offered { IfOk result (λ repo. IsOffered repo.catalog) }
    ensures own { IfBad result steps.IsOfTarget }
    ensures reads { Reads F.outside target.old target.new (result ≡ Err (Bad fault.FolderFault)) }
{
    match Repo::open(alloc, target, publisher) {
        Ok(repo) => Ok(repo),
        Err(Or::Bad(why)) => Err(Or::Bad(unopened(why))),
        Err(Or::OutOfMemory) => Err(Or::OutOfMemory),
    }
}

// Why the repository isn't opened.
fn unopened(why: RepoFault) -> JudgeFault
    ensures { result ≡ steps.unopened why }
{
    match why {
        RepoFault::SourceFault => JudgeFault::FolderFault,
        fault => JudgeFault::Refused {
            refusal: Refusal::Unopened { fault },
        },
    }
}

/// The draft at the path.
pub(crate) fn read_manifest<S: Source>(
    alloc: Global,
    proto: &mut S,
    path: &RelPath,
) -> Result<Vec<Draft>, Or<JudgeFault>>
    ensures found { IsTrue (S.outside.tells proto.old) → IfOk result (λ drafts. AreDraftsAt (S.outside.state proto.old).held path.now.bytes drafts.items) }
    ensures refused { IsTrue (S.outside.tells proto.old) → IfBad result (IsWhy (IsNoDraft (S.outside.state proto.old).held path.now.bytes)) }
    ensures fillable { IfOk result (λ drafts. AllByRecursion CanBeFilled drafts.items) }
    ensures own { IfBad result steps.IsOfProto }
    ensures reads { Reads S.outside proto.old proto.new (result ≡ Err (Bad fault.SourceFault)) }
{
    match read_whole(alloc, proto, path, MANIFEST_BYTES) {
        Ok(bytes) => drafts_of(alloc, bytes.as_slice()),
        Err(Or::Bad(why)) => Err(Or::Bad(unread(why))),
        Err(Or::OutOfMemory) => Err(Or::OutOfMemory),
    }
}

// Why the file of the manifest isn't read.
fn unread(why: FileFault) -> JudgeFault
    ensures { result ≡ steps.unread why }
{
    match why {
        FileFault::Missing => refused(Refusal::ManifestMissing),
        FileFault::TooLarge { count } => refused(Refusal::TooLarge {
            which: Which::ManifestBytes,
            count,
        }),
        FileFault::SourceFault => JudgeFault::SourceFault,
    }
}

// The draft that the bytes are.
fn drafts_of(alloc: Global, bytes: &[u8]) -> Result<Vec<Draft>, Or<JudgeFault>>
    ensures found { IfOk result (λ drafts. IsDraftOf bytes.now drafts.items) }
    ensures fault { IfBad result (IsWhy (steps.IsFaulty bytes.now)) }
    ensures faults { IfBad result (steps.IsRefused) }
    ensures fillable { IfOk result (λ drafts. AllByRecursion CanBeFilled drafts.items) }
{
    match read_draft(alloc, bytes) {
        Ok(drafts) => Ok(drafts),
        Err(Or::Bad(fault)) => Err(Or::Bad(refused(Refusal::BadManifest { fault }))),
        Err(Or::OutOfMemory) => Err(Or::OutOfMemory),
    }
}

/// It is refused.
pub(crate) fn refused(refusal: Refusal) -> JudgeFault
    ensures { result ≡ fault.Refused refusal }
{
    JudgeFault::Refused { refusal }
}
