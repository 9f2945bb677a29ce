//! Filling drafts.

ghost use Rattle.std.specs.Prelude.{◌≡◌, ◌<◌, ◌≤◌, List, ℕ, IsTrue, IfOk, IfErr, Err, Some, length};
ghost use Rattle.std.specs.List.{AllByRecursion};
ghost use Rattle.ips_text.specs.Reading.{IfBad};
ghost use Rattle.ips_text.specs.declared.refusal.Or.TheVariants.{Bad};
ghost use Rattle.ips_digest.specs.Name.{IsName};
ghost use Rattle.ips_digest.specs.Digest.{SHA1, digest_of};
ghost use Rattle.ips_outside.specs.Outside.{Reads};
ghost use Rattle.ips_files.specs.Files.{file_at};
ghost use Rattle.ips_repo.specs.Payload.{payload_limit, IsOpenFault};
ghost use Rattle.ips_repo.specs.declared.fault.RepoFault.TheVariants as repo;
ghost use Rattle.ips_manifest.specs.Draft.{CanBeFilled};
ghost use Rattle.ips_filling.specs.Filled.{IsFilling, IsPlaced, Pairwise, IsUnfilled, AreUnfilled, IsUnread, AnswersOpening, SaysMissing};
ghost use Rattle.ips_filling.specs.declared.filled.ContentFault.TheVariants as fault;

use crate::content::{content_text, has_content, path_of};
use crate::digest::{digest, has_digest};
use crate::filled::{ContentFault, Filled};
use ips_digest::PayloadName;
use ips_files::CHUNK;
use ips_manifest::{Draft, Line};
use ips_outside::{Failed, Source};
use ips_repo::{Payload, RepoFault};
use ips_text::{Or, RelPath, Text};
use std::alloc::{AllocError, Global};

// A name of SHA-1, before the digest is known.
const NO_CONTENT: PayloadName = PayloadName::Sha1([0; 20]);

/// The lines of drafts with the names of their contents, each the SHA-1 digest of a file. Each content is read once.
///
/// # Errors
///
/// The first content that has too many bytes is too large. A content is missing where none stands any more, as where the folder
/// was changed since they were looked for; or a call failed.
pub fn fill<S: Source>(
    alloc: Global,
    source: &mut S,
    drafts: Vec<Draft>,
) -> Result<Vec<Filled>, Or<ContentFault>>
    requires { AllByRecursion CanBeFilled drafts.items }
    ensures filled { IsTrue (S.outside.tells source.old) → IfOk result (λ filled. Pairwise (IsFilling (S.outside.state source.old).held) drafts.items filled.items) }
    ensures placed { IfOk result (λ filled. Pairwise IsPlaced drafts.items filled.items) }
    ensures refused { IsTrue (S.outside.tells source.old) → IfBad result (AreUnfilled (S.outside.state source.old).held drafts.items) }
    ensures reads { Reads S.outside source.old source.new (result ≡ Err (Bad fault.SourceFault)) }
{
    let mut buffer = vec![in alloc; 0u8; CHUNK]?;
    fill_all(alloc, source, drafts, buffer.as_mut_slice())
}

// The same, with a buffer to read in.
fn fill_all<S: Source>(
    alloc: Global,
    source: &mut S,
    drafts: Vec<Draft>,
    buffer: &mut [u8],
) -> Result<Vec<Filled>, Or<ContentFault>>
    requires fillable { AllByRecursion CanBeFilled drafts.items }
    requires room { 0 < length buffer.old }
    ensures filled { IsTrue (S.outside.tells source.old) → IfOk result (λ filled. Pairwise (IsFilling (S.outside.state source.old).held) drafts.items filled.items) }
    ensures placed { IfOk result (λ filled. Pairwise IsPlaced drafts.items filled.items) }
    ensures refused { IsTrue (S.outside.tells source.old) → IfBad result (AreUnfilled (S.outside.state source.old).held drafts.items) }
    ensures reads { Reads S.outside source.old source.new (result ≡ Err (Bad fault.SourceFault)) }
{
    let mut filled = Vec::with_capacity(alloc, drafts.len())?;
    for draft in drafts {
        match fill_draft(alloc, source, draft, buffer) {
            Ok(line) => filled.push(line)?,
            Err(fault) => return Err(fault),
        }
    }
    Ok(filled)
}

// The line of a draft with the name of its content.
fn fill_draft<S: Source>(
    alloc: Global,
    source: &mut S,
    draft: Draft,
    buffer: &mut [u8],
) -> Result<Filled, Or<ContentFault>>
    requires fillable { CanBeFilled draft }
    requires room { 0 < length buffer.old }
    ensures filled { IsTrue (S.outside.tells source.old) → IfOk result (IsFilling (S.outside.state source.old).held draft) }
    ensures placed { IfOk result (IsPlaced draft) }
    ensures refused { IsTrue (S.outside.tells source.old) → IfBad result (IsUnfilled (S.outside.state source.old).held draft) }
    ensures reads { Reads S.outside source.old source.new (result ≡ Err (Bad fault.SourceFault)) }
{
    if !has_content(draft.line.action.kind) {
        let line = draft.line;
        return Ok(Filled { line, path: None });
    }
    let text = content_text(&draft);
    match name_of_content(alloc, source, text, buffer) {
        Ok((name, path)) => {
            has_digest(name);
            let Line { number, action } = draft.line;
            let line = Line {
                number,
                action: action.with_payload(name),
            };
            Ok(Filled {
                line,
                path: Some(path),
            })
        }
        Err(fault) => Err(fault),
    }
}

// The SHA-1 digest of the file that the text names, and its path.
fn name_of_content<S: Source>(
    alloc: Global,
    source: &mut S,
    text: &str,
    buffer: &mut [u8],
) -> Result<(PayloadName, RelPath), Or<ContentFault>>
    requires room { 0 < length buffer.old }
    ensures named { IsTrue (S.outside.tells source.old) → IfOk result (λ found. (bytes : List ℕ)
        × (file_at (S.outside.state source.old).held text.now ≡ Some bytes) × (length bytes ≤ payload_limit) × (found.0 ≡ digest_of SHA1 bytes)) }
    ensures path { IfOk result (λ found. found.1.bytes ≡ text.now) }
    ensures refused { IsTrue (S.outside.tells source.old) → IfBad result (IsUnread (file_at (S.outside.state source.old).held text.now)) }
    ensures reads { Reads S.outside source.old source.new (result ≡ Err (Bad fault.SourceFault)) }
{
    let Some(path) = path_of(alloc, text)? else {
        return Err(missing(alloc, text));
    };
    let payload = match Payload::open_file(source, path.copy(alloc)?, &NO_CONTENT) {
        Ok(payload) => payload,
        Err(why) => return Err(unread(alloc, text, why)),
    };
    match digest(payload, source, buffer) {
        Ok(name) => Ok((name, path)),
        Err(Failed) => Err(Or::Bad(ContentFault::SourceFault)),
    }
}

// Why the file that the text names isn't read.
fn unread(alloc: Global, text: &str, why: RepoFault) -> Or<ContentFault>
    requires { IsOpenFault why }
    ensures answers { AnswersOpening why result }
    ensures failed { why ≡ repo.SourceFault → result ≡ Bad fault.SourceFault }
{
    match why {
        RepoFault::PayloadMissing => missing(alloc, text),
        RepoFault::TooLarge { count, .. } => Or::Bad(ContentFault::TooLarge { count }),
        RepoFault::SourceFault => Or::Bad(ContentFault::SourceFault),
        RepoFault::NoRepository
        | RepoFault::BadCatalog(_)
        | RepoFault::ManifestMissing
        | RepoFault::BadManifest(_)
        | RepoFault::PayloadDamaged { .. }
        | RepoFault::Compressed { .. } => unreachable!(),
    }
}

// No file stands where the text names one.
fn missing(alloc: Global, text: &str) -> Or<ContentFault>
    ensures { SaysMissing result }
{
    match Text::new(alloc, text) {
        Ok(text) => Or::Bad(ContentFault::Missing { text }),
        Err(AllocError) => Or::OutOfMemory,
    }
}
