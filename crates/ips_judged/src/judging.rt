//! The judging.

ghost use Rattle.std.specs.Prelude.{◌≡◌, List, IsTrue, IfOk, Ok, Err};
ghost use Rattle.std.specs.List.{AllByRecursion, flat_map};
ghost use Rattle.std.specs.Str.{IsUtf8};
ghost use Rattle.ips_text.specs.Reading.{IfBad};
ghost use Rattle.ips_text.specs.declared.refusal.Or.TheVariants.{Bad};
ghost use Rattle.ips_outside.specs.Outside.{Reads};
ghost use Rattle.ips_outside.specs.Children.{path_bytes};
ghost use Rattle.ips_manifest.specs.Manifest.{StandsOnLine};
ghost use Rattle.ips_catalog.specs.Listed.{Listed};
ghost use Rattle.ips_repo.specs.Opening.{IsOffered, opening};
ghost use Rattle.ips_ways.specs.Ways.{IsFree};
ghost use Rattle.ips_sends.specs.Whole.{content_of};
ghost use Rattle.ips_sends.specs.Judged.{Judges, Publish};
ghost use Rattle.ips_sends.specs.Judged as spec;
ghost use Rattle.ips_prepare.specs.Prepared.{HasName, IsSourced, names_of};
ghost use Rattle.ips_judged.specs.Answers.{IsAsked, SaysOfJudging, asked_of, put_of};
ghost use Rattle.ips_judged.specs.declared.verdict.JudgeFault.TheVariants as fault;

use crate::building::publication;
use crate::contents::ready_drafts;
use crate::listing::is_listed;
use crate::opening::{open, refused};
use crate::verdict::{Asked, JudgeFault, Publication, Refusal};
use ips_folder::Folder;
use ips_outside::Source;
use ips_text::Or;
use std::alloc::Global;

/// Judges what is asked, by what both folders hold; nothing is changed. Contents are read piece by piece.
///
/// # Errors
///
/// It is refused for the first of the causes of `Refusal`, in the order of publishing; or a call on a folder failed.
pub fn judged<S: Source, F: Folder>(
    alloc: Global,
    proto: &mut S,
    target: &mut F,
    asked: &Asked,
) -> Result<Publication, Or<JudgeFault>>
    requires { IsAsked asked.now }
    ensures publishes { IsTrue (S.outside.tells proto.old) → IsTrue (F.outside.tells target.old)
        → IfOk result (λ p. Judges (S.outside.state proto.old).held (F.outside.state target.old).held (asked_of asked.now) (Publish (put_of p))) }
    ensures refused { IsTrue (S.outside.tells proto.old) → IsTrue (F.outside.tells target.old)
        → IfBad result (SaysOfJudging (S.outside.state proto.old).held (F.outside.state target.old).held asked.now) }
    ensures stand { IfOk result (λ p. AllByRecursion StandsOnLine p.prepared.manifest.lines.items) }
    ensures contents { IfOk result (λ p. names_of p.prepared.contents.items ≡ flat_map content_of (put_of p).actions) }
    ensures names { IfOk result (λ p. AllByRecursion HasName p.prepared.contents.items) }
    ensures sourced { IsTrue (S.outside.tells proto.old) → IfOk result (λ p. AllByRecursion (IsSourced (S.outside.state proto.old).held) p.prepared.contents.items) }
    ensures ways { IfOk result (λ p. path_bytes p.ways.items ≡ spec.ways asked.now.publisher asked.now.stem (names_of p.prepared.contents.items)) }
    ensures free { IsTrue (F.outside.tells target.old) → IfOk result (λ p. IsFree (F.outside.state target.old).held (path_bytes p.ways.items)) }
    ensures offered { IsTrue (F.outside.tells target.old) → IfOk result (λ p. (catalog : List Listed) → opening asked.now.publisher (F.outside.state target.old).held ≡ Ok catalog → IsOffered catalog) }
    ensures utf8 { IfOk result (λ p. IsUtf8 p.texts.catalog.items) }
    ensures reads_proto { Reads S.outside proto.old proto.new (result ≡ Err (Bad fault.SourceFault)) }
    ensures reads { Reads F.outside target.old target.new (result ≡ Err (Bad fault.FolderFault)) }
{
    let repo = match open(alloc, target, asked.publisher.as_str()) {
        Ok(repo) => repo,
        Err(fault) => return Err(fault),
    };
    let drafts = match ready_drafts(alloc, proto, &asked.path) {
        Ok(drafts) => drafts,
        Err(fault) => return Err(fault),
    };
    if is_listed(repo.catalog(), asked.stem.as_str(), &asked.version) {
        return Err(Or::Bad(refused(Refusal::Exists)));
    }
    publication(alloc, proto, target, asked, &repo, drafts)
}
