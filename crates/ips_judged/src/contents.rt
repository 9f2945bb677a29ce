//! The steps that look at contents.

ghost use Rattle.std.specs.Prelude.{◌≡◌, IsTrue, IfOk, OnOk, Err};
ghost use Rattle.std.specs.List.{AllByRecursion};
ghost use Rattle.ips_text.specs.Reading.{IfBad};
ghost use Rattle.ips_text.specs.declared.refusal.Or.TheVariants.{Bad};
ghost use Rattle.ips_outside.specs.Outside.{Reads};
ghost use Rattle.ips_manifest.specs.Draft.{CanBeFilled};
ghost use Rattle.ips_filling.specs.Filled.{IsFilling, IsPlaced, Pairwise};
ghost use Rattle.ips_sends.specs.Judged.{HasSource};
ghost use Rattle.ips_judged.specs.Steps as steps;
ghost use Rattle.ips_judged.specs.Steps.{IsWhy, AreDraftsAt, IsNotReady, AreLacking, AreNotTaken};
ghost use Rattle.ips_judged.specs.declared.verdict.JudgeFault.TheVariants as fault;

use crate::opening::{read_manifest, refused};
use crate::verdict::{JudgeFault, Refusal};
use ips_filling::{ContentFault, Filled, fill, find_contents};
use ips_manifest::Draft;
use ips_outside::Source;
use ips_text::{Or, RelPath, Which};
use std::alloc::Global;

// Looks whether each content is a file.
fn find<S: Source>(alloc: Global, proto: &mut S, drafts: &[Draft]) -> Result<(), Or<JudgeFault>>
    ensures found { IsTrue (S.outside.tells proto.old) → OnOk result (AllByRecursion (HasSource (S.outside.state proto.old).held) drafts.now) }
    ensures refused { IsTrue (S.outside.tells proto.old) → IfBad result (IsWhy (AreLacking (S.outside.state proto.old).held drafts.now)) }
    ensures own { IfBad result steps.IsOfProto }
    ensures reads { Reads S.outside proto.old proto.new (result ≡ Err (Bad fault.SourceFault)) }
{
    match find_contents(alloc, proto, drafts) {
        Ok(()) => Ok(()),
        Err(Or::Bad(why)) => Err(Or::Bad(lost(why))),
        Err(Or::OutOfMemory) => Err(Or::OutOfMemory),
    }
}

/// The draft at the path, of which each content is a file.
pub(crate) fn ready_drafts<S: Source>(
    alloc: Global,
    proto: &mut S,
    path: &RelPath,
) -> Result<Vec<Draft>, Or<JudgeFault>>
    ensures found { IsTrue (S.outside.tells proto.old) → IfOk result (λ drafts. AreDraftsAt (S.outside.state proto.old).held path.now.bytes drafts.items) }
    ensures sources { IsTrue (S.outside.tells proto.old) → IfOk result (λ drafts. AllByRecursion (HasSource (S.outside.state proto.old).held) drafts.items) }
    ensures refused { IsTrue (S.outside.tells proto.old) → IfBad result (IsWhy (IsNotReady (S.outside.state proto.old).held path.now.bytes)) }
    ensures fillable { IfOk result (λ drafts. AllByRecursion CanBeFilled drafts.items) }
    ensures own { IfBad result steps.IsOfProto }
    ensures reads { Reads S.outside proto.old proto.new (result ≡ Err (Bad fault.SourceFault)) }
{
    match read_manifest(alloc, proto, path) {
        Ok(drafts) => match find(alloc, proto, drafts.as_slice()) {
            Ok(()) => Ok(drafts),
            Err(fault) => Err(fault),
        },
        Err(fault) => Err(fault),
    }
}

/// The lines with the names of their contents.
pub(crate) fn take_in<S: Source>(
    alloc: Global,
    proto: &mut S,
    drafts: Vec<Draft>,
) -> Result<Vec<Filled>, Or<JudgeFault>>
    requires { AllByRecursion CanBeFilled drafts.items }
    ensures filled { IsTrue (S.outside.tells proto.old) → IfOk result (λ filled. Pairwise (IsFilling (S.outside.state proto.old).held) drafts.items filled.items) }
    ensures placed { IfOk result (λ filled. Pairwise IsPlaced drafts.items filled.items) }
    ensures refused { IsTrue (S.outside.tells proto.old) → IfBad result (IsWhy (AreNotTaken (S.outside.state proto.old).held drafts.items)) }
    ensures own { IfBad result steps.IsOfProto }
    ensures reads { Reads S.outside proto.old proto.new (result ≡ Err (Bad fault.SourceFault)) }
{
    match fill(alloc, proto, drafts) {
        Ok(filled) => Ok(filled),
        Err(Or::Bad(why)) => Err(Or::Bad(lost(why))),
        Err(Or::OutOfMemory) => Err(Or::OutOfMemory),
    }
}

// Why contents aren't taken in.
fn lost(why: ContentFault) -> JudgeFault
    ensures { result ≡ steps.lost why }
{
    match why {
        ContentFault::Missing { text } => refused(Refusal::ContentMissing { text }),
        ContentFault::TooLarge { count } => refused(Refusal::TooLarge {
            which: Which::PayloadBytes,
            count,
        }),
        ContentFault::SourceFault => JudgeFault::SourceFault,
    }
}
