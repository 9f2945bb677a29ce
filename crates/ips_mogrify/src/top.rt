//! The top call.

ghost use Rattle.std.specs.Prelude.{◌≡◌, ◌⊎◌, List, ℕ, Err, IsTrue, IfOk, IfErr, map, string_bytes};
ghost use Rattle.ips_outside.specs.Outside.{Reads};
ghost use Rattle.ips_files.specs.Telling.{Tells};
ghost use Rattle.ips_mogrify.specs.Outcome.{AskToTransform, ComesTo, IsHostFault, IsManifestDue, source_seen};
ghost use Rattle.ips_mogrify.specs.Outcome as spec;
ghost use Rattle.ips_mogrify.specs.declared.status.MogrifyOutcome.TheVariants as outcome;

use crate::asked::read_asked;
use crate::files::read_files;
use crate::judging::{Refusal, judged};
use crate::status::{MogrifyOutcome, MogrifyStatus};
use ips_files::tell;
use ips_outside::{Sink, Source};
use ips_text::{Or, Text};
use ips_words::Usage;
use std::alloc::Global;

/// Transforms a manifest by rules, both files of the source, and writes the canonical manifest of what remains. Words that ask for no transformation ask nothing of
/// the source: no call on it fails then.
pub fn mogrify<S: Source, O: Sink>(
    alloc: Global,
    words: &[String],
    source: &mut S,
    out: &mut O,
) -> MogrifyStatus
    ensures comes { IsHostFault result.outcome ⊎ ComesTo (map string_bytes words.now) (source_seen S.outside source.old) result.outcome }
    ensures reads { Reads S.outside source.old source.new (result.outcome ≡ outcome.SourceFault) }
    ensures asked { result.outcome ≡ outcome.SourceFault → AskToTransform (map string_bytes words.now) }
    ensures silent { (result.outcome ≡ outcome.Written → ⊥) → (out.new ≡ out.old) × IsTrue result.told }
    ensures tells { result.outcome ≡ outcome.Written → (text : List ℕ) × Tells O.taking text out.old out.new result.told × IsManifestDue (map string_bytes words.now) (source_seen S.outside source.old) text }
{
    match text_of(alloc, words, source) {
        Ok(text) => MogrifyStatus {
            outcome: MogrifyOutcome::Written,
            told: tell(out, text.as_str().as_bytes()),
        },
        Err(outcome) => MogrifyStatus {
            outcome,
            told: true,
        },
    }
}

// The manifest that is due.
fn text_of<S: Source>(
    alloc: Global,
    words: &[String],
    source: &mut S,
) -> Result<Text, MogrifyOutcome>
    ensures due { IfOk result (IsManifestDue (map string_bytes words.now) (source_seen S.outside source.old)) }
    ensures comes { IfErr result (λ o. IsHostFault o ⊎ ComesTo (map string_bytes words.now) (source_seen S.outside source.old) o) }
    ensures unwritten { IfErr result (λ o. o ≡ outcome.Written → ⊥) }
    ensures reads { Reads S.outside source.old source.new (result ≡ Err outcome.SourceFault) }
    ensures asked { result ≡ Err outcome.SourceFault → AskToTransform (map string_bytes words.now) }
{
    let asked = match read_asked(alloc, words) {
        Ok(asked) => asked,
        Err(Or::Bad(usage)) => return Err(misused(usage)),
        Err(Or::OutOfMemory) => return Err(MogrifyOutcome::OutOfMemory),
    };
    let files = read_files(alloc, &asked, source)?;
    match judged(alloc, &files.rules, &files.manifest) {
        Ok(text) => Ok(text),
        Err(Or::Bad(refusal)) => Err(outcome_of(refusal)),
        Err(Or::OutOfMemory) => Err(MogrifyOutcome::OutOfMemory),
    }
}

// The words aren't of the form.
fn misused(usage: Usage) -> MogrifyOutcome
    ensures { result ≡ outcome.Usage usage.place usage.why }
{
    MogrifyOutcome::Usage {
        place: usage.place,
        why: usage.why,
    }
}

// The outcome of a refusal.
fn outcome_of(refusal: Refusal) -> MogrifyOutcome
    ensures { result ≡ spec.outcome_of refusal }
{
    match refusal {
        Refusal::BadRule { line } => MogrifyOutcome::BadRule { line },
        Refusal::BadPattern { line } => MogrifyOutcome::BadPattern { line },
        Refusal::BadManifest { fault } => MogrifyOutcome::BadManifest { fault },
        Refusal::BadResult { line } => MogrifyOutcome::BadResult { line },
    }
}
