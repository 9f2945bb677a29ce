//! Drafts of manifests: the contents of files and licenses aren't known yet.

ghost use Rattle.std.specs.Prelude.{◌≡◌, ◌++◌, ◌+◌, ◌<◌, ◌≤◌, ◌^◌, false, List, Ok, Some, IfOk, OnOk, length};
ghost use Rattle.std.specs.List.{AllByRecursion};
ghost use Rattle.ips_text.specs.Reading.{Gives, IfBad};
ghost use Rattle.ips_manifest.specs.Draft as spec;
ghost use Rattle.ips_manifest.specs.Draft.{Drafted, MeansDrafted, IsDraftOf, IsDraftedFault, IsDraftFaultOf, CanBeFilled};
ghost use Rattle.ips_manifest.specs.Logical as logical;
ghost use Rattle.ips_manifest.specs.Seen.{TextGivesBy, lines_with};
ghost use Rattle.ips_manifest.specs.declared.draft.Draft as declared;

use crate::fault::{LineFault, ManifestFault};
use crate::line::Line;
use crate::logical::{Remaining, is_skipped, next_logical};
use ips_action::{Action, parse_draft};
use ips_text::{Or, Text};
use std::alloc::{AllocError, Global};

/// A line of a manifest whose content isn't known yet.
#[derive(Drop)]
pub struct Draft {
    /// The line, with 40 zeros for the payload of a file or a license.
    pub line: Line,
    /// The payload word of a file or a license, as it stands in the text.
    pub word: Option<Text>,
}

/// Reads a manifest as `Manifest::read` does where the payload word of each file and license line is 40 zeros: any word may
/// stand there, or none, and it is answered beside the line. Faults are those of that text, at the places of the text as it
/// stands. Each action can be printed with any content.
pub fn read_draft(alloc: Global, bytes: &[u8]) -> Result<Vec<Draft>, Or<ManifestFault>>
    ensures found { IfOk result (λ drafts. IsDraftOf bytes.now drafts.items) }
    ensures only { (drafts : List declared.Draft) → IsDraftOf bytes.now drafts → Gives (λ v. v.items) result (Ok drafts) }
    ensures fault { IfBad result (λ fault. IsDraftFaultOf bytes.now fault) }
    ensures stand { IfOk result (λ drafts. AllByRecursion CanBeFilled drafts.items) }
    ensures within { IfBad result (λ fault. fault.line ≤ length bytes.now) }
{
    read_drafts(alloc, bytes)
}

// The lines of a draft.
fn read_drafts(alloc: Global, bytes: &[u8]) -> Result<Vec<Draft>, Or<ManifestFault>>
    requires { 1 + length bytes.now < 2 ^ 64 }
    ensures found { IfOk result (λ drafts. IsDraftOf bytes.now drafts.items) }
    ensures only { (drafts : List declared.Draft) → IsDraftOf bytes.now drafts → Gives (λ v. v.items) result (Ok drafts) }
    ensures fault { IfBad result (λ fault. IsDraftFaultOf bytes.now fault) }
{
    let mut drafts = Vec::new(alloc);
    let mut rest = Remaining { number: 1, bytes };
    while !rest.bytes.is_empty() {
        let (text, behind) = next_logical(alloc, rest)?;
        let drafted = read_drafted(alloc, rest.number, text.as_str())?;
        add(&mut drafts, rest.number, drafted)?;
        rest = behind;
    }
    drafts.shrink_to_fit();
    Ok(drafts)
}

// The action that a logical line of this number means with 40 zeros for its content, and the word that stands there; none
// where the line is skipped.
fn read_drafted(
    alloc: Global,
    number: u64,
    text: &str,
) -> Result<Option<(Action, Option<Text>)>, Or<ManifestFault>>
    ensures found { IfOk result (λ drafted. TextGivesBy MeansDrafted text.now drafted) }
    ensures only { (drafted : Drafted) → logical.is_skipped text.now ≡ false → MeansDrafted text.now drafted → Gives (λ d. d) result (Ok (Some drafted)) }
    ensures bad { IfBad result (λ f. (logical.is_skipped text.now ≡ false) × (f.line ≡ number) × IsDraftedFault text.now f.fault) }
{
    if is_skipped(text) {
        return Ok(None);
    }
    match parse_draft(alloc, text) {
        Ok(drafted) => Ok(Some(drafted)),
        Err(Or::Bad(fault)) => Err(Or::Bad(ManifestFault {
            line: number,
            fault: LineFault::Action(fault),
        })),
        Err(Or::OutOfMemory) => Err(Or::OutOfMemory),
    }
}

// Adds an action and its word, where there is one, as a line of this number.
fn add(
    drafts: &mut Vec<Draft>,
    number: u64,
    drafted: Option<(Action, Option<Text>)>,
) -> Result<(), AllocError>
    ensures { OnOk result (drafts.new.items ≡ drafts.old.items ++ lines_with spec.draft_at number drafted) }
{
    if let Some((action, word)) = drafted {
        let line = Line { number, action };
        drafts.push(Draft { line, word })?;
    }
    Ok(())
}
