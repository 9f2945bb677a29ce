//! Looking for contents.

ghost use Rattle.std.specs.Prelude.{◌≡◌, IsTrue, IfOk, OnOk, Err, is_some};
ghost use Rattle.std.specs.List.{AllByRecursion};
ghost use Rattle.ips_text.specs.Reading.{IfBad};
ghost use Rattle.ips_text.specs.declared.refusal.Or.TheVariants.{Bad};
ghost use Rattle.ips_outside.specs.Outside.{Reads};
ghost use Rattle.ips_files.specs.Files.{file_at};
ghost use Rattle.ips_sends.specs.Judged.{HasSource};
ghost use Rattle.ips_filling.specs.Filled.{IsLost, AreLost};
ghost use Rattle.ips_filling.specs.declared.filled.ContentFault.TheVariants as fault;

use crate::content::{content_text, has_content, path_of};
use crate::filled::ContentFault;
use ips_files::find_file;
use ips_manifest::Draft;
use ips_outside::{Failed, Source};
use ips_text::{Or, Text};
use std::alloc::Global;

/// Looks whether the content of each draft is a file; none is read.
///
/// # Errors
///
/// The first that isn't one is missing; or a call failed.
pub fn find_contents<S: Source>(
    alloc: Global,
    source: &mut S,
    drafts: &[Draft],
) -> Result<(), Or<ContentFault>>
    ensures found { IsTrue (S.outside.tells source.old) → OnOk result (AllByRecursion (HasSource (S.outside.state source.old).held) drafts.now) }
    ensures lost { IsTrue (S.outside.tells source.old) → IfBad result (AreLost (S.outside.state source.old).held drafts.now) }
    ensures reads { Reads S.outside source.old source.new (result ≡ Err (Bad fault.SourceFault)) }
{
    for draft in drafts {
        match find_content(alloc, source, draft) {
            Ok(()) => {}
            Err(fault) => return Err(fault),
        }
    }
    Ok(())
}

// Looks whether the content of a draft is a file.
fn find_content<S: Source>(
    alloc: Global,
    source: &mut S,
    draft: &Draft,
) -> Result<(), Or<ContentFault>>
    ensures found { IsTrue (S.outside.tells source.old) → OnOk result (HasSource (S.outside.state source.old).held draft.now) }
    ensures lost { IsTrue (S.outside.tells source.old) → IfBad result (IsLost (S.outside.state source.old).held draft.now) }
    ensures reads { Reads S.outside source.old source.new (result ≡ Err (Bad fault.SourceFault)) }
{
    if !has_content(draft.line.action.kind) {
        return Ok(());
    }
    let text = content_text(draft);
    match stands(alloc, source, text) {
        Ok(true) => Ok(()),
        Ok(false) => {
            let text = Text::new(alloc, text)?;
            Err(Or::Bad(ContentFault::Missing { text }))
        }
        Err(fault) => Err(fault),
    }
}

// Whether a file stands where the text names one. A text that is no path names none.
fn stands<S: Source>(alloc: Global, source: &mut S, text: &str) -> Result<bool, Or<ContentFault>>
    ensures found { IsTrue (S.outside.tells source.old) → IfOk result (λ there. there ≡ is_some (file_at (S.outside.state source.old).held text.now)) }
    ensures faults { IfBad result (λ why. why ≡ fault.SourceFault) }
    ensures reads { Reads S.outside source.old source.new (result ≡ Err (Bad fault.SourceFault)) }
{
    let Some(path) = path_of(alloc, text)? else {
        return Ok(false);
    };
    match find_file(source, &path) {
        Ok(found) => Ok(found.is_some()),
        Err(Failed) => Err(Or::Bad(ContentFault::SourceFault)),
    }
}
