//! The texts that tell outcomes.

ghost use Rattle.std.specs.Prelude.{◌≡◌, ◌++◌, IfOk, codes};
ghost use Rattle.std.specs.Fmt.{decimal};
ghost use Rattle.ips_text.specs.Quote.{shown};
ghost use Rattle.ips_send_report.specs.Report.{extent_text, line, send_text};
ghost use Rattle.ips_send_report.specs.Report as spec;

use crate::outcome::SendOutcome;
use ips_syntax::Why;
use ips_text::{Text, show_path};
use percent_encoding::{AsciiSet, NON_ALPHANUMERIC, ascii_set, percent_encode};
use std::alloc::{AllocError, Global};

// What is escaped in a shown path.
const ESCAPED_IN_PATH: AsciiSet = ascii_set!(
    NON_ALPHANUMERIC
        .remove(b'_')
        .remove(b'.')
        .remove(b'-')
        .remove(b'/')
);

/// The text of an outcome, a line, of words that name this publisher.
pub fn report(alloc: Global, publisher: &str, outcome: &SendOutcome) -> Result<Text, AllocError>
    ensures { IfOk result (λ text. text ≡ send_text publisher.now outcome.now) }
{
    match outcome {
        SendOutcome::Usage { place, why } => usage_line(alloc, *place, *why),
        SendOutcome::BadJournal { line } => numbered_line(alloc, "bad journal line ", *line),
        SendOutcome::Exists => text_line(alloc, "exists", ""),
        SendOutcome::Blocked { path } => {
            let shown = show_path(alloc, path)?;
            text_line(alloc, "blocked ", shown.as_str())
        }
        SendOutcome::NoRepository => text_line(alloc, "no repository", ""),
        SendOutcome::BadCatalog { .. } => text_line(alloc, "bad catalog", ""),
        SendOutcome::ManifestMissing => text_line(alloc, "no manifest", ""),
        SendOutcome::BadManifest { fault } => {
            numbered_line(alloc, "bad manifest line ", fault.line)
        }
        SendOutcome::ContentMissing { path } => {
            let shown = shown_text(alloc, path.as_str().as_bytes())?;
            text_line(alloc, "content missing ", shown.as_str())
        }
        SendOutcome::TooLarge { count, .. } => numbered_line(alloc, "too large: ", *count),
        SendOutcome::SourceFault => text_line(alloc, "source fault", ""),
        SendOutcome::FolderFault { unfinished } => {
            text_line(alloc, "folder fault: ", extent(*unfinished))
        }
        SendOutcome::Created => text_line(alloc, "created ", publisher),
        SendOutcome::Published { fmri } => text_line(alloc, "published ", fmri.as_str()),
        SendOutcome::OutOfMemory => text_line(alloc, "out of memory", ""),
    }
}

// The line of a word that goes wrong.
fn usage_line(alloc: Global, place: u64, why: Why) -> Result<Text, AllocError>
    ensures { IfOk result (λ text. text ≡ line ((codes "usage: word " ++ decimal place ++ codes ": ") ++ spec.why_text why)) }
{
    let front = format!(in alloc; "usage: word {place}: ")?;
    text_line(alloc, front.as_str(), why_text(why))
}

// A line of a text and a number.
fn numbered_line(alloc: Global, front: &str, number: u64) -> Result<Text, AllocError>
    ensures { IfOk result (λ text. text ≡ line (front.now ++ decimal number)) }
{
    let text = format!(in alloc; "{front}{number}\n")?;
    Ok(Text::from_string(text))
}

// A line of two texts.
fn text_line(alloc: Global, front: &str, behind: &str) -> Result<Text, AllocError>
    ensures { IfOk result (λ text. text ≡ line (front.now ++ behind.now)) }
{
    let mut out = String::new(alloc);
    out.push_str(front)?;
    out.push_str(behind)?;
    out.push_str("\n")?;
    Ok(Text::from_string(out))
}

// A text as a path is shown.
fn shown_text(alloc: Global, path: &[u8]) -> Result<Text, AllocError>
    ensures { IfOk result (λ text. text ≡ shown path.now) }
{
    let mut text = String::new(alloc);
    percent_encode(path, ESCAPED_IN_PATH).append_to(&mut text)?;
    Ok(Text::from_string(text))
}

// What is wrong with a word.
fn why_text(why: Why) -> &'static str
    ensures { result.now ≡ spec.why_text why }
{
    match why {
        Why::Missing => "missing",
        Why::Unknown => "unknown",
        Why::Repeated => "repeated",
        Why::BadValue => "bad value",
        Why::Extra => "extra",
    }
}

// How far a change came.
fn extent(unfinished: bool) -> &'static str
    ensures { result.now ≡ extent_text unfinished }
{
    if unfinished {
        "unfinished"
    } else {
        "unchanged"
    }
}
