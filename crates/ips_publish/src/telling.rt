//! How the report of a run is written to a sink: without memory where anything may have been changed or a call has failed.

ghost use Rattle.std.specs.Prelude.{◌≡◌, ◌++◌, IfNone, IfSome, codes};
ghost use Rattle.std.specs.Fmt.{decimal};
ghost use Rattle.ips_files.specs.Telling.{Tells};
ghost use Rattle.ips_send_report.specs.Report.{extent_text, line, send_text};
ghost use Rattle.ips_publish.specs.Told.{IsEarly, IsToldFor};

use ips_files::tell;
use ips_outside::Sink;
use ips_send_report::{SendOutcome, SendStatus, report};
use itoa::Buffer;
use std::alloc::Global;

/// Writes the report of an outcome to the sink, of words that name this publisher. Where memory for it is refused, and the outcome is early, that is told in its
/// place.
pub(crate) fn finish<O: Sink>(
    alloc: Global,
    publisher: &str,
    outcome: SendOutcome,
    out: &mut O,
) -> SendStatus
    ensures outcome { IsToldFor outcome result.outcome }
    ensures told { Tells O.taking (send_text publisher.now result.outcome) out.old out.new result.told }
{
    if let Some(told) = tell_late(out, publisher, &outcome) {
        return SendStatus { outcome, told };
    }
    match report(alloc, publisher, &outcome) {
        Ok(text) => SendStatus {
            told: tell(out, text.as_str().as_bytes()),
            outcome,
        },
        Err(_) => SendStatus {
            told: tell(out, b"out of memory\n"),
            outcome: SendOutcome::OutOfMemory,
        },
    }
}

// Writes the report of an outcome that isn't early, without memory; None where it is early.
fn tell_late<O: Sink>(out: &mut O, publisher: &str, outcome: &SendOutcome) -> Option<bool>
    ensures late { IfSome result (Tells O.taking (send_text publisher.now outcome.now) out.old out.new) }
    ensures early { IfNone result (IsEarly outcome.now × (out.new ≡ out.old)) }
{
    match outcome {
        SendOutcome::BadJournal { line } => Some(tell_bad_journal(out, *line)),
        SendOutcome::SourceFault => Some(tell(out, b"source fault\n")),
        SendOutcome::FolderFault { unfinished } => Some(tell_folder(out, *unfinished)),
        SendOutcome::Created => Some(tell_line(out, b"created ", publisher.as_bytes())),
        SendOutcome::Published { fmri } => {
            Some(tell_line(out, b"published ", fmri.as_str().as_bytes()))
        }
        SendOutcome::OutOfMemory => Some(tell(out, b"out of memory\n")),
        _ => None,
    }
}

// Writes the line of a bad journal.
fn tell_bad_journal<O: Sink>(out: &mut O, number: u64) -> bool
    ensures { Tells O.taking (line (codes "bad journal line " ++ decimal number)) out.old out.new result }
{
    let mut buffer = Buffer::new();
    tell_line(out, b"bad journal line ", buffer.format(number).as_bytes())
}

// Writes how far a change came.
fn tell_folder<O: Sink>(out: &mut O, unfinished: bool) -> bool
    ensures { Tells O.taking (line (codes "folder fault: " ++ extent_text unfinished)) out.old out.new result }
{
    if unfinished {
        tell(out, b"folder fault: unfinished\n")
    } else {
        tell(out, b"folder fault: unchanged\n")
    }
}

// Writes a line of two texts.
fn tell_line<O: Sink>(out: &mut O, front: &[u8], behind: &[u8]) -> bool
    ensures { Tells O.taking (line (front.now ++ behind.now)) out.old out.new result }
{
    if tell_both(out, front, behind) {
        tell(out, b"\n")
    } else {
        false
    }
}

// Writes two texts, one behind the other.
fn tell_both<O: Sink>(out: &mut O, first: &[u8], second: &[u8]) -> bool
    ensures { Tells O.taking (first.now ++ second.now) out.old out.new result }
{
    if tell(out, first) {
        tell(out, second)
    } else {
        false
    }
}
