//! The reports that need no memory.

ghost use Rattle.std.specs.Prelude.{◌≡◌, ◌++◌, IfNone, IfSome, codes};
ghost use Rattle.std.specs.Fmt.{decimal};
ghost use Rattle.ips_report.specs.Report.{behind_blanks, done_text, failed_text, folder_text, line, report_text, when_text};
ghost use Rattle.ips_tell.specs.told.Told.{manner_of};
ghost use Rattle.ips_tell.specs.telling.Finishing.{Adds, IsEarly};
ghost use Rattle.ips_files.specs.Telling.{Tells};

use crate::telling::pieces::{
    put, put_counts, put_lines, put_number, put_numbered, put_sorts, put_words,
};
use ips_counts::{Counts, Sorts};
use ips_files::tell;
use ips_outside::Sink;
use ips_report::Outcome;
use ips_text::Text;

/// Writes the report of an outcome that isn't early, without memory; None where it is early.
pub(crate) fn tell_late<O: Sink>(out: &mut O, outcome: &Outcome) -> Option<bool>
    ensures late { IfSome result (Tells O.taking (report_text outcome.now) out.old out.new) }
    ensures early { IfNone result (IsEarly (manner_of outcome.now) × (out.new ≡ out.old)) }
{
    match outcome {
        Outcome::Done {
            counts,
            steps,
            licenses,
        } => Some(tell_done(out, counts, steps, licenses.as_slice())),
        Outcome::ActuatorFailed {
            after,
            words,
            status,
        } => Some(tell_failed(out, *after, words.as_slice(), *status)),
        Outcome::BadJournal { line } => Some(tell_bad_journal(out, *line)),
        Outcome::Recovered { forward: true } => Some(tell(out, b"recovered: new image\n")),
        Outcome::Recovered { forward: false } => Some(tell(out, b"recovered: leftovers cleared\n")),
        Outcome::SpawnFault { after } => Some(tell_spawn(out, *after)),
        Outcome::FolderFault { unfinished } => Some(tell_folder(out, *unfinished)),
        Outcome::SourceFault => Some(tell(out, b"source fault\n")),
        Outcome::Unfinished => Some(tell(out, b"unfinished: run fix\n")),
        Outcome::OutOfMemory => Some(tell(out, b"out of memory\n")),
        _ => None,
    }
}

// Writes what was changed.
fn tell_done<O: Sink>(out: &mut O, counts: &Counts, steps: &Sorts, licenses: &[Text]) -> bool
    ensures { Tells O.taking (done_text counts.now steps.now licenses.now) out.old out.new result }
{
    let told = put_lines(out, true, b"license: ", licenses);
    let told = put_counts(out, told, counts);
    let told = put_sorts(out, told, steps);
    put(out, told, b"done\n")
}

// Writes the line of an actuator that failed.
fn tell_failed<O: Sink>(out: &mut O, after: bool, words: &[Text], status: u8) -> bool
    ensures { Tells O.taking (line (failed_text after status ++ behind_blanks words.now)) out.old out.new result }
{
    let told = put_failed(out, after, status);
    let told = put_words(out, told, words);
    put(out, told, b"\n")
}

// Writes when an actuator failed, and how.
fn put_failed<O: Sink>(out: &mut O, after: bool, status: u8) -> bool
    ensures { Tells O.taking (failed_text after status) out.old out.new result }
{
    let told = tell(out, b"actuator failed ");
    let told = put(out, told, when(after));
    let told = put_numbered(out, told, b" ", u64::from(status));
    put(out, told, b":")
}

// Writes when an actuator couldn't be run.
fn tell_spawn<O: Sink>(out: &mut O, after: bool) -> bool
    ensures { Tells O.taking (line (codes "spawn fault " ++ when_text after)) out.old out.new result }
{
    let told = tell(out, b"spawn fault ");
    let told = put(out, told, when(after));
    put(out, told, b"\n")
}

// Writes how far a change came.
fn tell_folder<O: Sink>(out: &mut O, unfinished: bool) -> bool
    ensures { Tells O.taking (folder_text unfinished) out.old out.new result }
{
    if unfinished {
        tell(out, b"folder fault: unfinished\n")
    } else {
        tell(out, b"folder fault: unchanged\n")
    }
}

// Behind the commit, or before it.
fn when(after: bool) -> &'static [u8]
    ensures { result.now ≡ when_text after }
{
    if after { b"after" } else { b"before" }
}

// Writes the line of a bad journal.
fn tell_bad_journal<O: Sink>(out: &mut O, number: u64) -> bool
    ensures { Tells O.taking (line (codes "bad journal line " ++ decimal number)) out.old out.new result }
{
    let told = tell(out, b"bad journal line ");
    let told = put_number(out, told, number);
    put(out, told, b"\n")
}
