//! What the program does where the first word is `mogrify`.

ghost use Rattle.std.specs.Prelude.{◌≡◌, ◌↔◌, IfOk, IfSome, IfNone, IsTrue, Some, None, map, slice_get, string_bytes};
ghost use Rattle.std.specs.Process.{exit_status};
ghost use Rattle.ips_host.specs.Roots.{repository_root};
ghost use Rattle.ips_pkg.specs.Mogrified.{AsksToMogrify, IsThird, Mogrifies, MogrifiesWith};

use crate::working::OUT_OF_MEMORY;
use ips_action::ActionFault;
use ips_host::{HostSink, HostSource};
use ips_manifest::LineFault;
use ips_mogrify::{MogrifyOutcome, MogrifyStatus, mogrify};
use ips_outside::{Sink, Source};
use ips_syntax::Why;
use ips_text::{RelPath, Text};
use std::alloc::AllocError;
use std::process::ExitCode;
use std::str;

/// The folder that holds both files, and where the manifest goes.
#[derive(Drop)]
struct Places {
    source: HostSource<HostRuntime>,
    sink: HostSink<HostRuntime>,
}

/// Whether the words ask for the transformation of a manifest.
pub fn asks_to_mogrify(words: &[String]) -> bool
    ensures { IsTrue result ↔ AsksToMogrify (map string_bytes words.now) }
{
    match first_word(words) {
        Some(word) => word == "mogrify",
        None => false,
    }
}

/// The first word, where there is one.
pub fn first_word(words: &[String]) -> Option<&str>
    ensures some { IfSome result (λ word. slice_get (map string_bytes words.now) 0 ≡ Some word.now) }
    ensures none { IfNone result (slice_get (map string_bytes words.now) 0 ≡ None) }
{
    match words.get(0) {
        Some(word) => Some(word.as_str()),
        None => None,
    }
}

/// Transforms a manifest by rules, both files below the folder that the third word names, and answers the exit status. It
/// changes nothing, so it takes no lock. Standard error says why nothing is written.
pub fn mogrified(rt: HostRuntime, words: &[String]) -> ExitCode
    ensures { Mogrifies (⟦<HostSource<HostRuntime> as Source>⟧.outside) (⟦<HostSink<HostRuntime> as Sink>⟧.taking) repository_root (map string_bytes words.now) (exit_status result) }
{
    ExitCode::from(number_for(rt, words))
}

// The number of that exit status.
fn number_for(rt: HostRuntime, words: &[String]) -> u8
    ensures { Mogrifies (⟦<HostSource<HostRuntime> as Source>⟧.outside) (⟦<HostSink<HostRuntime> as Sink>⟧.taking) repository_root (map string_bytes words.now) result }
{
    match places_of(rt, words) {
        Ok(mut places) => {
            let number = carry_out(rt, words, &mut places);
            drop(places);
            number
        }
        Err(_) => OUT_OF_MEMORY,
    }
}

// The source for these words is the folder that the third one names.
fn places_of(rt: HostRuntime, words: &[String]) -> Result<Places, AllocError>
    ensures { IfOk result (λ places. IsThird (map string_bytes words.now) (repository_root places.source)) }
{
    let folder = Text::new(rt.alloc(), third(words))?;
    Ok(Places {
        source: HostSource::new(rt, folder),
        sink: HostSink::new(rt),
    })
}

// The number for the words on this source and this sink. Behind it standard error says what went wrong.
fn carry_out(rt: HostRuntime, words: &[String], places: &mut Places) -> u8
    ensures { MogrifiesWith (⟦<HostSource<HostRuntime> as Source>⟧.outside) (⟦<HostSink<HostRuntime> as Sink>⟧.taking) (map string_bytes words.now) places.old.source places.new.source places.old.sink places.new.sink result }
{
    let status = mogrify(rt.alloc(), words, &mut places.source, &mut places.sink);
    tell(&rt, &status, places);
    status.number()
}

/// The third word, and an empty one where there is none. For fewer words the calls ask nothing of the folder that it names.
pub fn third(words: &[String]) -> &str
    ensures { IsThird (map string_bytes words.now) result.now }
{
    match words {
        [_, _, path, ..] => path.as_str(),
        _ => "",
    }
}

// Says on standard error why nothing was written, and which call failed.
fn tell(rt: &HostRuntime, status: &MogrifyStatus, places: &Places) {
    tell_outcome(rt, &status.outcome);
    if let Some(failed) = places.source.first_fault() {
        let _ = eprintln!(rt; "pkg: {failed}");
    }
    if let Some(failed) = places.sink.first_fault() {
        let _ = eprintln!(rt; "pkg: {failed}");
    }
}

// Says where the words, the rules or the manifest go wrong.
fn tell_outcome(rt: &HostRuntime, outcome: &MogrifyOutcome) {
    let _ = match outcome {
        MogrifyOutcome::Written | MogrifyOutcome::SourceFault => Ok(()),
        MogrifyOutcome::Usage { place, why } => {
            let why = name_of(*why);
            eprintln!(rt; "pkg: word {place}: {why}; pkg mogrify -d <folder> <rules> <manifest>")
        }
        MogrifyOutcome::FileMissing { path } => {
            let path = shown(path);
            eprintln!(rt; "pkg: no file {path}")
        }
        MogrifyOutcome::TooLarge { count, .. } => {
            eprintln!(rt; "pkg: a file of {count} bytes, of at most 16777216")
        }
        MogrifyOutcome::BadRule { line } => eprintln!(rt; "pkg: rules line {line}: no rule"),
        MogrifyOutcome::BadPattern { line } => {
            eprintln!(rt; "pkg: rules line {line}: no pattern")
        }
        MogrifyOutcome::BadManifest { fault } => {
            let line = fault.line;
            let what = fault_name(&fault.fault);
            eprintln!(rt; "pkg: manifest line {line}: {what}")
        }
        MogrifyOutcome::BadResult { line } => {
            eprintln!(rt; "pkg: manifest line {line}: the rules leave no action")
        }
        MogrifyOutcome::OutOfMemory => eprintln!(rt; "pkg: out of memory"),
    };
}

// What is wrong with a word.
fn name_of(why: Why) -> &'static str {
    match why {
        Why::Missing => "missing",
        Why::Unknown => "unknown",
        Why::Repeated => "repeated",
        Why::BadValue => "no path",
        Why::Extra => "extra",
    }
}

// What is wrong with a line of a manifest.
fn fault_name(fault: &LineFault) -> &'static str {
    match fault {
        LineFault::NotText => "no UTF-8",
        LineFault::Action(ActionFault::UnknownAction { .. }) => "no action has this name",
        LineFault::Action(ActionFault::BadWord { .. }) => "a word isn't as it should be",
        LineFault::Action(ActionFault::OpenQuote { .. }) => "a quote isn't closed",
        LineFault::Action(ActionFault::MissingKey { .. }) =>
            "an attribute or the payload is missing",
        LineFault::Action(ActionFault::BadValue { .. }) =>
            "an attribute or the payload has a value that it can't have",
    }
}

// The text of a path.
fn shown(path: &RelPath) -> &str {
    match str::from_utf8(path.bytes()) {
        Ok(text) => text,
        Err(_) => "?",
    }
}
