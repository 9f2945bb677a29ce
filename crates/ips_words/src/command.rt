//! The command that the words are.

ghost use Rattle.std.specs.Prelude.{◌≡◌, IfOk, IfSome, IfNone, true, false, drop, map, string_bytes};
ghost use Rattle.ips_text.specs.Reading.{IfBad};
ghost use Rattle.ips_words.specs.History.{from_command, history_of};
ghost use Rattle.ips_words.specs.Meaning.{Means};
ghost use Rattle.ips_words.specs.Command as command;
ghost use Rattle.ips_words.specs.Command.{is_led, IsCommand, IsUsage, usage_of};

use crate::history::history_text;
use crate::making::what_of;
use crate::what::{Usage, What};
use ips_syntax::{Given, Line, Why, next_word, read_line};
use ips_text::{Or, Stop, Text};
use std::alloc::{AllocError, Global};

/// What the words ask for.
#[derive(Drop)]
pub struct Command {
    /// What is to be done.
    pub what: What,
    /// The words from the command on, each quoted, divided by blanks.
    pub history: Text,
}

impl Command {
    /// Reads the words of the command line, without the program's name.
    pub fn read(alloc: Global, words: &[String]) -> Result<Command, Or<Usage>>
        ensures found { IfOk result (λ c. IsCommand (map string_bytes words.now) c) }
        ensures bad { IfBad result (λ usage. IsUsage (map string_bytes words.now) usage) }
    {
        let mut given = Vec::new(alloc);
        match read_line(alloc, words, &mut given) {
            Ok(line) => command_of(alloc, line, &given, words),
            Err(Or::Bad(stop)) => Err(Or::Bad(usage(words, stop))),
            Err(Or::OutOfMemory) => Err(Or::OutOfMemory),
        }
    }
}

// The usage of a stop.
fn usage(words: &[String], stop: Stop<Why>) -> Usage
    ensures { result ≡ usage_of (map string_bytes words.now) stop }
{
    Usage {
        place: words.len().saturating_sub(stop.left) as u64,
        why: stop.kind,
    }
}

// The command of a line.
fn command_of(
    alloc: Global,
    line: Line,
    given: &[Given],
    words: &[String],
) -> Result<Command, Or<Usage>>
    ensures what { IfOk result (λ c. Means line given.now c.what) }
    ensures history { IfOk result (λ c. c.history ≡ history_of (from_command (map string_bytes words.now))) }
    ensures good { IfBad result (λ _. ⊥) }
{
    let history = history_text(alloc, command_words(words))?;
    let what = what_of(alloc, line, given)?;
    Ok(Command { what, history })
}

// The words from the command on.
fn command_words(words: &[String]) -> &[String]
    ensures { map string_bytes result.now ≡ from_command (map string_bytes words.now) }
{
    match next_word(words) {
        Some((word, after)) if word == "-R" => behind_three(after),
        _ => words,
    }
}

// What stands behind the first three words.
fn behind_three(words: &[String]) -> &[String]
    ensures { map string_bytes result.now ≡ drop 3 (map string_bytes words.now) }
{
    if words.len() < 3 {
        return &[];
    }
    &words[3..]
}

/// The places of the image and of the repository among the words. None exactly where the first four words aren't `-R`, a word,
/// `-s` and a word.
pub fn roots(words: &[String]) -> Option<(usize, usize)>
    ensures found { IfSome result (λ places. (places ≡ (1, 3)) × (is_led (map string_bytes words.now) ≡ true)) }
    ensures none { IfNone result (is_led (map string_bytes words.now) ≡ false) }
{
    match next_word(words) {
        Some((word, after)) if word == "-R" && is_behind_image(after) => Some((1, 3)),
        _ => None,
    }
}

// Whether the words begin with a word, `-s` and a word.
fn is_behind_image(words: &[String]) -> bool
    ensures { result ≡ command.is_behind_image (map string_bytes words.now) }
{
    let Some((_, behind)) = next_word(words) else {
        return false;
    };
    match next_word(behind) {
        Some((word, after)) if !after.is_empty() => word == "-s",
        _ => false,
    }
}
