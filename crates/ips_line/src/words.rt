//! What a line says.

ghost use Rattle.std.specs.Prelude.{◌≡◌, IfOk, Ok};
ghost use Rattle.ips_text.specs.Reading.{Gives, IfBad};
ghost use Rattle.ips_line.specs.Line as written_line;
ghost use Rattle.ips_line.specs.Line.{IsWrittenLine, line_written, words_of, payload_of, Says, IsFault};
ghost use Rattle.ips_line.specs.Reading as reading;
ghost use Rattle.ips_line.specs.Reading.{read_line, said_line};
ghost use Rattle.ips_line.specs.Seen.{seen, seen_payload, seen_gapped, FitsBehind};

use crate::attributes::pairs;
use crate::classes::{Class, run, some};
use crate::fault::{Part, WordFault, fault};
use crate::payload::{Payload, read_payload};
use ips_text::{Or, Stop, Text};
use std::alloc::Global;

/// A word that is borrowed from a line.
#[derive(Clone, Copy, Drop)]
pub struct Word<'a> {
    /// Its text.
    pub text: &'a str,
    /// The byte of the line at which it begins, from 0.
    pub place: u64,
}

/// A `key=value`.
#[derive(Drop)]
pub struct Pair {
    /// One or more characters other than blank, tab, `=`, `"` and `'`.
    pub key: Text,
    /// Any text, without the quotes and escapes by which it was written.
    pub value: Text,
}

/// What a line says.
#[derive(Drop)]
pub struct Words<'a> {
    /// The first word: any characters up to a blank or tab.
    pub name: Word<'a>,
    /// The second word, where it has no `=`.
    pub payload: Option<Word<'a>>,
    /// All further words, in order.
    pub pairs: Vec<Pair>,
}

/// Reads a line, which has to be all of the text: words divided by blanks and tabs. The first is the name, a second one
/// without `=` the payload word, and all others are `key=value`, as in the actions of a manifest (pkg(7)). A value that begins
/// with `"` or `'` ends at the next same quote; before it, a backslash before that quote or before a backslash stands for the
/// second character, and any other for itself. Any other value is one or more characters up to a blank. Blanks may stand
/// before the name and behind the last word, and a newline is a character like others.
pub fn read_words(alloc: Global, line: &str) -> Result<Words<'_>, Or<WordFault>>
    ensures found { IfOk result (λ words. Says (seen words) line.now) }
    ensures only { (written : written_line.Line) → IsWrittenLine written → line.now ≡ line_written written → Gives seen result (Ok (words_of written)) }
    ensures fault { IfBad result (λ fault. IsFault line.now fault) }
    ensures exact { Gives seen result (reading.read_words line.now) }
{
    match whole_line(alloc, line) {
        Ok(words) => Ok(words),
        Err(Or::Bad(stop)) => Err(Or::Bad(fault(line.len(), stop))),
        Err(Or::OutOfMemory) => Err(Or::OutOfMemory),
    }
}

// The words of a line.
#[tactic(auto, unfolding(crate::specs::Reading::read_line))]
fn whole_line(alloc: Global, line: &str) -> Result<Words<'_>, Or<Stop<Part>>>
    ensures { Gives seen result (said_line (read_line line.now)) }
{
    let (before, rest) = run(Class::Blank, line);
    let (name, rest) = some(Class::Word, rest).map_err(Or::Bad)?;
    let (payload, rest) = read_payload(rest).map_err(Or::Bad)?;
    let pairs = pairs(alloc, rest)?;
    Ok(Words {
        name: Word {
            text: name,
            place: before.len() as u64,
        },
        payload: payload_word(before.len() + name.len(), payload),
        pairs,
    })
}

// A payload word whose blanks begin at this byte of the line.
fn payload_word(place: usize, payload: Option<Payload<'_>>) -> Option<Word<'_>>
    requires { FitsBehind place (seen_gapped payload) }
    ensures { seen_payload result ≡ payload_of place (seen_gapped payload.entry) }
{
    match payload {
        None => None,
        Some(Payload { gap, word }) => Some(Word {
            text: word,
            place: (place + gap.len()) as u64,
        }),
    }
}
