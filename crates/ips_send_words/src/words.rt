//! Words at their places.

ghost use Rattle.std.specs.Prelude.{◌≡◌, ◌≤◌, ◌↔◌, false, IsTrue, IfSome, IfNone, IfOk, IfErr, OnOk, Some, length, map, slice_get, string_bytes};
ghost use Rattle.std.specs.List.{list_all};
ghost use Rattle.ips_text.specs.Reading.{IfBad};
ghost use Rattle.ips_syntax.specs.declared.table.Why.TheVariants as why;
ghost use Rattle.ips_fmri.specs.Name.{IsPublisher};
ghost use Rattle.ips_fmri.specs.Name as name;
ghost use Rattle.ips_send_words.specs.Words.{IsManifestPath, begins_with_dash};
ghost use Rattle.ips_send_words.specs.Reading.{IsWrong, operand_cause};

use ips_syntax::Why;
use ips_text::{Or, RelPath, Text, fits_name};
use ips_words::Usage;
use std::alloc::Global;

/// The word at the place, where there is one.
pub(crate) fn word_at(words: &[String], place: usize) -> Option<&str>
    ensures some { IfSome result (λ word. slice_get (map string_bytes words.now) place ≡ Some word.now) }
    ensures none { IfNone result (length (map string_bytes words.now) ≤ place) }
{
    match words.get(place) {
        Some(word) => Some(word.as_str()),
        None => None,
    }
}

/// A further word is needed.
pub(crate) fn missing(words: &[String]) -> Usage
    ensures place { result.place ≡ length (map string_bytes words.now) }
    ensures why { result.why ≡ why.Missing }
{
    Usage {
        place: words.len() as u64,
        why: Why::Missing,
    }
}

/// Whether this word stands at the place.
pub(crate) fn check_word(words: &[String], place: usize, wanted: &str) -> Result<(), Usage>
    ensures found { OnOk result (slice_get (map string_bytes words.now) place ≡ Some wanted.now) }
    ensures bad { IfErr result (IsWrong (map string_bytes words.now) place (λ word. word ≡ wanted.now) (λ word. why.Unknown)) }
{
    match word_at(words, place) {
        Some(word) if word == wanted => Ok(()),
        Some(_) => Err(Usage {
            place: place as u64,
            why: Why::Unknown,
        }),
        None => Err(missing(words)),
    }
}

/// The publisher at the place.
pub(crate) fn publisher_at(alloc: Global, words: &[String], place: usize) -> Result<Text, Or<Usage>>
    ensures found { IfOk result (λ publisher. (slice_get (map string_bytes words.now) place ≡ Some publisher) × IsPublisher publisher) }
    ensures bad { IfBad result (IsWrong (map string_bytes words.now) place IsPublisher operand_cause) }
{
    let Some(word) = word_at(words, place) else {
        return Err(Or::Bad(missing(words)));
    };
    if !is_publisher(word.as_bytes()) {
        return Err(Or::Bad(Usage {
            place: place as u64,
            why: why_bad(word),
        }));
    }
    Ok(Text::new(alloc, word)?)
}

/// The path of a manifest at the place.
pub(crate) fn path_at(alloc: Global, words: &[String], place: usize) -> Result<RelPath, Or<Usage>>
    ensures found { IfOk result (λ path. (slice_get (map string_bytes words.now) place ≡ Some path.bytes) × IsManifestPath path.bytes) }
    ensures bad { IfBad result (IsWrong (map string_bytes words.now) place IsManifestPath operand_cause) }
{
    let Some(word) = word_at(words, place) else {
        return Err(Or::Bad(missing(words)));
    };
    if is_option(word) {
        return Err(Or::Bad(Usage {
            place: place as u64,
            why: Why::Unknown,
        }));
    }
    match RelPath::parse(alloc, word.as_bytes()) {
        Ok(path) => Ok(path),
        Err(Or::Bad(_)) => Err(Or::Bad(Usage {
            place: place as u64,
            why: Why::BadValue,
        })),
        Err(Or::OutOfMemory) => Err(Or::OutOfMemory),
    }
}

/// What is wrong with an operand.
pub(crate) fn why_bad(word: &str) -> Why
    ensures { result ≡ operand_cause word.now }
{
    if is_option(word) {
        Why::Unknown
    } else {
        Why::BadValue
    }
}

// Whether the word begins with `-`.
fn is_option(word: &str) -> bool
    ensures { result ≡ begins_with_dash word.now }
{
    match word.as_bytes() {
        [first, ..] => *first == b'-',
        [] => false,
    }
}

// Whether the bytes are the name of a publisher.
fn is_publisher(bytes: &[u8]) -> bool
    ensures { IsTrue result ↔ IsPublisher bytes.now }
{
    match bytes {
        [first, rest @ ..] => {
            first.is_ascii_alphanumeric() && all_may_go_on(rest) && fits_name(bytes)
        }
        [] => false,
    }
}

// Whether a component may go on with all of the bytes.
fn all_may_go_on(bytes: &[u8]) -> bool
    ensures { result ≡ list_all (name.may_go_on false) bytes.now }
{
    bytes.iter().all(|byte| may_go_on(*byte))
}

// Whether a component may go on with the byte.
fn may_go_on(byte: u8) -> bool
    ensures { result ≡ name.may_go_on false byte }
{
    byte.is_ascii_alphanumeric() || matches!(byte, b'_' | b'-' | b'.' | b'+')
}
