//! Values, as they stand or between quotes.

ghost use Rattle.std.specs.Prelude.{◌≡◌, ◌++◌, ◌+◌, ◌<◌, ◌==◌, true, false, None, Some, length, take, drop, IfOk, IfNone, IfSome, MatchOption};
ghost use Rattle.std.specs.List.{position};
ghost use Rattle.ips_text.specs.Reading.{next_is, Sees};
ghost use Rattle.ips_line.specs.Line as line;
ghost use Rattle.ips_line.specs.Line.{meant, value_of};
ghost use Rattle.ips_line.specs.Reading as reading;
ghost use Rattle.ips_line.specs.Reading.{written_at, closed};
ghost use Rattle.ips_line.specs.Seen.{seen_written, HasQuote};

use crate::classes::{Class, is_quote, some, wrong};
use crate::fault::Part;
use ips_text::{Stop, Text};
use std::alloc::{AllocError, Global};

/// A value as it is written.
#[derive(Clone, Copy, Drop)]
pub enum Written<'a> {
    /// As it stands.
    Plain(&'a str),
    /// Between two quotes of this kind.
    Quoted(u8, &'a str),
}

/// A written value at the front of the text, and what stands behind it.
pub fn read_value(text: &str) -> Result<(Written<'_>, &str), Stop<Part>>
    ensures exact { Sees (λ x. (seen_written x.0, x.1.now)) result (written_at text.now) }
    ensures quotes { IfOk result (λ x. HasQuote (seen_written x.0)) }
{
    match opening(text) {
        Some(quote) => quoted(quote, text),
        None => plain(text),
    }
}

// The quote that comes first.
fn opening(text: &str) -> Option<u8>
    ensures none { IfNone result (reading.begins_quote text.now ≡ false) }
    ensures some { IfSome result (λ quote. (line.is_quote quote ≡ true) × (next_is quote text.now ≡ true)) }
{
    match text.as_bytes() {
        [quote, ..] if is_quote(*quote) => Some(*quote),
        _ => None,
    }
}

// A value as it stands.
fn plain(text: &str) -> Result<(Written<'_>, &str), Stop<Part>>
    ensures exact { Sees (λ x. (seen_written x.0, x.1.now)) result (reading.plain_at text.now) }
    ensures quotes { IfOk result (λ x. HasQuote (seen_written x.0)) }
{
    let (word, rest) = some(Class::Word, text)?;
    Ok((Written::Plain(word), rest))
}

// A value behind the quote that comes first.
fn quoted(quote: u8, text: &str) -> Result<(Written<'_>, &str), Stop<Part>>
    requires quotes { line.is_quote quote ≡ true }
    requires first { next_is quote text.now ≡ true }
    ensures exact { Sees (λ x. (seen_written x.0, x.1.now)) result (closed quote (length text.now) (reading.closing quote (drop 1 text.now))) }
    ensures quotes { IfOk result (λ x. HasQuote (seen_written x.0)) }
{
    let inside = &text[1..];
    match closing(quote, inside.as_bytes()) {
        Some(end) => Ok((Written::Quoted(quote, &inside[..end]), &inside[end + 1..])),
        None => Err(Stop {
            kind: Part::Quote { left: text.len() },
            left: 0,
        }),
    }
}

// Where the quote stands that closes.
fn closing(quote: u8, bytes: &[u8]) -> Option<usize>
    ensures exact { MatchOption result (reading.closing quote bytes.now ≡ None) (λ end. reading.closing quote bytes.now ≡ Some (take end bytes.now, drop (end + 1) bytes.now)) }
    ensures within { IfSome result (λ end. next_is quote (drop end bytes.now) ≡ true) }
{
    let mut place = 0;
    while place < bytes.len() {
        if begins_escape(quote, &bytes[place..]) {
            place += 2;
        } else if bytes[place] == quote {
            return Some(place);
        } else {
            place += 1;
        }
    }
    None
}

// Whether the first two bytes are an escape between such quotes.
fn begins_escape(quote: u8, bytes: &[u8]) -> bool
    ensures { result ≡ reading.begins_escape quote bytes.now }
{
    matches!(bytes, [b'\\', second, ..] if *second == quote || *second == b'\\')
}

/// The value that is written so.
pub fn value(alloc: Global, written: Written<'_>) -> Result<Text, AllocError>
    requires { HasQuote (seen_written written) }
    ensures { IfOk result (λ text. text ≡ value_of (seen_written written.entry)) }
{
    match written {
        Written::Plain(word) => Text::new(alloc, word),
        Written::Quoted(quote, inside) => unescaped(alloc, quote, inside),
    }
}

// What stands between two quotes means this.
fn unescaped(alloc: Global, quote: u8, inside: &str) -> Result<Text, AllocError>
    requires { line.is_quote quote ≡ true }
    ensures { IfOk result (λ text. text ≡ meant quote inside.now) }
{
    let mut value = String::new(alloc);
    let mut rest = inside;
    while let Some(place) = backslash(rest) {
        let (front, behind) = rest.split_at(place);
        value.push_str(front)?;
        let (character, after) = unescaped_first(quote, behind);
        value.push_str(character)?;
        rest = after;
    }
    value.push_str(rest)?;
    value.shrink_to_fit();
    Ok(Text::from_string(value))
}

// Where the first backslash stands.
fn backslash(text: &str) -> Option<usize>
    ensures { result ≡ position (λ b. b == 92) text.now }
{
    text.as_bytes().iter().position(|byte| *byte == b'\\')
}

// What the backslash that comes first stands for, alone or with the byte behind it, and what stands behind that.
fn unescaped_first(quote: u8, text: &str) -> (&str, &str)
    requires quotes { line.is_quote quote ≡ true }
    requires first { next_is 92 text.now ≡ true }
    ensures meant { meant quote text.now ≡ result.0.now ++ meant quote result.1.now }
    ensures shorter { length result.1.now < length text.now }
{
    if begins_escape(quote, text.as_bytes()) {
        (&text[1..2], &text[2..])
    } else {
        text.split_at(1)
    }
}
