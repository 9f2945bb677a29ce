//! A line of an account file (passwd(4), shadow(4), group(4)): fields with `:` between them.

ghost use Rattle.std.specs.Prelude.{◌≡◌, option_map, slice_get};
ghost use Rattle.ips_books.specs.Lines as lines;
ghost use Rattle.ips_books.specs.Accounts as spec;
ghost use Rattle.ips_books.specs.Seen.{as_line};

use ips_text::decimal;
use std::marker::Model;

/// A line: what stands on it, and whether a newline ends it.
#[derive(Drop)]
pub struct Line {
    text: Vec<u8>,
    ended: bool,
}

impl Model for Line {
    ghost use Rattle.ips_books.specs.Lines as lines;

    ghost Value = { lines.AccountLine };

    ghost view = { λ l. record { text = l.text.items; ended = l.ended } };
}

impl Line {
    /// A line of this text, ended or not.
    pub fn new(text: Vec<u8>, ended: bool) -> Line
        ensures { result ≡ record { text = text.items; ended = ended } }
    {
        Line { text, ended }
    }

    /// What stands on the line.
    pub fn text(&self) -> &[u8]
        ensures { result.now ≡ self.now.text }
    {
        &self.text
    }

    /// Whether a newline ends the line.
    pub fn is_ended(&self) -> bool
        ensures { result ≡ self.now.ended }
    {
        self.ended
    }

    /// Ends the line with a newline.
    pub fn end(&mut self)
        ensures { self.new ≡ lines.ended self.old }
    {
        self.ended = true;
    }
}

/// Whether the line speaks of this name.
pub fn is_of(line: &[u8], name: &[u8]) -> bool
    ensures { result ≡ spec.is_of name.now (as_line line.now) }
{
    !is_kept(line) && name == field(line, 0)
}

/// Whether the line is kept as it is: it is empty, or begins with `#`, `+` or `-`.
pub fn is_kept(line: &[u8]) -> bool
    ensures { result ≡ spec.is_kept (as_line line.now) }
{
    matches!(line, [] | [b'#' | b'+' | b'-', ..])
}

/// The field of a line at a place, counted from 0; a line that has fewer has nothing there.
pub fn field(line: &[u8], place: usize) -> &[u8]
    ensures { result.now ≡ spec.field place (as_line line.now) }
{
    match field_at(line, place) {
        Some(field) => field,
        None => &[],
    }
}

// The field of a line at a place, where it has so many.
fn field_at(line: &[u8], place: usize) -> Option<&[u8]>
    ensures { option_map (λ field. field.now) result ≡ slice_get (spec.fields (as_line line.now)) place }
{
    line.split(|b| *b == b':').nth(place)
}

/// The number of a line: its third field, in decimal and below 2^32.
pub fn number_of(line: &[u8]) -> Option<u32>
    ensures { result ≡ spec.number_of (as_line line.now) }
{
    number_in(field(line, 2))
}

/// The number that a field spells in decimal, where it is below 2^32.
pub fn number_in(bytes: &[u8]) -> Option<u32>
    ensures { result ≡ spec.number_in bytes.now }
{
    match decimal(bytes) {
        Some(number) if number < 1 << 32 => Some(number as u32),
        _ => None,
    }
}
