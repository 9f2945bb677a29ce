//! Runs of bytes at the front of a text.

ghost use Rattle.std.specs.Prelude.{◌≡◌, ◌≤◌, length, take, drop};
ghost use Rattle.std.specs.Str.{IsUtf8, IsCharBoundary};
ghost use Rattle.ips_text.specs.Reading.{next_is, Sees};
ghost use Rattle.ips_line.specs.Line as line;
ghost use Rattle.ips_line.specs.Classes.{passes};
ghost use Rattle.ips_line.specs.Reading as reading;
ghost use Rattle.ips_text.specs.Reading as texts;
ghost use Rattle.ips_line.specs.Reading.{some_at};

use crate::fault::Part;
use ips_text::Stop;

/// Which bytes a run goes on with.
#[derive(Clone, Copy, Drop)]
pub enum Class {
    /// Blanks and tabs.
    Blank,
    /// All but these.
    Word,
    /// All but these and `=`.
    Payload,
    /// All but these, `=` and quotes.
    Key,
}

impl Class {
    /// Whether a run of the class goes on with the byte.
    pub fn has(self, byte: u8) -> bool
        ensures { result ≡ passes self byte }
    {
        match self {
            Class::Blank => is_blank(byte),
            Class::Word => !is_blank(byte),
            Class::Payload => !is_blank(byte) && byte != b'=',
            Class::Key => !is_blank(byte) && byte != b'=' && !is_quote(byte),
        }
    }
}

/// Whether the byte is a blank or a tab.
pub fn is_blank(byte: u8) -> bool
    ensures { result ≡ line.is_blank byte }
{
    matches!(byte, b' ' | b'\t')
}

/// Whether the byte is `"` or `'`.
pub fn is_quote(byte: u8) -> bool
    ensures { result ≡ line.is_quote byte }
{
    matches!(byte, b'"' | b'\'')
}

/// The longest run of the class at the front of the text, and what stands behind it.
pub fn run(class: Class, text: &str) -> (&str, &str)
    ensures { texts.run (passes class) text.now ≡ (result.0.now, result.1.now) }
{
    text.split_at(run_length(class, text.as_bytes()))
}

// The length of the longest run.
fn run_length(class: Class, bytes: &[u8]) -> usize
    ensures within { result ≤ length bytes.now }
    ensures run { texts.run (passes class) bytes.now ≡ (take result bytes.now, drop result bytes.now) }
    ensures cut { IsUtf8 bytes.now → IsCharBoundary bytes.now result }
{
    for (i, byte) in bytes.iter().enumerate() {
        if !class.has(*byte) {
            return i;
        }
    }
    bytes.len()
}

/// The same, where the run has one byte at least.
#[tactic(auto, unfolding(crate::specs::Reading::some_at))]
pub fn some(class: Class, text: &str) -> Result<(&str, &str), Stop<Part>>
    ensures { Sees (λ x. (x.0.now, x.1.now)) result (some_at (passes class) text.now) }
{
    let (found, rest) = run(class, text);
    if found.is_empty() {
        Err(wrong(text))
    } else {
        Ok((found, rest))
    }
}

/// A word goes wrong where this text is left.
pub fn wrong(text: &str) -> Stop<Part>
    ensures { result ≡ reading.wrong_at text.now }
{
    Stop {
        kind: Part::Word,
        left: text.len(),
    }
}

/// Whether the text begins with this byte.
pub fn begins_with(byte: u8, text: &str) -> bool
    ensures { result ≡ next_is byte text.now }
{
    matches!(text.as_bytes(), [first, ..] if *first == byte)
}
