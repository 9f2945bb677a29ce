//! Logical lines: physical lines that end with a backslash go on with the next.

ghost use Rattle.std.specs.Prelude.{◌≡◌, ◌+◌, ◌<◌, ◌≤◌, ◌^◌, ◌++◌, ◌∷◌, [], true, false, None, Some, length, List, IfOk, IfNone, IfSome, string_bytes};
ghost use Rattle.std.specs.Str.{is_utf8};
ghost use Rattle.ips_text.specs.Reading.{IfBad};
ghost use Rattle.ips_manifest.specs.Logical as spec;
ghost use Rattle.ips_manifest.specs.Logical.{continues, without_last, unreadable_at};
ghost use Rattle.ips_manifest.specs.declared.fault.LineFault.TheVariants.{NotText};
ghost use Rattle.ips_manifest.specs.Next.{IsNext, IsUnreadable};
ghost use Rattle.ips_manifest.specs.Seen.{held_text};

use crate::fault::{LineFault, ManifestFault};
use crate::physical::next_line;
use ips_text::Or;
use std::alloc::Global;

/// What is still to be read of a text, and the number of the line at which it begins.
#[derive(Clone, Copy, Drop)]
pub struct Remaining<'a> {
    pub number: u64,
    pub bytes: &'a [u8],
}

/// The text of a logical line: borrowed where it is one physical line, and else joined.
#[derive(Drop)]
pub enum Held<'a> {
    Borrowed(&'a str),
    Joined(String),
}

impl Held<'_> {
    /// The text.
    pub fn as_str(&self) -> &str
        ensures { result.now ≡ held_text self.now }
    {
        match self {
            Held::Borrowed(text) => text,
            Held::Joined(text) => text.as_str(),
        }
    }
}

/// The next logical line, and what stands behind it. A fault is at its first physical line that isn't UTF-8.
pub fn next_logical<'a>(
    alloc: Global,
    rest: Remaining<'a>,
) -> Result<(Held<'a>, Remaining<'a>), Or<ManifestFault>>
    requires some { 0 < length rest.bytes.now }
    requires room { rest.number + length rest.bytes.now < 2 ^ 64 }
    ensures found { IfOk result (λ x. IsNext rest.entry.number rest.entry.bytes.now (held_text x.0) x.1.number x.1.bytes.now) }
    ensures bad { IfBad result (λ f. IsUnreadable rest.entry.number rest.entry.bytes.now f) }
{
    match next_line(rest.bytes) {
        Some((line, behind)) if !is_continued(line) => {
            let text = readable(rest.number, line)?;
            Ok((
                Held::Borrowed(text),
                Remaining {
                    number: rest.number + 1,
                    bytes: behind,
                },
            ))
        }
        _ => {
            let (text, behind) = joined(alloc, rest)?;
            Ok((Held::Joined(text), behind))
        }
    }
}

// The next logical line, joined of its physical lines.
fn joined<'a>(
    alloc: Global,
    rest: Remaining<'a>,
) -> Result<(String, Remaining<'a>), Or<ManifestFault>>
    requires some { 0 < length rest.bytes.now }
    requires room { rest.number + length rest.bytes.now < 2 ^ 64 }
    ensures found { IfOk result (λ x. IsNext rest.entry.number rest.entry.bytes.now (string_bytes x.0) x.1.number x.1.bytes.now) }
    ensures bad { IfBad result (λ f. IsUnreadable rest.entry.number rest.entry.bytes.now f) }
{
    let mut text = String::new(alloc);
    let mut left = rest;
    while let Some((line, behind)) = next_line(left.bytes) {
        let line = readable(left.number, line)?;
        left = Remaining {
            number: left.number + 1,
            bytes: behind,
        };
        match continued(line) {
            Some(front) => text.push_str(front)?,
            None => {
                text.push_str(line)?;
                return Ok((text, left));
            }
        }
    }
    Ok((text, left))
}

// The text of a physical line of this number.
fn readable(number: u64, line: &[u8]) -> Result<&str, Or<ManifestFault>>
    ensures found { IfOk result (λ text. (text.now ≡ line.now) × (unreadable_at number line.now ≡ None)) }
    ensures bad { IfBad result (λ f. (f.line ≡ number) × (f.fault ≡ NotText) × (unreadable_at number line.now ≡ Some number)) }
{
    match str::from_utf8(line) {
        Ok(text) => Ok(text),
        Err(_) => Err(Or::Bad(ManifestFault {
            line: number,
            fault: LineFault::NotText,
        })),
    }
}

/// What a physical line that ends with a backslash has before it. None exactly where the line doesn't end so.
pub fn continued(line: &str) -> Option<&str>
    ensures none { IfNone result (continues line.now ≡ false) }
    ensures some { IfSome result (λ front. (continues line.now ≡ true) × (front.now ≡ without_last line.now)) }
{
    if is_continued(line.as_bytes()) {
        let (front, _) = line.split_at(line.len() - 1);
        Some(front)
    } else {
        None
    }
}

/// Whether a physical line ends with a backslash.
pub fn is_continued(line: &[u8]) -> bool
    ensures { result ≡ continues line.now }
{
    if line.is_empty() {
        return false;
    }
    line[line.len() - 1] == b'\\'
}

/// Whether a line is skipped: it is empty or blank, or its first character behind blanks is `#`.
pub fn is_skipped(line: &str) -> bool
    ensures { result ≡ spec.is_skipped line.now }
{
    for byte in line.as_bytes() {
        if !is_blank(*byte) {
            return *byte == b'#';
        }
    }
    true
}

// Whether the byte is a blank or a tab.
fn is_blank(byte: u8) -> bool
    ensures { result ≡ spec.is_blank byte }
{
    matches!(byte, b' ' | b'\t')
}
