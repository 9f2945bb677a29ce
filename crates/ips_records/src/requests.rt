//! Lines of requests: a moment, and quoted words.

ghost use Rattle.std.specs.Prelude.{◌≡◌, ◌↔◌, ℕ, List, IsTrue, IfOk, IfNone, IfSome};
ghost use Rattle.ips_records.specs.Listed.{Sole};
ghost use Rattle.ips_records.specs.Form.{IsRequestLine, IsMoment, AreWords, IsQuotedWord, HasStamp};

use crate::splitting::cut;
use crate::words::{text_of, word};
use ips_fmri::Version;
use ips_text::{Or, Text};
use std::alloc::{AllocError, Global};

/// The line of a request that the bytes are, where they are one.
pub fn request(alloc: Global, bytes: &[u8]) -> Result<Option<Text>, AllocError>
    ensures sole { IfOk result (λ found. IfSome found (Sole (λ line. line) IsRequestLine)) }
    ensures of_bytes { IfOk result (λ found. IfSome found (λ line. line ≡ bytes.now)) }
    ensures none { IfOk result (λ found. IfNone found ((line : List ℕ) → IsRequestLine line → line ≡ bytes.now → ⊥)) }
{
    if is_request(alloc, bytes)? {
        text_of(alloc, bytes)
    } else {
        Ok(None)
    }
}

// Whether the bytes are the line of a request: its moment, and its words, quoted, each behind a blank.
fn is_request(alloc: Global, bytes: &[u8]) -> Result<bool, AllocError>
    ensures { IfOk result (λ is. IsTrue is ↔ IsRequestLine bytes.now) }
{
    let Some((moment, words)) = cut(b' ', bytes) else {
        return Ok(false);
    };
    if is_moment(alloc, moment)? {
        are_words(alloc, words)
    } else {
        Ok(false)
    }
}

// Whether the bytes are the text of a moment.
fn is_moment(alloc: Global, bytes: &[u8]) -> Result<bool, AllocError>
    ensures { IfOk result (λ is. IsTrue is ↔ IsMoment bytes.now) }
{
    if bytes.len() != 16 {
        return Ok(false);
    }
    let mut spelled = Vec::from_slice(alloc, b"0:")?;
    spelled.extend_from_slice(bytes)?;
    has_moment(alloc, &spelled)
}

// Whether the bytes are a version with a timestamp.
fn has_moment(alloc: Global, spelled: &[u8]) -> Result<bool, AllocError>
    ensures { IfOk result (λ is. IsTrue is ↔ HasStamp spelled.now) }
{
    let Ok(text) = str::from_utf8(spelled) else {
        return Ok(false);
    };
    match Version::parse(alloc, text) {
        Ok(version) => Ok(version.stamp().is_some()),
        Err(Or::Bad(_)) => Ok(false),
        Err(Or::OutOfMemory) => Err(AllocError),
    }
}

// Whether the bytes are quoted words, with a blank between each two.
fn are_words(alloc: Global, bytes: &[u8]) -> Result<bool, AllocError>
    ensures { IfOk result (λ are. IsTrue are ↔ AreWords bytes.now) }
{
    let mut rest = bytes;
    while let Some((first, behind)) = cut(b' ', rest) {
        if !is_word(alloc, first)? {
            return Ok(false);
        }
        rest = behind;
    }
    is_word(alloc, rest)
}

// Whether the bytes are a quoted word.
fn is_word(alloc: Global, bytes: &[u8]) -> Result<bool, AllocError>
    ensures { IfOk result (λ is. IsTrue is ↔ IsQuotedWord bytes.now) }
{
    Ok(word(alloc, bytes)?.is_some())
}
