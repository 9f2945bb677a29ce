//! Words that stand quoted in a line.

ghost use Rattle.std.specs.Prelude.{◌≡◌, ℕ, List, IfOk, IfNone, IfSome};
ghost use Rattle.ips_text.specs.Quote.{quoted};
ghost use Rattle.ips_records.specs.Listed.{Sole};
ghost use Rattle.ips_records.specs.Form.{IsWord};

use ips_text::{Or, Text, unquote};
use std::alloc::{AllocError, Global};

/// The word whose quoted form the bytes are, where there is one.
pub fn word(alloc: Global, bytes: &[u8]) -> Result<Option<Text>, AllocError>
    ensures sole { IfOk result (λ found. IfSome found (Sole quoted IsWord)) }
    ensures of_bytes { IfOk result (λ found. IfSome found (λ word. quoted word ≡ bytes.now)) }
    ensures none { IfOk result (λ found. IfNone found ((word : List ℕ) → IsWord word → quoted word ≡ bytes.now → ⊥)) }
{
    match unquote(alloc, bytes) {
        Ok(word) => text_of(alloc, &word),
        Err(Or::Bad(_)) => Ok(None),
        Err(Or::OutOfMemory) => Err(AllocError),
    }
}

/// The bytes as a text, where they can be a word.
pub fn text_of(alloc: Global, bytes: &[u8]) -> Result<Option<Text>, AllocError>
    ensures some { IfOk result (λ found. IfSome found (λ text. text ≡ bytes.now)) }
    ensures word { IfOk result (λ found. IfSome found IsWord) }
    ensures none { IfOk result (λ found. IfNone found (IsWord bytes.now → ⊥)) }
{
    match str::from_utf8(bytes) {
        Ok(text) if !text.is_empty() => Ok(Some(Text::new(alloc, text)?)),
        _ => Ok(None),
    }
}
