//! The canonical spelling of lines.

ghost use Rattle.std.specs.Prelude.{◌≡◌, ◌++◌, ℕ, List, Option, OnOk, Ok, string_bytes};
ghost use Rattle.std.specs.List.{flat_map, position};
ghost use Rattle.std.specs.Option.{option_map};
ghost use Rattle.ips_line.specs.declared.words.Pair as declared;
ghost use Rattle.ips_line.specs.Canonical.{value_text, pair_text, payload_text, words_text, AreWords, canonical_words, escaped_byte, is_escaped, is_special};
ghost use Rattle.ips_line.specs.Canonical as canonical;
ghost use Rattle.ips_line.specs.Reading as reading;

use crate::classes::{is_blank, is_quote};
use crate::words::Pair;
use std::alloc::AllocError;

/// Writes the canonical line of a name, a payload word or none, and `key=value` in this order: divided by one blank. A value
/// stands in `"` where it is empty or has a blank, tab, quote or backslash; inside, `"` and backslash get a backslash.
pub fn push_words(
    out: &mut String,
    name: &str,
    payload: Option<&str>,
    pairs: &[Pair],
) -> Result<(), AllocError>
    ensures { OnOk result (string_bytes out.new ≡ string_bytes out.old ++ words_text name.now (option_map (λ w. w.now) payload.entry) pairs.now) }
{
    out.push_str(name)?;
    push_payload(out, payload)?;
    push_pairs(out, pairs)?;
    Ok(())
}

/// Writes a blank and the payload word, where there is one.
pub fn push_payload(out: &mut String, payload: Option<&str>) -> Result<(), AllocError>
    ensures { OnOk result (string_bytes out.new ≡ string_bytes out.old ++ payload_text (option_map (λ w. w.now) payload.entry)) }
{
    if let Some(word) = payload {
        out.push_str(" ")?;
        out.push_str(word)?;
    }
    Ok(())
}

// Writes each `key=value`.
fn push_pairs(out: &mut String, pairs: &[Pair]) -> Result<(), AllocError>
    ensures { OnOk result (string_bytes out.new ≡ string_bytes out.old ++ flat_map pair_text pairs.now) }
{
    for pair in pairs {
        push_pair(out, pair.key.as_str(), pair.value.as_str())?;
    }
    Ok(())
}

/// Writes a blank and `key=value`, with the value in `"` where it needs them.
pub fn push_pair(out: &mut String, key: &str, value: &str) -> Result<(), AllocError>
    ensures { OnOk result (string_bytes out.new ≡ string_bytes out.old ++ pair_text (record { key = key.now; value = value.now })) }
{
    out.push_str(" ")?;
    out.push_str(key)?;
    out.push_str("=")?;
    push_value(out, value)?;
    Ok(())
}

// Writes a value.
fn push_value(out: &mut String, value: &str) -> Result<(), AllocError>
    ensures { OnOk result (string_bytes out.new ≡ string_bytes out.old ++ value_text value.now) }
{
    if !needs_quotes(value) {
        return out.push_str(value);
    }
    out.push_str("\"")?;
    push_escaped(out, value)?;
    out.push_str("\"")?;
    Ok(())
}

// Whether a value is written between quotes.
fn needs_quotes(value: &str) -> bool
    ensures { result ≡ canonical.needs_quotes value.now }
{
    value.is_empty() || special(value).is_some()
}

// Where the first byte stands with which a value needs quotes.
fn special(text: &str) -> Option<usize>
    ensures { result ≡ position is_special text.now }
{
    text.as_bytes().iter().position(|byte| is_blank(*byte) || is_quote(*byte) || *byte == b'\\')
}

// Writes a value with a backslash before each `"` and backslash.
fn push_escaped(out: &mut String, value: &str) -> Result<(), AllocError>
    ensures { OnOk result (string_bytes out.new ≡ string_bytes out.old ++ flat_map escaped_byte value.now) }
{
    let mut rest = value;
    while let Some(place) = escaped(rest) {
        let (front, behind) = rest.split_at(place);
        out.push_str(front)?;
        out.push_str("\\")?;
        let (character, after) = behind.split_at(1);
        out.push_str(character)?;
        rest = after;
    }
    out.push_str(rest)?;
    Ok(())
}

// Where the first `"` or backslash stands.
fn escaped(text: &str) -> Option<usize>
    ensures { result ≡ position is_escaped text.now }
{
    text.as_bytes()
        .iter()
        .position(|byte| matches!(*byte, b'"' | b'\\'))
}

/// The law of lines' texts: where the name, the payload word and the keys have the form of a line's, the canonical line reads
/// as them; and no two have one canonical line.
pub fn lines_read_back()
    ensures one { (name other : List ℕ) (payload another : Option (List ℕ)) (pairs others : List declared.Pair) → AreWords name payload pairs → AreWords other another others → words_text name payload pairs ≡ words_text other another others → (name ≡ other) × (payload ≡ another) × (pairs ≡ others) }
    ensures back { (name : List ℕ) (payload : Option (List ℕ)) (pairs : List declared.Pair) → AreWords name payload pairs → reading.read_words (words_text name payload pairs) ≡ Ok (canonical_words name payload pairs) }
{}
