//! JSON pointers (RFC 6901) to the parts of a catalog.

ghost use Rattle.std.specs.Prelude.{◌≡◌, ◌++◌, ◌∷◌, [], List, ℕ, OnOk, IfOk, string_bytes, codes, encode_utf8};
ghost use Rattle.std.specs.List.{flat_map};
ghost use Rattle.std.specs.Fmt.{decimal};
ghost use Rattle.serde_json.specs.Data.{Members};
ghost use Rattle.serde_json.specs.Find.{unescape};
ghost use Rattle.ips_catalog.specs.Pointer.{escaped, pointer, LeadsOn};

use ips_text::Text;
use std::alloc::{AllocError, Global};

/// The law of pointers: the pointer to keys leads through objects to what stands at these keys, and no key is spelled as
/// another.
pub fn pointers_lead()
    ensures on { (key : List ℕ) (keys : List (List ℕ)) (members : Members) → LeadsOn key keys members }
    ensures back { (key : List ℕ) → unescape (flat_map escaped key) ≡ key }
{}

/// The pointer to the top value.
pub fn top_pointer(alloc: Global) -> Result<Text, AllocError>
    ensures { IfOk result (λ text. text ≡ pointer []) }
{
    Text::new(alloc, "")
}

/// The pointer to what stands at the publisher's key.
pub fn publisher_pointer(alloc: Global, publisher: &str) -> Result<Text, AllocError>
    ensures { IfOk result (λ text. text ≡ pointer (publisher.now ∷ [])) }
{
    let mut out = String::new(alloc);
    push_key(&mut out, publisher)?;
    Ok(Text::from_string(out))
}

/// The pointer to what stands at a package's key.
pub fn package_pointer(alloc: Global, publisher: &str, key: &str) -> Result<Text, AllocError>
    ensures { IfOk result (λ text. text ≡ pointer (publisher.now ∷ key.now ∷ [])) }
{
    let mut out = String::new(alloc);
    push_key(&mut out, publisher)?;
    push_key(&mut out, key)?;
    Ok(Text::from_string(out))
}

/// The pointer to an entry of a package.
pub fn entry_pointer(
    alloc: Global,
    publisher: &str,
    stem: &str,
    index: usize,
) -> Result<Text, AllocError>
    ensures { IfOk result (λ text. text ≡ pointer (publisher.now ∷ stem.now ∷ decimal index ∷ [])) }
{
    let mut out = String::new(alloc);
    push_key(&mut out, publisher)?;
    push_key(&mut out, stem)?;
    push_index(&mut out, index)?;
    Ok(Text::from_string(out))
}

/// The pointer to the version of an entry.
pub fn version_pointer(
    alloc: Global,
    publisher: &str,
    stem: &str,
    index: usize,
) -> Result<Text, AllocError>
    ensures { IfOk result (λ text. text ≡ pointer (publisher.now ∷ stem.now ∷ decimal index ∷ codes "version" ∷ [])) }
{
    let mut out = String::new(alloc);
    push_key(&mut out, publisher)?;
    push_key(&mut out, stem)?;
    push_index(&mut out, index)?;
    push_key(&mut out, "version")?;
    Ok(Text::from_string(out))
}

// Writes a key behind a `/`.
fn push_key(out: &mut String, key: &str) -> Result<(), AllocError>
    ensures { OnOk result (string_bytes out.new ≡ string_bytes out.old ++ 47 ∷ flat_map escaped key.now) }
{
    out.push_str("/")?;
    push_escaped(out, key)
}

// Writes the characters of a key.
fn push_escaped(out: &mut String, key: &str) -> Result<(), AllocError>
    ensures { OnOk result (string_bytes out.new ≡ string_bytes out.old ++ flat_map escaped key.now) }
{
    for character in key.chars() {
        push_character(out, character)?;
    }
    Ok(())
}

fn push_character(out: &mut String, character: char) -> Result<(), AllocError>
    ensures { OnOk result (string_bytes out.new ≡ string_bytes out.old ++ flat_map escaped (encode_utf8 character)) }
{
    if character == '~' {
        out.push_str("~0")
    } else if character == '/' {
        out.push_str("~1")
    } else {
        out.push(character)
    }
}

// Writes the index of an entry behind a `/`.
fn push_index(out: &mut String, index: usize) -> Result<(), AllocError>
    ensures { OnOk result (string_bytes out.new ≡ string_bytes out.old ++ 47 ∷ flat_map escaped (decimal index)) }
{
    out.push_str("/")?;
    write!(out, "{index}")?;
    Ok(())
}
