//! What each line of the file `image` says.

ghost use Rattle.std.specs.Prelude.{◌≡◌, ◌++◌, ℕ, Bool, List, false, IsFalse, IfOk, IfNone, IfSome, if◌then◌else◌};
ghost use Rattle.ips_fmri.specs.Name.{IsPublisher};
ghost use Rattle.ips_records.specs.Form.{IsWord};
ghost use Rattle.ips_records.specs.Listed.{Sole};
ghost use Rattle.ips_state.specs.declared.state.Origin as declared;
ghost use Rattle.ips_state.specs.Text.{format_line, publisher_line, origin_line, variant_line, facet_line};
ghost use Rattle.ips_load.specs.HeadLines.{actuator_line, IsFormat, IsOrigin, IsVariant, IsFacet};

use ips_records::{cut, stem, word};
use ips_state::Origin;
use ips_text::Text;
use std::alloc::{AllocError, Global};

/// The format that the line tells, where it does.
pub fn format(bytes: &[u8]) -> Option<u8>
    ensures some { IfSome result (λ n. IsFormat n × (format_line n ≡ bytes.now)) }
    ensures none { IfNone result ((n : ℕ) → IsFormat n → format_line n ≡ bytes.now → ⊥) }
{
    if bytes == b"image 1".as_slice() {
        Some(1)
    } else if bytes == b"image 2".as_slice() {
        Some(2)
    } else {
        None
    }
}

/// The publisher that the line names, where it does.
pub fn named_publisher(alloc: Global, bytes: &[u8]) -> Result<Option<Text>, AllocError>
    ensures sole { IfOk result (λ found. IfSome found (Sole publisher_line IsPublisher)) }
    ensures of_bytes { IfOk result (λ found. IfSome found (λ p. publisher_line p ≡ bytes.now)) }
    ensures none { IfOk result (λ found. IfNone found ((p : List ℕ) → IsPublisher p → publisher_line p ≡ bytes.now → ⊥)) }
{
    let Some(rest) = behind(b"publisher ", bytes) else {
        return Ok(None);
    };
    publisher(alloc, rest)
}

/// The origin that the line names, where it does.
pub fn named_origin(alloc: Global, bytes: &[u8]) -> Result<Option<Origin>, AllocError>
    ensures sole { IfOk result (λ found. IfSome found (Sole origin_line IsOrigin)) }
    ensures of_bytes { IfOk result (λ found. IfSome found (λ o. origin_line o ≡ bytes.now)) }
    ensures none { IfOk result (λ found. IfNone found ((o : declared.Origin) → IsOrigin o → origin_line o ≡ bytes.now → ⊥)) }
{
    let Some(rest) = behind(b"origin ", bytes) else {
        return Ok(None);
    };
    let Some((first, second)) = cut(b' ', rest) else {
        return Ok(None);
    };
    let Some(sticky) = either(second, b"sticky", b"free") else {
        return Ok(None);
    };
    let Some(name) = publisher(alloc, first)? else {
        return Ok(None);
    };
    Ok(Some(Origin { name, sticky }))
}

/// The actuator word that the line sets, where it does.
pub fn set_actuator(alloc: Global, bytes: &[u8]) -> Result<Option<Text>, AllocError>
    ensures sole { IfOk result (λ found. IfSome found (Sole actuator_line IsWord)) }
    ensures of_bytes { IfOk result (λ found. IfSome found (λ w. actuator_line w ≡ bytes.now)) }
    ensures none { IfOk result (λ found. IfNone found ((w : List ℕ) → IsWord w → actuator_line w ≡ bytes.now → ⊥)) }
{
    let Some(rest) = behind(b"actuator ", bytes) else {
        return Ok(None);
    };
    word(alloc, rest)
}

/// The variant that the line sets, where it does.
pub fn set_variant(alloc: Global, bytes: &[u8]) -> Result<Option<(Text, Text)>, AllocError>
    ensures sole { IfOk result (λ found. IfSome found (λ v. Sole variant_line IsVariant (v.0, v.1))) }
    ensures of_bytes { IfOk result (λ found. IfSome found (λ v. variant_line (v.0, v.1) ≡ bytes.now)) }
    ensures none { IfOk result (λ found. IfNone found ((v : List ℕ × List ℕ) → IsVariant v → variant_line v ≡ bytes.now → ⊥)) }
{
    let Some(rest) = behind(b"variant ", bytes) else {
        return Ok(None);
    };
    let Some((first, second)) = cut(b' ', rest) else {
        return Ok(None);
    };
    let Some(name) = word(alloc, first)? else {
        return Ok(None);
    };
    let Some(value) = word(alloc, second)? else {
        return Ok(None);
    };
    Ok(Some((name, value)))
}

/// The facet that the line sets, where it does.
pub fn set_facet(alloc: Global, bytes: &[u8]) -> Result<Option<(Text, bool)>, AllocError>
    ensures sole { IfOk result (λ found. IfSome found (λ f. Sole facet_line IsFacet (f.0, f.1))) }
    ensures of_bytes { IfOk result (λ found. IfSome found (λ f. facet_line (f.0, f.1) ≡ bytes.now)) }
    ensures none { IfOk result (λ found. IfNone found ((f : List ℕ × Bool) → IsFacet f → facet_line f ≡ bytes.now → ⊥)) }
{
    let Some(rest) = behind(b"facet ", bytes) else {
        return Ok(None);
    };
    let Some((first, second)) = cut(b' ', rest) else {
        return Ok(None);
    };
    let Some(on) = either(second, b"true", b"false") else {
        return Ok(None);
    };
    let Some(pattern) = word(alloc, first)? else {
        return Ok(None);
    };
    Ok(Some((pattern, on)))
}

// What stands behind this front, where the bytes begin with it.
fn behind<'a>(front: &[u8], bytes: &'a [u8]) -> Option<&'a [u8]>
    ensures some { IfSome result (λ rest. bytes.now ≡ front.now ++ rest.now) }
    ensures none { IfNone result ((rest : List ℕ) → bytes.now ≡ front.now ++ rest → ⊥) }
{
    bytes.strip_prefix(front)
}

// Which of two different words the bytes are.
fn either(bytes: &[u8], yes: &[u8], no: &[u8]) -> Option<bool>
    ensures some { IfSome result (λ on. bytes.now ≡ (if on then yes.now else no.now)) }
    ensures none { IfNone result ((bytes.now ≡ yes.now → ⊥) × (bytes.now ≡ no.now → ⊥)) }
{
    if bytes == yes {
        Some(true)
    } else if bytes == no {
        Some(false)
    } else {
        None
    }
}

// The publisher that the bytes are, where they are one: a stem of one part.
fn publisher(alloc: Global, bytes: &[u8]) -> Result<Option<Text>, AllocError>
    ensures sole { IfOk result (λ found. IfSome found (Sole (λ p. p) IsPublisher)) }
    ensures of_bytes { IfOk result (λ found. IfSome found (λ p. p ≡ bytes.now)) }
    ensures none { IfOk result (λ found. IfNone found ((p : List ℕ) → IsPublisher p → p ≡ bytes.now → ⊥)) }
{
    if cut(b'/', bytes).is_some() {
        return Ok(None);
    }
    stem(alloc, bytes)
}
