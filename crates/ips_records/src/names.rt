//! Stems, and stems at a version.

ghost use Rattle.std.specs.Prelude.{◌≡◌, ◌↔◌, ℕ, List, false, Some, None, IsTrue, IfOk, IfNone, IfSome, IsSome};
ghost use Rattle.ips_fmri.specs.Fmri.{IsFmri, fmri_text};
ghost use Rattle.ips_fmri.specs.Name.{IsStem};
ghost use Rattle.ips_fmri.specs.declared.fmri.Fmri as declared;
ghost use Rattle.ips_records.specs.Listed.{Sole};
ghost use Rattle.ips_records.specs.Form.{IsNamed};

use ips_fmri::Fmri;
use ips_text::{Or, Text};
use std::alloc::{AllocError, Global};

/// The stem that the bytes are, where they are one.
pub fn stem(alloc: Global, bytes: &[u8]) -> Result<Option<Text>, AllocError>
    ensures sole { IfOk result (λ found. IfSome found (Sole (λ stem. stem) (IsStem false))) }
    ensures of_bytes { IfOk result (λ found. IfSome found (λ stem. stem ≡ bytes.now)) }
    ensures none { IfOk result (λ found. IfNone found ((stem : List ℕ) → IsStem false stem → stem ≡ bytes.now → ⊥)) }
{
    let Some(fmri) = canonical(alloc, bytes)? else {
        return Ok(None);
    };
    if is_bare(&fmri) {
        let Fmri { stem, .. } = fmri;
        Ok(Some(stem))
    } else {
        Ok(None)
    }
}

/// The stem at a version that the bytes name, where they do.
pub fn name(alloc: Global, bytes: &[u8]) -> Result<Option<Fmri>, AllocError>
    ensures sole { IfOk result (λ found. IfSome found (Sole fmri_text IsNamed)) }
    ensures of_bytes { IfOk result (λ found. IfSome found (λ name. fmri_text name ≡ bytes.now)) }
    ensures none { IfOk result (λ found. IfNone found ((name : declared.Fmri) → IsNamed name → fmri_text name ≡ bytes.now → ⊥)) }
{
    let Some(fmri) = canonical(alloc, bytes)? else {
        return Ok(None);
    };
    if is_named(&fmri) {
        Ok(Some(fmri))
    } else {
        Ok(None)
    }
}

// Whether there is a stem alone.
fn is_bare(fmri: &Fmri) -> bool
    ensures { IsTrue result ↔ ((fmri.now.publisher ≡ None) × (fmri.now.version ≡ None)) }
{
    matches!((&fmri.publisher, &fmri.version), (None, None))
}

// Whether there is a version, and no publisher.
fn is_named(fmri: &Fmri) -> bool
    ensures { IsTrue result ↔ ((fmri.now.publisher ≡ None) × IsSome fmri.now.version) }
{
    matches!((&fmri.publisher, &fmri.version), (None, Some(_)))
}

// The FMRI whose canonical spelling the bytes are, where there is one.
fn canonical(alloc: Global, bytes: &[u8]) -> Result<Option<Fmri>, AllocError>
    ensures sole { IfOk result (λ found. IfSome found (Sole fmri_text IsFmri)) }
    ensures of_bytes { IfOk result (λ found. IfSome found (λ fmri. fmri_text fmri ≡ bytes.now)) }
    ensures none { IfOk result (λ found. IfNone found ((fmri : declared.Fmri) → IsFmri fmri → fmri_text fmri ≡ bytes.now → ⊥)) }
{
    let Ok(text) = str::from_utf8(bytes) else {
        return Ok(None);
    };
    match Fmri::parse(alloc, text) {
        Ok(fmri) => if_spelled(alloc, fmri, bytes),
        Err(Or::Bad(_)) => Ok(None),
        Err(Or::OutOfMemory) => Err(AllocError),
    }
}

// The FMRI, where the bytes are its canonical spelling.
fn if_spelled(alloc: Global, fmri: Fmri, bytes: &[u8]) -> Result<Option<Fmri>, AllocError>
    ensures some { IfOk result (λ found. IfSome found (λ same. (same ≡ fmri) × (fmri_text fmri ≡ bytes.now))) }
    ensures none { IfOk result (λ found. IfNone found (fmri_text fmri ≡ bytes.now → ⊥)) }
{
    let text = fmri.print(alloc)?;
    if text.as_str().as_bytes() == bytes {
        Ok(Some(fmri))
    } else {
        Ok(None)
    }
}
