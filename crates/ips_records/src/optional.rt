//! Fields that may be left free, which `-` says.

ghost use Rattle.std.specs.Prelude.{◌≡◌, ℕ, List, Option, Some, None, IfOk, IfNone, IfSome};
ghost use Rattle.ips_fmri.specs.Version.{Parts, IfVersion};
ghost use Rattle.ips_records.specs.Listed.{Sole};
ghost use Rattle.ips_records.specs.Form.{IfMarked};
ghost use Rattle.ips_records.specs.Field.{version_field, word_field};

use crate::words::word;
use ips_fmri::Version;
use ips_text::{Or, Text};
use std::alloc::{AllocError, Global};

/// The version of a field, or that it is free; None where the field is neither.
pub fn if_version(alloc: Global, bytes: &[u8]) -> Result<Option<Option<Version>>, AllocError>
    ensures sole { IfOk result (λ found. IfSome found (Sole version_field IfVersion)) }
    ensures of_bytes { IfOk result (λ found. IfSome found (λ version. version_field version ≡ bytes.now)) }
    ensures none { IfOk result (λ found. IfNone found ((version : Option Parts) → IfVersion version → version_field version ≡ bytes.now → ⊥)) }
{
    if bytes == b"-".as_slice() {
        return Ok(Some(None));
    }
    let Ok(text) = str::from_utf8(bytes) else {
        return Ok(None);
    };
    match Version::parse(alloc, text) {
        Ok(version) => Ok(Some(Some(version))),
        Err(Or::Bad(_)) => Ok(None),
        Err(Or::OutOfMemory) => Err(AllocError),
    }
}

/// The word of a field, or that it is free; None where the field is neither.
pub fn if_word(alloc: Global, bytes: &[u8]) -> Result<Option<Option<Text>>, AllocError>
    ensures sole { IfOk result (λ found. IfSome found (Sole word_field IfMarked)) }
    ensures of_bytes { IfOk result (λ found. IfSome found (λ word. word_field word ≡ bytes.now)) }
    ensures none { IfOk result (λ found. IfNone found ((word : Option (List ℕ)) → IfMarked word → word_field word ≡ bytes.now → ⊥)) }
{
    if bytes == b"-".as_slice() {
        return Ok(Some(None));
    }
    match word(alloc, bytes)? {
        Some(word) => Ok(Some(Some(word))),
        None => Ok(None),
    }
}
