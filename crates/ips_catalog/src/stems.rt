//! Which keys are stems.

ghost use Rattle.std.specs.Prelude.{◌≡◌, Some, None, IfOk, if◌then◌else◌};
ghost use Rattle.ips_catalog.specs.Stem.{is_stem};

use ips_fmri::Fmri;
use ips_text::{Or, Text};
use std::alloc::{AllocError, Global};

/// The key as a stem, where it is one: a name of a package without publisher and version.
pub fn read_stem(alloc: Global, key: &str) -> Result<Option<Text>, AllocError>
    ensures { IfOk result (λ found. found ≡ (if is_stem key.now then Some key.now else None)) }
{
    let fmri = match Fmri::parse(alloc, key) {
        Ok(fmri) => fmri,
        Err(Or::Bad(_)) => return Ok(None),
        Err(Or::OutOfMemory) => return Err(AllocError),
    };
    if fmri.stem.as_str() == key {
        Ok(Some(fmri.stem))
    } else {
        Ok(None)
    }
}
