//! Copies of what words may leave out.

ghost use Rattle.std.specs.Prelude.{◌≡◌, IfOk};

use ips_fmri::Version;
use ips_text::Text;
use std::alloc::{AllocError, Global};

/// The same text, where there is one.
pub fn copy_text(alloc: Global, text: &Option<Text>) -> Result<Option<Text>, AllocError>
    ensures { IfOk result (λ copy. copy ≡ text.now) }
{
    match text {
        Some(text) => Ok(Some(text.copy(alloc)?)),
        None => Ok(None),
    }
}

/// The same version, where there is one.
pub fn copy_version(alloc: Global, version: &Option<Version>) -> Result<Option<Version>, AllocError>
    ensures { IfOk result (λ copy. copy ≡ version.now) }
{
    match version {
        Some(version) => Ok(Some(version.copy(alloc)?)),
        None => Ok(None),
    }
}
