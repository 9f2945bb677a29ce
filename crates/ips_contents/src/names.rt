//! The names of contents, as paths.

ghost use Rattle.std.specs.Prelude.{◌≡◌, IfOk};
ghost use Rattle.ips_text.specs.Path.{IsPath};
ghost use Rattle.ips_steps.specs.Steps.{stage_path};

use ips_text::{Or, RelPath};
use std::alloc::{AllocError, Global};

/// The path of a content's file in the stage.
pub(crate) fn content_path(alloc: Global, number: u64) -> Result<RelPath, AllocError>
    ensures { IfOk result (λ path. path.bytes ≡ stage_path number) }
{
    let text = format!(in alloc; "var/pkg/stage/{number}")?;
    path_of(alloc, text.as_bytes())
}

/// The path of bytes that are one.
pub fn path_of(alloc: Global, bytes: &[u8]) -> Result<RelPath, AllocError>
    requires { IsPath bytes.now }
    ensures { IfOk result (λ path. path.bytes ≡ bytes.now) }
{
    match RelPath::parse(alloc, bytes) {
        Ok(path) => Ok(path),
        Err(Or::Bad(_)) => unreachable!(),
        Err(Or::OutOfMemory) => Err(AllocError),
    }
}
