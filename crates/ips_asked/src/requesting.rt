//! What a command asks of the packages.

ghost use Rattle.std.specs.Prelude.{◌≡◌, IfOk};
ghost use Rattle.ips_asked.specs.Requested.{IsRequestOf};

use ips_fmri::Pattern;
use ips_request::Request;
use ips_words::What;
use std::alloc::{AllocError, Global};

/// What the command asks of the packages: to install, update or uninstall what its patterns name, and else to keep them.
pub fn request_of(alloc: Global, what: &What) -> Result<Request, AllocError>
    ensures { IfOk result (IsRequestOf what.now) }
{
    match what {
        What::Install {
            patterns,
            reject,
            ..
        } => {
            let patterns = copies(alloc, patterns)?;
            let reject = copies(alloc, reject)?;
            Ok(Request::Install { patterns, reject })
        }
        What::Update {
            patterns,
            reject,
            ..
        } => {
            let patterns = copies(alloc, patterns)?;
            let reject = copies(alloc, reject)?;
            Ok(Request::Update { patterns, reject })
        }
        What::Uninstall { patterns, .. } => {
            let patterns = copies(alloc, patterns)?;
            Ok(Request::Uninstall { patterns })
        }
        _ => Ok(Request::Keep),
    }
}

// The same patterns.
fn copies(alloc: Global, patterns: &[Pattern]) -> Result<Vec<Pattern>, AllocError>
    ensures { IfOk result (λ copies. copies.items ≡ patterns.now) }
{
    let mut copies = Vec::with_capacity(alloc, patterns.len())?;
    for pattern in patterns {
        copies.push(pattern.copy(alloc)?)?;
    }
    Ok(copies)
}
