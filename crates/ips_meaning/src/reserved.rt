//! The paths where an image keeps its own records.

ghost use Rattle.std.specs.Prelude.{◌≡◌, ◌<◌, IfOk, IfSome, MatchOption, option_map};
ghost use Rattle.ips_text.specs.Path.{IsPath};
ghost use Rattle.ips_text.specs.Ancestry.{same_path};
ghost use Rattle.ips_meaning.specs.Reserved as reserved;
ghost use Rattle.ips_meaning.specs.Reserved.{IsFreeOfReserved, IsLeastReserved};
ghost use Rattle.ips_meaning.specs.Lesser.{lesser_of, reserved_path_of};

use crate::attributes::{parsed, path_of};
use ips_conflict::Placed;
use ips_text::{RelPath, covers};
use std::alloc::{AllocError, Global};

/// The least reserved path by bytes that one of the actions gives.
pub fn least_reserved(alloc: Global, admitted: &[Placed<'_>]) -> Result<Option<RelPath>, AllocError>
    ensures { IfOk result (λ found. MatchOption found (IsFreeOfReserved admitted.now) (λ path. IsLeastReserved admitted.now path.bytes)) }
{
    let mut least: Option<&str> = None;
    for item in admitted {
        if let Some(path) = reserved_path(item) {
            least = Some(lesser(least, path));
        }
    }
    match least {
        Some(path) => Ok(Some(parsed(alloc, path.as_bytes())?)),
        None => Ok(None),
    }
}

// The reserved path that an action gives, where it gives one.
fn reserved_path<'a>(item: &Placed<'a>) -> Option<&'a str>
    ensures path { option_map (λ text. text.now) result ≡ reserved_path_of item.now }
    ensures proper { IfSome result (λ text. IsPath text.now) }
{
    let path = path_of(item)?;
    if is_reserved(path) { Some(path) } else { None }
}

// Whether a path is kept for the image's own records.
fn is_reserved(path: &str) -> bool
    ensures { result ≡ reserved.is_reserved path.now }
{
    if covers(b"var/pkg", path.as_bytes()) {
        return true;
    }
    if !covers(b"var/sadm/pkg", path.as_bytes()) {
        return false;
    }
    !is_same_path("var/sadm/pkg", path)
}

fn is_same_path(a: &str, b: &str) -> bool
    ensures { result ≡ same_path a.now b.now }
{
    a == b
}

// The lesser of two paths, of which the first may be none.
fn lesser<'a>(least: Option<&'a str>, path: &'a str) -> &'a str
    ensures { result.now ≡ lesser_of (option_map (λ text. text.now) least.entry) path.now }
{
    match least {
        Some(other) if other <= path => other,
        _ => path,
    }
}
