//! Where the target of a hardlink leads.

ghost use Rattle.std.specs.Prelude.{◌≡◌, ◌∷◌, [], ◌<◌, List, ℕ, IfOk, IfNone, IfSome, Some, None, MatchBool, MatchOption};
ghost use Rattle.ips_text.specs.Path as paths;
ghost use Rattle.ips_action.specs.Target as leading;
ghost use Rattle.ips_action.specs.Target.{LeadsTo};

use ips_text::{Or, RelPath, parent};
use std::alloc::{AllocError, Global};

/// The path inside the image to which the target of a hardlink at this path leads (pkg(7), "Hardlink Actions"): from the root
/// where the target begins with `/`, else from the directory that holds the hardlink, with `.` and `..` followed. None exactly
/// where a step goes above the root, or where it ends at the root or at what is no path.
pub fn leads_to(alloc: Global, path: &[u8], target: &[u8]) -> Result<Option<RelPath>, AllocError>
    ensures found { IfOk result (λ found. IfSome found (λ p. LeadsTo path.now target.now p.bytes)) }
    ensures none { IfOk result (λ found. IfNone found ((p : List ℕ) → LeadsTo path.now target.now p → ⊥)) }
{
    let mut at = start(alloc, path, target)?;
    if !walk(&mut at, target)? {
        return Ok(None);
    }
    match RelPath::parse(alloc, &at) {
        Ok(found) => Ok(Some(found)),
        Err(Or::Bad(_)) => Ok(None),
        Err(Or::OutOfMemory) => Err(AllocError),
    }
}

// The directory from which the target is followed.
fn start(alloc: Global, path: &[u8], target: &[u8]) -> Result<Vec<u8>, AllocError>
    ensures { IfOk result (λ at. at.items ≡ leading.start path.now target.now) }
{
    if let [b'/', ..] = target {
        return Ok(Vec::new(alloc));
    }
    Vec::from_slice(alloc, holder(path))
}

// The directory that holds the path, none of its bytes where that is the root.
fn holder(path: &[u8]) -> &[u8]
    ensures { result.now ≡ leading.holder path.now }
{
    parent(path).unwrap_or(&[])
}

// Follows the parts of the target, and tells whether none of them goes above the root.
fn walk(at: &mut Vec<u8>, target: &[u8]) -> Result<bool, AllocError>
    ensures { IfOk result (λ went. MatchBool went (leading.walk (paths.parts target.now) at.old.items ≡ Some at.new.items) (leading.walk (paths.parts target.now) at.old.items ≡ None)) }
{
    let mut left = Some(target);
    while let Some(bytes) = left {
        let (part, rest) = first_part(bytes);
        if !step(at, part)? {
            return Ok(false);
        }
        left = rest;
    }
    Ok(true)
}

/// The first part of a path, and what stands behind the `/` that ends it, where there is one.
pub fn first_part(bytes: &[u8]) -> (&[u8], Option<&[u8]>)
    ensures { MatchOption result.1 (paths.parts bytes.now ≡ result.0.now ∷ []) (λ rest. paths.parts bytes.now ≡ result.0.now ∷ paths.parts rest.now) }
{
    match bytes.iter().position(|b| *b == b'/') {
        Some(i) => (&bytes[..i], Some(&bytes[i + 1..])),
        None => (bytes, None),
    }
}

// Follows one part, and tells whether it didn't go above the root.
fn step(at: &mut Vec<u8>, part: &[u8]) -> Result<bool, AllocError>
    ensures { IfOk result (λ went. MatchBool went (leading.step at.old.items part.now ≡ Some at.new.items) (leading.step at.old.items part.now ≡ None)) }
{
    match part {
        [] | [b'.'] => Ok(true),
        [b'.', b'.'] => Ok(leave(at)),
        _ => {
            enter(at, part)?;
            Ok(true)
        }
    }
}

// Goes to the directory above, where there is one.
fn leave(at: &mut Vec<u8>) -> bool
    ensures { MatchBool result (leading.above at.old.items ≡ Some at.new.items) (leading.above at.old.items ≡ None) }
{
    if at.is_empty() {
        return false;
    }
    let size = holder(at).len();
    at.truncate(size);
    true
}

// Goes to a part of the directory.
fn enter(at: &mut Vec<u8>, part: &[u8]) -> Result<(), AllocError>
    ensures { IfOk result (λ _. at.new.items ≡ leading.below at.old.items part.now) }
{
    if !at.is_empty() {
        at.push(b'/')?;
    }
    at.extend_from_slice(part)
}
