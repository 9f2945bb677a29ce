//! The first thing that can't be moved.

ghost use Rattle.std.specs.Prelude.{◌≡◌, ◌++◌, ◌∷◌, false, IfNone, IfSome, length};
ghost use Rattle.std.specs.List.{AllByRecursion};
ghost use Rattle.ips_text.specs.Path.{IsPath};
ghost use Rattle.ips_text.specs.Quote.{AreBytes};
ghost use Rattle.ips_steps.specs.Targets.{is_target};
ghost use Rattle.ips_found.specs.Found.{found_told};
ghost use Rattle.ips_movable.specs.Movable as spec;
ghost use Rattle.ips_movable.specs.Movable.{CanMove, IsFirstFixed, SaysBytes};

use ips_found::{Found, Thing};
use ips_text::RelPath;

/// The place of the first thing that can't be moved below the folder: no step can make it again, or its name there is too long for a path.
pub fn fixed(things: &[Thing], root: &RelPath) -> Option<usize>
    ensures first { IfSome result (IsFirstFixed root.now.bytes things.now) }
    ensures none { IfNone result (AllByRecursion (CanMove root.now.bytes) things.now) }
{
    for i in 0..things.len() {
        if is_fixed(&things[i], root) {
            return Some(i);
        }
    }
    None
}

// Whether the thing can't be moved below the folder.
fn is_fixed(thing: &Thing, root: &RelPath) -> bool
    ensures same { result ≡ spec.is_fixed root.now.bytes thing.now }
    ensures free { result ≡ false → CanMove root.now.bytes thing.now }
{
    !can_be_made(&thing.found) || root.bytes().len() + thing.path.bytes().len() > 1022
}

// Whether a step can make again what was found.
fn can_be_made(found: &Found) -> bool
    ensures made { result ≡ spec.can_be_made (found_told found.now) }
    ensures says { SaysBytes (found_told found.now) }
{
    match found {
        Found::Dir { foreign, .. } => !*foreign,
        Found::File { .. } => true,
        Found::Link { target } => can_be_said(target),
        Found::Other => false,
    }
}

// Whether a symbolic link that a step makes can say this.
fn can_be_said(target: &[u8]) -> bool
    ensures target { result ≡ is_target target.now }
    ensures bytes { AreBytes target.now }
{
    !target.is_empty() && target.len() < 4096 && !target.contains(&0)
}
