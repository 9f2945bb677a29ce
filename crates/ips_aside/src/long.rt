//! Names that are too long for a path.

ghost use Rattle.std.specs.Prelude.{◌≡◌, ◌&&◌, ◌||◌, ℕ, Bool, List, length, nat_lt};
ghost use Rattle.std.specs.List.{list_any};
ghost use Rattle.std.specs.Option.{option_map};
ghost use Rattle.ips_text.specs.Ancestry.{same_path};
ghost use Rattle.ips_text.specs.Path.{is_long, parts};
ghost use Rattle.ips_outside.specs.Image.{Image};
ghost use Rattle.ips_after.specs.Request.{Request};
ghost use Rattle.ips_after.specs.Salvage.{Aside, has_long_side, is_long_path, side_at};
ghost use Rattle.ips_aside.specs.Lost.{AreNamesOf};
ghost use Rattle.ips_aside.specs.Long.{IsFirstAt, is_too_long_name, long_name_at, too_long_at};

use crate::lost::LostName;
use crate::sides::{Side, SideName};
use ips_text::RelPath;
use std::cmp::Ordering;

/// The first path, by its bytes, of those beside which files are put whose names are too long for a path, beside it or in the salvage folder; None
/// where no name is.
pub fn first_long_side<'a>(sides: &[Side<'a>], names: &[LostName<'a>]) -> Option<&'a RelPath>
    ensures { (r : Request) (t : Image) (a : Aside) (things : List (List ℕ)) → AreNamesOf r t a things sides.now names.now → IsFirstAt (λ q. has_long_side r t a q (side_at r t q)) (option_map (λ p. p.now.bytes) result) }
{
    first_of(first_too_long(sides), first_long_name(names))
}

// The first path of those beside which names are too long.
fn first_too_long<'a>(sides: &[Side<'a>]) -> Option<&'a RelPath>
    ensures { IsFirstAt (too_long_at sides.now) (option_map (λ p. p.now.bytes) result) }
{
    let mut first = None;
    for i in 0..sides.len() {
        first = first_of(first, if_too_long(&sides[i]));
    }
    first
}

// The path of the file, if its name beside that is too long.
fn if_too_long<'a>(side: &Side<'a>) -> Option<&'a RelPath>
    ensures { IsFirstAt (λ q. same_path side.now.path.now.bytes q && is_too_long_name side.now.name) (option_map (λ p. p.now.bytes) result) }
{
    match side.name {
        SideName::TooLong => Some(side.path),
        _ => None,
    }
}

// The first path of those whose names in the salvage folder are too long.
fn first_long_name<'a>(names: &[LostName<'a>]) -> Option<&'a RelPath>
    ensures { IsFirstAt (long_name_at names.now) (option_map (λ p. p.now.bytes) result) }
{
    let mut first = None;
    for i in 0..names.len() {
        first = first_of(first, if_long(&names[i]));
    }
    first
}

// The path of the file, if its name in the salvage folder is too long.
fn if_long<'a>(name: &LostName<'a>) -> Option<&'a RelPath>
    ensures { IsFirstAt (λ q. same_path name.now.path.now.bytes q && is_long_path name.now.name.items) (option_map (λ p. p.now.bytes) result) }
{
    if is_long_name(&name.name) {
        Some(name.path)
    } else {
        None
    }
}

// Whether a name has too many bytes for a path, whole or in one part.
fn is_long_name(name: &[u8]) -> bool
    ensures { result ≡ is_long_path name.now }
{
    name.len() > 1023 || has_long_part(name)
}

// Whether a part of the name has too many bytes.
fn has_long_part(name: &[u8]) -> bool
    ensures { result ≡ list_any is_long (parts name.now) }
{
    name.split(|byte| *byte == b'/')
        .any(|part| part.len() > 255)
}

// The first of both paths, by their bytes.
fn first_of<'a>(one: Option<&'a RelPath>, other: Option<&'a RelPath>) -> Option<&'a RelPath>
    ensures { (f g : List ℕ → Bool) → IsFirstAt f (option_map (λ p. p.now.bytes) one.entry) → IsFirstAt g (option_map (λ p. p.now.bytes) other.entry) → IsFirstAt (λ q. f q || g q) (option_map (λ p. p.now.bytes) result) }
{
    let Some(a) = one else {
        return other;
    };
    let Some(b) = other else {
        return one;
    };
    match b.cmp(a) {
        Ordering::Less => other,
        _ => one,
    }
}
