//! The first path at which a request can't be carried out.

ghost use Rattle.std.specs.Prelude.{◌≡◌, ℕ, List, Bool, ◌&&◌, ◌||◌, IfNone, None, Some};
ghost use Rattle.std.specs.List.{AllByRecursion};
ghost use Rattle.std.specs.Option.{option_map};
ghost use Rattle.std.specs.List.Sorted.{IsStrictlySortedBy};
ghost use Rattle.std.specs.Ordering.{nat_cmp};
ghost use Rattle.std.specs.Cmp.Lexicographic.{slice_cmp};
ghost use Rattle.ips_outside.specs.Image.{Image};
ghost use Rattle.ips_after.specs.Lists.{listed};
ghost use Rattle.ips_after.specs.Request.{Request};
ghost use Rattle.ips_after.specs.Salvage as salvage;
ghost use Rattle.ips_found.specs.Found.{AreThings, thing_paths};
ghost use Rattle.ips_movable.specs.Movable.{CanMove, cannot_move};
ghost use Rattle.ips_movable.specs.First.{IsFirstPath, loses_foreign};

use ips_found::Thing;
use ips_movable::fixed;
use ips_text::RelPath;
use std::cmp::Ordering;

/// The first path by bytes at which a request can't be carried out, where there is one: among the things that are salvaged into the folder, the first
/// directory that would lose names that are no paths, and the first path whose side name is too long.
pub fn unmovable<'a>(
    things: &'a [Thing],
    root: &RelPath,
    foreign: Option<&'a RelPath>,
    long: Option<&'a RelPath>,
) -> Option<&'a RelPath>
    requires { IsStrictlySortedBy (slice_cmp nat_cmp) (thing_paths things.now) }
    ensures movable { IfNone result (AllByRecursion (CanMove root.now.bytes) things.now) }
    ensures first { (r : Request) (t : Image) (a : salvage.Aside) → a.root ≡ root.now.bytes → AreThings t things.now → ((q : List ℕ) → listed (thing_paths things.now) q ≡ salvage.salvaged r t q)
        → IsFirstPath (loses_foreign r t a.emptied) (option_map (λ x. x.now) foreign.entry) → IsFirstPath (λ p. salvage.has_long_side r t a p (salvage.side_at r t p)) (option_map (λ x. x.now) long.entry)
        → IsFirstPath (salvage.is_unmovable r t a) (option_map (λ x. x.now) result) }
{
    first_of(first_fixed(things, root), first_of(foreign, long))
}

// The path of the first thing that can't be moved below the folder.
fn first_fixed<'a>(things: &'a [Thing], root: &RelPath) -> Option<&'a RelPath>
    requires { IsStrictlySortedBy (slice_cmp nat_cmp) (thing_paths things.now) }
    ensures movable { IfNone result (AllByRecursion (CanMove root.now.bytes) things.now) }
    ensures first { (r : Request) (t : Image) → AreThings t things.now → ((q : List ℕ) → listed (thing_paths things.now) q ≡ salvage.salvaged r t q)
        → IsFirstPath (λ p. salvage.salvaged r t p && cannot_move t root.now.bytes p) (option_map (λ x. x.now) result) }
{
    match fixed(things, root) {
        Some(i) => Some(&things[i].path),
        None => None,
    }
}

// The first of two paths by bytes, where there are such.
fn first_of<'a>(one: Option<&'a RelPath>, other: Option<&'a RelPath>) -> Option<&'a RelPath>
    ensures none { IfNone result (one.entry ≡ None) }
    ensures first { (f g : List ℕ → Bool) → IsFirstPath f (option_map (λ x. x.now) one.entry) → IsFirstPath g (option_map (λ x. x.now) other.entry) → IsFirstPath (λ p. f p || g p) (option_map (λ x. x.now) result) }
{
    match (one, other) {
        (Some(one), Some(other)) => Some(lesser(one, other)),
        (Some(one), None) => Some(one),
        (None, other) => other,
    }
}

// The first of two paths by bytes.
fn lesser<'a>(one: &'a RelPath, other: &'a RelPath) -> &'a RelPath
    ensures { (f g : List ℕ → Bool) → IsFirstPath f (Some one.now) → IsFirstPath g (Some other.now) → IsFirstPath (λ p. f p || g p) (Some result.now) }
{
    match one.cmp(other) {
        Ordering::Greater => other,
        _ => one,
    }
}
