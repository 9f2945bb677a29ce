//! The wanted paths.

ghost use Rattle.std.specs.Prelude.{◌≡◌, ◌↔◌, ◌⊎◌, ◌||◌, List, ℕ, not, true, None, IfOk, OnOk};
ghost use Rattle.ips_text.specs.Path.{IsPath};
ghost use Rattle.ips_text.specs.Ancestry as ancestry;
ghost use Rattle.ips_action.specs.Attrs.{is_same};
ghost use Rattle.ips_conflict.specs.Key as keys;
ghost use Rattle.ips_conflict.specs.Clash as clashes;
ghost use Rattle.ips_meaning.specs.Want.{is_needed};
ghost use Rattle.ips_meaning.specs.Places.{AreLeading, AreWanted, HoldsAbove, has_path, place_of};

use crate::attributes::path_of;
use crate::leading::count;
use ips_action::ActionKind;
use ips_conflict::Placed;
use ips_text::parent;
use std::alloc::{AllocError, Global};
use std::collections::BTreeMap;

/// The wanted paths: those that actions give, each with the place of the action that counts there, and those that the image itself
/// needs, and those above them.
pub fn paths(
    alloc: Global,
    kept: &[Placed<'_>],
) -> Result<BTreeMap<Vec<u8>, Option<usize>>, AllocError>
    ensures leading { IfOk result (λ paths. AreLeading kept.now paths) }
    ensures wanted { IfOk result (λ paths. AreWanted kept.now paths) }
{
    let mut paths = needed(alloc, kept)?;
    for (i, item) in kept.iter().enumerate() {
        if let Some(text) = path_of(item) {
            let path = text.as_bytes();
            add_above(alloc, &mut paths, path)?;
            count(alloc, kept, &mut paths, i, path)?;
        }
    }
    Ok(paths)
}

// The paths that the image itself needs, and those above them, without places.
fn needed(
    alloc: Global,
    kept: &[Placed<'_>],
) -> Result<BTreeMap<Vec<u8>, Option<usize>>, AllocError>
    ensures paths { IfOk result (λ paths. (p : List ℕ) → (has_path paths p ≡ true) ↔ (is_needed kept.now p ≡ true)) }
    ensures proper { IfOk result (λ paths. (p : List ℕ) → has_path paths p ≡ true → IsPath p) }
    ensures places { IfOk result (λ paths. (p : List ℕ) → place_of paths p ≡ None) }
{
    let mut paths = BTreeMap::new(alloc);
    add(alloc, &mut paths, b"var/pkg")?;
    if !has_legacy(kept) {
        return Ok(paths);
    }
    add(alloc, &mut paths, b"var/sadm/pkg")?;
    Ok(paths)
}

// Adds a path, and what stands above it.
fn add(
    alloc: Global,
    paths: &mut BTreeMap<Vec<u8>, Option<usize>>,
    path: &[u8],
) -> Result<(), AllocError>
    requires { HoldsAbove paths.old }
    ensures paths { OnOk result ((p : List ℕ) → (has_path paths.new p ≡ true) ↔ ((has_path paths.old p ≡ true) ⊎ (ancestry.covers p path.now ≡ true))) }
    ensures places { OnOk result ((p : List ℕ) → place_of paths.new p ≡ place_of paths.old p) }
{
    add_above(alloc, paths, path)?;
    add_one(alloc, paths, path)?;
    Ok(())
}

// Adds what stands above a path. Above one that was there already nothing is new.
fn add_above(
    alloc: Global,
    paths: &mut BTreeMap<Vec<u8>, Option<usize>>,
    path: &[u8],
) -> Result<(), AllocError>
    requires { HoldsAbove paths.old }
    ensures paths { OnOk result ((p : List ℕ) → (has_path paths.new p ≡ true) ↔ ((has_path paths.old p ≡ true) ⊎ (ancestry.is_below p path.now ≡ true))) }
    ensures places { OnOk result ((p : List ℕ) → place_of paths.new p ≡ place_of paths.old p) }
{
    let mut at = parent(path);
    while let Some(dir) = at {
        if !add_one(alloc, paths, dir)? {
            return Ok(());
        }
        at = parent(dir);
    }
    Ok(())
}

// Adds a path, and tells whether it is new. The place at one that is there stays.
fn add_one(
    alloc: Global,
    paths: &mut BTreeMap<Vec<u8>, Option<usize>>,
    path: &[u8],
) -> Result<bool, AllocError>
    ensures new { IfOk result (λ added. added ≡ not (has_path paths.old path.now)) }
    ensures paths { OnOk result ((p : List ℕ) → has_path paths.new p ≡ (is_same p path.now || has_path paths.old p)) }
    ensures places { OnOk result ((p : List ℕ) → place_of paths.new p ≡ place_of paths.old p) }
{
    if paths.contains_key(path) {
        return Ok(false);
    }
    let key = Vec::from_slice(alloc, path)?;
    paths.insert(key, None)?;
    Ok(true)
}

// Whether an entry of a legacy package stands among the actions.
fn has_legacy(kept: &[Placed<'_>]) -> bool
    ensures { result ≡ clashes.has_legacy kept.now }
{
    kept.iter().any(|item| is_legacy(item.kind()))
}

fn is_legacy(kind: ActionKind) -> bool
    ensures { result ≡ keys.is_legacy kind }
{
    matches!(kind, ActionKind::Legacy)
}
