//! Paths that are marked with all above them.

ghost use Rattle.std.specs.Prelude.{◌≡◌, ◌↔◌, ◌⊎◌, ◌||◌, List, ℕ, not, true, IfOk, OnOk};
ghost use Rattle.ips_text.specs.Ancestry as ancestry;
ghost use Rattle.ips_action.specs.Attrs.{is_same};
ghost use Rattle.ips_conflict.specs.Index.{HoldsAbove, has_path};

use ips_text::parent;
use std::alloc::{AllocError, Global};
use std::collections::BTreeSet;

/// Marks a path and all above it. Above one that was marked nothing is new.
pub fn mark(alloc: Global, keys: &mut BTreeSet<Vec<u8>>, path: &[u8]) -> Result<(), AllocError>
    requires { HoldsAbove keys.old }
    ensures { OnOk result ((p : List ℕ) → (has_path keys.new p ≡ true) ↔ ((has_path keys.old p ≡ true) ⊎ (ancestry.covers p path.now ≡ true))) }
{
    mark_above(alloc, keys, path)?;
    add(alloc, keys, path)?;
    Ok(())
}

// Marks what stands above a path.
fn mark_above(alloc: Global, keys: &mut BTreeSet<Vec<u8>>, path: &[u8]) -> Result<(), AllocError>
    requires { HoldsAbove keys.old }
    ensures { OnOk result ((p : List ℕ) → (has_path keys.new p ≡ true) ↔ ((has_path keys.old p ≡ true) ⊎ (ancestry.is_below p path.now ≡ true))) }
{
    let mut at = parent(path);
    while let Some(dir) = at {
        if !add(alloc, keys, dir)? {
            return Ok(());
        }
        at = parent(dir);
    }
    Ok(())
}

/// Marks a path, and tells whether it is new.
pub fn add(alloc: Global, keys: &mut BTreeSet<Vec<u8>>, path: &[u8]) -> Result<bool, AllocError>
    ensures new { IfOk result (λ added. added ≡ not (has_path keys.old path.now)) }
    ensures paths { OnOk result ((p : List ℕ) → has_path keys.new p ≡ (is_same p path.now || has_path keys.old p)) }
{
    let key = Vec::from_slice(alloc, path)?;
    Ok(keys.insert(key)?)
}
