//! Whether anything that a command may change differs.

ghost use Rattle.std.specs.Prelude.{◌≡◌, ◌↔◌, IsTrue, IfOk};
ghost use Rattle.ips_state.specs.State.{recorded};
ghost use Rattle.ips_next.specs.Alike.{AreAlikeLists};
ghost use Rattle.ips_next.specs.Next.{IsUnchanged};

use crate::alike::are_alike;
use ips_filter::Settings;
use ips_index::Index;
use ips_state::State;
use std::alloc::{AllocError, Global};

/// Whether selection, settings, avoided stems, freezes, mediators, origins, format and index are the same.
pub fn is_unchanged(alloc: Global, old: &State, new: &State) -> Result<bool, AllocError>
    ensures { IfOk result (λ same. IsTrue same ↔ IsUnchanged (recorded old.now) (recorded new.now)) }
{
    if !same_lists(old, new) {
        return Ok(false);
    }
    if !same_settings(alloc, &old.settings, &new.settings)? {
        return Ok(false);
    }
    same_index(alloc, &old.index, &new.index)
}

// Whether the format and all lists are the same, and the packages by their stems and versions.
fn same_lists(old: &State, new: &State) -> bool
    ensures { IsTrue result ↔ AreAlikeLists old.now new.now }
{
    if old.format != new.format {
        return false;
    }
    if !are_alike(&old.origins, &new.origins) {
        return false;
    }
    if !are_alike(&old.installed, &new.installed) {
        return false;
    }
    if !are_alike(&old.avoid, &new.avoid) {
        return false;
    }
    if !are_alike(&old.freeze, &new.freeze) {
        return false;
    }
    are_alike(&old.mediators, &new.mediators)
}

// Whether the same is set.
fn same_settings(alloc: Global, old: &Settings, new: &Settings) -> Result<bool, AllocError>
    ensures { IfOk result (λ same. IsTrue same ↔ (new.now ≡ old.now)) }
{
    let variants = old.variants(alloc)?;
    let others = new.variants(alloc)?;
    if !are_alike(&variants, &others) {
        return Ok(false);
    }
    let facets = old.facets(alloc)?;
    let others = new.facets(alloc)?;
    Ok(are_alike(&facets, &others))
}

// Whether the indexes have the same rows, or there is none.
fn same_index(alloc: Global, old: &Option<Index>, new: &Option<Index>) -> Result<bool, AllocError>
    ensures { IfOk result (λ same. IsTrue same ↔ (new.now ≡ old.now)) }
{
    match (old, new) {
        (Some(old), Some(new)) => same_rows(alloc, old, new),
        (None, None) => Ok(true),
        _ => Ok(false),
    }
}

// Whether the indexes have the same rows. Their texts tell it.
fn same_rows(alloc: Global, old: &Index, new: &Index) -> Result<bool, AllocError>
    ensures { IfOk result (λ same. IsTrue same ↔ (new.now ≡ old.now)) }
{
    let one = old.print(alloc)?;
    let other = new.print(alloc)?;
    Ok(one.as_slice() == other.as_slice())
}
