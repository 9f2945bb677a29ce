//! Clashes of one path with what is wanted below it or elsewhere.

ghost use Rattle.std.specs.Prelude.{◌≡◌, IfOk, Some, option_map};
ghost use Rattle.ips_conflict.specs.declared.clashing.Rule.TheVariants as rules;
ghost use Rattle.ips_conflict.specs.Clash as clashes;
ghost use Rattle.ips_conflict.specs.Clash.{path_key};
ghost use Rattle.ips_conflict.specs.Index.{IsIndex, IsGroup, has_path};
ghost use Rattle.ips_conflict.specs.Search.{IsFirstBy};

use crate::clashing::Rule;
use crate::earliest::{Test, earliest};
use crate::index::Index;
use crate::placed::{Placed, Sort};
use std::alloc::{AllocError, Global};

/// The first action that gives the path as other than a directory where something is wanted below it, with the first action
/// that wants it, or none where the image itself does.
pub fn first_obstacle(
    alloc: Global,
    placed: &[Placed<'_>],
    index: &Index,
    text: &str,
    members: &[usize],
) -> Result<Option<(usize, Option<usize>)>, AllocError>
    requires index { IsIndex placed.now index.now }
    requires group { IsGroup placed.now text.now members.now }
    ensures { IfOk result (λ found. IsFirstBy placed.now (path_key text.now) rules.Below found) }
{
    let Some(first) = earliest(alloc, placed, index, members, Sort::Path, Test::Obstacle)? else {
        return Ok(None);
    };
    if is_held(index, text) {
        return Ok(Some((first, None)));
    }
    if !index.has_below(text) {
        return Ok(None);
    }
    match earliest(
        alloc,
        placed,
        index,
        &index.places,
        Sort::Path,
        Test::Under(text),
    )? {
        Some(second) => Ok(Some((first, Some(second)))),
        None => Ok(None),
    }
}

/// The first hardlink at the path that leads to no file that is always there.
pub fn first_lost(
    alloc: Global,
    placed: &[Placed<'_>],
    index: &Index,
    text: &str,
    members: &[usize],
) -> Result<Option<(usize, Option<usize>)>, AllocError>
    requires index { IsIndex placed.now index.now }
    requires group { IsGroup placed.now text.now members.now }
    ensures { IfOk result (λ found. IsFirstBy placed.now (path_key text.now) rules.Target found) }
{
    match earliest(alloc, placed, index, members, Sort::Path, Test::Lost)? {
        Some(first) => Ok(Some((first, Some(first)))),
        None => Ok(None),
    }
}

// Whether the image itself keeps something below the path.
fn is_held(index: &Index, path: &str) -> bool
    ensures { result ≡ clashes.is_held_by index.now.legacy path.now }
{
    if path == "var" {
        return true;
    }
    if !index.legacy {
        return false;
    }
    path == "var/sadm" || path == "var/sadm/pkg"
}
