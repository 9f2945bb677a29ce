//! The action that counts at each path.

ghost use Rattle.std.specs.Prelude.{◌≡◌, ◌↔◌, ◌||◌, ◌<◌, List, ℕ, Some, IfOk, IfSome, OnOk, IsTrue, length, slice_get, if◌then◌else◌};
ghost use Rattle.ips_action.specs.Attrs.{is_same};
ghost use Rattle.ips_conflict.specs.Order.{place_cmp};
ghost use Rattle.ips_meaning.specs.Places as places;
ghost use Rattle.ips_meaning.specs.Places.{count_cmp, has_path, place_of, rank_of};

use crate::attributes::takes_place;
use ips_action::ActionKind;
use ips_conflict::Placed;
use std::alloc::{AllocError, Global};
use std::cmp::Ordering;
use std::collections::BTreeMap;

/// Counts an action at its path, where none that was counted there comes before it: of files the one that takes the place of
/// others, and else the first by stem and line.
pub fn count(
    alloc: Global,
    kept: &[Placed<'_>],
    paths: &mut BTreeMap<Vec<u8>, Option<usize>>,
    i: usize,
    path: &[u8],
) -> Result<(), AllocError>
    requires i { i < length kept.now }
    requires counted { IfSome (place_of paths.old path.now) (λ j. j < length kept.now) }
    ensures places { OnOk result ((q : List ℕ) → place_of paths.new q ≡ (if is_same q path.now then Some (places.first_of kept.now (place_of paths.old q) i) else place_of paths.old q)) }
    ensures paths { OnOk result ((q : List ℕ) → has_path paths.new q ≡ (is_same q path.now || has_path paths.old q)) }
{
    let Some(j) = put(alloc, paths, path, i)? else {
        return Ok(());
    };
    put(alloc, paths, path, first_of(kept, j, i))?;
    Ok(())
}

// Puts a place at a path, and gives the one that stood there.
fn put(
    alloc: Global,
    paths: &mut BTreeMap<Vec<u8>, Option<usize>>,
    path: &[u8],
    place: usize,
) -> Result<Option<usize>, AllocError>
    ensures old { IfOk result (λ old. old ≡ place_of paths.old path.now) }
    ensures places { OnOk result ((q : List ℕ) → place_of paths.new q ≡ (if is_same q path.now then Some place else place_of paths.old q)) }
    ensures paths { OnOk result ((q : List ℕ) → has_path paths.new q ≡ (is_same q path.now || has_path paths.old q)) }
{
    let key = Vec::from_slice(alloc, path)?;
    match paths.insert(key, Some(place))? {
        Some(old) => Ok(old),
        None => Ok(None),
    }
}

// The place that counts of two at one path.
fn first_of(kept: &[Placed<'_>], j: usize, i: usize) -> usize
    requires j { j < length kept.now }
    requires i { i < length kept.now }
    ensures { result ≡ places.first_of kept.now (Some j) i }
{
    if comes_before(kept, i, j) { i } else { j }
}

fn comes_before(kept: &[Placed<'_>], i: usize, j: usize) -> bool
    requires i { i < length kept.now }
    requires j { j < length kept.now }
    ensures { IsTrue result ↔ (count_cmp kept.now i j ≡ Ordering.Less) }
{
    count_order(kept, i, j) == Ordering::Less
}

// How two actions stand to one another: by rank, then by stem, line and place.
fn count_order(kept: &[Placed<'_>], i: usize, j: usize) -> Ordering
    requires i { i < length kept.now }
    requires j { j < length kept.now }
    ensures { result ≡ count_cmp kept.now i j }
{
    let a = &kept[i];
    let b = &kept[j];
    rank(a).cmp(&rank(b)).then(
        a.stem()
            .cmp(b.stem())
            .then(a.line().cmp(&b.line()))
            .then(i.cmp(&j)),
    )
}

// The file that takes the place of others comes first, then other files, then what is no file.
fn rank(item: &Placed<'_>) -> u8
    ensures { result ≡ rank_of item.now }
{
    match item.kind() {
        ActionKind::File => { if takes_place(item.action()) { 0 } else { 1 } }
        _ => 2,
    }
}
