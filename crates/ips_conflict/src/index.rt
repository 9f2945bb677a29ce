//! What is looked up among placed actions.

ghost use Rattle.std.specs.Prelude.{◌≡◌, ◌++◌, ◌∷◌, [], ◌↔◌, ◌⊎◌, ◌||◌, ◌<◌, ℕ, List, not, true, false, Some, None, IfOk, IfSome, IsTrue, OnOk, slice_get, string_bytes, if◌then◌else◌, length};
ghost use Rattle.std.specs.List.{Contains};
ghost use Rattle.ips_text.specs.Ancestry.{is_below};
ghost use Rattle.ips_action.specs.Attrs.{is_same};
ghost use Rattle.ips_conflict.specs.Key.{value_of};
ghost use Rattle.ips_conflict.specs.Clash as clashes;
ghost use Rattle.ips_conflict.specs.Clash.{file_cmp};
ghost use Rattle.ips_conflict.specs.Index.{AreAbove, AreFiles, AreGroups, HoldsAbove, IsIndex, winner_after, first_counted, has_path, has_text, place_of, places_at};

use crate::alike::takes_place;
use crate::placed::{Placed, is_earlier, is_file, is_legacy, key_text, sort_of, value};
use crate::verdict::table;
use ips_action::ActionKind;
use ips_cases::Cases;
use ips_text::parent;
use std::alloc::{AllocError, Global};
use std::cmp::Ordering;
use std::collections::{BTreeMap, BTreeSet};

/// What is looked up among placed actions, by their places.
#[derive(Drop)]
pub struct Index {
    /// The places of the actions by the texts of their keys.
    pub groups: BTreeMap<String, Vec<usize>>,
    /// The paths below which an action gives a path.
    pub above: BTreeSet<Vec<u8>>,
    /// The file that counts at each path.
    pub files: BTreeMap<Vec<u8>, usize>,
    /// Whether the entry of a legacy package stands among them.
    pub legacy: bool,
    /// All places.
    pub places: Vec<usize>,
    /// The table of clashes.
    pub table: Cases<27>,
}

impl Index {
    ghost use Rattle.ips_conflict.specs.Index.{IsIndex};

    /// The index of these actions.
    pub fn new(alloc: Global, placed: &[Placed<'_>]) -> Result<Index, AllocError>
        ensures { IfOk result (λ index. IsIndex placed.now index) }
    {
        Ok(Index {
            groups: groups(alloc, placed)?,
            above: above(alloc, placed)?,
            files: files(alloc, placed)?,
            legacy: has_legacy(placed),
            places: places(alloc, placed.len())?,
            table: table(),
        })
    }

    /// Whether an action gives a path below this one.
    pub fn has_below(&self, path: &str) -> bool
        ensures { result ≡ has_path self.now.above path.now }
    {
        self.above.contains(path.as_bytes())
    }
}

// The places by the texts of keys.
fn groups(alloc: Global, placed: &[Placed<'_>]) -> Result<BTreeMap<String, Vec<usize>>, AllocError>
    ensures { IfOk result (λ groups. AreGroups placed.now groups) }
{
    let mut groups = BTreeMap::new(alloc);
    for (i, item) in placed.iter().enumerate() {
        group(alloc, &mut groups, i, item)?;
    }
    Ok(groups)
}

// Puts a place to those of its key's text.
fn group(
    alloc: Global,
    groups: &mut BTreeMap<String, Vec<usize>>,
    i: usize,
    item: &Placed<'_>,
) -> Result<(), AllocError>
    ensures { OnOk result ((text : List ℕ) → places_at groups.new text ≡ (if has_text item.now text then places_at groups.old text ++ i ∷ [] else places_at groups.old text)) }
{
    let Some(sort) = sort_of(item) else {
        return Ok(());
    };
    let text = key_text(alloc, sort, item)?;
    let Some(others) = groups.insert(text, alone(alloc, i)?)? else {
        return Ok(());
    };
    let text = key_text(alloc, sort, item)?;
    put(groups, text, others, i)?;
    Ok(())
}

// The place as the only one of its text.
fn alone(alloc: Global, i: usize) -> Result<Vec<usize>, AllocError>
    ensures { IfOk result (λ places. places.items ≡ i ∷ []) }
{
    let mut places = Vec::with_capacity(alloc, 1)?;
    places.push(i)?;
    Ok(places)
}

// Puts a place behind the others at a text.
fn put(
    groups: &mut BTreeMap<String, Vec<usize>>,
    text: String,
    others: Vec<usize>,
    i: usize,
) -> Result<(), AllocError>
    ensures { OnOk result ((q : List ℕ) → places_at groups.new q ≡ (if is_same (string_bytes text) q then others.items ++ i ∷ [] else places_at groups.old q)) }
{
    let mut places = others;
    places.push(i)?;
    groups.insert(text, places)?;
    Ok(())
}

// The paths below which actions stand.
fn above(alloc: Global, placed: &[Placed<'_>]) -> Result<BTreeSet<Vec<u8>>, AllocError>
    ensures { IfOk result (λ above. AreAbove placed.now above) }
{
    let mut above = BTreeSet::new(alloc);
    for item in placed {
        if has_path_key(item) {
            mark(alloc, &mut above, value(item.action(), "path").as_bytes())?;
        }
    }
    Ok(above)
}

fn has_path_key(item: &Placed<'_>) -> bool
    ensures { result ≡ clashes.has_path_key item.now }
{
    matches!(
        item.kind(),
        ActionKind::Dir | ActionKind::File | ActionKind::Link | ActionKind::Hardlink
    )
}

// Adds each path that a path stands below. Above one that was there already nothing is new.
fn mark(alloc: Global, above: &mut BTreeSet<Vec<u8>>, path: &[u8]) -> Result<(), AllocError>
    requires { HoldsAbove above.old }
    ensures { OnOk result ((p : List ℕ) → (has_path above.new p ≡ true) ↔ ((has_path above.old p ≡ true) ⊎ (is_below p path.now ≡ true))) }
{
    let mut at = parent(path);
    while let Some(dir) = at {
        if !add_path(alloc, above, dir)? {
            return Ok(());
        }
        at = parent(dir);
    }
    Ok(())
}

// Adds a path, and tells whether it is new.
fn add_path(alloc: Global, above: &mut BTreeSet<Vec<u8>>, path: &[u8]) -> Result<bool, AllocError>
    ensures new { IfOk result (λ added. added ≡ not (has_path above.old path.now)) }
    ensures paths { OnOk result ((p : List ℕ) → has_path above.new p ≡ (is_same p path.now || has_path above.old p)) }
{
    let key = Vec::from_slice(alloc, path)?;
    Ok(above.insert(key)?)
}

// The file that counts at each path.
fn files(alloc: Global, placed: &[Placed<'_>]) -> Result<BTreeMap<Vec<u8>, usize>, AllocError>
    ensures { IfOk result (λ files. AreFiles placed.now files) }
{
    let mut files = BTreeMap::new(alloc);
    for (i, item) in placed.iter().enumerate() {
        if is_file(item) {
            count(alloc, placed, &mut files, i, item)?;
        }
    }
    Ok(files)
}

// Counts a file at its path, where none that was counted there comes before it.
fn count(
    alloc: Global,
    placed: &[Placed<'_>],
    files: &mut BTreeMap<Vec<u8>, usize>,
    i: usize,
    item: &Placed<'_>,
) -> Result<(), AllocError>
    requires there { slice_get placed.now i ≡ Some item.now }
    requires counted { (path : List ℕ) → IfSome (place_of files.old path) (λ j. j < length placed.now) }
    ensures { OnOk result ((path : List ℕ) → place_of files.new path ≡ winner_after placed.now (place_of files.old path) path item.now i) }
{
    let path = value(item.action(), "path").as_bytes();
    let key = Vec::from_slice(alloc, path)?;
    let Some(j) = files.insert(key, i)? else {
        return Ok(());
    };
    let first = first_of(placed, j, i);
    let again = Vec::from_slice(alloc, path)?;
    files.insert(again, first)?;
    Ok(())
}

// The file that counts of two at one path.
fn first_of(placed: &[Placed<'_>], j: usize, i: usize) -> usize
    requires j { j < length placed.now }
    requires i { i < length placed.now }
    ensures { result ≡ first_counted placed.now (Some j) i }
{
    if comes_before(placed, i, j) { i } else { j }
}

/// The place that is counted at a path, where one is.
pub fn counted_at(files: &BTreeMap<Vec<u8>, usize>, path: &[u8]) -> Option<usize>
    ensures { result ≡ place_of files.now path.now }
{
    files.get(path).copied()
}

// Whether a file comes before another one at its path: because it takes the place of others, or because it is the earlier one.
fn comes_before(placed: &[Placed<'_>], i: usize, j: usize) -> bool
    requires i { i < length placed.now }
    requires j { j < length placed.now }
    ensures { IsTrue result ↔ (file_cmp placed.now i j ≡ Ordering.Less) }
{
    let first = takes_place(placed[i].action());
    let second = takes_place(placed[j].action());
    if first != second {
        return first;
    }
    is_earlier(placed, i, j)
}

fn has_legacy(placed: &[Placed<'_>]) -> bool
    ensures { result ≡ clashes.has_legacy placed.now }
{
    placed.iter().any(|item| is_legacy(item.kind()))
}

// All places below the number.
fn places(alloc: Global, number: usize) -> Result<Vec<usize>, AllocError>
    ensures { IfOk result (λ places. (i : ℕ) → Contains places.items i ↔ (i < number)) }
{
    let mut places = Vec::with_capacity(alloc, number)?;
    for i in 0..number {
        places.push(i)?;
    }
    Ok(places)
}
