//! What is wanted.

ghost use Rattle.std.specs.Prelude.{◌≡◌, ◌≤◌, ◌<◌, ℕ, List, Some, map, length, slice_get, IfOk, IfSome, IfNone};
ghost use Rattle.std.specs.List.{Contains};
ghost use Rattle.std.specs.List.Sorted.{IsStrictlySortedBy};
ghost use Rattle.std.specs.Ordering.{nat_cmp};
ghost use Rattle.std.specs.Cmp.Lexicographic.{slice_cmp};
ghost use Rattle.ips_conflict.specs.declared.placed.Placed as declared;
ghost use Rattle.ips_text.specs.Path.{IsPath};
ghost use Rattle.ips_meaning.specs.Places.{AreLeading, AreWanted, IsLeading, IsWantedPath};
ghost use Rattle.ips_meaning.specs.Want.{IsWanted, IsWantOf};
ghost use Rattle.ips_meaning.specs.Together.{AreProper, HasProperParts};
ghost use Rattle.ips_meaning.specs.View.{AreByPath, entries_of, paths_of};

use crate::attributes::{entry_of, parsed};
use crate::entry::Entry;
use crate::paths::paths;
use ips_conflict::Placed;
use ips_text::RelPath;
use std::alloc::{AllocError, Global};
use std::cmp::Ordering;
use std::marker::Model;

/// What an image should hold: an entry for each wanted path. Contracts see it as the list of the paths' bytes and their
/// entries.
#[derive(Drop)]
pub struct Want {
    entries: Vec<Wanted>,
}

/// An entry and the path at which it is wanted.
#[derive(Drop)]
pub(crate) struct Wanted {
    path: RelPath,
    entry: Entry,
}

impl Model for Want {
    ghost use Rattle.std.specs.Prelude.{List, ℕ};
    ghost use Rattle.ips_meaning.specs.declared.entry.Entry as declared;
    ghost use Rattle.ips_meaning.specs.View.{AreByPath, entries_of};

    ghost Value = { List (List ℕ × declared.Entry) };

    ghost view = { λ w. entries_of w.entries.items };

    ghost invariant = { λ w. AreByPath w.entries.items };
}

impl Want {
    /// What these actions want.
    pub(crate) fn of(alloc: Global, kept: &[Placed<'_>]) -> Result<Want, AllocError>
        ensures want { IfOk result (λ want. IsWantOf kept.now want) }
        ensures whole { IfOk result (λ want. (path : List ℕ) → IsWantedPath kept.now path → Contains (map (λ e. e.0) want) path) }
        ensures proper { IfOk result (λ want. AreProper want) }
    {
        let entries = entries(alloc, kept)?;
        Ok(Want { entries })
    }

    /// How many paths are wanted.
    pub fn len(&self) -> usize
        ensures count { result ≡ length self.now }
        ensures in_order { IsStrictlySortedBy (slice_cmp nat_cmp) (map (λ e. e.0) self.now) }
    {
        self.entries.len()
    }

    /// The path and the entry at this place, in the order of the paths' bytes. None exactly past the last.
    pub fn at(&self, i: usize) -> Option<(&RelPath, &Entry)>
        ensures none { IfNone result (length self.now ≤ i) }
        ensures some { IfSome result (λ x. slice_get self.now i ≡ Some (x.0.now.bytes, x.1.now)) }
    {
        let wanted = self.entries.get(i)?;
        Some((&wanted.path, &wanted.entry))
    }

    /// The entry that is wanted at a path. None exactly where none is.
    pub fn entry(&self, path: &RelPath) -> Option<&Entry>
        ensures some { IfSome result (λ entry. Contains self.now (path.now.bytes, entry.now)) }
        ensures none { IfNone result (Contains (map (λ e. e.0) self.now) path.now.bytes → ⊥) }
    {
        let i = find(&self.entries, path)?;
        Some(&self.entries[i].entry)
    }
}

// The place of a path among entries in the order of their paths, where it has one.
fn find(entries: &[Wanted], path: &RelPath) -> Option<usize>
    requires { AreByPath entries.now }
    ensures within { IfSome result (λ i. i < length entries.now) }
    ensures some { IfSome result (λ i. slice_get (paths_of entries.now) i ≡ Some path.now.bytes) }
    ensures none { IfNone result (Contains (paths_of entries.now) path.now.bytes → ⊥) }
{
    let mut low = 0;
    let mut high = entries.len();
    while low < high {
        let middle = low + (high - low) / 2;
        match entries[middle].path.cmp(path) {
            Ordering::Less => low = middle + 1,
            Ordering::Equal => return Some(middle),
            Ordering::Greater => high = middle,
        }
    }
    None
}

// What is wanted, in the order of the paths' bytes.
fn entries(alloc: Global, kept: &[Placed<'_>]) -> Result<Vec<Wanted>, AllocError>
    ensures want { IfOk result (λ entries. IsWantOf kept.now (entries_of entries.items)) }
    ensures whole { IfOk result (λ entries. (path : List ℕ) → IsWantedPath kept.now path → Contains (map (λ e. e.0) (entries_of entries.items)) path) }
    ensures proper { IfOk result (λ entries. AreProper (entries_of entries.items)) }
    ensures in_order { IfOk result (λ entries. AreByPath entries.items) }
{
    let paths = paths(alloc, kept)?;
    let mut entries = Vec::with_capacity(alloc, paths.len())?;
    for (path, place) in paths.iter() {
        entries.push(wanted_at(alloc, kept, *place, path)?)?;
    }
    Ok(entries)
}

// What is wanted at a path: what the action says that counts there, or, where none does, a directory of any mode.
fn wanted_at(
    alloc: Global,
    kept: &[Placed<'_>],
    place: Option<usize>,
    path: &[u8],
) -> Result<Wanted, AllocError>
    requires place { IsLeading kept.now path.now place }
    requires wanted { IsWantedPath kept.now path.now }
    requires proper { IsPath path.now }
    ensures path { IfOk result (λ wanted. wanted.path.bytes ≡ path.now) }
    ensures entry { IfOk result (λ wanted. IsWanted kept.now path.now wanted.entry) }
    ensures proper { IfOk result (λ wanted. IsPath wanted.path.bytes × HasProperParts wanted.entry) }
{
    let entry = entry_at(alloc, kept, place, path)?;
    let path = parsed(alloc, path)?;
    Ok(Wanted { path, entry })
}

fn entry_at(
    alloc: Global,
    kept: &[Placed<'_>],
    place: Option<usize>,
    path: &[u8],
) -> Result<Entry, AllocError>
    requires place { IsLeading kept.now path.now place }
    requires wanted { IsWantedPath kept.now path.now }
    ensures entry { IfOk result (λ entry. IsWanted kept.now path.now entry) }
    ensures proper { IfOk result (λ entry. HasProperParts entry) }
{
    match place {
        Some(i) => Ok(entry_of(alloc, kept[i].action())?),
        None => Ok(Entry::Dir { mode: None }),
    }
}
