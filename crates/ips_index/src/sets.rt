//! Sets of rows.

ghost use Rattle.std.specs.Prelude.{◌≡◌, ◌⊎◌, ◌↔◌, ◌++◌, ◌∷◌, [], ℕ, List, false, if◌then◌else◌, IfOk, OnOk, Contains};
ghost use Rattle.ips_action.specs.Attrs.{is_same};
ghost use Rattle.std.specs.List.Sorted.{IsStrictlySortedBy};
ghost use Rattle.ips_index.specs.Rows.{IndexedValue, row_cmp};
ghost use Rattle.ips_index.specs.Entries.{listed_at};

use crate::entry::Entry;
use std::alloc::{AllocError, Global};
use std::collections::{BTreeMap, BTreeSet};

/// The rows of each stem.
pub(crate) type Stems = BTreeMap<String, Vec<Entry>>;

/// The rows that don't stand in the set.
pub(crate) fn absent(
    alloc: Global,
    set: &BTreeSet<Entry>,
    rows: &[Entry],
) -> Result<Vec<Entry>, AllocError>
    ensures { IfOk result (λ found. (row : IndexedValue) → Contains found.items row ↔ (Contains rows.now row × (Contains set.now.keys row → ⊥))) }
{
    let mut found = Vec::new(alloc);
    for row in rows {
        if !set.contains(row) {
            found.push(row.share()?)?;
        }
    }
    Ok(found)
}

/// Adds the rows, which others keep. Where memory runs out, some of them.
pub(crate) fn add_all(set: &mut BTreeSet<Entry>, rows: &[Entry]) -> Result<(), AllocError>
    ensures all { OnOk result ((row : IndexedValue) → Contains rows.now row → Contains set.new.keys row) }
    ensures old { (row : IndexedValue) → Contains set.old.keys row → Contains set.new.keys row }
    ensures only { (row : IndexedValue) → Contains set.new.keys row → Contains set.old.keys row ⊎ Contains rows.now row }
    ensures order { IsStrictlySortedBy row_cmp set.old.keys → IsStrictlySortedBy row_cmp set.new.keys }
{
    for row in rows {
        set.insert(row.share()?)?;
    }
    Ok(())
}

/// Adds rows. Where memory runs out, some of them.
pub(crate) fn insert_all(set: &mut BTreeSet<Entry>, rows: Vec<Entry>) -> Result<(), AllocError>
    ensures all { OnOk result ((row : IndexedValue) → Contains rows.items row → Contains set.new.keys row) }
    ensures old { (row : IndexedValue) → Contains set.old.keys row → Contains set.new.keys row }
    ensures only { (row : IndexedValue) → Contains set.new.keys row → Contains set.old.keys row ⊎ Contains rows.items row }
    ensures order { IsStrictlySortedBy row_cmp set.old.keys → IsStrictlySortedBy row_cmp set.new.keys }
{
    let mut left = rows;
    while let Some(row) = left.pop() {
        set.insert(row)?;
    }
    Ok(())
}

/// Takes rows away.
pub(crate) fn remove_all(set: &mut BTreeSet<Entry>, rows: &[Entry])
    ensures rows { (row : IndexedValue) → Contains set.new.keys row ↔ (Contains set.old.keys row × (Contains rows.now row → ⊥)) }
    ensures order { IsStrictlySortedBy row_cmp set.old.keys → IsStrictlySortedBy row_cmp set.new.keys }
{
    for row in rows {
        set.remove(row);
    }
}

/// Another set of the rows.
pub(crate) fn copied_set(
    alloc: Global,
    rows: &BTreeSet<Entry>,
) -> Result<BTreeSet<Entry>, AllocError>
    ensures { IfOk result (λ copies. copies.keys ≡ rows.now.keys) }
{
    let mut copies = BTreeSet::new(alloc);
    for row in rows {
        copies.insert(row.share()?)?;
    }
    Ok(copies)
}

/// The rows, by their stems.
pub(crate) fn by_stem(alloc: Global, rows: &BTreeSet<Entry>) -> Result<Stems, AllocError>
    ensures { IfOk result (λ stems. (stem : List ℕ) (row : IndexedValue) → Contains (listed_at stems stem) row ↔ (Contains rows.now.keys row × (row.stem ≡ stem))) }
{
    let mut stems = BTreeMap::new(alloc);
    for row in rows {
        add(alloc, &mut stems, row.share()?)?;
    }
    Ok(stems)
}

// Adds a row to those of its stem.
fn add(alloc: Global, stems: &mut Stems, row: Entry) -> Result<(), AllocError>
    ensures { OnOk result ((stem : List ℕ) → listed_at stems.new stem ≡ (if is_same row.stem stem then listed_at stems.old stem ++ row ∷ [] else listed_at stems.old stem)) }
{
    let stem = String::from_str(alloc, row.stem())?;
    let mut rows = taken(alloc, stems, stem.as_str());
    rows.push(row)?;
    stems.insert(stem, rows)?;
    Ok(())
}

// Takes the rows of a stem away, and gives them.
fn taken(alloc: Global, stems: &mut Stems, stem: &str) -> Vec<Entry>
    ensures rows { result.items ≡ listed_at stems.old stem.now }
    ensures others { (q : List ℕ) → is_same stem.now q ≡ false → listed_at stems.new q ≡ listed_at stems.old q }
{
    match stems.remove(stem) {
        Some(rows) => rows,
        None => Vec::new(alloc),
    }
}
