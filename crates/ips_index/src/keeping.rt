//! The rows of an index, and the same by their stems.

ghost use Rattle.std.specs.Prelude.{◌≡◌, ◌⊎◌, ◌↔◌, List, ℕ, false, IfOk, OnOk, OnErr, Contains};
ghost use Rattle.std.specs.List.Sorted.{IsStrictlySortedBy};
ghost use Rattle.ips_action.specs.Attrs.{is_same};
ghost use Rattle.ips_index.specs.Rows.{IndexedValue, row_cmp};
ghost use Rattle.ips_index.specs.Scan.{IsDropped, IsPut};
ghost use Rattle.ips_index.specs.Entries.{IsKept, AreOf, listed_at};

use crate::entry::Entry;
use crate::sets::{Stems, absent, add_all, remove_all};
use std::alloc::{AllocError, Global};
use std::collections::BTreeSet;

/// Takes the rows of the stem away.
pub(crate) fn drop_rows(rows: &mut BTreeSet<Entry>, stems: &mut Stems, stem: &str)
    requires kept { IsKept rows.old stems.old }
    ensures kept { IsKept rows.new stems.new }
    ensures dropped { IsDropped stem.now rows.old.keys rows.new.keys }
{
    if let Some(list) = stems.remove(stem) {
        remove_all(rows, &list);
    }
}

/// Replaces the rows of the stem by these. Where memory runs out, all is as before.
pub(crate) fn put_rows(
    alloc: Global,
    rows: &mut BTreeSet<Entry>,
    stems: &mut Stems,
    stem: &str,
    list: Vec<Entry>,
) -> Result<(), AllocError>
    requires kept { IsKept rows.old stems.old }
    requires list { AreOf stem.now list.items }
    ensures kept { IsKept rows.new stems.new }
    ensures put { OnOk result (IsPut stem.now list.items rows.old.keys rows.new.keys) }
    ensures same { OnErr result (rows.new.keys ≡ rows.old.keys) }
{
    let fresh = absent(alloc, rows, &list)?;
    let gone = gone_rows(alloc, stems, stem, &list)?;
    match enter(alloc, rows, stems, stem, &fresh, list) {
        Ok(()) => {
            remove_all(rows, &gone);
            Ok(())
        }
        Err(refused) => {
            remove_all(rows, &fresh);
            Err(refused)
        }
    }
}

// The rows of the stem that aren't among these.
fn gone_rows(
    alloc: Global,
    stems: &Stems,
    stem: &str,
    list: &[Entry],
) -> Result<Vec<Entry>, AllocError>
    ensures { IfOk result (λ gone. (row : IndexedValue) → Contains gone.items row ↔ (Contains (listed_at stems.now stem.now) row × (Contains list.now row → ⊥))) }
{
    let Some(old) = stems.get(stem) else {
        return Ok(Vec::new(alloc));
    };
    let mut staying = BTreeSet::new(alloc);
    add_all(&mut staying, list)?;
    absent(alloc, &staying, old)
}

// Adds the fresh rows, and lists those of the stem. Where memory runs out, some fresh rows stand, and nothing else changed.
fn enter(
    alloc: Global,
    rows: &mut BTreeSet<Entry>,
    stems: &mut Stems,
    stem: &str,
    fresh: &[Entry],
    list: Vec<Entry>,
) -> Result<(), AllocError>
    ensures all { OnOk result ((row : IndexedValue) → Contains fresh.now row → Contains rows.new.keys row) }
    ensures old { (row : IndexedValue) → Contains rows.old.keys row → Contains rows.new.keys row }
    ensures only { (row : IndexedValue) → Contains rows.new.keys row → Contains rows.old.keys row ⊎ Contains fresh.now row }
    ensures order { IsStrictlySortedBy row_cmp rows.old.keys → IsStrictlySortedBy row_cmp rows.new.keys }
    ensures listed { OnOk result (listed_at stems.new stem.now ≡ list.items) }
    ensures others { (q : List ℕ) → is_same stem.now q ≡ false → listed_at stems.new q ≡ listed_at stems.old q }
    ensures same { OnErr result ((q : List ℕ) → listed_at stems.new q ≡ listed_at stems.old q) }
{
    let key = String::from_str(alloc, stem)?;
    add_all(rows, fresh)?;
    stems.insert(key, list)?;
    Ok(())
}
