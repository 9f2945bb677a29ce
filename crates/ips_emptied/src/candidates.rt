//! The directories that may be emptied, as far as rows know.

ghost use Rattle.std.specs.Prelude.{◌≡◌, ◌&&◌, not, IfOk, length, map, is_none};
ghost use Rattle.std.specs.Option.{option_map};
ghost use Rattle.std.specs.List.Sorted.{IsStrictlySortedBy};
ghost use Rattle.std.specs.Ordering.{nat_cmp};
ghost use Rattle.std.specs.Cmp.Lexicographic.{slice_cmp};
ghost use Rattle.ips_outside.specs.Image.{Image};
ghost use Rattle.ips_after.specs.After as after;
ghost use Rattle.ips_after.specs.Change.{makes};
ghost use Rattle.ips_after.specs.Request.{IsRequest, Request};
ghost use Rattle.ips_change.specs.wanted.Wanted.{wanted_of};
ghost use Rattle.ips_change.specs.Told.{change_told, naming};
ghost use Rattle.ips_change.specs.survey.Marks.{holds_below, row_paths};
ghost use Rattle.ips_change.specs.survey.Tables.{IsTable};
ghost use Rattle.ips_emptied.specs.Emptying.{is_candidate};

use crate::settling::made;
use ips_change::Change;
use ips_change::survey::{Row, Said, Table, marked_below};
use ips_meaning::Entry;
use std::alloc::{AllocError, Global};

/// At each row whether its directory may be emptied, as far as rows know: nothing is made there or below, by what becomes of each path with the
/// directories that are made for what is below, and it was wanted without a stated mode and is no longer.
pub(crate) fn candidates(
    alloc: Global,
    table: &Table<'_>,
    changes: &[Change<'_>],
    supports: &[bool],
) -> Result<Vec<bool>, AllocError>
    requires order { IsStrictlySortedBy (slice_cmp nat_cmp) (row_paths table.now.rows.items) }
    requires said { length table.now.said.items ≡ length table.now.rows.items }
    requires changes { length changes.now ≡ length table.now.rows.items }
    requires supports { length supports.now ≡ length table.now.rows.items }
    ensures long { IfOk result (λ candidates. length candidates.items ≡ length table.now.rows.items) }
    ensures told { IfOk result (λ candidates. (r : Request) (t : Image) → IsRequest r → IsTable r table.now.rows.items table.now.said.items
        → map (change_told r.bytes) changes.now ≡ map (after.supported (naming r) t) (row_paths table.now.rows.items)
        → supports.now ≡ map (after.is_support (naming r) t) (row_paths table.now.rows.items)
        → candidates.items ≡ map (is_candidate (naming r) t (row_paths table.now.rows.items)) (row_paths table.now.rows.items)) }
{
    let below = made_below(alloc, table, changes)?;
    let mut candidates = Vec::with_capacity(alloc, table.rows.len())?;
    for i in 0..table.rows.len() {
        candidates.push(may_empty(&table.rows[i], table.said[i], supports[i], below[i]))?;
    }
    Ok(candidates)
}

// At each row whether something is made below its path.
fn made_below(
    alloc: Global,
    table: &Table<'_>,
    changes: &[Change<'_>],
) -> Result<Vec<bool>, AllocError>
    requires order { IsStrictlySortedBy (slice_cmp nat_cmp) (row_paths table.now.rows.items) }
    requires said { length table.now.said.items ≡ length table.now.rows.items }
    requires changes { length changes.now ≡ length table.now.rows.items }
    ensures long { IfOk result (λ below. length below.items ≡ length table.now.rows.items) }
    ensures told { IfOk result (λ below. (r : Request) (t : Image) → IsRequest r → IsTable r table.now.rows.items table.now.said.items
        → map (change_told r.bytes) changes.now ≡ map (after.supported (naming r) t) (row_paths table.now.rows.items)
        → below.items ≡ map (holds_below (λ q. makes (after.change_settled (naming r) t q)) (row_paths table.now.rows.items)) (row_paths table.now.rows.items)) }
{
    let made = made(alloc, table, changes)?;
    marked_below(alloc, &table.rows, &made)
}

// Whether a directory may be emptied at the row's path, where this is said, and where it is made for what is below or not, and something is
// made below or not.
fn may_empty(row: &Row<'_>, said: Option<Said>, support: bool, below: bool) -> bool
    ensures { result ≡ (after.unstated (option_map (λ x. wanted_of x.now) row.now.old) && (is_none row.now.new && (is_none said && (not support && not below)))) }
{
    is_unstated(row.old) && row.new.is_none() && said.is_none() && !support && !below
}

// Whether a directory was wanted without a stated mode.
fn is_unstated(old: Option<&Entry>) -> bool
    ensures { result ≡ after.unstated (option_map (λ x. wanted_of x.now) old.entry) }
{
    match old {
        Some(Entry::Dir { mode }) => mode.is_none(),
        _ => false,
    }
}
