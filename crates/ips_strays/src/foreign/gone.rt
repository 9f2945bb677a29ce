//! Where something goes.

ghost use Rattle.std.specs.Prelude.{◌≡◌, ◌||◌, ℕ, IfOk, List, length, map};
ghost use Rattle.std.specs.List.Sorted.{IsStrictlySortedBy};
ghost use Rattle.std.specs.Ordering.{nat_cmp};
ghost use Rattle.std.specs.Cmp.Lexicographic.{slice_cmp};
ghost use Rattle.ips_outside.specs.Image.{Image};
ghost use Rattle.ips_after.specs.After as after;
ghost use Rattle.ips_after.specs.Change as outcome;
ghost use Rattle.ips_after.specs.Request.{IsRequest, Request};
ghost use Rattle.ips_change.specs.Told.{change_told, naming};
ghost use Rattle.ips_change.specs.survey.Marks.{IsMarkOf, row_paths};
ghost use Rattle.ips_change.specs.survey.Tables.{IsTable};
ghost use Rattle.ips_emptied.specs.Emptying.{marked_in};
ghost use Rattle.ips_emptied.specs.Settling.{replaces_by};

use ips_change::Change;
use ips_change::survey::{Said, Table};
use std::alloc::{AllocError, Global};

/// The marks of the rows at which what stands goes or is replaced, by what becomes of each with the directories that are made for what is below,
/// by what account files and records say, and by the marks of the directories that are emptied.
pub(crate) fn marked_gone(
    alloc: Global,
    table: &Table<'_>,
    changes: &[Change<'_>],
    emptied: &[bool],
) -> Result<Vec<bool>, AllocError>
    requires order { IsStrictlySortedBy (slice_cmp nat_cmp) (row_paths table.now.rows.items) }
    requires said { length table.now.said.items ≡ length table.now.rows.items }
    requires changes { length changes.now ≡ length table.now.rows.items }
    requires emptied { length emptied.now ≡ length table.now.rows.items }
    ensures long { IfOk result (λ marks. length marks.items ≡ length table.now.rows.items) }
    ensures marks { IfOk result (λ marks. (r : Request) (t : Image) → IsRequest r → IsTable r table.now.rows.items table.now.said.items
        → map (change_told r.bytes) changes.now ≡ map (after.supported (naming r) t) (row_paths table.now.rows.items)
        → IsMarkOf (λ q. outcome.replaces (after.change_after (naming r) t (marked_in (row_paths table.now.rows.items) emptied.now) q)) (row_paths table.now.rows.items) marks.items) }
{
    let mut marks = Vec::with_capacity(alloc, table.rows.len())?;
    for i in 0..table.rows.len() {
        marks.push(goes(changes[i], table.said[i], emptied[i]))?;
    }
    Ok(marks)
}

// Whether what stands goes or is replaced at a path of which this is said, or else becomes, or whose directory is emptied.
fn goes(change: Change<'_>, said: Option<Said>, emptied: bool) -> bool
    ensures { (bytes : List ℕ → List ℕ) → result ≡ (emptied || replaces_by said (change_told bytes change.entry)) }
{
    emptied || said.is_some() || !matches!(change, Change::Kept | Change::Mode { .. })
}
