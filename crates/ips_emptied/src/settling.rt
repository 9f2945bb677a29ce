//! Where something goes or is made, with what account files and records say.

ghost use Rattle.std.specs.Prelude.{◌≡◌, ℕ, IfOk, List, length, map};
ghost use Rattle.ips_outside.specs.Image.{Image};
ghost use Rattle.ips_after.specs.After as after;
ghost use Rattle.ips_after.specs.Change as outcome;
ghost use Rattle.ips_after.specs.Request.{IsRequest, Request};
ghost use Rattle.ips_change.specs.Told.{change_told, naming};
ghost use Rattle.ips_change.specs.survey.Marks.{IsMarkOf, row_paths};
ghost use Rattle.ips_change.specs.survey.Tables.{IsTable};
ghost use Rattle.ips_emptied.specs.Settling.{makes_by, replaces_by};

use ips_change::Change;
use ips_change::survey::{Said, Table};
use ips_links::makes;
use std::alloc::{AllocError, Global};

/// The marks of the rows at which what stands goes or is replaced, by what becomes of each with the directories that are made for what is
/// below, or by what account files and records say.
pub(crate) fn replaced(
    alloc: Global,
    table: &Table<'_>,
    changes: &[Change<'_>],
) -> Result<Vec<bool>, AllocError>
    requires said { length table.now.said.items ≡ length table.now.rows.items }
    requires changes { length changes.now ≡ length table.now.rows.items }
    ensures long { IfOk result (λ marks. length marks.items ≡ length table.now.rows.items) }
    ensures marks { IfOk result (λ marks. (r : Request) (t : Image) → IsRequest r → IsTable r table.now.rows.items table.now.said.items
        → map (change_told r.bytes) changes.now ≡ map (after.supported (naming r) t) (row_paths table.now.rows.items)
        → IsMarkOf (λ q. outcome.replaces (after.change_settled (naming r) t q)) (row_paths table.now.rows.items) marks.items) }
{
    let mut marks = Vec::with_capacity(alloc, table.rows.len())?;
    for i in 0..table.rows.len() {
        marks.push(is_replaced(changes[i], table.said[i]))?;
    }
    Ok(marks)
}

/// The marks of the rows at which something is made, by the same.
pub(crate) fn made(
    alloc: Global,
    table: &Table<'_>,
    changes: &[Change<'_>],
) -> Result<Vec<bool>, AllocError>
    requires said { length table.now.said.items ≡ length table.now.rows.items }
    requires changes { length changes.now ≡ length table.now.rows.items }
    ensures long { IfOk result (λ marks. length marks.items ≡ length table.now.rows.items) }
    ensures marks { IfOk result (λ marks. (r : Request) (t : Image) → IsRequest r → IsTable r table.now.rows.items table.now.said.items
        → map (change_told r.bytes) changes.now ≡ map (after.supported (naming r) t) (row_paths table.now.rows.items)
        → IsMarkOf (λ q. outcome.makes (after.change_settled (naming r) t q)) (row_paths table.now.rows.items) marks.items) }
{
    let mut marks = Vec::with_capacity(alloc, table.rows.len())?;
    for i in 0..table.rows.len() {
        marks.push(is_made(changes[i], table.said[i]))?;
    }
    Ok(marks)
}

// Whether what stands goes or is replaced at a path of which this is said, or else becomes.
fn is_replaced(change: Change<'_>, said: Option<Said>) -> bool
    ensures { (bytes : List ℕ → List ℕ) → result ≡ replaces_by said (change_told bytes change.entry) }
{
    said.is_some() || !matches!(change, Change::Kept | Change::Mode { .. })
}

// Whether something is made at a path of which this is said, or else becomes.
fn is_made(change: Change<'_>, said: Option<Said>) -> bool
    ensures { (bytes : List ℕ → List ℕ) → result ≡ makes_by said (change_told bytes change.entry) }
{
    match said {
        Some(Said::Lays) => true,
        Some(Said::Takes) => false,
        None => makes(change),
    }
}
