//! The paths at which something is made.

ghost use Rattle.std.specs.Prelude.{◌≡◌, ℕ, ◌||◌, IfOk, List, length, map};
ghost use Rattle.ips_outside.specs.Image.{Image};
ghost use Rattle.ips_after.specs.After as after;
ghost use Rattle.ips_after.specs.Change as changes;
ghost use Rattle.ips_after.specs.Request.{IsRequest, Request};
ghost use Rattle.ips_change.specs.Told.{change_told, naming};
ghost use Rattle.ips_change.specs.survey.Marks.{IsMarkOf, holds_below, row_paths};
ghost use Rattle.ips_change.specs.survey.Said.{says_laid};
ghost use Rattle.ips_change.specs.survey.Tables.{IsTable};
ghost use Rattle.ips_links.specs.Made as spec;

use crate::asking::{lays, makes};
use ips_change::Change;
use ips_change::survey::{Said, Table};
use std::alloc::{AllocError, Global};

/// The marks of the rows at which something is made, by what becomes of each with hard links, or as an account file or a record. What is made
/// below a path is what is so marked below it.
pub fn made(
    alloc: Global,
    table: &Table<'_>,
    changes: &[Change<'_>],
) -> Result<Vec<bool>, AllocError>
    requires said { length table.now.said.items ≡ length table.now.rows.items }
    requires changes { length changes.now ≡ length table.now.rows.items }
    ensures long { IfOk result (λ made. length made.items ≡ length table.now.rows.items) }
    ensures marks { IfOk result (λ made. (r : Request) (t : Image) → IsRequest r → IsTable r table.now.rows.items table.now.said.items
        → map (change_told r.bytes) changes.now ≡ map (after.linked (naming r) t) (row_paths table.now.rows.items)
        → IsMarkOf (spec.is_made r t) (row_paths table.now.rows.items) made.items) }
    ensures below { (r : Request) (t : Image) (p : List ℕ) → IsRequest r → IsTable r table.now.rows.items table.now.said.items
        → holds_below (spec.is_made r t) (row_paths table.now.rows.items) p ≡ after.holds_made (naming r) t p }
{
    let mut made = Vec::with_capacity(alloc, table.rows.len())?;
    for i in 0..table.rows.len() {
        made.push(is_made(changes[i], table.said[i]))?;
    }
    Ok(made)
}

// Whether something is made at a path of which this becomes, or it is laid as an account file or a record.
fn is_made(change: Change<'_>, said: Option<Said>) -> bool
    ensures { (bytes : List ℕ → List ℕ) → result ≡ (changes.makes (change_told bytes change.entry) || says_laid said) }
{
    makes(change) || lays(said)
}
