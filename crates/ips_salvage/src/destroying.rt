//! Where something is destroyed.

ghost use Rattle.std.specs.Prelude.{◌≡◌, true, ◌||◌, IfOk, length, map};
ghost use Rattle.std.specs.List.{AllByRecursion};
ghost use Rattle.ips_text.specs.Ancestry as ancestry;
ghost use Rattle.ips_outside.specs.Image.{Image};
ghost use Rattle.ips_steps.specs.Private.{records_name};
ghost use Rattle.ips_after.specs.After as after;
ghost use Rattle.ips_after.specs.Change as changes;
ghost use Rattle.ips_after.specs.Request.{IsRequest, Request};
ghost use Rattle.ips_change.specs.Told.{change_told, naming};
ghost use Rattle.ips_change.specs.survey.Rows.{HasLooked, IsRowOf};
ghost use Rattle.ips_change.specs.survey.Marks.{IsMarkOf, row_paths};
ghost use Rattle.ips_change.specs.survey.Tables.{IsTable};
ghost use Rattle.ips_salvage.specs.Destroying.{destroys_else, needs_no_salvage};

use ips_change::survey::{Row, Table};
use ips_change::{Change, Stands, given_up, saved};
use ips_links::makes;
use ips_text::covers;
use std::alloc::{AllocError, Global};

/// The marks of the rows at which something is destroyed other than a file that is given up, by what becomes of each with the directories that
/// are made for what is below. What isn't given up goes with something destroyed just where it goes with what is so marked.
pub fn destroyed(
    alloc: Global,
    table: &Table<'_>,
    changes: &[Change<'_>],
) -> Result<Vec<bool>, AllocError>
    requires changes { length changes.now ≡ length table.now.rows.items }
    ensures long { IfOk result (λ marks. length marks.items ≡ length table.now.rows.items) }
    ensures marks { IfOk result (λ marks. (r : Request) (t : Image) → IsRequest r → IsTable r table.now.rows.items table.now.said.items → AllByRecursion (HasLooked t) table.now.rows.items
        → map (change_told r.bytes) changes.now ≡ map (after.supported (naming r) t) (row_paths table.now.rows.items)
        → IsMarkOf (destroys_else (naming r) t) (row_paths table.now.rows.items) marks.items) }
{
    let mut marks = Vec::with_capacity(alloc, table.rows.len())?;
    for i in 0..table.rows.len() {
        marks.push(is_destroyed(&table.rows[i], changes[i]))?;
    }
    Ok(marks)
}

// Whether something is destroyed at the row's path, of which this becomes, other than a file that is given up.
fn is_destroyed(row: &Row<'_>, change: Change<'_>) -> bool
    ensures { (r : Request) (t : Image) → IsRowOf r row.now → HasLooked t row.now → change_told r.bytes change.entry ≡ after.supported (naming r) t row.now.path.now.bytes
        → result ≡ destroys_else (naming r) t row.now.path.now.bytes }
{
    if !makes(change) {
        return false;
    }
    !is_of_records(row.path.bytes()) && !is_spared(row)
}

// Whether the path is that of the folder of the records, or below it.
#[tactic(auto, unfolding(ips_steps::specs::Private::records_name))]
fn is_of_records(path: &[u8]) -> bool
    ensures { result ≡ ancestry.covers records_name path.now }
{
    covers(b"var/pkg", path)
}

// Whether what stands at the row's path, where something is made, needn't be salvaged, or is a file that is given up.
fn is_spared(row: &Row<'_>) -> bool
    ensures { (r : Request) (t : Image) → IsRowOf r row.now → HasLooked t row.now → changes.makes (after.supported (naming r) t row.now.path.now.bytes) ≡ true
        → result ≡ needs_no_salvage (naming r) t row.now.path.now.bytes }
{
    match row.stands {
        Stands::File { .. } => {
            given_up(row.old, row.stands) || saved(row.old, row.new, row.stands)
        }
        _ => false,
    }
}
