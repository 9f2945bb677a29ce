//! What becomes of a path with the directories that are made for what is below them.

ghost use Rattle.std.specs.Prelude.{◌≡◌, ℕ, IfOk, List, length, map};
ghost use Rattle.std.specs.List.{AllByRecursion};
ghost use Rattle.std.specs.Option.{option_map};
ghost use Rattle.ips_outside.specs.Image.{Image};
ghost use Rattle.ips_after.specs.After as after;
ghost use Rattle.ips_after.specs.Request.{Request};
ghost use Rattle.ips_change.specs.wanted.Wanted.{wanted_of};
ghost use Rattle.ips_change.specs.Fitting.{Fits};
ghost use Rattle.ips_change.specs.Told.{change_told, naming};
ghost use Rattle.ips_change.specs.survey.Rows.{IsRowOf, row_pair};
ghost use Rattle.ips_change.specs.survey.Marks.{row_paths};
ghost use Rattle.ips_links.specs.Fitting.{AllFit, FitsSupported};
ghost use Rattle.ips_links.specs.Supporting.{supported_by};

use ips_change::Change;
use ips_change::survey::{Row, Table};
use ips_meaning::Entry;
use std::alloc::{AllocError, Global};

/// What becomes of each row's path, where these do with hard links, and where a directory is made for what is made below, as the marks say.
pub fn supported<'a>(
    alloc: Global,
    table: &Table<'a>,
    linked: &[Change<'a>],
    supports: &[bool],
) -> Result<Vec<Change<'a>>, AllocError>
    requires linked { length linked.now ≡ length table.now.rows.items }
    requires supports { length supports.now ≡ length table.now.rows.items }
    ensures long { IfOk result (λ changes. length changes.items ≡ length table.now.rows.items) }
    ensures told { IfOk result (λ changes. (r : Request) (t : Image) → AllByRecursion (IsRowOf r) table.now.rows.items
        → map (change_told r.bytes) linked.now ≡ map (after.linked (naming r) t) (row_paths table.now.rows.items)
        → supports.now ≡ map (after.is_support (naming r) t) (row_paths table.now.rows.items)
        → map (change_told r.bytes) changes.items ≡ map (after.supported (naming r) t) (row_paths table.now.rows.items)) }
    ensures fits { IfOk result (λ changes. AllFit Fits table.now.rows.items linked.now → AllFit FitsSupported table.now.rows.items changes.items) }
{
    let mut changes = Vec::with_capacity(alloc, table.rows.len())?;
    for i in 0..table.rows.len() {
        changes.push(supported_at(&table.rows[i], linked[i], supports[i]))?;
    }
    Ok(changes)
}

/// What becomes of the row's path, where this does with hard links, and where a directory is made for what is made below or not.
pub fn supported_at<'a>(row: &Row<'a>, linked: Change<'a>, support: bool) -> Change<'a>
    ensures told { (r : Request) (t : Image) → IsRowOf r row.now → change_told r.bytes linked.entry ≡ after.linked (naming r) t row.now.path.now.bytes → support ≡ after.is_support (naming r) t row.now.path.now.bytes
        → change_told r.bytes result ≡ after.supported (naming r) t row.now.path.now.bytes }
    ensures fits { Fits (row_pair row.now).wanted linked.entry → FitsSupported (row_pair row.now).wanted result }
{
    with_support(row.new, linked, support)
}

// What becomes of a path, where this does without, and where a directory is made for what is below or not.
fn with_support<'a>(new: Option<&Entry>, linked: Change<'a>, support: bool) -> Change<'a>
    ensures told { (bytes : List ℕ → List ℕ) → change_told bytes result ≡ supported_by (option_map (λ x. wanted_of x.now) new.entry) (change_told bytes linked.entry) support }
    ensures fits { Fits (option_map (λ x. wanted_of x.now) new.entry) linked.entry → FitsSupported (option_map (λ x. wanted_of x.now) new.entry) result }
{
    if !support {
        return linked;
    }
    match new {
        Some(Entry::Dir { mode }) => Change::Dir {
            mode: mode.unwrap_or(0o755),
        },
        Some(_) => linked,
        None => Change::Dir { mode: 0o755 },
    }
}
