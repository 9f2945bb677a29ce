//! What becomes of each path with hard links and the files that they need.

ghost use Rattle.std.specs.Prelude.{◌≡◌, ℕ, ◌||◌, IfOk, List, length, map};
ghost use Rattle.std.specs.List.{AllByRecursion};
ghost use Rattle.std.specs.List.Sorted.{IsStrictlySortedBy};
ghost use Rattle.std.specs.Option.{option_map};
ghost use Rattle.std.specs.Ordering.{nat_cmp};
ghost use Rattle.std.specs.Cmp.Lexicographic.{slice_cmp};
ghost use Rattle.ips_outside.specs.Image.{Image};
ghost use Rattle.ips_after.specs.After as after;
ghost use Rattle.ips_after.specs.Change as changes;
ghost use Rattle.ips_after.specs.Request.{IsRequest, Request};
ghost use Rattle.ips_change.specs.wanted.Wanted.{wanted_of};
ghost use Rattle.ips_change.specs.Fitting.{Fits};
ghost use Rattle.ips_change.specs.Told.{change_told, naming};
ghost use Rattle.ips_change.specs.survey.Rows.{HasLooked, IsRowOf, row_pair};
ghost use Rattle.ips_change.specs.survey.Marks.{IsMarkOf, row_paths};
ghost use Rattle.ips_change.specs.survey.Said.{says_laid};
ghost use Rattle.ips_change.specs.survey.Tables.{IsTable};
ghost use Rattle.ips_links.specs.Fitting.{AllFit};
ghost use Rattle.ips_links.specs.Leading.{linked_by};

use crate::asking::{lays, lead, makes};
use ips_change::Change;
use ips_change::survey::{Row, Said, Table, is_marked};
use ips_meaning::Entry;
use std::alloc::{AllocError, Global};

/// What becomes of each row's path, with the files that hard links need, as these marks say, and the hard links of files that are laid.
pub fn links<'a>(
    alloc: Global,
    table: &Table<'a>,
    needs: &[bool],
) -> Result<Vec<Change<'a>>, AllocError>
    requires order { IsStrictlySortedBy (slice_cmp nat_cmp) (row_paths table.now.rows.items) }
    requires said { length table.now.said.items ≡ length table.now.rows.items }
    requires needs { length needs.now ≡ length table.now.rows.items }
    ensures long { IfOk result (λ changes. length changes.items ≡ length table.now.rows.items) }
    ensures told { IfOk result (λ changes. (r : Request) (t : Image) → IsRequest r → IsTable r table.now.rows.items table.now.said.items → AllByRecursion (HasLooked t) table.now.rows.items
        → needs.now ≡ map (after.needs_file (naming r) t) (row_paths table.now.rows.items)
        → map (change_told r.bytes) changes.items ≡ map (after.linked (naming r) t) (row_paths table.now.rows.items)) }
    ensures fits { IfOk result (λ changes. AllFit Fits table.now.rows.items changes.items) }
{
    let laid = laid(alloc, table, needs)?;
    let mut changes = Vec::with_capacity(alloc, table.rows.len())?;
    for i in 0..table.rows.len() {
        changes.push(linked_at(&table.rows[i], needs[i], &table.rows, &laid))?;
    }
    Ok(changes)
}

// At each row whether a file is laid at its path: as an account file, because a hard link needs it or by its own entry.
fn laid(alloc: Global, table: &Table<'_>, needs: &[bool]) -> Result<Vec<bool>, AllocError>
    requires said { length table.now.said.items ≡ length table.now.rows.items }
    requires needs { length needs.now ≡ length table.now.rows.items }
    ensures long { IfOk result (λ laid. length laid.items ≡ length table.now.rows.items) }
    ensures marks { IfOk result (λ laid. (r : Request) (t : Image) → IsRequest r → IsTable r table.now.rows.items table.now.said.items → AllByRecursion (HasLooked t) table.now.rows.items
        → needs.now ≡ map (after.needs_file (naming r) t) (row_paths table.now.rows.items)
        → IsMarkOf (after.has_laid (naming r) t) (row_paths table.now.rows.items) laid.items) }
{
    let mut laid = Vec::with_capacity(alloc, table.rows.len())?;
    for i in 0..table.rows.len() {
        laid.push(is_laid(table.said[i], needs[i], table.rows[i].itself()))?;
    }
    Ok(laid)
}

// Whether a file is laid: as an account file, because a hard link needs it or by what becomes of its path by itself.
fn is_laid(said: Option<Said>, needed: bool, own: Change<'_>) -> bool
    ensures { (bytes : List ℕ → List ℕ) → result ≡ (says_laid said || (needed || changes.makes (change_told bytes own.entry))) }
{
    lays(said) || needed || makes(own)
}

// What becomes of the row's path, by whether a hard link needs a file there and the marks of files that are laid.
fn linked_at<'a>(row: &Row<'a>, needed: bool, rows: &[Row<'_>], laid: &[bool]) -> Change<'a>
    requires order { IsStrictlySortedBy (slice_cmp nat_cmp) (row_paths rows.now) }
    requires laid { length laid.now ≡ length rows.now }
    ensures told { (r : Request) (t : Image) → IsRowOf r row.now → HasLooked t row.now → needed ≡ after.needs_file (naming r) t row.now.path.now.bytes → IsMarkOf (after.has_laid (naming r) t) (row_paths rows.now) laid.now
        → change_told r.bytes result ≡ after.linked (naming r) t row.now.path.now.bytes }
    ensures fits { Fits (row_pair row.now).wanted result }
{
    let led = match lead(row.new) {
        Some(to) => is_marked(rows, laid, to.bytes()),
        None => false,
    };
    linked(row.new, row.itself(), needed, led)
}

// What becomes of a path, where this does by itself, where a hard link needs a file there or not, and where the file that its own hard
// link leads to is laid or not.
fn linked<'a>(new: Option<&'a Entry>, own: Change<'a>, needed: bool, laid: bool) -> Change<'a>
    ensures told { (bytes : List ℕ → List ℕ) → change_told bytes result ≡ linked_by bytes (option_map (λ x. wanted_of x.now) new.entry) (change_told bytes own.entry) needed laid }
    ensures fits { Fits (option_map (λ x. wanted_of x.now) new.entry) own.entry → Fits (option_map (λ x. wanted_of x.now) new.entry) result }
{
    match new {
        Some(Entry::File { payload, mode, .. }) if needed => Change::File {
            payload,
            mode: *mode,
        },
        Some(Entry::Hard { to }) if laid => Change::Hard { to },
        _ => own,
    }
}
