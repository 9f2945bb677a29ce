//! The hard links of files that are laid.

ghost use Rattle.std.specs.Prelude.{◌≡◌, ℕ, ◌||◌, IfOk, List, length, map};
ghost use Rattle.std.specs.List.Sorted.{IsStrictlySortedBy};
ghost use Rattle.std.specs.Option.{option_map};
ghost use Rattle.std.specs.Ordering.{nat_cmp};
ghost use Rattle.std.specs.Cmp.Lexicographic.{slice_cmp};
ghost use Rattle.ips_outside.specs.Image.{Image};
ghost use Rattle.ips_after.specs.Change as changes;
ghost use Rattle.ips_after.specs.Repaired.{IsRepair, Repair, is_relaid, mended, relinked_as};
ghost use Rattle.ips_change.specs.wanted.Wanted.{wanted_of};
ghost use Rattle.ips_change.specs.Fitting.{Fits};
ghost use Rattle.ips_change.specs.Told.{change_told};
ghost use Rattle.ips_change.specs.survey.Marks.{IsMarkOf, row_paths};
ghost use Rattle.ips_change.specs.survey.Rows.{row_pair};
ghost use Rattle.ips_links.specs.Fitting.{AllFit};
ghost use Rattle.ips_links.specs.Leading.{linked_by};
ghost use Rattle.ips_mend.specs.mended.Mending.{AreRowsFor, IsRowFor, lacks};

use ips_change::Change;
use ips_change::survey::{Row, is_marked};
use ips_links::makes;
use ips_meaning::Entry;
use std::alloc::{AllocError, Global};

/// What becomes of each row's path, where this does by its own finding, with the files that are lacking, as these marks say, and the hard links
/// of files that are laid.
pub(crate) fn relinked<'a>(
    alloc: Global,
    rows: &[Row<'a>],
    own: &[Change<'a>],
    lacking: &[bool],
) -> Result<Vec<Change<'a>>, AllocError>
    requires order { IsStrictlySortedBy (slice_cmp nat_cmp) (row_paths rows.now) }
    requires own { length own.now ≡ length rows.now }
    requires lacking { length lacking.now ≡ length rows.now }
    ensures long { IfOk result (λ changes. length changes.items ≡ length rows.now) }
    ensures told { IfOk result (λ changes. (f : Repair) (t : Image) → IsRepair f → AreRowsFor f.want rows.now
        → map (change_told f.bytes) own.now ≡ map (mended f t) (row_paths rows.now) → lacking.now ≡ map (lacks f t) (row_paths rows.now)
        → map (change_told f.bytes) changes.items ≡ map (λ p. relinked_as f t p (f.want.at p)) (row_paths rows.now)) }
    ensures fits { IfOk result (λ changes. AllFit Fits rows.now own.now → AllFit Fits rows.now changes.items) }
{
    let relaid = relaid(alloc, rows, own, lacking)?;
    let mut changes = Vec::with_capacity(alloc, rows.len())?;
    for i in 0..rows.len() {
        changes.push(relinked_at(&rows[i], own[i], lacking[i], rows, &relaid))?;
    }
    Ok(changes)
}

// At each row whether a file is laid at its path, by its own finding or because one is lacking.
fn relaid(
    alloc: Global,
    rows: &[Row<'_>],
    own: &[Change<'_>],
    lacking: &[bool],
) -> Result<Vec<bool>, AllocError>
    requires own { length own.now ≡ length rows.now }
    requires lacking { length lacking.now ≡ length rows.now }
    ensures long { IfOk result (λ marks. length marks.items ≡ length rows.now) }
    ensures marks { IfOk result (λ marks. (f : Repair) (t : Image) → IsRepair f → AreRowsFor f.want rows.now
        → map (change_told f.bytes) own.now ≡ map (mended f t) (row_paths rows.now) → lacking.now ≡ map (lacks f t) (row_paths rows.now)
        → IsMarkOf (is_relaid f t) (row_paths rows.now) marks.items) }
{
    let mut marks = Vec::with_capacity(alloc, rows.len())?;
    for i in 0..rows.len() {
        marks.push(is_laid(lacking[i], own[i]))?;
    }
    Ok(marks)
}

// Whether a file is laid, because one is lacking or by this.
fn is_laid(lacking: bool, own: Change<'_>) -> bool
    ensures { (bytes : List ℕ → List ℕ) → result ≡ (lacking || changes.makes (change_told bytes own.entry)) }
{
    lacking || makes(own)
}

// What becomes of the row's path, where this does by its own finding, by whether it lacks a file and the marks of files that are laid.
fn relinked_at<'a>(
    row: &Row<'a>,
    own: Change<'a>,
    lacking: bool,
    rows: &[Row<'_>],
    relaid: &[bool],
) -> Change<'a>
    requires order { IsStrictlySortedBy (slice_cmp nat_cmp) (row_paths rows.now) }
    requires relaid { length relaid.now ≡ length rows.now }
    ensures told { (f : Repair) (t : Image) → IsRowFor f.want row.now → change_told f.bytes own.entry ≡ mended f t row.now.path.now.bytes → lacking ≡ lacks f t row.now.path.now.bytes
        → IsMarkOf (is_relaid f t) (row_paths rows.now) relaid.now → change_told f.bytes result ≡ relinked_as f t row.now.path.now.bytes (f.want.at row.now.path.now.bytes) }
    ensures fits { Fits (row_pair row.now).wanted own.entry → Fits (row_pair row.now).wanted result }
{
    let led = match row.new {
        Some(Entry::Hard { to }) => is_marked(rows, relaid, to.bytes()),
        _ => false,
    };
    relinked_by(row.new, own, lacking, led)
}

// What becomes of a path, where this does by its own finding, where it lacks a file or not, and where the file that its own hard link leads
// to is laid or not.
fn relinked_by<'a>(
    new: Option<&'a Entry>,
    own: Change<'a>,
    lacking: bool,
    relaid: bool,
) -> Change<'a>
    ensures told { (bytes : List ℕ → List ℕ) → change_told bytes result ≡ linked_by bytes (option_map (λ x. wanted_of x.now) new.entry) (change_told bytes own.entry) lacking relaid }
    ensures fits { Fits (option_map (λ x. wanted_of x.now) new.entry) own.entry → Fits (option_map (λ x. wanted_of x.now) new.entry) result }
{
    match new {
        Some(Entry::File { payload, mode, .. }) if lacking => Change::File {
            payload,
            mode: *mode,
        },
        Some(Entry::Hard { to }) if relaid => Change::Hard { to },
        _ => own,
    }
}
