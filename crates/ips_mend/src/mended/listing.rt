//! What becomes of each wanted path by its own finding.

ghost use Rattle.std.specs.Prelude.{◌≡◌, IfOk, length, map};
ghost use Rattle.std.specs.List.{AllByRecursion};
ghost use Rattle.std.specs.List.Sorted.{IsStrictlySortedBy};
ghost use Rattle.std.specs.Ordering.{nat_cmp};
ghost use Rattle.std.specs.Option.{option_map};
ghost use Rattle.std.specs.Cmp.Lexicographic.{slice_cmp};
ghost use Rattle.ips_outside.specs.Image.{Image};
ghost use Rattle.ips_after.specs.Findings.{findings};
ghost use Rattle.ips_after.specs.Repaired.{Repair, mended};
ghost use Rattle.ips_change.specs.wanted.Wanted.{want_of};
ghost use Rattle.ips_change.specs.Fitting.{Fits};
ghost use Rattle.ips_change.specs.Told.{change_told};
ghost use Rattle.ips_change.specs.survey.Marks.{row_paths};
ghost use Rattle.ips_links.specs.Fitting.{AllFit};
ghost use Rattle.ips_verify.specs.Verified.{damage_told, finding_told};
ghost use Rattle.ips_mend.specs.mended.Mending.{AreRowsFor, IsRowFor};
ghost use Rattle.ips_mend.specs.mended.Merging.{damage_next, left_next};

use crate::mended::remedy::remedy;
use ips_change::content::is_same;
use ips_change::survey::Row;
use ips_change::{Change, Stands};
use ips_meaning::{Damage, Finding, Want};
use ips_text::RelPath;
use std::alloc::{AllocError, Global};

/// The wanted paths as rows, of which no one has asked what stands.
pub(crate) fn rows(alloc: Global, want: &Want) -> Result<Vec<Row<'_>>, AllocError>
    ensures order { IfOk result (λ rows. IsStrictlySortedBy (slice_cmp nat_cmp) (row_paths rows.items)) }
    ensures paths { IfOk result (λ rows. row_paths rows.items ≡ (want_of want.now).keys) }
    ensures entries { IfOk result (λ rows. AllByRecursion (IsRowFor (want_of want.now)) rows.items) }
{
    let mut rows = Vec::with_capacity(alloc, want.len())?;
    for i in 0..want.len() {
        let Some((path, entry)) = want.at(i) else {
            unreachable!();
        };
        rows.push(Row {
            path,
            old: None,
            new: Some(entry),
            stands: Stands::Unasked,
        })?;
    }
    Ok(rows)
}

/// What becomes of each row's path by what is found there, in one pass over both lists.
pub(crate) fn mended<'a>(
    alloc: Global,
    rows: &[Row<'a>],
    found: &[Finding],
) -> Result<Vec<Change<'a>>, AllocError>
    requires order { IsStrictlySortedBy (slice_cmp nat_cmp) (row_paths rows.now) }
    ensures long { IfOk result (λ own. length own.items ≡ length rows.now) }
    ensures told { IfOk result (λ own. (f : Repair) (t : Image) → AreRowsFor f.want rows.now → map finding_told found.now ≡ findings f.holds f.want t
        → map (change_told f.bytes) own.items ≡ map (mended f t) (row_paths rows.now)) }
    ensures fits { IfOk result (λ own. AllFit Fits rows.now own.items) }
{
    let mut own = Vec::with_capacity(alloc, rows.len())?;
    let mut left = found;
    for i in 0..rows.len() {
        let row = &rows[i];
        let (damage, rest) = next(row.path, left);
        own.push(remedy(row.new, damage))?;
        left = rest;
    }
    Ok(own)
}

// What is found at the path, if that comes first, and the findings that are left.
fn next<'a>(path: &RelPath, left: &'a [Finding]) -> (Option<Damage>, &'a [Finding])
    ensures damage { option_map damage_told result.0 ≡ damage_next path.now.bytes (map finding_told left.now) }
    ensures left { map finding_told result.1.now ≡ left_next path.now.bytes (map finding_told left.now) }
{
    match left.split_first() {
        Some((first, rest)) if is_same(first.path.bytes(), path.bytes()) => (
            Some(first.damage),
            rest,
        ),
        _ => (None, left),
    }
}
