//! What a repair makes of each wanted path.

ghost use Rattle.std.specs.Prelude.{◌≡◌, IsTrue, IfOk, length, map};
ghost use Rattle.std.specs.List.Sorted.{IsStrictlySortedBy};
ghost use Rattle.std.specs.Ordering.{nat_cmp};
ghost use Rattle.std.specs.Cmp.Lexicographic.{slice_cmp};
ghost use Rattle.ips_outside.specs.Outside.{Reads};
ghost use Rattle.ips_after.specs.Findings.{findings};
ghost use Rattle.ips_after.specs.Repaired as repaired;
ghost use Rattle.ips_after.specs.Repaired.{IsRepair, Repair, relinked_as};
ghost use Rattle.ips_change.specs.content.Failing.{HasFailed};
ghost use Rattle.ips_change.specs.wanted.Named.{is_payload_of};
ghost use Rattle.ips_change.specs.wanted.Wanted.{want_of};
ghost use Rattle.ips_change.specs.Told.{change_told};
ghost use Rattle.ips_verify.specs.Verified.{finding_told};
ghost use Rattle.ips_change.specs.Fitting.{Fits};
ghost use Rattle.ips_change.specs.survey.Marks.{row_paths};
ghost use Rattle.ips_links.specs.Fitting.{AllFit};
ghost use Rattle.ips_mend.specs.mended.Mending.{AllFitAt, AreRowsFor};

use crate::mended::lacking::lacking;
use crate::mended::listing::{mended, rows};
use crate::mended::relinking::relinked;
use ips_change::Change;
use ips_change::survey::Row;
use ips_meaning::{Finding, Want};
use ips_outside::{Failed, Source};
use ips_text::Or;
use std::alloc::Global;

/// What a repair makes of each wanted path, in their order, by these findings: a mode is given, all other damage is laid anew, and so are files
/// that a laid hard link needs and the hard links of files that are laid. It looks only at paths to which a hard link leads that is laid, and
/// where nothing is laid by a finding.
pub fn mend<'a, S: Source>(
    alloc: Global,
    source: &mut S,
    want: &'a Want,
    found: &[Finding],
) -> Result<Vec<Change<'a>>, Or<Failed>>
    ensures long { IfOk result (λ changes. length changes.items ≡ length want.now) }
    ensures told { IsTrue (S.outside.tells source.old) → IfOk result (λ changes. (f : Repair) → IsRepair f → f.want ≡ want_of want.now → f.holds ≡ is_payload_of
        → map finding_told found.now ≡ findings f.holds f.want (S.outside.state source.old).held
        → map (change_told f.bytes) changes.items ≡ map (λ p. relinked_as f (S.outside.state source.old).held p (f.want.at p)) f.want.keys) }
    ensures fits { IfOk result (λ changes. AllFitAt (want_of want.now) (want_of want.now).keys changes.items) }
    ensures reads { Reads S.outside source.old source.new (HasFailed result) }
{
    let rows = rows(alloc, want)?;
    let own = mended(alloc, &rows, found)?;
    match relink(alloc, source, &rows, &own) {
        Ok(changes) => Ok(changes),
        Err(fault) => Err(fault),
    }
}

// What a repair makes of each row's path, where this becomes of each by its own finding.
fn relink<'a, S: Source>(
    alloc: Global,
    source: &mut S,
    rows: &[Row<'a>],
    own: &[Change<'a>],
) -> Result<Vec<Change<'a>>, Or<Failed>>
    requires order { IsStrictlySortedBy (slice_cmp nat_cmp) (row_paths rows.now) }
    requires own { length own.now ≡ length rows.now }
    ensures long { IfOk result (λ changes. length changes.items ≡ length rows.now) }
    ensures told { IsTrue (S.outside.tells source.old) → IfOk result (λ changes. (f : Repair) → IsRepair f → AreRowsFor f.want rows.now
        → map (change_told f.bytes) own.now ≡ map (repaired.mended f (S.outside.state source.old).held) (row_paths rows.now)
        → map (change_told f.bytes) changes.items ≡ map (λ p. relinked_as f (S.outside.state source.old).held p (f.want.at p)) (row_paths rows.now)) }
    ensures fits { IfOk result (λ changes. AllFit Fits rows.now own.now → AllFit Fits rows.now changes.items) }
    ensures reads { Reads S.outside source.old source.new (HasFailed result) }
{
    let lacking = lacking(alloc, source, rows, own)?;
    let changes = relinked(alloc, rows, own, &lacking)?;
    Ok(changes)
}
