//! The modes that a request gives to the names of a file.

ghost use Rattle.std.specs.Prelude.{◌≡◌, ◌<◌, ◌&&◌, not, ℕ, Bool, IsErr, IsTrue, IfOk, List, Option, Some, length, cond};
ghost use Rattle.std.specs.List.{AllByRecursion};
ghost use Rattle.std.specs.List.Sorted.{IsStrictlySortedBy};
ghost use Rattle.std.specs.Ordering.{nat_cmp};
ghost use Rattle.std.specs.Cmp.Lexicographic.{slice_cmp};
ghost use Rattle.ips_outside.specs.Change.{names};
ghost use Rattle.ips_outside.specs.Image as image;
ghost use Rattle.ips_outside.specs.Image.{File};
ghost use Rattle.ips_outside.specs.Outside.{Reads};
ghost use Rattle.ips_after.specs.Change as outcome;
ghost use Rattle.ips_after.specs.Request.{Request, Wanted};
ghost use Rattle.ips_change.specs.Told.{change_told};
ghost use Rattle.ips_change.specs.survey.Rows.{HasLooked, IsRowOf, row_pair};
ghost use Rattle.ips_change.specs.survey.Marks.{IsMarkOf, row_paths};
ghost use Rattle.ips_change.specs.survey.Kinds.{is_file_looked};
ghost use Rattle.ips_emptied.specs.Joining.{HasAll};
ghost use Rattle.ips_account_files.specs.ledger.Left as spec;
ghost use Rattle.ips_account_files.specs.ledger.Left.{AreSmallWanted, FitsFile, GivesMode};

use crate::ledger::changing::settled_at;
use ips_change::content::is_same;
use ips_change::survey::{Row, is_reached};
use ips_change::{Change, Stands};
use ips_emptied::Settled;
use ips_folder::Folder;
use ips_outside::{Failed, Look, Source};
use ips_text::RelPath;

/// Whether the row's path is the file's, or another name of the file.
pub(crate) fn is_name<F: Folder>(
    folder: &mut F,
    row: &Row<'_>,
    path: &RelPath,
) -> Result<bool, Failed>
    requires file { IsTrue (F.outside.tells folder.old) → IsTrue (image.is_file ((F.outside.state folder.old).held.look path.now.bytes)) }
    requires looked { IsTrue (F.outside.tells folder.old) → HasLooked (F.outside.state folder.old).held row.now }
    ensures found { IsTrue (F.outside.tells folder.old) → IfOk result (λ is. is ≡ names (F.outside.state folder.old).held row.now.path.now.bytes path.now.bytes) }
    ensures reads { Reads F.outside folder.old folder.new (IsErr result) }
{
    if is_same(row.path.bytes(), path.bytes()) {
        return Ok(true);
    }
    if !is_file_at(folder, row)? {
        return Ok(false);
    }
    folder.same(row.path, path)
}

// Whether a file stands at the row's path. It looks there only where the row doesn't know.
fn is_file_at<S: Source>(source: &mut S, row: &Row<'_>) -> Result<bool, Failed>
    ensures found { IsTrue (S.outside.tells source.old) → HasLooked (S.outside.state source.old).held row.now
        → IfOk result (λ found. found ≡ image.is_file ((S.outside.state source.old).held.look row.now.path.now.bytes)) }
    ensures reads { Reads S.outside source.old source.new (IsErr result) }
{
    match row.stands {
        Stands::Unasked => Ok(is_file(source.look(row.path)?)),
        Stands::File { .. } => Ok(true),
        _ => Ok(false),
    }
}

// Whether a file was seen.
fn is_file(found: Look) -> bool
    ensures { result ≡ is_file_looked found }
{
    matches!(found, Look::File { .. })
}

// Whether the row's path is wanted and was, or is wanted and wasn't.
fn is_ranked(row: &Row<'_>, was: bool) -> bool
    ensures { result ≡ spec.is_ranked was (row_pair row.now).was (row_pair row.now).wanted }
{
    let stood = if was {
        row.old.is_some()
    } else {
        row.old.is_none()
    };
    stood && row.new.is_some()
}

// The mode that a file has behind what becomes of the row, of the rows whose paths were wanted or of the others.
fn given_at<F: Folder>(
    folder: &mut F,
    rows: &[Row<'_>],
    replaced: &[bool],
    row: &Row<'_>,
    change: Change<'_>,
    path: &RelPath,
    was: bool,
    mode: u16,
) -> Result<u16, Failed>
    requires order { IsStrictlySortedBy (slice_cmp nat_cmp) (row_paths rows.now) }
    requires replaced { length replaced.now ≡ length rows.now }
    requires file { IsTrue (F.outside.tells folder.old) → IsTrue (image.is_file ((F.outside.state folder.old).held.look path.now.bytes)) }
    requires looked { IsTrue (F.outside.tells folder.old) → HasLooked (F.outside.state folder.old).held row.now }
    ensures small { mode < 4096 → IfOk result (λ given. (new : Option Wanted) → FitsFile new change.entry → spec.HasSmall new → given < 4096) }
    ensures found { IsTrue (F.outside.tells folder.old) → IfOk result (λ given. (test : List ℕ → Bool) (bytes : List ℕ → List ℕ) (body : List ℕ) → IsMarkOf test (row_paths rows.now) replaced.now
        → Some (File given body) ≡ cond (spec.is_ranked was (row_pair row.now).was (row_pair row.now).wanted)
        (outcome.remoded (change_told bytes change.entry) (not (outcome.reached test row.now.path.now.bytes) && names (F.outside.state folder.old).held row.now.path.now.bytes path.now.bytes) (Some (File mode body)))
        (Some (File mode body))) }
    ensures reads { Reads F.outside folder.old folder.new (IsErr result) }
{
    if !is_ranked(row, was) {
        return Ok(mode);
    }
    let Change::Mode { mode: next } = change else {
        return Ok(mode);
    };
    if is_reached(rows, replaced, row.path.bytes()) {
        return Ok(mode);
    }
    Ok(if is_name(folder, row, path)? {
        next
    } else {
        mode
    })
}

/// The mode that a file has behind the modes that are given to its names: at paths that are wanted and were, or at those that are and weren't. `mode` is the
/// one that it has before.
pub(crate) fn given<'a, F: Folder>(
    folder: &mut F,
    rows: &[Row<'a>],
    settled: &Settled<'a>,
    replaced: &[bool],
    path: &RelPath,
    was: bool,
    mode: u16,
) -> Result<u16, Failed>
    requires order { IsStrictlySortedBy (slice_cmp nat_cmp) (row_paths rows.now) }
    requires settled { HasAll rows.now settled.now }
    requires replaced { length replaced.now ≡ length rows.now }
    requires file { IsTrue (F.outside.tells folder.old) → IsTrue (image.is_file ((F.outside.state folder.old).held.look path.now.bytes)) }
    requires looked { IsTrue (F.outside.tells folder.old) → AllByRecursion (HasLooked (F.outside.state folder.old).held) rows.now }
    ensures small { mode < 4096 → IfOk result (λ given. (r : Request) → AllByRecursion (IsRowOf r) rows.now → AreSmallWanted r.new → given < 4096) }
    ensures found { IsTrue (F.outside.tells folder.old) → IfOk result (GivesMode (F.outside.state folder.old).held rows.now settled.now replaced.now path.now.bytes was mode) }
    ensures reads { Reads F.outside folder.old folder.new (IsErr result) }
{
    let mut given = mode;
    for i in 0..rows.len() {
        let change = settled_at(rows, settled, i);
        given = given_at(folder, rows, replaced, &rows[i], change, path, was, given)?;
    }
    Ok(given)
}
