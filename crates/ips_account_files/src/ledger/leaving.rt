//! What a request leaves of a file.

ghost use Rattle.std.specs.Prelude.{◌≡◌, ◌<◌, ℕ, true, false, IsErr, IsTrue, IfOk, List, Option, length};
ghost use Rattle.std.specs.List.{AllByRecursion};
ghost use Rattle.std.specs.List.Sorted.{IsStrictlySortedBy};
ghost use Rattle.std.specs.Ordering.{nat_cmp};
ghost use Rattle.std.specs.Cmp.Lexicographic.{slice_cmp};
ghost use Rattle.ips_outside.specs.Image.{Entry};
ghost use Rattle.ips_outside.specs.Outside.{Reads};
ghost use Rattle.ips_after.specs.Change.{laid_entry};
ghost use Rattle.ips_after.specs.Request.{Request, Wanted};
ghost use Rattle.ips_change.specs.Told.{change_told};
ghost use Rattle.ips_change.specs.survey.Rows.{HasLooked, IsRowOf};
ghost use Rattle.ips_change.specs.survey.Marks.{row_paths};
ghost use Rattle.ips_emptied.specs.Joining.{HasAll};
ghost use Rattle.ips_account_files.specs.ledger.Base.{mode_left};
ghost use Rattle.ips_account_files.specs.ledger.Left.{AreSmallWanted, FitsFile, IsLeft, IsLeftStanding, IsOwnLeft, left_told, only_file};

use crate::ledger::changing::{change_at, is_replacing};
use crate::ledger::given::given;
use crate::ledger::left::Left;
use crate::ledger::name::named;
use ips_change::Change;
use ips_change::survey::{Row, is_reached};
use ips_emptied::Settled;
use ips_folder::Folder;
use ips_outside::{Failed, Look, Source};
use ips_text::RelPath;

/// What a request leaves of a file at the path, where nothing is said of any path. `replaced` marks the rows at which what stands goes or is replaced.
/// Where one more name of another path's file is made, that is nothing. `Failed` where the folder failed.
pub fn left_at<'a, F: Folder>(
    folder: &mut F,
    rows: &[Row<'a>],
    settled: &Settled<'a>,
    replaced: &[bool],
    path: &RelPath,
) -> Result<Left, Failed>
    requires order { IsStrictlySortedBy (slice_cmp nat_cmp) (row_paths rows.now) }
    requires settled { HasAll rows.now settled.now }
    requires replaced { length replaced.now ≡ length rows.now }
    requires looked { IsTrue (F.outside.tells folder.old) → AllByRecursion (HasLooked (F.outside.state folder.old).held) rows.now }
    ensures small { IfOk result (λ left. (r : Request) → AllByRecursion (IsRowOf r) rows.now → AreSmallWanted r.new → mode_left 0 left < 4096) }
    ensures found { IsTrue (F.outside.tells folder.old) → IfOk result (IsLeft (F.outside.state folder.old).held rows.now settled.now replaced.now path.now.bytes) }
    ensures reads { Reads F.outside folder.old folder.new (IsErr result) }
{
    let change = change_at(rows, settled, path.bytes());
    if is_replacing(change) {
        return Ok(laid(change));
    }
    standing_at(folder, rows, settled, replaced, path)
}

// The file that is laid at a path of which this becomes.
fn laid(change: Change<'_>) -> Left
    ensures own { (new : Option Wanted) → FitsFile new change.entry → IsOwnLeft true new result }
    ensures told { (bytes : List ℕ → List ℕ) (e : Option Entry) → left_told bytes e result ≡ only_file (laid_entry (change_told bytes change.entry)) }
{
    match change {
        Change::File { payload, mode } => Left::Laid {
            payload: named(*payload),
            mode,
        },
        _ => Left::Nothing,
    }
}

// What is left of the file that stands at the path, where nothing takes its place.
fn standing_at<'a, F: Folder>(
    folder: &mut F,
    rows: &[Row<'a>],
    settled: &Settled<'a>,
    replaced: &[bool],
    path: &RelPath,
) -> Result<Left, Failed>
    requires order { IsStrictlySortedBy (slice_cmp nat_cmp) (row_paths rows.now) }
    requires settled { HasAll rows.now settled.now }
    requires replaced { length replaced.now ≡ length rows.now }
    requires looked { IsTrue (F.outside.tells folder.old) → AllByRecursion (HasLooked (F.outside.state folder.old).held) rows.now }
    ensures own { IfOk result (λ left. (new : Option Wanted) → IsOwnLeft false new left) }
    ensures small { IfOk result (λ left. (r : Request) → AllByRecursion (IsRowOf r) rows.now → AreSmallWanted r.new → mode_left 0 left < 4096) }
    ensures found { IsTrue (F.outside.tells folder.old) → IfOk result (IsLeftStanding (F.outside.state folder.old).held rows.now settled.now replaced.now path.now.bytes) }
    ensures reads { Reads F.outside folder.old folder.new (IsErr result) }
{
    if is_reached(rows, replaced, path.bytes()) {
        return Ok(Left::Nothing);
    }
    let Look::File { mode, .. } = folder.look(path)? else {
        return Ok(Left::Nothing);
    };
    let mode = given(folder, rows, settled, replaced, path, true, mode)?;
    let mode = given(folder, rows, settled, replaced, path, false, mode)?;
    Ok(Left::Standing { mode })
}
