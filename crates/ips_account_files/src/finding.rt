//! What a request leaves of one account file.

ghost use Rattle.std.specs.Prelude.{◌≡◌, ◌⊎◌, ◌<◌, ◌||◌, false, Err, IfOk, IsTrue, length};
ghost use Rattle.std.specs.List.{AllByRecursion};
ghost use Rattle.std.specs.List.Sorted.{IsStrictlySortedBy};
ghost use Rattle.std.specs.Ordering.{nat_cmp};
ghost use Rattle.std.specs.Cmp.Lexicographic.{slice_cmp};
ghost use Rattle.ips_text.specs.Path.{IsPath};
ghost use Rattle.ips_text.specs.Reading.{IfBad};
ghost use Rattle.ips_text.specs.declared.refusal.Or.TheVariants.{Bad};
ghost use Rattle.ips_outside.specs.Outside.{Reads};
ghost use Rattle.ips_after.specs.Request.{Request};
ghost use Rattle.ips_change.specs.survey.Rows.{HasLooked};
ghost use Rattle.ips_change.specs.survey.Marks.{row_paths};
ghost use Rattle.ips_emptied.specs.Joining.{HasAll};
ghost use Rattle.ips_account_files.specs.declared.ledger.fault.LedgerFault.TheVariants as fault;
ghost use Rattle.ips_account_files.specs.Around.{AreMarks, IsSilentOver, around};
ghost use Rattle.ips_account_files.specs.Finding.{IsFound, IsLost};

use crate::ledger::{BaseFile, LedgerFault, base_at, is_blocked};
use ips_change::survey::Row;
use ips_emptied::Settled;
use ips_folder::Folder;
use ips_outside::Source;
use ips_text::{Or, RelPath};
use std::alloc::Global;

/// The rows of a request with what becomes of each, and the publisher of the payloads that they lay.
#[derive(Clone, Copy, Drop)]
pub(crate) struct Surveyed<'r, 'a> {
    /// The publisher.
    pub publisher: &'r str,
    /// The rows.
    pub rows: &'r [Row<'a>],
    /// What becomes of each.
    pub settled: &'r Settled<'a>,
    /// At which of them what stands goes or is replaced.
    pub replaced: &'r [bool],
}

/// What a request leaves at this path, and none where the path is blocked, or the files can't be edited for another reason. `mode` is that of a new file.
pub(crate) fn find<'a, F: Folder, S: Source>(
    alloc: Global,
    folder: &mut F,
    source: &mut S,
    surveyed: Surveyed<'_, 'a>,
    path: &[u8],
    mode: u16,
    elsewhere: bool,
) -> Result<Option<BaseFile>, Or<LedgerFault>>
    requires order { IsStrictlySortedBy (slice_cmp nat_cmp) (row_paths surveyed.rows.now) }
    requires settled { HasAll surveyed.rows.now surveyed.settled.now }
    requires replaced { length surveyed.replaced.now ≡ length surveyed.rows.now }
    requires marks { AreMarks surveyed.rows.now surveyed.settled.now surveyed.replaced.now }
    requires looked { IsTrue (F.outside.tells folder.old) → AllByRecursion (HasLooked (F.outside.state folder.old).held) surveyed.rows.now }
    requires small { mode < 4096 }
    ensures found { IfOk result (λ found. (r : Request) → IsSilentOver (around F.outside S.outside folder.old source.old surveyed.entry.publisher.now surveyed.entry.rows.now surveyed.entry.settled.now) surveyed.entry.rows.now surveyed.entry.settled.now r
        → IsFound (around F.outside S.outside folder.old source.old surveyed.entry.publisher.now surveyed.entry.rows.now surveyed.entry.settled.now) r path.now mode elsewhere found) }
    ensures refused { IfBad result (λ why. (r : Request) → IsSilentOver (around F.outside S.outside folder.old source.old surveyed.entry.publisher.now surveyed.entry.rows.now surveyed.entry.settled.now) surveyed.entry.rows.now surveyed.entry.settled.now r
        → IsLost (around F.outside S.outside folder.old source.old surveyed.entry.publisher.now surveyed.entry.rows.now surveyed.entry.settled.now) r path.now elsewhere why) }
    ensures reads { Reads F.outside folder.old folder.new (result ≡ Err (Bad fault.FolderFault)) }
    ensures reads_source { Reads S.outside source.old source.new (result ≡ Err (Bad fault.SourceFault)) }
{
    let Ok(path) = RelPath::parse(alloc, path) else {
        return Err(Or::OutOfMemory);
    };
    find_at(alloc, folder, source, surveyed, &path, mode, elsewhere)
}

// The same at a path that was read.
fn find_at<'a, F: Folder, S: Source>(
    alloc: Global,
    folder: &mut F,
    source: &mut S,
    surveyed: Surveyed<'_, 'a>,
    path: &RelPath,
    mode: u16,
    elsewhere: bool,
) -> Result<Option<BaseFile>, Or<LedgerFault>>
    requires order { IsStrictlySortedBy (slice_cmp nat_cmp) (row_paths surveyed.rows.now) }
    requires settled { HasAll surveyed.rows.now surveyed.settled.now }
    requires replaced { length surveyed.replaced.now ≡ length surveyed.rows.now }
    requires marks { AreMarks surveyed.rows.now surveyed.settled.now surveyed.replaced.now }
    requires looked { IsTrue (F.outside.tells folder.old) → AllByRecursion (HasLooked (F.outside.state folder.old).held) surveyed.rows.now }
    requires small { mode < 4096 }
    ensures found { IfOk result (λ found. (r : Request) → IsSilentOver (around F.outside S.outside folder.old source.old surveyed.entry.publisher.now surveyed.entry.rows.now surveyed.entry.settled.now) surveyed.entry.rows.now surveyed.entry.settled.now r
        → IsFound (around F.outside S.outside folder.old source.old surveyed.entry.publisher.now surveyed.entry.rows.now surveyed.entry.settled.now) r path.now.bytes mode elsewhere found) }
    ensures refused { IfBad result (λ why. (r : Request) → IsSilentOver (around F.outside S.outside folder.old source.old surveyed.entry.publisher.now surveyed.entry.rows.now surveyed.entry.settled.now) surveyed.entry.rows.now surveyed.entry.settled.now r
        → IsLost (around F.outside S.outside folder.old source.old surveyed.entry.publisher.now surveyed.entry.rows.now surveyed.entry.settled.now) r path.now.bytes elsewhere why) }
    ensures reads { Reads F.outside folder.old folder.new (result ≡ Err (Bad fault.FolderFault)) }
    ensures reads_source { Reads S.outside source.old source.new (result ≡ Err (Bad fault.SourceFault)) }
{
    let Ok(blocked) = is_blocked(folder, surveyed.rows, path) else {
        return Err(Or::Bad(LedgerFault::FolderFault));
    };
    if elsewhere || blocked {
        return Ok(None);
    }
    match base_at(
        alloc,
        folder,
        source,
        surveyed.publisher,
        surveyed.rows,
        surveyed.settled,
        surveyed.replaced,
        path,
        mode,
    ) {
        Ok(base) => Ok(Some(base)),
        Err(fault) => Err(fault),
    }
}
