//! The base of an account file.

ghost use Rattle.std.specs.Prelude.{◌≡◌, ◌<◌, ◌≤◌, IsTrue, IfOk, Err, length};
ghost use Rattle.std.specs.List.{AllByRecursion};
ghost use Rattle.std.specs.List.Sorted.{IsStrictlySortedBy};
ghost use Rattle.std.specs.Ordering.{nat_cmp};
ghost use Rattle.std.specs.Cmp.Lexicographic.{slice_cmp};
ghost use Rattle.ips_text.specs.Reading.{IfBad};
ghost use Rattle.ips_text.specs.declared.refusal.Or.TheVariants.{Bad};
ghost use Rattle.ips_outside.specs.Outside.{Reads};
ghost use Rattle.ips_after.specs.Request.{Request};
ghost use Rattle.ips_change.specs.survey.Rows.{HasLooked, IsRowOf};
ghost use Rattle.ips_change.specs.survey.Marks.{row_paths};
ghost use Rattle.ips_emptied.specs.Joining.{HasAll};
ghost use Rattle.ips_account_files.specs.declared.ledger.fault.LedgerFault.TheVariants as fault;
ghost use Rattle.ips_account_files.specs.ledger.Base as spec;
ghost use Rattle.ips_account_files.specs.ledger.Left.{AreSmallWanted};
ghost use Rattle.ips_account_files.specs.ledger.Texts.{account_limit};

use crate::ledger::fault::LedgerFault;
use crate::ledger::leaving::left_at;
use crate::ledger::left::Left;
use crate::ledger::reading::read_left;
use ips_change::survey::Row;
use ips_emptied::Settled;
use ips_folder::Folder;
use ips_outside::Source;
use ips_text::{Or, RelPath};
use std::alloc::Global;

/// What stands of an account file behind a request in which nothing is said of any path.
#[derive(Drop)]
pub struct BaseFile {
    /// Its text; none where no file stands.
    pub text: Vec<u8>,
    /// Its mode; where no file stands, that of a new one.
    pub mode: u16,
}

/// The base of the account file at the path: what a request leaves there where nothing is said of any path. `replaced` marks the rows at which what stands
/// goes or is replaced, and `mode` is that of a new file.
///
/// # Errors
///
/// As those of `read_left`.
pub fn base_at<'a, F: Folder, S: Source>(
    alloc: Global,
    folder: &mut F,
    source: &mut S,
    publisher: &str,
    rows: &[Row<'a>],
    settled: &Settled<'a>,
    replaced: &[bool],
    path: &RelPath,
    mode: u16,
) -> Result<BaseFile, Or<LedgerFault>>
    requires order { IsStrictlySortedBy (slice_cmp nat_cmp) (row_paths rows.now) }
    requires settled { HasAll rows.now settled.now }
    requires replaced { length replaced.now ≡ length rows.now }
    requires looked { IsTrue (F.outside.tells folder.old) → AllByRecursion (HasLooked (F.outside.state folder.old).held) rows.now }
    ensures base { IfOk result (λ base. spec.IsBase (F.outside.tells folder.old) (F.outside.state folder.old).held rows.now settled.now replaced.now path.now.bytes mode (S.outside.tells source.old) publisher.now (S.outside.state source.old).held base.text.items base.mode) }
    ensures small { mode < 4096 → IfOk result (λ base. (r : Request) → AllByRecursion (IsRowOf r) rows.now → AreSmallWanted r.new → base.mode < 4096) }
    ensures within { IfOk result (λ base. length base.text.items ≤ account_limit) }
    ensures refused { IfBad result (spec.IsBaseUnread (F.outside.tells folder.old) (F.outside.state folder.old).held rows.now settled.now replaced.now path.now.bytes (S.outside.tells source.old) publisher.now (S.outside.state source.old).held) }
    ensures reads { Reads F.outside folder.old folder.new (result ≡ Err (Bad fault.FolderFault)) }
    ensures reads_source { Reads S.outside source.old source.new (result ≡ Err (Bad fault.SourceFault)) }
{
    let Ok(left) = left_at(folder, rows, settled, replaced, path) else {
        return Err(Or::Bad(LedgerFault::FolderFault));
    };
    match read_left(alloc, folder, source, publisher, path, left) {
        Ok(text) => Ok(BaseFile {
            text,
            mode: mode_of(left, mode),
        }),
        Err(fault) => Err(fault),
    }
}

// The mode of what is left, or this one where nothing is.
fn mode_of(left: Left, mode: u16) -> u16
    ensures { result ≡ spec.mode_left mode left }
{
    match left {
        Left::Nothing => mode,
        Left::Standing { mode } | Left::Laid { mode, .. } => mode,
    }
}
