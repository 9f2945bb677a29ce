//! The account files behind a request, in one call.

ghost use Rattle.std.specs.Prelude.{◌≡◌, false, true, Ok, Err, IfOk, IsOkAnd, IsTrue, length};
ghost use Rattle.std.specs.List.{AllByRecursion};
ghost use Rattle.std.specs.List.Sorted.{IsStrictlySortedBy};
ghost use Rattle.std.specs.Ordering.{nat_cmp};
ghost use Rattle.std.specs.Cmp.Lexicographic.{slice_cmp};
ghost use Rattle.ips_text.specs.Reading.{IfBad};
ghost use Rattle.ips_text.specs.declared.refusal.Or.TheVariants.{Bad};
ghost use Rattle.ips_outside.specs.Outside.{Reads};
ghost use Rattle.ips_after.specs.Request.{Request};
ghost use Rattle.ips_change.specs.survey.Rows.{HasLooked};
ghost use Rattle.ips_change.specs.survey.Marks.{row_paths};
ghost use Rattle.ips_emptied.specs.Joining.{HasAll};
ghost use Rattle.ips_account_files.specs.declared.ledger.fault.LedgerFault.TheVariants as fault;
ghost use Rattle.ips_account_files.specs.Around as spec;
ghost use Rattle.ips_account_files.specs.Around.{AreMarks, IsSilentOver, around};
ghost use Rattle.ips_account_files.specs.Behind.{Behind, BehindWhere, files_seen, no_files};

use crate::admitted::has_accounts;
use crate::bases::{Bases, read_all};
use crate::editing::edited;
use crate::files::AccountFiles;
use crate::finding::Surveyed;
use crate::ledger::{LedgerFault, replaced};
use ips_action::Action;
use ips_change::survey::Row;
use ips_emptied::Settled;
use ips_folder::Folder;
use ips_outside::Source;
use ips_text::Or;
use std::alloc::Global;

/// The account files behind a request from the old admitted actions to the new ones, over these rows, in which nothing is said of any path. Where no user and
/// no group is among the actions, nothing is read, and nothing is due.
///
/// # Errors
///
/// `FolderFault` where the folder failed. Texts are read first, that of `etc/passwd` before `etc/shadow` before `etc/group`: `Payload` where the payload that
/// is laid at such a path has a fault, `TooLarge` where a text has more bytes than an account file may have, and `SourceFault` where the repository failed.
/// Then `Account` where the files can't be edited, which is line 0 where something other than a file stands or is wanted.
pub fn account_files<'a, F: Folder, S: Source>(
    alloc: Global,
    folder: &mut F,
    source: &mut S,
    publisher: &str,
    rows: &[Row<'a>],
    settled: &Settled<'a>,
    old: &[Action],
    new: &[Action],
) -> Result<AccountFiles, Or<LedgerFault>>
    requires order { IsStrictlySortedBy (slice_cmp nat_cmp) (row_paths rows.now) }
    requires settled { HasAll rows.now settled.now }
    requires looked { IsTrue (F.outside.tells folder.old) → AllByRecursion (HasLooked (F.outside.state folder.old).held) rows.now }
    ensures none { spec.has_accounts old.now new.now ≡ false → IsOkAnd result (λ files. files_seen files ≡ no_files) }
    ensures unread { spec.has_accounts old.now new.now ≡ false → (folder.new ≡ folder.old) × (source.new ≡ source.old) }
    ensures given { IfOk result (λ files. (r : Request) → IsSilentOver (around F.outside S.outside folder.old source.old publisher.now rows.now settled.now) rows.now settled.now r
        → Behind (around F.outside S.outside folder.old source.old publisher.now rows.now settled.now) r old.now new.now (Ok (files_seen files))) }
    ensures refused { IfBad result (λ why. (r : Request) → IsSilentOver (around F.outside S.outside folder.old source.old publisher.now rows.now settled.now) rows.now settled.now r
        → Behind (around F.outside S.outside folder.old source.old publisher.now rows.now settled.now) r old.now new.now (Err why)) }
    ensures reads { Reads F.outside folder.old folder.new (result ≡ Err (Bad fault.FolderFault)) }
    ensures reads_source { Reads S.outside source.old source.new (result ≡ Err (Bad fault.SourceFault)) }
{
    if !has_accounts(old, new) {
        return Ok(AccountFiles::none(alloc));
    }
    match replaced(alloc, rows, settled) {
        Ok(marks) => {
            let surveyed = Surveyed {
                publisher,
                rows,
                settled,
                replaced: &marks,
            };
            read_and_edit(alloc, folder, source, surveyed, old, new)
        }
        Err(_) => Err(Or::OutOfMemory),
    }
}

// The same where a user or a group is among the actions, with the marks of the rows at which what stands goes or is replaced.
fn read_and_edit<'a, F: Folder, S: Source>(
    alloc: Global,
    folder: &mut F,
    source: &mut S,
    surveyed: Surveyed<'_, 'a>,
    old: &[Action],
    new: &[Action],
) -> Result<AccountFiles, Or<LedgerFault>>
    requires order { IsStrictlySortedBy (slice_cmp nat_cmp) (row_paths surveyed.rows.now) }
    requires settled { HasAll surveyed.rows.now surveyed.settled.now }
    requires replaced { length surveyed.replaced.now ≡ length surveyed.rows.now }
    requires marks { AreMarks surveyed.rows.now surveyed.settled.now surveyed.replaced.now }
    requires looked { IsTrue (F.outside.tells folder.old) → AllByRecursion (HasLooked (F.outside.state folder.old).held) surveyed.rows.now }
    ensures given { IfOk result (λ files. (r : Request) → IsSilentOver (around F.outside S.outside folder.old source.old surveyed.entry.publisher.now surveyed.entry.rows.now surveyed.entry.settled.now) surveyed.entry.rows.now surveyed.entry.settled.now r
        → BehindWhere true (around F.outside S.outside folder.old source.old surveyed.entry.publisher.now surveyed.entry.rows.now surveyed.entry.settled.now) r old.now new.now (Ok (files_seen files))) }
    ensures refused { IfBad result (λ why. (r : Request) → IsSilentOver (around F.outside S.outside folder.old source.old surveyed.entry.publisher.now surveyed.entry.rows.now surveyed.entry.settled.now) surveyed.entry.rows.now surveyed.entry.settled.now r
        → BehindWhere true (around F.outside S.outside folder.old source.old surveyed.entry.publisher.now surveyed.entry.rows.now surveyed.entry.settled.now) r old.now new.now (Err why)) }
    ensures reads { Reads F.outside folder.old folder.new (result ≡ Err (Bad fault.FolderFault)) }
    ensures reads_source { Reads S.outside source.old source.new (result ≡ Err (Bad fault.SourceFault)) }
{
    let mut bases = Bases::new(alloc);
    match read_all(alloc, folder, source, surveyed, &mut bases) {
        Ok(()) => edited(alloc, &bases, old, new),
        Err(fault) => Err(fault),
    }
}
