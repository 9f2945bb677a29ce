//! The account files before they are edited.

ghost use Rattle.std.specs.Prelude.{◌≡◌, ◌⊎◌, false, Err, IsTrue, OnOk, is_none, length};
ghost use Rattle.std.specs.List.{AllByRecursion};
ghost use Rattle.std.specs.List.Sorted.{IsStrictlySortedBy};
ghost use Rattle.std.specs.Ordering.{nat_cmp};
ghost use Rattle.std.specs.Cmp.Lexicographic.{slice_cmp};
ghost use Rattle.ips_text.specs.Reading.{IfBad};
ghost use Rattle.ips_text.specs.declared.refusal.Or.TheVariants.{Bad};
ghost use Rattle.ips_outside.specs.Outside.{Reads};
ghost use Rattle.ips_books.specs.Seen.{texts};
ghost use Rattle.ips_after.specs.Request.{Request};
ghost use Rattle.ips_change.specs.survey.Rows.{HasLooked};
ghost use Rattle.ips_change.specs.survey.Marks.{row_paths};
ghost use Rattle.ips_emptied.specs.Joining.{HasAll};
ghost use Rattle.ips_account_files.specs.declared.ledger.fault.LedgerFault.TheVariants as fault;
ghost use Rattle.ips_account_files.specs.Around.{AreMarks, IsSilentOver, around};
ghost use Rattle.ips_account_files.specs.Bases.{AreBases, IsFirstUnread, new_modes, no_texts};
ghost use Rattle.ips_account_files.specs.Finding.{mode_found, text_found};

use crate::finding::{Surveyed, find};
use crate::ledger::{BaseFile, Blocked, LedgerFault, Modes, is_folder_blocked};
use ips_books::Books;
use ips_folder::Folder;
use ips_outside::Source;
use ips_text::Or;
use std::alloc::Global;

/// The account files before they are edited.
#[derive(Drop)]
pub(crate) struct Bases {
    /// Which of them can't be edited.
    pub blocked: Blocked,
    /// Their texts.
    pub books: Books,
    /// Their modes.
    pub modes: Modes,
}

impl Bases {
    /// No texts, and the modes of new files.
    pub fn new(alloc: Global) -> Bases
        ensures texts { texts result.books ≡ no_texts }
        ensures modes { result.modes ≡ new_modes }
    {
        Bases {
            blocked: Blocked {
                passwd: false,
                shadow: false,
                group: false,
            },
            books: Books {
                passwd: Vec::new(alloc),
                shadow: Vec::new(alloc),
                group: Vec::new(alloc),
            },
            modes: Modes {
                passwd: 0o644,
                shadow: 0o400,
                group: 0o644,
            },
        }
    }
}

/// Puts what a request leaves of the account files in the place of no texts and the modes of new files: passwd before shadow before group.
pub(crate) fn read_all<'a, F: Folder, S: Source>(
    alloc: Global,
    folder: &mut F,
    source: &mut S,
    surveyed: Surveyed<'_, 'a>,
    bases: &mut Bases,
) -> Result<(), Or<LedgerFault>>
    requires order { IsStrictlySortedBy (slice_cmp nat_cmp) (row_paths surveyed.rows.now) }
    requires settled { HasAll surveyed.rows.now surveyed.settled.now }
    requires replaced { length surveyed.replaced.now ≡ length surveyed.rows.now }
    requires marks { AreMarks surveyed.rows.now surveyed.settled.now surveyed.replaced.now }
    requires looked { IsTrue (F.outside.tells folder.old) → AllByRecursion (HasLooked (F.outside.state folder.old).held) surveyed.rows.now }
    requires texts { texts bases.old.books ≡ no_texts }
    requires modes { bases.old.modes ≡ new_modes }
    ensures bases { OnOk result ((r : Request) → IsSilentOver (around F.outside S.outside folder.old source.old surveyed.entry.publisher.now surveyed.entry.rows.now surveyed.entry.settled.now) surveyed.entry.rows.now surveyed.entry.settled.now r
        → AreBases (around F.outside S.outside folder.old source.old surveyed.entry.publisher.now surveyed.entry.rows.now surveyed.entry.settled.now) r bases.new.blocked (texts bases.new.books) bases.new.modes) }
    ensures refused { IfBad result (λ why. (r : Request) → IsSilentOver (around F.outside S.outside folder.old source.old surveyed.entry.publisher.now surveyed.entry.rows.now surveyed.entry.settled.now) surveyed.entry.rows.now surveyed.entry.settled.now r
        → (why ≡ fault.FolderFault) ⊎ IsFirstUnread (around F.outside S.outside folder.old source.old surveyed.entry.publisher.now surveyed.entry.rows.now surveyed.entry.settled.now) r why) }
    ensures reads { Reads F.outside folder.old folder.new (result ≡ Err (Bad fault.FolderFault)) }
    ensures reads_source { Reads S.outside source.old source.new (result ≡ Err (Bad fault.SourceFault)) }
{
    let taken = is_folder_blocked(surveyed.rows);
    let found = match find(alloc, folder, source, surveyed, b"etc/passwd", 0o644, taken) {
        Ok(found) => found,
        Err(fault) => return Err(fault),
    };
    keep(
        found,
        &mut bases.books.passwd,
        &mut bases.modes.passwd,
        &mut bases.blocked.passwd,
    );
    let found = match find(alloc, folder, source, surveyed, b"etc/shadow", 0o400, false) {
        Ok(found) => found,
        Err(fault) => return Err(fault),
    };
    keep(
        found,
        &mut bases.books.shadow,
        &mut bases.modes.shadow,
        &mut bases.blocked.shadow,
    );
    let found = match find(alloc, folder, source, surveyed, b"etc/group", 0o644, false) {
        Ok(found) => found,
        Err(fault) => return Err(fault),
    };
    keep(
        found,
        &mut bases.books.group,
        &mut bases.modes.group,
        &mut bases.blocked.group,
    );
    Ok(())
}

// Keeps the text and the mode of what was found, or that the file can't be edited.
fn keep(found: Option<BaseFile>, text: &mut Vec<u8>, mode: &mut u16, blocked: &mut bool)
    ensures text { text.new.items ≡ text_found found text.old.items }
    ensures mode { mode.new ≡ mode_found found mode.old }
    ensures blocked { blocked.new ≡ is_none found }
{
    *blocked = found.is_none();
    if let Some(base) = found {
        *text = base.text;
        *mode = base.mode;
    }
}
