//! The account files behind a request.

ghost use Rattle.std.specs.Prelude.{◌≡◌, ◌⊎◌, ℕ, List, true, IsTrue, Ok, Err, IfOk, length, map};
ghost use Rattle.std.specs.List.{AllByRecursion, list_any};
ghost use Rattle.std.specs.List.Sorted.{IsStrictlySortedBy};
ghost use Rattle.std.specs.Ordering.{nat_cmp};
ghost use Rattle.std.specs.Cmp.Lexicographic.{slice_cmp};
ghost use Rattle.ips_text.specs.Reading.{IfBad};
ghost use Rattle.ips_text.specs.declared.refusal.Or.TheVariants.{Bad};
ghost use Rattle.ips_outside.specs.Outside.{Reads};
ghost use Rattle.ips_after.specs.Request.{IsRequest};
ghost use Rattle.ips_change.specs.survey.Rows.{AreRows, HasLooked, row_pair};
ghost use Rattle.ips_change.specs.survey.Marks.{row_paths};
ghost use Rattle.ips_change.specs.survey.Tables.{IsTable};
ghost use Rattle.ips_emptied.specs.Joining.{HasAll, SettlesRows};
ghost use Rattle.ips_account_files.specs.declared.ledger.fault.LedgerFault.TheVariants as fault;
ghost use Rattle.ips_account_files.specs.Around.{has_accounts, is_account};
ghost use Rattle.ips_account_files.specs.Behind.{files_seen, no_files};
ghost use Rattle.ips_plan.specs.image_plan.Accounts.{IsAnswered, IsLedger, silent_request};
ghost use Rattle.ips_plan.specs.image_plan.Between.{AreMeant, given};

use crate::image_plan::accounts::{accounts_of, is_account_kind};
use crate::image_plan::between::Between;
use ips_account_files::ledger::LedgerFault;
use ips_account_files::{AccountFiles, account_files};
use ips_action::Action;
use ips_books::Books;
use ips_change::survey::{Row, Table, merge, surveyed_rows_are_of_the_request};
use ips_emptied::{Settled, settle};
use ips_folder::Folder;
use ips_outside::{Failed, Source};
use ips_text::Or;
use std::alloc::Global;

/// The account files behind a request between these states, over the rows of what was and is wanted. Where no user and no group is delivered, nothing is
/// looked at.
pub fn ledger_behind<'a, S: Source, F: Folder>(
    alloc: Global,
    between: Between<'a>,
    rows: &[Row<'a>],
    source: &mut S,
    folder: &mut F,
) -> Result<AccountFiles, Or<LedgerFault>>
    requires meant { AreMeant between }
    requires rows { AreRows between.was.now between.is.now (map row_pair rows.now) }
    requires looked { IsTrue (F.outside.tells folder.old) → AllByRecursion (HasLooked (F.outside.state folder.old).held) rows.now }
    ensures given { IfOk result (λ files. (bytes : List ℕ → List ℕ) → IsLedger (given F.outside S.outside folder.old source.old between.entry) between.entry.old.now between.entry.new.now between.entry.was.now between.entry.is.now bytes (Ok (files_seen files))) }
    ensures refused { IfBad result (λ why. (why ≡ fault.FolderFault) ⊎ ((bytes : List ℕ → List ℕ) → IsLedger (given F.outside S.outside folder.old source.old between.entry) between.entry.old.now between.entry.new.now between.entry.was.now between.entry.is.now bytes (Err why))) }
    ensures reads { Reads F.outside folder.old folder.new (result ≡ Err (Bad fault.FolderFault)) }
    ensures reads_source { Reads S.outside source.old source.new (result ≡ Err (Bad fault.SourceFault)) }
{
    let Ok(before) = accounts_of(alloc, between.old) else {
        return Err(Or::OutOfMemory);
    };
    let Ok(after) = accounts_of(alloc, between.new) else {
        return Err(Or::OutOfMemory);
    };
    if !has_some(&before, &after) {
        return Ok(none(alloc));
    }
    match answer(alloc, between, rows, &before, &after, source, folder) {
        Ok(files) => Ok(files),
        Err(Or::Bad(why)) => Err(Or::Bad(why)),
        Err(Or::OutOfMemory) => Err(Or::OutOfMemory),
    }
}

// Whether a user or a group is among the actions.
fn has_some(before: &[Action], after: &[Action]) -> bool
    ensures { result ≡ has_accounts before.now after.now }
{
    has_account(before) || has_account(after)
}

// Whether a user or a group is among these actions.
fn has_account(actions: &[Action]) -> bool
    ensures { result ≡ list_any is_account actions.now }
{
    actions.iter().any(|action| is_account_kind(action.kind))
}

// No text, and nothing is due.
fn none(alloc: Global) -> AccountFiles
    ensures { files_seen result ≡ no_files }
{
    AccountFiles {
        books: Books {
            passwd: Vec::new(alloc),
            shadow: Vec::new(alloc),
            group: Vec::new(alloc),
        },
        due: Vec::new(alloc),
    }
}

// The account files behind a request, from these users and groups to those, of which there is one.
fn answer<'a, S: Source, F: Folder>(
    alloc: Global,
    between: Between<'a>,
    rows: &[Row<'a>],
    before: &[Action],
    after: &[Action],
    source: &mut S,
    folder: &mut F,
) -> Result<AccountFiles, Or<LedgerFault>>
    requires meant { AreMeant between }
    requires rows { AreRows between.was.now between.is.now (map row_pair rows.now) }
    requires some { has_accounts before.now after.now ≡ true }
    requires looked { IsTrue (F.outside.tells folder.old) → AllByRecursion (HasLooked (F.outside.state folder.old).held) rows.now }
    ensures given { IfOk result (λ files. (bytes : List ℕ → List ℕ) → IsAnswered (given F.outside S.outside folder.old source.old between.entry) between.entry.was.now between.entry.is.now bytes before.now after.now (Ok (files_seen files))) }
    ensures refused { IfBad result (λ why. (why ≡ fault.FolderFault) ⊎ ((bytes : List ℕ → List ℕ) → IsAnswered (given F.outside S.outside folder.old source.old between.entry) between.entry.was.now between.entry.is.now bytes before.now after.now (Err why))) }
    ensures reads { Reads F.outside folder.old folder.new (result ≡ Err (Bad fault.FolderFault)) }
    ensures reads_source { Reads S.outside source.old source.new (result ≡ Err (Bad fault.SourceFault)) }
{
    let Ok(table) = merge(alloc, rows, &[]) else {
        return Err(Or::OutOfMemory);
    };
    surveyed_rows_are_of_the_request();
    settle_and_answer(alloc, between, &table, before, after, source, folder)
}

// The same over the table of these rows, in which nothing is said of any path.
fn settle_and_answer<'a, S: Source, F: Folder>(
    alloc: Global,
    between: Between<'a>,
    table: &Table<'a>,
    before: &[Action],
    after: &[Action],
    source: &mut S,
    folder: &mut F,
) -> Result<AccountFiles, Or<LedgerFault>>
    requires order { IsStrictlySortedBy (slice_cmp nat_cmp) (row_paths table.now.rows.items) }
    requires long { length table.now.said.items ≡ length table.now.rows.items }
    requires good { (bytes : List ℕ → List ℕ) → IsRequest (silent_request between.was.now between.is.now bytes) }
    requires silent { (bytes : List ℕ → List ℕ) → IsTable (silent_request between.was.now between.is.now bytes) table.now.rows.items table.now.said.items }
    requires some { has_accounts before.now after.now ≡ true }
    requires looked { IsTrue (F.outside.tells folder.old) → AllByRecursion (HasLooked (F.outside.state folder.old).held) table.now.rows.items }
    ensures given { IfOk result (λ files. (bytes : List ℕ → List ℕ) → IsAnswered (given F.outside S.outside folder.old source.old between.entry) between.entry.was.now between.entry.is.now bytes before.now after.now (Ok (files_seen files))) }
    ensures refused { IfBad result (λ why. (why ≡ fault.FolderFault) ⊎ ((bytes : List ℕ → List ℕ) → IsAnswered (given F.outside S.outside folder.old source.old between.entry) between.entry.was.now between.entry.is.now bytes before.now after.now (Err why))) }
    ensures reads { Reads F.outside folder.old folder.new (result ≡ Err (Bad fault.FolderFault)) }
    ensures reads_source { Reads S.outside source.old source.new (result ≡ Err (Bad fault.SourceFault)) }
{
    match settle(alloc, folder, table) {
        Ok(settled) => edit(
            alloc, between, table, &settled, before, after, source, folder,
        ),
        Err(Or::Bad(Failed)) => Err(Or::Bad(LedgerFault::FolderFault)),
        Err(Or::OutOfMemory) => Err(Or::OutOfMemory),
    }
}

// The same, where it is known what becomes of each path.
fn edit<'a, S: Source, F: Folder>(
    alloc: Global,
    between: Between<'a>,
    table: &Table<'a>,
    settled: &Settled<'a>,
    before: &[Action],
    after: &[Action],
    source: &mut S,
    folder: &mut F,
) -> Result<AccountFiles, Or<LedgerFault>>
    requires order { IsStrictlySortedBy (slice_cmp nat_cmp) (row_paths table.now.rows.items) }
    requires good { (bytes : List ℕ → List ℕ) → IsRequest (silent_request between.was.now between.is.now bytes) }
    requires silent { (bytes : List ℕ → List ℕ) → IsTable (silent_request between.was.now between.is.now bytes) table.now.rows.items table.now.said.items }
    requires whole { HasAll table.now.rows.items settled.now }
    requires settled { IsTrue (F.outside.tells folder.old) → (bytes : List ℕ → List ℕ) → SettlesRows (silent_request between.was.now between.is.now bytes) (F.outside.state folder.old).held table.now.rows.items settled.now }
    requires looked { IsTrue (F.outside.tells folder.old) → AllByRecursion (HasLooked (F.outside.state folder.old).held) table.now.rows.items }
    ensures given { IfOk result (λ files. (bytes : List ℕ → List ℕ) → IsAnswered (given F.outside S.outside folder.old source.old between.entry) between.entry.was.now between.entry.is.now bytes before.now after.now (Ok (files_seen files))) }
    ensures refused { IfBad result (λ why. (why ≡ fault.FolderFault) ⊎ ((bytes : List ℕ → List ℕ) → IsAnswered (given F.outside S.outside folder.old source.old between.entry) between.entry.was.now between.entry.is.now bytes before.now after.now (Err why))) }
    ensures reads { Reads F.outside folder.old folder.new (result ≡ Err (Bad fault.FolderFault)) }
    ensures reads_source { Reads S.outside source.old source.new (result ≡ Err (Bad fault.SourceFault)) }
{
    match account_files(
        alloc,
        folder,
        source,
        between.new.publisher.as_str(),
        &table.rows,
        settled,
        before,
        after,
    ) {
        Ok(files) => Ok(files),
        Err(Or::Bad(why)) => Err(Or::Bad(why)),
        Err(Or::OutOfMemory) => Err(Or::OutOfMemory),
    }
}
