//! The edit of the account files, and what it makes due.

ghost use Rattle.std.specs.Prelude.{◌≡◌, Ok, IfOk};
ghost use Rattle.ips_text.specs.Reading.{IfBad};
ghost use Rattle.ips_books.specs.Seen.{texts};
ghost use Rattle.ips_account_files.specs.ledger.Editing.{due_books, edited_where};
ghost use Rattle.ips_account_files.specs.Behind.{IsEditRefused, files_seen};

use crate::bases::Bases;
use crate::files::AccountFiles;
use crate::ledger::{LedgerFault, due, edit_where};
use ips_action::Action;
use ips_books::Books;
use ips_text::Or;
use std::alloc::{AllocError, Global};

/// What an edit makes of these files, and which of them are due then.
pub(crate) fn edited(
    alloc: Global,
    bases: &Bases,
    old: &[Action],
    new: &[Action],
) -> Result<AccountFiles, Or<LedgerFault>>
    ensures edit { IfOk result (λ files. edited_where bases.now.blocked (texts bases.now.books) old.now new.now ≡ Ok (texts files.books)) }
    ensures due { IfOk result (λ files. (files_seen files).due ≡ due_books bases.now.modes (texts bases.now.books) (texts files.books)) }
    ensures refused { IfBad result (IsEditRefused bases.now.blocked (texts bases.now.books) old.now new.now) }
{
    match edit_where(alloc, bases.blocked, &bases.books, old, new) {
        Ok(books) => Ok(with_due(alloc, bases, books)?),
        Err(Or::Bad(why)) => Err(Or::Bad(LedgerFault::Account(why))),
        Err(Or::OutOfMemory) => Err(Or::OutOfMemory),
    }
}

// These texts, with which of them are due.
fn with_due(alloc: Global, bases: &Bases, books: Books) -> Result<AccountFiles, AllocError>
    ensures books { IfOk result (λ files. files.books ≡ books) }
    ensures due { IfOk result (λ files. (files_seen files).due ≡ due_books bases.now.modes (texts bases.now.books) (texts books)) }
{
    match due(alloc, bases.modes, &bases.books, &books) {
        Ok(due) => Ok(AccountFiles { books, due }),
        Err(fault) => Err(fault),
    }
}
