//! Laws of what is due, each the contract of a function that does nothing.

ghost use Rattle.std.specs.Prelude.{◌<◌};
ghost use Rattle.ips_books.specs.Reading.{Texts};
ghost use Rattle.ips_account_files.specs.ledger.Editing.{due_books};
ghost use Rattle.ips_account_files.specs.declared.ledger.outdated.Modes.{Modes};
ghost use Rattle.ips_request_due.specs.RequestDue.{AreAccountFiles};

/// The account files whose text changes are such as a request asks for, where their modes are permission bits.
pub fn changed_files_are_account_files()
    ensures { (modes : Modes) (before after : Texts) → modes.passwd < 4096 → modes.shadow < 4096 → modes.group < 4096 → AreAccountFiles (due_books modes before after) }
{}
