//! Laws of the account files behind a request, each the contract of a function that does nothing.

ghost use Rattle.std.specs.Prelude.{◌≡◌, ℕ, IsTrue, List, Ok, Result};
ghost use Rattle.ips_action.specs.Action.{Fields};
ghost use Rattle.ips_after.specs.Request.{Request};
ghost use Rattle.ips_change.specs.Told.{naming};
ghost use Rattle.ips_due.specs.Due.{Due, FitsAccounts};
ghost use Rattle.ips_account_files.specs.declared.ledger.fault.LedgerFault as fault_of;
ghost use Rattle.ips_account_files.specs.ledger.Base.{ArePayloads, IsFileRead};
ghost use Rattle.ips_account_files.specs.ledger.Left.{AreSmallWanted, own_left};
ghost use Rattle.ips_account_files.specs.Around.{Around};
ghost use Rattle.ips_account_files.specs.Bases.{IsBaseOf};
ghost use Rattle.ips_account_files.specs.Behind.{Behind, Files, IsTold};
ghost use Rattle.ips_account_files.specs.Laws.{AreAccounts, AreApart, HaveSmallModes};

/// Where folder and repository tell what they hold, just one answer is right of a request, unless a call failed.
pub fn answers_are_one()
    ensures { (a : Around) (r : Request) (old new : List Fields) (x y : Result Files fault_of.LedgerFault) → IsTrue a.told → IsTrue a.tells → Behind a r old new x → Behind a r old new y → IsTold x → IsTold y → x ≡ y }
{}

/// The files that are due are account files, no two at one path, and have modes of permission bits where what is wanted has.
pub fn due_files_are_proper()
    ensures paths { (a : Around) (r : Request) (old new : List Fields) (files : Files) → Behind a r old new (Ok files) → AreAccounts files.due }
    ensures apart { (a : Around) (r : Request) (old new : List Fields) (files : Files) → Behind a r old new (Ok files) → AreApart files.due }
    ensures modes { (a : Around) (r : Request) (old new : List Fields) (files : Files) → Behind a r old new (Ok files) → AreSmallWanted r.new → HaveSmallModes files.due }
{}

/// What is wanted fits them: where one is due a file is wanted, if anything is, and above it nothing but directories.
pub fn due_files_fit()
    ensures { (a : Around) (r : Request) (old new : List Fields) (files : Files) (due : Due) → Behind a r old new (Ok files) → due.accounts ≡ files.due → FitsAccounts due r.new }
{}

/// Where folder and repository tell what they hold, the text and the mode before the edit are those of the file that the request leaves, with the bytes that
/// payloads have in the repository.
pub fn bases_are_files()
    ensures { (a : Around) (r : Request) (path : List ℕ) (default : ℕ) (text : List ℕ) (mode : ℕ) → IsTrue a.told → IsTrue a.tells → ArePayloads a.tells a.publisher a.repository r.bytes → IsBaseOf a r path default text mode
        → IsFileRead default (own_left (naming r) a.image a.emptied path) text mode }
{}
