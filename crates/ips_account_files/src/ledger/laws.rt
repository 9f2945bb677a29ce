//! Laws of account files, each the contract of a function that does nothing.

ghost use Rattle.std.specs.Prelude.{ℕ, Bool, true, List, Option};
ghost use Rattle.ips_outside.specs.Image.{Image};
ghost use Rattle.ips_after.specs.Request.{IsRequest, Request};
ghost use Rattle.ips_change.specs.Told.{naming};
ghost use Rattle.ips_change.specs.declared.survey.row.Row as rows_of;
ghost use Rattle.ips_change.specs.declared.survey.said.Said as saying;
ghost use Rattle.ips_change.specs.survey.Tables.{IsTable};
ghost use Rattle.ips_emptied.specs.declared.settled.Settled as settled_of;
ghost use Rattle.ips_emptied.specs.Joining.{SettlesRows};
ghost use Rattle.ips_account_files.specs.ledger.Base.{ArePayloads, IsBase, IsFileRead};
ghost use Rattle.ips_account_files.specs.ledger.Left.{AreReplaced, IsSilent, emptied_by, own_left};

/// Where folder and repository tell what they hold, the base of an account file is the file that each request of these rows leaves there, with the bytes
/// that payloads have in the repository.
pub fn bases_are_what_is_left()
    ensures { (t : Image) (rows : List rows_of.Row) (s : settled_of.Settled) (replaced : List Bool) (path : List ℕ) (default : ℕ) (publisher : List ℕ) (repository : Image) (text : List ℕ) (mode : ℕ) (r : Request) (said : List (Option saying.Said))
        → IsBase true t rows s replaced path default true publisher repository text mode → IsRequest r → IsTable r rows said → IsSilent r → SettlesRows r t rows s → AreReplaced r t rows s replaced → ArePayloads true publisher repository r.bytes
        → IsFileRead default (own_left (naming r) t (emptied_by rows s) path) text mode }
{}
