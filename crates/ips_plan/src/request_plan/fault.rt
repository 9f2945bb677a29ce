//! Why there is no plan.

ghost use Rattle.std.specs.Prelude.{◌≡◌, Ok, IfOk};
ghost use Rattle.ips_account_files.specs.declared.ledger.fault.LedgerFault.TheVariants as ledger;
ghost use Rattle.ips_plan.specs.request_plan.Causes as causes;
ghost use Rattle.ips_plan.specs.declared.request_plan.fault.PlanFault.TheVariants as fault;

use crate::image_plan::BehindFault;
use ips_account_files::ledger::LedgerFault;
use ips_books::{AccountFault, Book};
use ips_conflict::Clash;
use ips_digest::PayloadName;
use ips_meaning::WantFault;
use ips_repo::RepoFault;
use ips_text::{RelPath, Text, Which};
use std::alloc::{AllocError, Global};

/// Why a request has no plan.
#[derive(Drop)]
pub enum PlanFault {
    /// An action gives a path where the image keeps its own records.
    Reserved {
        /// The least such path.
        path: RelPath,
    },
    /// Two actions can't stand in one image.
    Clash(Clash),
    /// A line of an account file isn't one; line 0 tells that no file stands there, or is wanted.
    BadAccountLine {
        /// The file.
        book: Book,
        /// The number of the line, from 1 on, or 0.
        line: u64,
    },
    /// The number that a user or a group wants is another name's.
    IdTaken {
        /// The number.
        id: u32,
    },
    /// An owner or a group is unknown.
    UnknownOwner {
        /// The path whose owner or group it is; `etc/group` for the group of a user.
        path: RelPath,
        /// The name.
        name: Text,
    },
    /// Newly delivered licenses must be accepted.
    LicenseNeeded {
        /// These.
        list: Vec<Text>,
    },
    /// The request can't be carried out.
    Unmovable {
        /// The first path, by its bytes, at which it can't.
        path: RelPath,
    },
    /// A payload that is laid at an account file has a fault.
    Payload {
        /// The payload's name.
        name: PayloadName,
        /// What is wrong with it.
        fault: RepoFault,
    },
    /// A count is greater than its limit.
    TooLarge {
        /// The limit.
        which: Which,
        /// The count.
        count: u64,
    },
    /// A call on the repository failed.
    SourceFault,
    /// A call on the folder failed.
    FolderFault,
}

/// The fault of packages that mean no image.
pub(crate) fn unmeant(why: WantFault) -> PlanFault
    ensures { result ≡ causes.unmeant why }
{
    match why {
        WantFault::Reserved { path } => PlanFault::Reserved { path },
        WantFault::Clash(clash) => PlanFault::Clash(clash),
    }
}

/// The fault of account files that aren't given.
pub(crate) fn ungiven(alloc: Global, why: LedgerFault) -> Result<PlanFault, AllocError>
    ensures told { IfOk result (causes.IsUngiven why) }
    ensures folder { IfOk result (λ f. f ≡ fault.FolderFault → why ≡ ledger.FolderFault) }
    ensures source { IfOk result (λ f. f ≡ fault.SourceFault → why ≡ ledger.SourceFault) }
    ensures failed_folder { why ≡ ledger.FolderFault → result ≡ Ok fault.FolderFault }
    ensures failed_source { why ≡ ledger.SourceFault → result ≡ Ok fault.SourceFault }
{
    match why {
        LedgerFault::Payload { name, fault } => Ok(PlanFault::Payload { name, fault }),
        LedgerFault::TooLarge { count } => Ok(PlanFault::TooLarge {
            which: Which::AccountBytes,
            count,
        }),
        LedgerFault::Account(account) => unedited(alloc, account),
        LedgerFault::SourceFault => Ok(PlanFault::SourceFault),
        LedgerFault::FolderFault => Ok(PlanFault::FolderFault),
    }
}

// The fault of account files that can't be edited.
fn unedited(alloc: Global, why: AccountFault) -> Result<PlanFault, AllocError>
    ensures told { IfOk result (causes.IsUnedited why) }
    ensures folder { IfOk result (λ f. f ≡ fault.FolderFault → ⊥) }
    ensures source { IfOk result (λ f. f ≡ fault.SourceFault → ⊥) }
{
    match why {
        AccountFault::BadAccountLine { book, line } => Ok(PlanFault::BadAccountLine { book, line }),
        AccountFault::IdTaken { id } => Ok(PlanFault::IdTaken { id }),
        AccountFault::UnknownGroup { name } => {
            let path = group_path(alloc)?;
            Ok(PlanFault::UnknownOwner { path, name })
        }
    }
}

/// The fault of steps that there aren't.
pub(crate) fn unlaid(why: BehindFault) -> PlanFault
    ensures { result ≡ causes.unlaid why }
{
    match why {
        BehindFault::UnknownOwner(unknown) => PlanFault::UnknownOwner {
            path: unknown.path,
            name: unknown.name,
        },
        BehindFault::LicenseNeeded(list) => PlanFault::LicenseNeeded { list },
        BehindFault::Unmovable(path) => PlanFault::Unmovable { path },
        BehindFault::TooLarge(excess) => PlanFault::TooLarge {
            which: excess.which,
            count: excess.count,
        },
        BehindFault::FolderFault => PlanFault::FolderFault,
    }
}

// The path of the groups.
fn group_path(alloc: Global) -> Result<RelPath, AllocError>
    ensures { IfOk result (λ path. path.bytes ≡ causes.group_path) }
{
    match RelPath::parse(alloc, b"etc/group") {
        Ok(path) => Ok(path),
        Err(_) => Err(AllocError),
    }
}
