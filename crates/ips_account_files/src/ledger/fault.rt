//! Why account files aren't given.

use ips_books::AccountFault;
use ips_digest::PayloadName;
use ips_repo::RepoFault;

/// Why the account files behind a request aren't given.
#[derive(Drop)]
pub enum LedgerFault {
    /// A payload that is laid at an account file has a fault.
    Payload {
        /// The payload's name.
        name: PayloadName,
        /// What is wrong: it is missing, too large, damaged or compressed.
        fault: RepoFault,
    },
    /// The text of what is left at an account file has more bytes than one may have, which is the limit `AccountBytes`.
    TooLarge {
        /// How many bytes.
        count: u64,
    },
    /// The files can't be edited.
    Account(AccountFault),
    /// A call on the repository failed.
    SourceFault,
    /// A call on the folder failed.
    FolderFault,
}
