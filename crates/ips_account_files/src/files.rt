//! The account files behind a request.

ghost use Rattle.std.specs.Prelude.{◌≡◌};
ghost use Rattle.ips_account_files.specs.Behind.{files_seen, no_files};

use ips_books::Books;
use ips_due::outstanding::AccountFile;
use std::alloc::Global;

/// The account files behind a request.
#[derive(Drop)]
pub struct AccountFiles {
    /// Their texts; where no user and no group is admitted they aren't read and are empty, and just the names that need no line are known.
    pub books: Books,
    /// Those whose text changes, each with the mode that is left there.
    pub due: Vec<AccountFile>,
}

impl AccountFiles {
    /// No text, and nothing is due.
    pub(crate) fn none(alloc: Global) -> AccountFiles
        ensures { files_seen result ≡ no_files }
    {
        AccountFiles {
            books: Books {
                passwd: Vec::new(alloc),
                shadow: Vec::new(alloc),
                group: Vec::new(alloc),
            },
            due: Vec::new(alloc),
        }
    }
}
