//! The account files, with their lines found by name and by number.

ghost use Rattle.std.specs.Prelude.{◌≡◌, IfOk};
ghost use Rattle.ips_books.specs.Reading.{texts_of};
ghost use Rattle.ips_books.specs.Seen.{files_seen, texts};
ghost use Rattle.ips_accounts.specs.Seen.{tables_seen};

use ips_books::{Books, Files, print_books};
use ips_passwd::{Named, Numbered};
use std::alloc::{AllocError, Global};

/// The three files. The lines of `etc/shadow` have no numbers.
#[derive(Drop)]
pub struct Tables {
    pub passwd: Numbered,
    pub shadow: Named,
    pub group: Numbered,
}

impl Tables {
    /// These files.
    pub fn new(alloc: Global, files: Files) -> Result<Tables, AllocError>
        ensures { IfOk result (λ tables. tables_seen tables ≡ files_seen files) }
    {
        let Files {
            passwd,
            shadow,
            group,
        } = files;
        let passwd = Numbered::new(alloc, Named::new(alloc, passwd)?)?;
        let shadow = Named::new(alloc, shadow)?;
        let group = Numbered::new(alloc, Named::new(alloc, group)?)?;
        Ok(Tables {
            passwd,
            shadow,
            group,
        })
    }

    /// The texts of the files.
    pub fn print(&self, alloc: Global) -> Result<Books, AllocError>
        ensures { IfOk result (λ books. texts books ≡ texts_of (tables_seen self.now)) }
    {
        print_books(
            alloc,
            self.passwd.named().lines(),
            self.shadow.lines(),
            self.group.named().lines(),
        )
    }
}
