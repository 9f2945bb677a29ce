//! The account files that are due.

ghost use Rattle.std.specs.Prelude.{◌≡◌, ◌++◌, [], OnOk, IfOk, map};
ghost use Rattle.ips_books.specs.Seen.{texts};
ghost use Rattle.ips_due.specs.outstanding.Parts.{due_file};
ghost use Rattle.ips_account_files.specs.ledger.Editing.{due_book, due_books};

use ips_books::Books;
use ips_change::content::is_same;
use ips_due::outstanding::AccountFile;
use ips_text::RelPath;
use std::alloc::{AllocError, Global};

/// The mode of each account file.
#[derive(Clone, Copy, Drop)]
pub struct Modes {
    /// That of `etc/passwd`.
    pub passwd: u16,
    /// That of `etc/shadow`.
    pub shadow: u16,
    /// That of `etc/group`.
    pub group: u16,
}

/// The account files whose text changes, with these modes. How many bytes each has isn't asked here.
pub fn due(
    alloc: Global,
    modes: Modes,
    before: &Books,
    after: &Books,
) -> Result<Vec<AccountFile>, AllocError>
    ensures { IfOk result (λ files. map due_file files.items ≡ due_books modes (texts before.now) (texts after.now)) }
{
    let mut files = Vec::new(alloc);
    match add_all(alloc, modes, before, after, &mut files) {
        Ok(()) => Ok(files),
        Err(fault) => Err(fault),
    }
}

// Adds the account files whose text changes to none.
fn add_all(
    alloc: Global,
    modes: Modes,
    before: &Books,
    after: &Books,
    files: &mut Vec<AccountFile>,
) -> Result<(), AllocError>
    requires { files.old.items ≡ [] }
    ensures { OnOk result (map due_file files.new.items ≡ due_books modes (texts before.now) (texts after.now)) }
{
    add(
        alloc,
        b"etc/passwd",
        modes.passwd,
        &before.passwd,
        &after.passwd,
        files,
    )?;
    add(
        alloc,
        b"etc/shadow",
        modes.shadow,
        &before.shadow,
        &after.shadow,
        files,
    )?;
    add(
        alloc,
        b"etc/group",
        modes.group,
        &before.group,
        &after.group,
        files,
    )
}

// Adds the file at the path, where its text changes.
fn add(
    alloc: Global,
    path: &[u8],
    mode: u16,
    before: &[u8],
    after: &[u8],
    files: &mut Vec<AccountFile>,
) -> Result<(), AllocError>
    ensures { OnOk result (map due_file files.new.items ≡ map due_file files.old.items ++ due_book path.now mode before.now after.now) }
{
    if is_same(before, after) {
        return Ok(());
    }
    let Ok(path) = RelPath::parse(alloc, path) else {
        return Err(AllocError);
    };
    let bytes = Vec::from_slice(alloc, after)?;
    files.push(AccountFile { path, mode, bytes })?;
    Ok(())
}
