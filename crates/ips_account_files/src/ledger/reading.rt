//! The texts of files that are left.

ghost use Rattle.std.specs.Prelude.{◌≡◌, ◌≤◌, IsTrue, IfOk, Err, length};
ghost use Rattle.ips_text.specs.Reading.{IfBad};
ghost use Rattle.ips_text.specs.declared.refusal.Or.TheVariants.{Bad};
ghost use Rattle.ips_outside.specs.Outside.{Reads, readable};
ghost use Rattle.ips_files.specs.Files.{file_at};
ghost use Rattle.ips_account_files.specs.declared.ledger.fault.LedgerFault.TheVariants as fault;
ghost use Rattle.ips_account_files.specs.ledger.Texts.{IsStandingUnread, IsTextLeft, IsTextUnread, account_limit};

use crate::ledger::fault::LedgerFault;
use crate::ledger::left::Left;
use crate::ledger::payload::{ACCOUNT_BYTES, read_payload};
use ips_files::{FileFault, read_whole};
use ips_outside::Source;
use ips_text::{Or, RelPath};
use std::alloc::Global;

/// The text of the file that is left at the path: nothing, that of the file that stands there, or that of the payload.
///
/// # Errors
///
/// `Payload` where the payload has a fault, `TooLarge` where the text has more bytes than an account file may have, `SourceFault` where the repository failed
/// and `FolderFault` where the folder did.
pub fn read_left<F: Source, S: Source>(
    alloc: Global,
    folder: &mut F,
    source: &mut S,
    publisher: &str,
    path: &RelPath,
    left: Left,
) -> Result<Vec<u8>, Or<LedgerFault>>
    ensures text { IfOk result (λ text. IsTextLeft (F.outside.tells folder.old) ((F.outside.state folder.old).held.look path.now.bytes) (S.outside.tells source.old) publisher.now (S.outside.state source.old).held left text.items) }
    ensures within { IfOk result (λ text. length text.items ≤ account_limit) }
    ensures refused { IfBad result (IsTextUnread (F.outside.tells folder.old) (file_at (F.outside.state folder.old).held path.now.bytes) (S.outside.tells source.old) publisher.now (S.outside.state source.old).held left) }
    ensures reads { Reads F.outside folder.old folder.new (result ≡ Err (Bad fault.FolderFault)) }
    ensures reads_source { Reads S.outside source.old source.new (result ≡ Err (Bad fault.SourceFault)) }
{
    match left {
        Left::Nothing => Ok(Vec::new(alloc)),
        Left::Standing { .. } => read_standing(alloc, folder, path),
        Left::Laid { payload, .. } => read_payload(alloc, source, publisher, &payload),
    }
}

// The text of the file that stands at the path; nothing where none does.
fn read_standing<F: Source>(
    alloc: Global,
    folder: &mut F,
    path: &RelPath,
) -> Result<Vec<u8>, Or<LedgerFault>>
    ensures text { IsTrue (F.outside.tells folder.old) → IfOk result (λ text. text.items ≡ readable ((F.outside.state folder.old).held.look path.now.bytes)) }
    ensures within { IfOk result (λ text. length text.items ≤ account_limit) }
    ensures refused { IfBad result (IsStandingUnread (F.outside.tells folder.old) (file_at (F.outside.state folder.old).held path.now.bytes)) }
    ensures reads { Reads F.outside folder.old folder.new (result ≡ Err (Bad fault.FolderFault)) }
{
    match read_whole(alloc, folder, path, ACCOUNT_BYTES) {
        Ok(text) => Ok(text),
        Err(Or::Bad(FileFault::Missing)) => Ok(Vec::new(alloc)),
        Err(Or::Bad(FileFault::TooLarge { count })) => Err(Or::Bad(LedgerFault::TooLarge {
            count,
        })),
        Err(Or::Bad(FileFault::SourceFault)) => Err(Or::Bad(LedgerFault::FolderFault)),
        Err(Or::OutOfMemory) => Err(Or::OutOfMemory),
    }
}
