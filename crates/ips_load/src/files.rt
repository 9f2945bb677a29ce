//! Files of records, read whole from a folder.

ghost use Rattle.std.specs.Prelude.{◌≡◌, ◌≤◌, IsTrue, IfOk, IfNone, IfSome, length, map};
ghost use Rattle.std.specs.List.{AllByRecursion};
ghost use Rattle.ips_text.specs.Path.{IsPath};
ghost use Rattle.ips_text.specs.Reading.{IfBad};
ghost use Rattle.ips_text.specs.declared.refusal.Or.TheVariants.{Bad};
ghost use Rattle.ips_outside.specs.Outside.{Reads};
ghost use Rattle.ips_records.specs.Lines.{lines_text};
ghost use Rattle.ips_records.specs.Listed.{Chain, IsListed};
ghost use Rattle.ips_load.specs.Held.{record_limit, Stands};
ghost use Rattle.ips_load.specs.Fault.{IsBadText, IsUnread, IsFileFault, IsFaultFor, IfFault, TellsLine};
ghost use Rattle.ips_load.specs.declared.fault.StateFault.TheVariants as fault;

use crate::fault::StateFault;
use ips_files::{FileFault, read_whole};
use ips_outside::Source;
use ips_records::{Listing, read_list};
use ips_text::{Or, RelPath, Which};
use std::alloc::{AllocError, Global};

/// The most bytes that a record may have.
const RECORD_BYTES: u64 = 67_108_864;

/// The path of these bytes.
pub fn path_of(alloc: Global, bytes: &[u8]) -> Result<RelPath, AllocError>
    requires { IsPath bytes.now }
    ensures { IfOk result (λ path. path.bytes ≡ bytes.now) }
{
    match RelPath::parse(alloc, bytes) {
        Ok(path) => Ok(path),
        Err(Or::Bad(_)) => unreachable!(),
        Err(Or::OutOfMemory) => Err(AllocError),
    }
}

/// The bytes of the record at a path.
pub fn load_bytes<F: Source>(
    alloc: Global,
    folder: &mut F,
    path: &RelPath,
) -> Result<Vec<u8>, Or<StateFault>>
    ensures found { IsTrue (F.outside.tells folder.old) → IfOk result (λ bytes. Stands (F.outside.state folder.old).held path.now.bytes bytes.items) }
    ensures within { IfOk result (λ bytes. length bytes.items ≤ record_limit) }
    ensures fault { IsTrue (F.outside.tells folder.old) → IfBad result (IsUnread (F.outside.state folder.old).held path.now.bytes) }
    ensures reads { Reads F.outside folder.old folder.new (result ≡ Err (Bad fault.FolderFault)) }
{
    match read_whole(alloc, folder, path, RECORD_BYTES) {
        Ok(bytes) => Ok(bytes),
        Err(Or::Bad(fault)) => Err(unread(alloc, path, fault)),
        Err(Or::OutOfMemory) => Err(Or::OutOfMemory),
    }
}

// Why the record at a path isn't read.
fn unread(alloc: Global, path: &RelPath, fault: FileFault) -> Or<StateFault>
    ensures { IsFaultFor fault path.now.bytes result }
{
    match fault {
        FileFault::Missing => bad_line(alloc, path, 0),
        FileFault::TooLarge { count } => Or::Bad(StateFault::TooLarge {
            which: Which::ImageFileBytes,
            count,
        }),
        FileFault::SourceFault => Or::Bad(StateFault::FolderFault),
    }
}

/// A bad line of the record at a path.
pub fn bad_line(alloc: Global, path: &RelPath, line: u64) -> Or<StateFault>
    ensures { IfFault result (TellsLine path.now.bytes line) }
{
    match path.copy(alloc) {
        Ok(file) => Or::Bad(StateFault::BadImage { file, line }),
        Err(_) => Or::OutOfMemory,
    }
}

/// The items of the record at a path, which lists one a line.
pub fn load_list<F: Source, L: Listing>(
    alloc: Global,
    folder: &mut F,
    path: &RelPath,
) -> Result<Vec<L::Item>, Or<StateFault>>
    ensures fits { IfOk result (λ items. AllByRecursion L.fits items.items) }
    ensures chain { IfOk result (λ items. Chain L.follows items.items) }
    ensures found { IsTrue (F.outside.tells folder.old) → IfOk result (λ items. Stands (F.outside.state folder.old).held path.now.bytes (lines_text (map L.line items.items))) }
    ensures fault { IsTrue (F.outside.tells folder.old) → IfBad result (IsFileFault (IsBadText (IsListed L.line L.fits L.follows)) (F.outside.state folder.old).held path.now.bytes) }
    ensures reads { Reads F.outside folder.old folder.new (result ≡ Err (Bad fault.FolderFault)) }
{
    let bytes = load_bytes(alloc, folder, path)?;
    match read_list::<L>(alloc, &bytes) {
        Ok(items) => Ok(items),
        Err(Or::Bad(line)) => Err(bad_line(alloc, path, line)),
        Err(Or::OutOfMemory) => Err(Or::OutOfMemory),
    }
}
