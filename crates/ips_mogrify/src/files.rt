//! The file of rules and the file of the manifest.

ghost use Rattle.std.specs.Prelude.{◌≡◌, IfOk, IfErr, OnOk, Err};
ghost use Rattle.ips_outside.specs.Outside.{Reads};
ghost use Rattle.ips_mogrify.specs.Outcome.{source_seen, IsFitFile, IsSomeFile};
ghost use Rattle.ips_mogrify.specs.Reading.{AreUnread, IsUnreadAt, IsAbsentFile, IsAbsenceTold, IsFileFaultTold};
ghost use Rattle.ips_mogrify.specs.declared.status.MogrifyOutcome.TheVariants as outcome;

use crate::asked::Asked;
use crate::status::MogrifyOutcome;
use ips_files::{FileFault, find_file, read_whole};
use ips_outside::{Failed, Source};
use ips_text::{Or, RelPath, Which};
use std::alloc::Global;

/// The greatest number of bytes of a file.
const MOST_BYTES: u64 = 16_777_216;

/// The bytes of both files.
#[derive(Drop)]
pub struct Files {
    pub rules: Vec<u8>,
    pub manifest: Vec<u8>,
}

/// Reads both files. That one is missing is told before that one is too large, and of both the rules' file first.
pub fn read_files<S: Source>(
    alloc: Global,
    asked: &Asked,
    source: &mut S,
) -> Result<Files, MogrifyOutcome>
    ensures rules { IfOk result (λ files. IsFitFile (source_seen S.outside source.old) asked.now.rules.bytes files.rules.items) }
    ensures manifest { IfOk result (λ files. IsFitFile (source_seen S.outside source.old) asked.now.manifest.bytes files.manifest.items) }
    ensures unread { IfErr result (AreUnread (source_seen S.outside source.old) asked.now.rules.bytes asked.now.manifest.bytes) }
    ensures reads { Reads S.outside source.old source.new (result ≡ Err outcome.SourceFault) }
{
    find(alloc, &asked.rules, source)?;
    find(alloc, &asked.manifest, source)?;
    let rules = read(alloc, &asked.rules, source)?;
    match read(alloc, &asked.manifest, source) {
        Ok(manifest) => Ok(Files { rules, manifest }),
        Err(outcome) => Err(outcome),
    }
}

// Whether a file stands at the path.
fn find<S: Source>(alloc: Global, path: &RelPath, source: &mut S) -> Result<(), MogrifyOutcome>
    ensures found { OnOk result (IsSomeFile (source_seen S.outside source.old) path.now.bytes) }
    ensures unfound { IfErr result (IsAbsentFile (source_seen S.outside source.old) path.now.bytes) }
    ensures reads { Reads S.outside source.old source.new (result ≡ Err outcome.SourceFault) }
{
    match find_file(source, path) {
        Ok(Some(_)) => Ok(()),
        Ok(None) => Err(missing(alloc, path)),
        Err(Failed) => Err(MogrifyOutcome::SourceFault),
    }
}

// The bytes of the file at the path.
fn read<S: Source>(alloc: Global, path: &RelPath, source: &mut S) -> Result<Vec<u8>, MogrifyOutcome>
    ensures found { IfOk result (λ bytes. IsFitFile (source_seen S.outside source.old) path.now.bytes bytes.items) }
    ensures unread { IfErr result (IsUnreadAt (source_seen S.outside source.old) path.now.bytes) }
    ensures reads { Reads S.outside source.old source.new (result ≡ Err outcome.SourceFault) }
{
    match read_whole(alloc, source, path, MOST_BYTES) {
        Ok(bytes) => Ok(bytes),
        Err(Or::Bad(fault)) => Err(unread(alloc, path, fault)),
        Err(Or::OutOfMemory) => Err(MogrifyOutcome::OutOfMemory),
    }
}

// Why the file at the path isn't read.
fn unread(alloc: Global, path: &RelPath, fault: FileFault) -> MogrifyOutcome
    ensures { IsFileFaultTold fault path.now.bytes result }
{
    match fault {
        FileFault::Missing => missing(alloc, path),
        FileFault::TooLarge { count } => MogrifyOutcome::TooLarge {
            which: Which::ManifestBytes,
            count,
        },
        FileFault::SourceFault => MogrifyOutcome::SourceFault,
    }
}

// No file stands at the path.
fn missing(alloc: Global, path: &RelPath) -> MogrifyOutcome
    ensures { IsAbsenceTold path.now.bytes result }
{
    match path.copy(alloc) {
        Ok(path) => MogrifyOutcome::FileMissing { path },
        Err(_) => MogrifyOutcome::OutOfMemory,
    }
}
