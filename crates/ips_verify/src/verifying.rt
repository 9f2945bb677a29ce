//! All findings of an image.

ghost use Rattle.std.specs.Prelude.{◌≡◌, ◌<◌, ◌++◌, [], Some, IsTrue, IfOk, OnOk, length, map};
ghost use Rattle.ips_outside.specs.Outside.{Reads};
ghost use Rattle.ips_after.specs.Findings as after;
ghost use Rattle.ips_change.specs.wanted.Wanted.{want_of, wanted_of};
ghost use Rattle.ips_change.specs.wanted.Named.{is_payload_of};
ghost use Rattle.ips_change.specs.content.Failing.{HasFailed};
ghost use Rattle.ips_verify.specs.Verified.{damage_told, finding_told};

use crate::damage::damage_at;
use ips_files::CHUNK;
use ips_folder::Folder;
use ips_meaning::{Damage, Entry, Finding, Want};
use ips_outside::Failed;
use ips_text::{Or, RelPath};
use std::alloc::{AllocError, Global};

/// What is found in an image against what is wanted, in the order of the wanted paths: at each the first damage that holds.
pub fn findings<F: Folder>(
    alloc: Global,
    want: &Want,
    folder: &mut F,
) -> Result<Vec<Finding>, Or<Failed>>
    ensures found { IsTrue (F.outside.tells folder.old) → IfOk result (λ found. map finding_told found.items ≡ after.findings is_payload_of (want_of want.now) (F.outside.state folder.old).held) }
    ensures reads { Reads F.outside folder.old folder.new (HasFailed result) }
{
    let mut buffer = vec![in alloc; 0u8; CHUNK]?;
    let mut found = Vec::new(alloc);
    match find(alloc, want, folder, &mut buffer, &mut found) {
        Ok(()) => Ok(found),
        Err(fault) => Err(fault),
    }
}

// Adds what is found at each wanted path.
fn find<F: Folder>(
    alloc: Global,
    want: &Want,
    folder: &mut F,
    buffer: &mut [u8],
    found: &mut Vec<Finding>,
) -> Result<(), Or<Failed>>
    requires room { 0 < length buffer.old }
    ensures found { IsTrue (F.outside.tells folder.old) → OnOk result (map finding_told found.new.items ≡ map finding_told found.old.items ++ after.findings is_payload_of (want_of want.now) (F.outside.state folder.old).held) }
    ensures reads { Reads F.outside folder.old folder.new (HasFailed result) }
{
    for i in 0..want.len() {
        let Some((path, entry)) = want.at(i) else {
            unreachable!();
        };
        if let Err(fault) = add(alloc, path, entry, folder, buffer, found) {
            return Err(fault);
        }
    }
    Ok(())
}

// Adds what is found at a path at which the entry is wanted.
fn add<F: Folder>(
    alloc: Global,
    path: &RelPath,
    entry: &Entry,
    folder: &mut F,
    buffer: &mut [u8],
    found: &mut Vec<Finding>,
) -> Result<(), Or<Failed>>
    requires room { 0 < length buffer.old }
    ensures found { IsTrue (F.outside.tells folder.old) → OnOk result (map finding_told found.new.items ≡ map finding_told found.old.items ++ after.with_finding path.now.bytes (after.finding_as is_payload_of (F.outside.state folder.old).held path.now.bytes (wanted_of entry.now)) []) }
    ensures reads { Reads F.outside folder.old folder.new (HasFailed result) }
{
    match damage_at(alloc, folder, path, entry, buffer) {
        Ok(None) => Ok(()),
        Ok(Some(damage)) => match push(alloc, path, damage, found) {
            Ok(()) => Ok(()),
            Err(AllocError) => Err(Or::OutOfMemory),
        },
        Err(fault) => Err(fault),
    }
}

// Adds a finding.
fn push(
    alloc: Global,
    path: &RelPath,
    damage: Damage,
    found: &mut Vec<Finding>,
) -> Result<(), AllocError>
    ensures { OnOk result (map finding_told found.new.items ≡ map finding_told found.old.items ++ after.with_finding path.now.bytes (Some (damage_told damage)) []) }
{
    let path = path.copy(alloc)?;
    found.push(Finding { path, damage })?;
    Ok(())
}
