//! Contents, written into the stage one by one, and what is tried beside them.

ghost use Rattle.std.specs.Prelude.{◌≡◌, ◌⊎◌, ◌<◌, ◌≤◌, ℕ, List, Some, None, Err, IsTrue, IsFalse, IsErr, IfOk, IfErr, OnOk, length, map};
ghost use Rattle.ips_text.specs.Ancestry.{covers, is_below};
ghost use Rattle.ips_text.specs.Reading.{IfBad};
ghost use Rattle.ips_text.specs.declared.refusal.Or.TheVariants.{Bad};
ghost use Rattle.ips_outside.specs.Image.{is_dir, is_file, file_bytes};
ghost use Rattle.ips_outside.specs.State.{ChangedWithin, nowhere};
ghost use Rattle.ips_outside.specs.Outside.{HasCause, Reads};
ghost use Rattle.ips_folder.specs.Calls.{CanMake, ChangesOnly};
ghost use Rattle.ips_steps.specs.Steps.{stage_name, stage_of};
ghost use Rattle.ips_steps.specs.Journal.{IsJournal};
ghost use Rattle.ips_steps.specs.View.{step_of};
ghost use Rattle.ips_journal.specs.Reading.{puts_in};
ghost use Rattle.ips_repo.specs.Files.{file_at};
ghost use Rattle.ips_repo.specs.Places.{payload_place};
ghost use Rattle.ips_repo.specs.Payload.{IsOpened, IsFrontOf};
ghost use Rattle.ips_contents.specs.Contents.{IsContent, StagedContents, IsStanding, AreStanding, IsApart, AreSeen, IsIntact, IsIntactContent, IsPayload, SaysOfPayload, SaysOfContent, HoldsAlone, AreAlone, HaveModes, IsNextPut, mode_put, HoldsOnly};
ghost use Rattle.ips_contents.specs.Writing.{Stages, WasRehearsed, WritesAt};
ghost use Rattle.ips_contents.specs.declared.fault.StageFault.TheVariants as fault;

use crate::copying::copy;
use crate::fault::StageFault;
use crate::names::content_path;
use crate::payloads::write_payload;
use ips_digest::PayloadName;
use ips_folder::Folder;
use ips_journal::Staged;
use ips_outside::{Failed, Source};
use ips_rehearse::{Rehearsed, rehearse};
use ips_repo::{Payload, RepoFault};
use ips_steps::Step;
use ips_text::{Or, RelPath};
use std::alloc::Global;

/// Writes each content into the stage, a directory with nothing below it, under its number and with the mode of the step that
/// puts it. Then it tries there what the steps ask of the file system.
pub fn write_tried<'a, S: Source, F: Folder>(
    alloc: Global,
    publisher: &str,
    steps: &'a [Step],
    staged: &[Staged],
    source: &mut S,
    folder: &mut F,
    buffer: &mut [u8],
) -> Result<Rehearsed<'a>, Or<StageFault>>
    requires lists { IsJournal (map step_of steps.now) }
    requires counted { IsTrue (F.outside.tells folder.old) → puts_in (map step_of steps.now) ≡ length staged.now }
    requires stage { IsTrue (F.outside.tells folder.old) → IsTrue (is_dir ((F.outside.state folder.old).held.look stage_name)) }
    requires empty { IsTrue (F.outside.tells folder.old) → (q : List ℕ) → IsTrue (is_below stage_name q) → (F.outside.state folder.old).held.look q ≡ None }
    requires standing { IsTrue (F.outside.tells folder.old) → AreStanding (F.outside.state folder.old).held staged.now }
    requires seen { AreSeen staged.now }
    requires room { 0 < length buffer.old }
    ensures of { IfOk result (λ tried. tried ≡ map step_of steps.now) }
    ensures rehearsed { IsTrue (F.outside.tells folder.old) → OnOk result
        (WasRehearsed F.outside steps.now (length staged.now) (ChangedWithin (covers stage_name) (covers stage_name) (F.outside.state folder.old)) folder.old folder.new) }
    ensures written { IsTrue (F.outside.tells folder.old) → OnOk result
        (StagedContents (S.outside.tells source.old) (S.outside.state source.old).held publisher.now (F.outside.state folder.old).held staged.now (stage_of (F.outside.state folder.new).held)) }
    ensures modes { IsTrue (F.outside.tells folder.old) → OnOk result (HaveModes (map step_of steps.now) (F.outside.state folder.new).held) }
    ensures alone { IsTrue (F.outside.tells folder.old) → OnOk result (AreAlone (F.outside.state folder.new).held) }
    ensures stands { IsTrue (F.outside.tells folder.old) → OnOk result ((F.outside.state folder.new).held.look stage_name ≡ (F.outside.state folder.old).held.look stage_name) }
    ensures only { IsTrue (F.outside.tells folder.old) → OnOk result (HoldsOnly (length staged.now) (F.outside.state folder.new).held) }
    ensures any_moment { IsTrue (F.outside.tells folder.old) → ChangesOnly F.outside (covers stage_name) (covers stage_name) folder.old folder.new }
    ensures stages { Stages S.outside F.outside publisher.now staged.now (result ≡ Err (Bad fault.SourceFault)) source.old source.new folder.old folder.new result }
{
    write_contents(alloc, publisher, steps, staged, source, folder, buffer)?;
    match rehearse(alloc, steps, staged.len() as u64, folder) {
        Ok(tried) => Ok(tried),
        Err(Or::Bad(Failed)) => Err(Or::Bad(StageFault::FolderFault)),
        Err(Or::OutOfMemory) => Err(Or::OutOfMemory),
    }
}

// Writes the contents alone.
fn write_contents<S: Source, F: Folder>(
    alloc: Global,
    publisher: &str,
    steps: &[Step],
    staged: &[Staged],
    source: &mut S,
    folder: &mut F,
    buffer: &mut [u8],
) -> Result<(), Or<StageFault>>
    requires lists { IsJournal (map step_of steps.now) }
    requires counted { IsTrue (F.outside.tells folder.old) → puts_in (map step_of steps.now) ≡ length staged.now }
    requires stage { IsTrue (F.outside.tells folder.old) → IsTrue (is_dir ((F.outside.state folder.old).held.look stage_name)) }
    requires empty { IsTrue (F.outside.tells folder.old) → (q : List ℕ) → IsTrue (is_below stage_name q) → (F.outside.state folder.old).held.look q ≡ None }
    requires standing { IsTrue (F.outside.tells folder.old) → AreStanding (F.outside.state folder.old).held staged.now }
    requires seen { AreSeen staged.now }
    requires room { 0 < length buffer.old }
    ensures written { IsTrue (F.outside.tells folder.old) → OnOk result
        (StagedContents (S.outside.tells source.old) (S.outside.state source.old).held publisher.now (F.outside.state folder.old).held staged.now (stage_of (F.outside.state folder.new).held)) }
    ensures modes { IsTrue (F.outside.tells folder.old) → OnOk result (HaveModes (map step_of steps.now) (F.outside.state folder.new).held) }
    ensures alone { IsTrue (F.outside.tells folder.old) → OnOk result (AreAlone (F.outside.state folder.new).held) }
    ensures stands { IsTrue (F.outside.tells folder.old) → OnOk result ((F.outside.state folder.new).held.look stage_name ≡ (F.outside.state folder.old).held.look stage_name) }
    ensures only { IsTrue (F.outside.tells folder.old) → OnOk result (HoldsOnly (length staged.now) (F.outside.state folder.new).held) }
    ensures any_moment { IsTrue (F.outside.tells folder.old) → ChangesOnly F.outside (covers stage_name) (covers stage_name) folder.old folder.new }
    ensures stages { Stages S.outside F.outside publisher.now staged.now (result ≡ Err (Bad fault.SourceFault)) source.old source.new folder.old folder.new result }
{
    let mut place = 0;
    for (number, content) in staged.iter().enumerate() {
        let path = content_path(alloc, number as u64)?;
        let (mode, next) = next_put(steps, place);
        place = next;
        match write_content(
            alloc, publisher, content, mode, source, folder, &path, buffer,
        ) {
            Ok(()) => {}
            Err(fault) => return Err(fault),
        }
    }
    Ok(())
}

// The mode of the first content that the steps put from the place on, and the place behind that step. Where none is put there,
// it answers 0600 and the end.
fn next_put(steps: &[Step], place: usize) -> (u16, usize)
    requires within { place ≤ length steps.now }
    requires lists { IsJournal (map step_of steps.now) }
    ensures { IsNextPut (map step_of steps.now) place result.0 result.1 }
{
    for at in place..steps.len() {
        if let Some(mode) = put_mode(&steps[at]) {
            return (mode, at + 1);
        }
    }
    (0o600, steps.len())
}

// The mode of the content that the step puts.
fn put_mode(step: &Step) -> Option<u16>
    ensures { result ≡ mode_put (step_of step.now) }
{
    match step {
        Step::Put { mode, .. } => Some(*mode),
        _ => None,
    }
}

// Writes one content to the path, with this mode.
fn write_content<S: Source, F: Folder>(
    alloc: Global,
    publisher: &str,
    content: &Staged,
    mode: u16,
    source: &mut S,
    folder: &mut F,
    path: &RelPath,
    buffer: &mut [u8],
) -> Result<(), Or<StageFault>>
    requires can { IsTrue (F.outside.tells folder.old) → CanMake (F.outside.state folder.old).held path.now.bytes }
    requires standing { IsTrue (F.outside.tells folder.old) → IsStanding (F.outside.state folder.old).held content.now }
    requires apart { IsApart path.now.bytes content.now }
    requires mode { mode < 4096 }
    requires room { 0 < length buffer.old }
    ensures written { IsTrue (F.outside.tells folder.old) → OnOk result ((bytes : List ℕ)
        × HoldsAlone path.now.bytes mode bytes (F.outside.state folder.new).held
        × IsContent (S.outside.tells source.old) (S.outside.state source.old).held publisher.now (F.outside.state folder.old).held content.now bytes) }
    ensures intact { IsTrue (S.outside.tells source.old) → OnOk result (IsIntactContent (S.outside.state source.old).held publisher.now content.now) }
    ensures refused { IfBad result (SaysOfContent (S.outside.tells source.old) (S.outside.state source.old).held publisher.now content.now) }
    ensures writes { WritesAt S.outside F.outside path.now.bytes (covers path.now.bytes) source.old source.new folder.old folder.new result }
{
    match make_content(alloc, publisher, content, source, folder, path, buffer) {
        Ok(()) => {}
        Err(fault) => return Err(fault),
    }
    let Ok(()) = folder.set_mode(path, mode) else {
        return Err(Or::Bad(StageFault::FolderFault));
    };
    Ok(())
}

// Makes a file of one content at the path.
fn make_content<S: Source, F: Folder>(
    alloc: Global,
    publisher: &str,
    content: &Staged,
    source: &mut S,
    folder: &mut F,
    path: &RelPath,
    buffer: &mut [u8],
) -> Result<(), Or<StageFault>>
    requires can { IsTrue (F.outside.tells folder.old) → CanMake (F.outside.state folder.old).held path.now.bytes }
    requires standing { IsTrue (F.outside.tells folder.old) → IsStanding (F.outside.state folder.old).held content.now }
    requires apart { IsApart path.now.bytes content.now }
    requires room { 0 < length buffer.old }
    ensures written { IsTrue (F.outside.tells folder.old) → OnOk result ((bytes : List ℕ)
        × HoldsAlone path.now.bytes 384 bytes (F.outside.state folder.new).held
        × IsContent (S.outside.tells source.old) (S.outside.state source.old).held publisher.now (F.outside.state folder.old).held content.now bytes) }
    ensures intact { IsTrue (S.outside.tells source.old) → OnOk result (IsIntactContent (S.outside.state source.old).held publisher.now content.now) }
    ensures refused { IfBad result (SaysOfContent (S.outside.tells source.old) (S.outside.state source.old).held publisher.now content.now) }
    ensures writes { WritesAt S.outside F.outside path.now.bytes nowhere source.old source.new folder.old folder.new result }
{
    match content {
        Staged::Payload(name) => write_named(alloc, publisher, name, source, folder, path, buffer),
        Staged::Bytes(bytes) => match write_file(folder, path, bytes) {
            Ok(()) => Ok(()),
            Err(Failed) => Err(Or::Bad(StageFault::FolderFault)),
        },
        Staged::Standing(from) => match write_copy(folder, from, path, buffer) {
            Ok(()) => Ok(()),
            Err(Failed) => Err(Or::Bad(StageFault::FolderFault)),
        },
    }
}

// Makes a file of these bytes.
fn write_file<F: Folder>(folder: &mut F, path: &RelPath, bytes: &[u8]) -> Result<(), Failed>
    requires { IsTrue (F.outside.tells folder.old) → CanMake (F.outside.state folder.old).held path.now.bytes }
    ensures written { IsTrue (F.outside.tells folder.old) → OnOk result (HoldsAlone path.now.bytes 384 bytes.now (F.outside.state folder.new).held) }
    ensures any_moment { IsTrue (F.outside.tells folder.old) → ChangesOnly F.outside (covers path.now.bytes) nowhere folder.old folder.new }
    ensures cause { HasCause (F.outside.faults folder.old) (F.outside.faults folder.new) (IsErr result) }
    ensures same_kind { F.outside.tells folder.new ≡ F.outside.tells folder.old }
    ensures changes { F.outside.changes folder.old ≤ F.outside.changes folder.new }
{
    folder.make_file(path)?;
    folder.append(path, bytes)?;
    Ok(())
}

// Makes a file of the bytes of another, a buffer at a time.
fn write_copy<F: Folder>(
    folder: &mut F,
    from: &RelPath,
    path: &RelPath,
    buffer: &mut [u8],
) -> Result<(), Failed>
    requires can { IsTrue (F.outside.tells folder.old) → CanMake (F.outside.state folder.old).held path.now.bytes }
    requires standing { IsTrue (F.outside.tells folder.old) → IsTrue (is_file ((F.outside.state folder.old).held.look from.now.bytes)) }
    requires apart { IsFalse (covers path.now.bytes from.now.bytes) }
    requires room { 0 < length buffer.old }
    ensures written { IsTrue (F.outside.tells folder.old) → OnOk result ((bytes : List ℕ)
        × HoldsAlone path.now.bytes 384 bytes (F.outside.state folder.new).held
        × (file_bytes ((F.outside.state folder.old).held.look from.now.bytes) ≡ Some bytes)) }
    ensures any_moment { IsTrue (F.outside.tells folder.old) → ChangesOnly F.outside (covers path.now.bytes) nowhere folder.old folder.new }
    ensures cause { HasCause (F.outside.faults folder.old) (F.outside.faults folder.new) (IsErr result) }
    ensures same_kind { F.outside.tells folder.new ≡ F.outside.tells folder.old }
    ensures changes { F.outside.changes folder.old ≤ F.outside.changes folder.new }
{
    folder.make_file(path)?;
    copy(folder, from, path, buffer)?;
    Ok(())
}

// Makes a file of the bytes of the payload of this name, and judges them by their digest.
fn write_named<S: Source, F: Folder>(
    alloc: Global,
    publisher: &str,
    name: &PayloadName,
    source: &mut S,
    folder: &mut F,
    path: &RelPath,
    buffer: &mut [u8],
) -> Result<(), Or<StageFault>>
    requires can { IsTrue (F.outside.tells folder.old) → CanMake (F.outside.state folder.old).held path.now.bytes }
    requires room { 0 < length buffer.old }
    ensures written { IsTrue (F.outside.tells folder.old) → OnOk result ((bytes : List ℕ)
        × HoldsAlone path.now.bytes 384 bytes (F.outside.state folder.new).held
        × IsPayload (S.outside.tells source.old) (S.outside.state source.old).held publisher.now name.now bytes) }
    ensures intact { IsTrue (S.outside.tells source.old) → OnOk result (IsIntact name.now (file_at (S.outside.state source.old).held (payload_place publisher.now name.now))) }
    ensures refused { IfBad result (SaysOfPayload (S.outside.tells source.old) (S.outside.state source.old).held publisher.now name.now) }
    ensures writes { WritesAt S.outside F.outside path.now.bytes nowhere source.old source.new folder.old folder.new result }
{
    let payload = open_payload(alloc, publisher, name, source)?;
    match write_payload(payload, source, folder, path, buffer) {
        Ok(()) => Ok(()),
        Err(fault) => Err(Or::Bad(fault)),
    }
}

// Looks for the payload.
fn open_payload<S: Source>(
    alloc: Global,
    publisher: &str,
    name: &PayloadName,
    source: &mut S,
) -> Result<Payload, Or<StageFault>>
    ensures opened { IfOk result (IsOpened (payload_place publisher.now name.now) name.now) }
    ensures front { IsTrue (S.outside.tells source.old) → IfOk result (IsFrontOf (S.outside.state source.old).held) }
    ensures refused { IfBad result (SaysOfPayload (S.outside.tells source.old) (S.outside.state source.old).held publisher.now name.now) }
    ensures folder { IfBad result (λ why. why ≡ fault.FolderFault → ⊥) }
    ensures reads { Reads S.outside source.old source.new (result ≡ Err (Bad fault.SourceFault)) }
{
    match Payload::open(alloc, source, publisher, name) {
        Ok(payload) => Ok(payload),
        Err(Or::Bad(RepoFault::SourceFault)) => Err(Or::Bad(StageFault::SourceFault)),
        Err(Or::Bad(fault)) => Err(Or::Bad(StageFault::Payload { name: *name, fault })),
        Err(Or::OutOfMemory) => Err(Or::OutOfMemory),
    }
}
