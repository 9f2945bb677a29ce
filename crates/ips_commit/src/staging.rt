//! A list of steps staged, with all that it puts.

ghost use Rattle.std.specs.Prelude.{◌≡◌, ◌⊎◌, ◌<◌, ◌≤◌, [], Option, false, Some, Err, IsTrue, IsErr, IfErr, OnOk, OnErr, length, map};
ghost use Rattle.ips_text.specs.Ancestry.{covers};
ghost use Rattle.ips_text.specs.declared.refusal.Or.TheVariants.{Bad};
ghost use Rattle.ips_outside.specs.Image.{Image, is_dir, file_bytes};
ghost use Rattle.ips_outside.specs.State.{IsSettled, ChangedWithin, nowhere, settled};
ghost use Rattle.ips_outside.specs.Outside.{HasCause, Rose, risen};
ghost use Rattle.ips_folder.specs.Calls.{CanMake, IsSole, ChangesOnly, Throughout};
ghost use Rattle.ips_steps.specs.Private.{records_name, journal_name, visible};
ghost use Rattle.ips_steps.specs.Journal.{IsJournal};
ghost use Rattle.ips_steps.specs.Owed.{FolderOwes};
ghost use Rattle.ips_steps.specs.View.{step_of};
ghost use Rattle.ips_journal.specs.Text.{journal_text};
ghost use Rattle.ips_journal.specs.Reading.{puts_in};
ghost use Rattle.ips_journal.specs.Writing.{IsWritten, KeepsTouched};
ghost use Rattle.ips_commit.specs.Answers.{IsBad, IfStarved, IsToldOrMasked};
ghost use Rattle.ips_commit.specs.Pending.{HasNoOtherMark, IsBehindGate, WasOpened, is_swept};
ghost use Rattle.ips_contents.specs.Contents.{AreStanding, AreSeen};
ghost use Rattle.ips_commit.specs.Staging.{CanStage, HasStaged, IsCleared, IsFilled, LeavesNothing, NothingReady, NoMoreReady};
ghost use Rattle.ips_contents.specs.Writing.{Stages, WasRehearsed};
ghost use Rattle.ips_contents.specs.declared.fault.StageFault.TheVariants as fault;

use crate::names::OwnNames;
use crate::ready::Ready;
use crate::sweeping::{marks, sweep_left};
use ips_contents::{StageFault, new_buffer, write_tried};
use ips_folder::Folder;
use ips_journal::{JournalWriter, Staged};
use ips_outside::{Failed, Source};
use ips_rehearse::Rehearsed;
use ips_steps::Step;
use ips_text::Or;
use std::alloc::Global;

/// Stages the steps of a change with the contents that they put: makes safe what was written before, takes away what a run
/// that was stopped left, writes each content with the mode of its step, tries what the steps ask of the file system, writes the
/// journal, and makes that safe. What is staged stands at the updater's own names behind a closed gate, so what is seen stays as
/// it is. A payload is hashed as it is written.
///
/// # Errors
///
/// A payload isn't intact, a call failed, or memory ran out. What was written until then is taken away again. Where that fails the
/// answer is that a call on the folder failed, whatever the refusal was.
pub fn stage<S: Source, F: Folder>(
    alloc: Global,
    publisher: &str,
    steps: &[Step],
    staged: &[Staged],
    source: &mut S,
    folder: &mut F,
) -> Result<Ready, Or<StageFault>>
    requires lists { IsJournal (map step_of steps.now) }
    requires seen { AreSeen staged.now }
    requires can { IsTrue (F.outside.tells folder.old) → CanStage (map step_of steps.now) staged.now (F.outside.state folder.old).held }

    // At every moment the gate is closed, and the image that was seen is owed, whatever other may be meant.
    ensures any_moment { IsTrue (F.outside.tells folder.old) → Throughout F.outside folder.old folder.new (IsBehindGate (F.outside.state folder.old)) }
    ensures owed { IsTrue (F.outside.tells folder.old) → IsSettled (F.outside.state folder.old) → (a : Option Image)
        → Throughout F.outside folder.old folder.new (FolderOwes journal_text (visible (F.outside.state folder.old).held) a false) }
    ensures seen { IsTrue (F.outside.tells folder.old) → visible (F.outside.state folder.new).held ≡ visible (F.outside.state folder.old).held }

    // Done: the list stands ready with its contents.
    ensures staged { IsTrue (F.outside.tells folder.old) → OnOk result
        (HasStaged (S.outside.tells source.old) (S.outside.state source.old).held publisher.now (map step_of steps.now) staged.now (F.outside.state folder.old).held (F.outside.state folder.new)) }

    // And what the steps ask of the file system was tried in this folder.
    ensures rehearsed { IsTrue (F.outside.tells folder.old) → OnOk result (WasRehearsed F.outside steps.now (length staged.now) (IsBehindGate (F.outside.state folder.old)) folder.old folder.new) }

    // Refused: no list stands ready and safe, unless the image is the one from before. What was staged is taken away, but where a
    // call on the folder failed.
    ensures unready { IsTrue (F.outside.tells folder.old) → OnErr result (NoMoreReady (F.outside.state folder.old) (F.outside.state folder.new)) }
    ensures swept { IsTrue (F.outside.tells folder.old) → IfErr result (LeavesNothing (F.outside.state folder.old).held (F.outside.state folder.new).held) }

    // Each payload is intact, and each refusal has its cause; that a call on the source failed may be masked by one on the folder that
    // failed behind it.
    ensures stages { Stages S.outside F.outside publisher.now staged.now
        (IsToldOrMasked (S.outside.faults source.old) (S.outside.faults source.new) (result ≡ Err (Bad fault.SourceFault)) (result ≡ Err (Bad fault.FolderFault)))
        source.old source.new folder.old folder.new result }

    // Either a call was made that may change something, or none was and the folder is as it was.
    ensures begun { Rose (F.outside.changes folder.old) (F.outside.changes folder.new)
        ⊎ ((F.outside.changes folder.new ≡ F.outside.changes folder.old) × (F.outside.state folder.new ≡ F.outside.state folder.old)) }
{
    let Ok(ready) = Ready::new(alloc) else {
        return Err(Or::OutOfMemory);
    };
    let Ok(mut buffer) = new_buffer(alloc) else {
        return Err(Or::OutOfMemory);
    };
    match write_stage(
        alloc,
        publisher,
        steps,
        staged,
        source,
        folder,
        &ready.names,
        &mut buffer,
    ) {
        Ok(()) => Ok(ready),
        Err(fault) => Err(fault),
    }
}

// Writes the contents, tries the steps and writes the journal in the place of what was left, and makes them safe. What is written of
// a change that is refused is taken away.
fn write_stage<S: Source, F: Folder>(
    alloc: Global,
    publisher: &str,
    steps: &[Step],
    staged: &[Staged],
    source: &mut S,
    folder: &mut F,
    names: &OwnNames,
    buffer: &mut [u8],
) -> Result<(), Or<StageFault>>
    requires lists { IsJournal (map step_of steps.now) }
    requires counted { IsTrue (F.outside.tells folder.old) → puts_in (map step_of steps.now) ≡ length staged.now }
    requires room { 0 < length buffer.old }
    requires records { IsTrue (F.outside.tells folder.old) → IsTrue (is_dir ((F.outside.state folder.old).held.look records_name)) }
    requires standing { IsTrue (F.outside.tells folder.old) → AreStanding (F.outside.state folder.old).held staged.now }
    requires seen { AreSeen staged.now }
    ensures any_moment { IsTrue (F.outside.tells folder.old) → Throughout F.outside folder.old folder.new (IsBehindGate (F.outside.state folder.old)) }
    ensures within { IsTrue (F.outside.tells folder.old) → OnOk result (ChangedWithin is_swept is_swept (settled (F.outside.state folder.old)) (F.outside.state folder.new)) }
    ensures filled { IsTrue (F.outside.tells folder.old) → OnOk result
        (IsFilled (S.outside.tells source.old) (S.outside.state source.old).held publisher.now (map step_of steps.now) staged.now (F.outside.state folder.old).held (F.outside.state folder.new)) }
    ensures rehearsed { IsTrue (F.outside.tells folder.old) → OnOk result (WasRehearsed F.outside steps.now (length staged.now) (IsBehindGate (F.outside.state folder.old)) folder.old folder.new) }
    ensures unready { IsTrue (F.outside.tells folder.old) → OnErr result (NoMoreReady (F.outside.state folder.old) (F.outside.state folder.new)) }
    ensures swept { IsTrue (F.outside.tells folder.old) → IfErr result (LeavesNothing (F.outside.state folder.old).held (F.outside.state folder.new).held) }
    ensures stages { Stages S.outside F.outside publisher.now staged.now
        (IsToldOrMasked (S.outside.faults source.old) (S.outside.faults source.new) (result ≡ Err (Bad fault.SourceFault)) (result ≡ Err (Bad fault.FolderFault)))
        source.old source.new folder.old folder.new result }
    ensures changed { risen (F.outside.changes folder.old) ≤ F.outside.changes folder.new }
{
    match settle(alloc, folder, names) {
        Ok(()) => {}
        Err(Or::Bad(Failed)) => return Err(Or::Bad(StageFault::FolderFault)),
        Err(Or::OutOfMemory) => return Err(Or::OutOfMemory),
    }
    let Err(fault) = fill(
        alloc, publisher, steps, staged, source, folder, names, buffer,
    ) else {
        return Ok(());
    };
    match sweep_left(folder, names, &[]) {
        Ok(()) => Err(fault),
        Err(Failed) => Err(Or::Bad(StageFault::FolderFault)),
    }
}

// Makes safe what was written before, and takes away what a run that was stopped left.
fn settle<F: Folder>(alloc: Global, folder: &mut F, names: &OwnNames) -> Result<(), Or<Failed>>
    ensures any_moment { IsTrue (F.outside.tells folder.old) → Throughout F.outside folder.old folder.new (IsBehindGate (F.outside.state folder.old)) }
    ensures within { IsTrue (F.outside.tells folder.old) → OnOk result (ChangedWithin is_swept is_swept (settled (F.outside.state folder.old)) (F.outside.state folder.new)) }
    ensures opened { IsTrue (F.outside.tells folder.old) → OnOk result (WasOpened F.outside folder.old folder.new) }
    ensures cleared { IsTrue (F.outside.tells folder.old) → OnOk result (IsCleared (F.outside.state folder.new).held) }
    ensures unready { IsTrue (F.outside.tells folder.old) → OnErr result (NoMoreReady (F.outside.state folder.old) (F.outside.state folder.new)) }
    ensures starved { IsTrue (F.outside.tells folder.old) → IfStarved result ((F.outside.state folder.new).held ≡ (F.outside.state folder.old).held) }
    ensures cause { HasCause (F.outside.faults folder.old) (F.outside.faults folder.new) (IsBad result) }
    ensures same_kind { F.outside.tells folder.new ≡ F.outside.tells folder.old }
    ensures changes { F.outside.changes folder.old ≤ F.outside.changes folder.new }
    ensures changed { risen (F.outside.changes folder.old) ≤ F.outside.changes folder.new }
{
    let Ok(()) = folder.sync() else {
        return Err(Or::Bad(Failed));
    };
    let marks = marks(alloc, folder, names)?;
    let Ok(()) = sweep_left(folder, names, &marks) else {
        return Err(Or::Bad(Failed));
    };
    Ok(())
}

// Writes the contents, tries the steps and writes the journal where nothing is left, and makes them safe.
fn fill<S: Source, F: Folder>(
    alloc: Global,
    publisher: &str,
    steps: &[Step],
    staged: &[Staged],
    source: &mut S,
    folder: &mut F,
    names: &OwnNames,
    buffer: &mut [u8],
) -> Result<(), Or<StageFault>>
    requires lists { IsJournal (map step_of steps.now) }
    requires counted { IsTrue (F.outside.tells folder.old) → puts_in (map step_of steps.now) ≡ length staged.now }
    requires room { 0 < length buffer.old }
    requires records { IsTrue (F.outside.tells folder.old) → IsTrue (is_dir ((F.outside.state folder.old).held.look records_name)) }
    requires cleared { IsTrue (F.outside.tells folder.old) → IsCleared (F.outside.state folder.old).held }
    requires standing { IsTrue (F.outside.tells folder.old) → AreStanding (F.outside.state folder.old).held staged.now }
    requires seen { AreSeen staged.now }
    ensures filled { IsTrue (F.outside.tells folder.old) → OnOk result
        (IsFilled (S.outside.tells source.old) (S.outside.state source.old).held publisher.now (map step_of steps.now) staged.now (F.outside.state folder.old).held (F.outside.state folder.new)) }
    ensures rehearsed { IsTrue (F.outside.tells folder.old) → OnOk result
        (WasRehearsed F.outside steps.now (length staged.now) (ChangedWithin is_swept is_swept (F.outside.state folder.old)) folder.old folder.new) }
    ensures any_moment { IsTrue (F.outside.tells folder.old) → ChangesOnly F.outside is_swept is_swept folder.old folder.new }
    ensures unready { IsTrue (F.outside.tells folder.old) → OnErr result (NothingReady (F.outside.state folder.new)) }
    ensures unmarked { IsTrue (F.outside.tells folder.old) → HasNoOtherMark (F.outside.state folder.new).held [] }
    ensures stages { Stages S.outside F.outside publisher.now staged.now (result ≡ Err (Bad fault.SourceFault)) source.old source.new folder.old folder.new result }
{
    let Ok(()) = folder.make_dir(&names.stage, 0o700) else {
        return Err(Or::Bad(StageFault::FolderFault));
    };
    let tried = write_tried(alloc, publisher, steps, staged, source, folder, buffer)?;
    match write_journal(alloc, &tried, folder, names) {
        Ok(()) => Ok(()),
        Err(Or::Bad(Failed)) => Err(Or::Bad(StageFault::FolderFault)),
        Err(Or::OutOfMemory) => Err(Or::OutOfMemory),
    }
}

// Writes the journal where nothing stands, of steps that were tried, and makes all that was written safe.
fn write_journal<F: Folder>(
    alloc: Global,
    tried: &Rehearsed<'_>,
    folder: &mut F,
    names: &OwnNames,
) -> Result<(), Or<Failed>>
    requires lists { IsJournal tried.now }
    requires can { IsTrue (F.outside.tells folder.old) → CanMake (F.outside.state folder.old).held journal_name }
    ensures written { IsTrue (F.outside.tells folder.old) → OnOk result (file_bytes ((F.outside.state folder.new).held.look journal_name) ≡ Some (journal_text tried.now)) }
    ensures safe { IsTrue (F.outside.tells folder.old) → OnOk result (IsSettled (F.outside.state folder.new)) }
    ensures any_moment { IsTrue (F.outside.tells folder.old) → ChangesOnly F.outside (covers journal_name) nowhere folder.old folder.new }
    ensures unready { IsTrue (F.outside.tells folder.old) → OnErr result (NothingReady (F.outside.state folder.new)) }
    ensures cause { HasCause (F.outside.faults folder.old) (F.outside.faults folder.new) (IsBad result) }
    ensures same_kind { F.outside.tells folder.new ≡ F.outside.tells folder.old }
    ensures changes { F.outside.changes folder.old ≤ F.outside.changes folder.new }
{
    let Ok(mut writer) = JournalWriter::new(alloc) else {
        return Err(Or::OutOfMemory);
    };
    match write_safely(tried.steps(), &mut writer, folder, names) {
        Ok(()) => Ok(()),
        Err(Failed) => Err(Or::Bad(Failed)),
    }
}

// The same with the writer lent.
fn write_safely<F: Folder>(
    steps: &[Step],
    writer: &mut JournalWriter,
    folder: &mut F,
    names: &OwnNames,
) -> Result<(), Failed>
    requires lists { IsJournal (map step_of steps.now) }
    requires can { IsTrue (F.outside.tells folder.old) → CanMake (F.outside.state folder.old).held journal_name }
    requires start { (t : Image) → IsSole t journal_name → file_bytes (t.look journal_name) ≡ Some [] → IsWritten writer.old t [] }
    ensures written { IsTrue (F.outside.tells folder.old) → OnOk result (file_bytes ((F.outside.state folder.new).held.look journal_name) ≡ Some (journal_text (map step_of steps.now))) }
    ensures safe { IsTrue (F.outside.tells folder.old) → OnOk result (IsSettled (F.outside.state folder.new)) }
    ensures any_moment { IsTrue (F.outside.tells folder.old) → ChangesOnly F.outside (covers journal_name) nowhere folder.old folder.new }
    ensures unready { IsTrue (F.outside.tells folder.old) → OnErr result (NothingReady (F.outside.state folder.new)) }
    ensures cause { HasCause (F.outside.faults folder.old) (F.outside.faults folder.new) (IsErr result) }
    ensures same_kind { F.outside.tells folder.new ≡ F.outside.tells folder.old }
    ensures changes { F.outside.changes folder.old ≤ F.outside.changes folder.new }
{
    folder.make_file(&names.journal)?;
    write_steps(steps, writer, folder)?;
    writer.finish(folder)?;
    folder.sync()?;
    Ok(())
}

// Writes the lines of the steps.
fn write_steps<F: Folder>(
    steps: &[Step],
    writer: &mut JournalWriter,
    folder: &mut F,
) -> Result<(), Failed>
    requires { IsTrue (F.outside.tells folder.old) → IsWritten writer.old (F.outside.state folder.old).held [] }
    ensures written { IsTrue (F.outside.tells folder.old) → OnOk result (IsWritten writer.new (F.outside.state folder.new).held (map step_of steps.now)) }
    ensures any_moment { IsTrue (F.outside.tells folder.old) → ChangesOnly F.outside (covers journal_name) nowhere folder.old folder.new }
    ensures touched { IsTrue (F.outside.tells folder.old) → KeepsTouched (F.outside.state folder.old) (F.outside.state folder.new) }
    ensures cause { HasCause (F.outside.faults folder.old) (F.outside.faults folder.new) (IsErr result) }
    ensures same_kind { F.outside.tells folder.new ≡ F.outside.tells folder.old }
    ensures changes { F.outside.changes folder.old ≤ F.outside.changes folder.new }
{
    for step in steps {
        writer.step(folder, step)?;
    }
    Ok(())
}
