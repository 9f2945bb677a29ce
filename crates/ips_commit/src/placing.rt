//! The place in a journal at which a recovery goes on, found before anything is changed.

ghost use Rattle.std.specs.Prelude.{◌≡◌, ◌≤◌, ℕ, List, [], Err, IsTrue, IfOk, IfErr, OnOk, length, is_some, take};
ghost use Rattle.std.specs.List.{list_all};
ghost use Rattle.ips_text.specs.Reading.{IfBad};
ghost use Rattle.ips_text.specs.declared.refusal.Or.TheVariants.{Bad};
ghost use Rattle.ips_outside.specs.Outside.{Reads};
ghost use Rattle.ips_outside.specs.Children.{path_bytes};
ghost use Rattle.ips_steps.specs.Steps.{Step};
ghost use Rattle.ips_steps.specs.Private.{gate_name, mark_front, begins};
ghost use Rattle.ips_steps.specs.Journal.{IsJournal};
ghost use Rattle.ips_journal.specs.Text.{journal_text};
ghost use Rattle.ips_journal.specs.Reading.{IsAt, journal_of};
ghost use Rattle.ips_journal.specs.declared.fault.StepFault.TheVariants as step_fault;
ghost use Rattle.ips_commit.specs.Answers.{IsBad};
ghost use Rattle.ips_commit.specs.Pending.{AreMarkNames};
ghost use Rattle.ips_commit.specs.Recovering.{AreCounted, IsPlaced, ReadsWhole, SaysOfFinding, SaysOfText, unread_as};
ghost use Rattle.ips_commit.specs.declared.fault.CommitFault.TheVariants as fault;

use crate::fault::CommitFault;
use crate::finding::stands;
use crate::names::{OwnNames, mark_path};
use crate::sweeping::marks;
use ips_folder::Folder;
use ips_journal::{StepFault, StepReader};
use ips_outside::{Failed, Source};
use ips_text::{Or, RelPath};
use std::alloc::Global;

/// What a run that was stopped left: whether something stands at the gate, the marks, and behind an open gate how many of
/// them stand without a gap.
#[derive(Drop)]
pub(crate) struct Left {
    pub(crate) is_open: bool,
    pub(crate) marks: Vec<RelPath>,
    pub(crate) count: u64,
}

/// Finds what was left. Behind an open gate it reads the whole journal, and brings the reader behind the steps that the marks
/// tell to be laid.
pub(crate) fn find_left<F: Folder>(
    alloc: Global,
    folder: &mut F,
    names: &OwnNames,
    reader: &mut StepReader,
) -> Result<Left, Or<CommitFault>>
    ensures gate { IsTrue (F.outside.tells folder.old) → IfOk result (λ left. left.is_open ≡ is_some ((F.outside.state folder.old).held.look gate_name)) }
    ensures marks { IsTrue (F.outside.tells folder.old) → IfOk result (λ left. AreMarkNames (F.outside.state folder.old).held (path_bytes left.marks.items)) }
    ensures own { IfOk result (λ left. IsTrue (list_all (begins mark_front) (path_bytes left.marks.items))) }
    ensures placed { IsTrue (F.outside.tells folder.old) → IfOk result (λ left. IsTrue left.is_open → IsPlaced (F.outside.state folder.old).held reader.new left.count) }
    ensures few { IfOk result (λ left. left.count ≤ 18446744073709552) }
    ensures open { IfOk result (λ left. IsTrue left.is_open → IsTrue reader.new.is_open) }
    ensures refused { IsTrue (F.outside.tells folder.old) → IfBad result (SaysOfFinding (F.outside.state folder.old).held) }
    ensures unbegun { IfBad result (λ why. why ≡ fault.Unfinished → ⊥) }
    ensures reads { Reads F.outside folder.old folder.new (result ≡ Err (Bad fault.Unchanged)) }
{
    let marks = match marks(alloc, folder, names) {
        Ok(marks) => marks,
        Err(Or::Bad(Failed)) => return Err(Or::Bad(CommitFault::Unchanged)),
        Err(Or::OutOfMemory) => return Err(Or::OutOfMemory),
    };
    let Ok(is_open) = stands(folder, &names.gate) else {
        return Err(Or::Bad(CommitFault::Unchanged));
    };
    if !is_open {
        return Ok(Left {
            is_open,
            marks,
            count: 0,
        });
    }
    match find_place(alloc, folder, reader) {
        Ok(count) => Ok(Left {
            is_open,
            marks,
            count,
        }),
        Err(fault) => Err(fault),
    }
}

// Brings the reader behind the steps that marks tell to be laid, once it has read the whole journal. It answers how many marks
// stand without a gap.
fn find_place<F: Folder>(
    alloc: Global,
    folder: &mut F,
    reader: &mut StepReader,
) -> Result<u64, Or<CommitFault>>
    ensures placed { IsTrue (F.outside.tells folder.old) → IfOk result (IsPlaced (F.outside.state folder.old).held reader.new) }
    ensures few { IfOk result (λ count. count ≤ 18446744073709552) }
    ensures open { OnOk result (IsTrue reader.new.is_open) }
    ensures refused { IsTrue (F.outside.tells folder.old) → IfBad result (SaysOfText (journal_of (F.outside.state folder.old).held)) }
    ensures unbegun { IfBad result (λ why. why ≡ fault.Unfinished → ⊥) }
    ensures reads { Reads F.outside folder.old folder.new (result ≡ Err (Bad fault.Unchanged)) }
{
    reader.rewind();
    let total = match read_whole(folder, reader) {
        Ok(total) => total,
        Err(fault) => return Err(Or::Bad(unread(fault))),
    };
    let count = match count_marks(alloc, folder, total) {
        Ok(count) => count,
        Err(Or::Bad(Failed)) => return Err(Or::Bad(CommitFault::Unchanged)),
        Err(Or::OutOfMemory) => return Err(Or::OutOfMemory),
    };
    reader.rewind();
    match pass(folder, reader, count.saturating_mul(1000).min(total)) {
        Ok(()) => Ok(count),
        Err(fault) => Err(Or::Bad(unread(fault))),
    }
}

// Why a journal can't be read.
fn unread(fault: StepFault) -> CommitFault
    ensures { result ≡ unread_as fault }
{
    match fault {
        StepFault::BadJournal { line } => CommitFault::BadJournal { line },
        StepFault::FolderFault => CommitFault::Unchanged,
    }
}

// Reads the whole journal, and answers how many steps it lists.
fn read_whole<F: Folder>(folder: &mut F, reader: &mut StepReader) -> Result<u64, StepFault>
    requires { IsTrue reader.old.is_open }
    ensures whole { IsTrue (F.outside.tells folder.old) → IsAt (journal_of (F.outside.state folder.old).held) [] reader.old
        → ReadsWhole (journal_of (F.outside.state folder.old).held) result }
    ensures reads { Reads F.outside folder.old folder.new (result ≡ Err step_fault.FolderFault) }
{
    let mut count = 0u64;
    loop {
        if !reader.next(folder)? {
            return Ok(count);
        }
        // no journal lists so many steps
        if count == u64::MAX {
            return Ok(count);
        }
        count += 1;
    }
}

// How many marks stand without a gap, as far as they tell of so many steps.
fn count_marks<F: Folder>(alloc: Global, folder: &mut F, total: u64) -> Result<u64, Or<Failed>>
    ensures counted { IsTrue (F.outside.tells folder.old) → IfOk result (AreCounted (F.outside.state folder.old).held total) }
    ensures few { IfOk result (λ count. count ≤ 18446744073709552) }
    ensures reads { Reads F.outside folder.old folder.new (IsBad result) }
{
    let enough = total / 1000 + 1;
    for count in 0..enough {
        let mark = mark_path(alloc, count + 1)?;
        let Ok(is_there) = stands(folder, &mark) else {
            return Err(Or::Bad(Failed));
        };
        if !is_there {
            return Ok(count);
        }
    }
    Ok(enough)
}

// Reads so many steps.
fn pass<F: Folder>(folder: &mut F, reader: &mut StepReader, count: u64) -> Result<(), StepFault>
    requires { IsTrue reader.old.is_open }
    ensures passed { IsTrue (F.outside.tells folder.old) → (steps : List Step) → IsJournal steps → journal_of (F.outside.state folder.old).held ≡ journal_text steps
        → count ≤ length steps → IsAt (journal_of (F.outside.state folder.old).held) [] reader.old
        → OnOk result (IsAt (journal_of (F.outside.state folder.old).held) (take count steps) reader.new) × IfErr result (λ why. why ≡ step_fault.FolderFault) }
    ensures open { OnOk result (IsTrue reader.new.is_open) }
    ensures reads { Reads F.outside folder.old folder.new (result ≡ Err step_fault.FolderFault) }
{
    for _passed in 0..count {
        if !reader.next(folder)? {
            return Err(StepFault::BadJournal {
                line: reader.line(),
            });
        }
    }
    Ok(())
}
