//! What is left behind a closed gate, found and taken away.

ghost use Rattle.std.specs.Prelude.{◌≡◌, ◌⊎◌, ◌≤◌, ℕ, List, None, IsTrue, IsErr, IfOk, OnOk, OnErr};
ghost use Rattle.std.specs.List.{filter, list_all, list_any};
ghost use Rattle.ips_text.specs.Ancestry.{covers};
ghost use Rattle.ips_outside.specs.Image.{is_dir};
ghost use Rattle.ips_outside.specs.State.{IsSettled, nowhere};
ghost use Rattle.ips_outside.specs.Outside.{HasCause, Reads, risen};
ghost use Rattle.ips_outside.specs.Children.{path_bytes};
ghost use Rattle.ips_folder.specs.Calls.{ChangesOnly};
ghost use Rattle.ips_steps.specs.Private.{mark_front, begins};
ghost use Rattle.ips_rehearse.specs.Tried.{Passed};
ghost use Rattle.ips_commit.specs.Answers.{IsBad};
ghost use Rattle.ips_commit.specs.Pending.{is_swept, is_other, mark_names, AreMarkNames, HasNoOtherMark, IsSwept, WasOpened};
ghost use Rattle.ips_commit.specs.Staging.{NothingReady};

use crate::names::{OwnNames, is_among};
use ips_folder::{Folder, ListFault};
use ips_outside::{Failed, Look, Source};
use ips_rehearse::open_left;
use ips_text::{Or, RelPath};
use std::alloc::{AllocError, Global};

/// The marks that stand.
pub(crate) fn marks<F: Folder>(
    alloc: Global,
    folder: &mut F,
    names: &OwnNames,
) -> Result<Vec<RelPath>, Or<Failed>>
    ensures found { IsTrue (F.outside.tells folder.old) → IfOk result (λ marks. AreMarkNames (F.outside.state folder.old).held (path_bytes marks.items)) }
    ensures own { IfOk result (λ marks. IsTrue (list_all (begins mark_front) (path_bytes marks.items))) }
    ensures reads { Reads F.outside folder.old folder.new (IsBad result) }
{
    let Ok(is_there) = has_records(folder, names) else {
        return Err(Or::Bad(Failed));
    };
    if !is_there {
        return Ok(Vec::new(alloc));
    }
    match folder.list(alloc, &names.records) {
        Ok(listing) => Ok(marks_among(alloc, listing.names.as_slice())?),
        Err(ListFault::Failed) => Err(Or::Bad(Failed)),
        Err(ListFault::OutOfMemory) => Err(Or::OutOfMemory),
    }
}

/// Whether the folder of the records is a directory.
pub(crate) fn has_records<F: Folder>(folder: &mut F, names: &OwnNames) -> Result<bool, Failed>
    ensures found { IsTrue (F.outside.tells folder.old) → IfOk result (λ is_there. is_there ≡ is_dir ((F.outside.state folder.old).held.look names.now.records.bytes)) }
    ensures reads { Reads F.outside folder.old folder.new (IsErr result) }
{
    match folder.look(&names.records)? {
        Look::Dir { .. } => Ok(true),
        Look::Absent | Look::File { .. } | Look::Link | Look::Other => Ok(false),
    }
}

// Those of the paths that begin as the names of marks do.
fn marks_among(alloc: Global, paths: &[RelPath]) -> Result<Vec<RelPath>, AllocError>
    ensures { IfOk result (λ marks. path_bytes marks.items ≡ filter (begins mark_front) (path_bytes paths.now)) }
{
    let mut marks = Vec::new(alloc);
    for path in paths {
        if is_mark(path) {
            marks.push(path.copy(alloc)?)?;
        }
    }
    Ok(marks)
}

// Whether the path begins as the names of marks do.
fn is_mark(path: &RelPath) -> bool
    ensures { result ≡ begins mark_front path.now.bytes }
{
    path.bytes().starts_with(b"var/pkg/done.")
}

/// Takes away what a run that was stopped may have left, or a trial that failed: the journal, the stage and these marks. The directories of
/// trials are opened first, since with some modes they can't be taken away.
pub(crate) fn sweep_left<F: Folder>(
    folder: &mut F,
    names: &OwnNames,
    marks: &[RelPath],
) -> Result<(), Failed>
    requires own { IsTrue (list_all (begins mark_front) (path_bytes marks.now)) }
    ensures opened { IsTrue (F.outside.tells folder.old) → OnOk result (WasOpened F.outside folder.old folder.new) }
    ensures swept { IsTrue (F.outside.tells folder.old) → OnOk result (IsSwept (path_bytes marks.now) (F.outside.state folder.old).held (F.outside.state folder.new).held) }
    ensures unready { IsTrue (F.outside.tells folder.old) → OnErr result ((F.outside.state folder.new ≡ F.outside.state folder.old) ⊎ NothingReady (F.outside.state folder.new)) }
    ensures any_moment { IsTrue (F.outside.tells folder.old) → ChangesOnly F.outside is_swept is_swept folder.old folder.new }
    ensures cause { HasCause (F.outside.faults folder.old) (F.outside.faults folder.new) (IsErr result) }
    ensures same_kind { F.outside.tells folder.new ≡ F.outside.tells folder.old }
    ensures changes { F.outside.changes folder.old ≤ F.outside.changes folder.new }
{
    open_left(folder, &names.trials)?;
    sweep(folder, names, marks)?;
    Ok(())
}

/// Takes the journal, the stage and these marks away.
pub(crate) fn sweep<F: Folder>(
    folder: &mut F,
    names: &OwnNames,
    marks: &[RelPath],
) -> Result<(), Failed>
    requires own { IsTrue (list_all (begins mark_front) (path_bytes marks.now)) }
    ensures swept { IsTrue (F.outside.tells folder.old) → OnOk result (IsSwept (path_bytes marks.now) (F.outside.state folder.old).held (F.outside.state folder.new).held) }
    ensures unready { IsTrue (F.outside.tells folder.old) → OnErr result ((F.outside.state folder.new ≡ F.outside.state folder.old) ⊎ NothingReady (F.outside.state folder.new)) }
    ensures any_moment { IsTrue (F.outside.tells folder.old) → ChangesOnly F.outside is_swept nowhere folder.old folder.new }
    ensures passed { OnOk result (Passed F.outside folder.old folder.new) }
    ensures cause { HasCause (F.outside.faults folder.old) (F.outside.faults folder.new) (IsErr result) }
    ensures same_kind { F.outside.tells folder.new ≡ F.outside.tells folder.old }
    ensures changes { F.outside.changes folder.old ≤ F.outside.changes folder.new }
    ensures changed { risen (F.outside.changes folder.old) ≤ F.outside.changes folder.new }
{
    folder.remove(&names.journal)?;
    folder.remove(&names.stage)?;
    remove_all(folder, marks)?;
    Ok(())
}

// Takes what stands at and below these marks away.
fn remove_all<F: Folder>(folder: &mut F, marks: &[RelPath]) -> Result<(), Failed>
    requires own { IsTrue (list_all (begins mark_front) (path_bytes marks.now)) }
    ensures gone { IsTrue (F.outside.tells folder.old) → OnOk result ((q : List ℕ) → IsTrue (list_any (λ m. covers m q) (path_bytes marks.now)) → (F.outside.state folder.new).held.look q ≡ None) }
    ensures nothing_new { IsTrue (F.outside.tells folder.old) → OnOk result ((q : List ℕ) → (F.outside.state folder.old).held.look q ≡ None → (F.outside.state folder.new).held.look q ≡ None) }
    ensures any_moment { IsTrue (F.outside.tells folder.old) → ChangesOnly F.outside (begins mark_front) nowhere folder.old folder.new }
    ensures passed { OnOk result (Passed F.outside folder.old folder.new) }
    ensures cause { HasCause (F.outside.faults folder.old) (F.outside.faults folder.new) (IsErr result) }
    ensures same_kind { F.outside.tells folder.new ≡ F.outside.tells folder.old }
    ensures changes { F.outside.changes folder.old ≤ F.outside.changes folder.new }
{
    for mark in marks {
        folder.remove(mark)?;
    }
    Ok(())
}

/// Takes away what stands at and below those of these marks that aren't among the first so many, and makes that safe.
pub(crate) fn keep_first<F: Folder>(
    folder: &mut F,
    marks: &[RelPath],
    count: u64,
) -> Result<(), Failed>
    requires own { IsTrue (list_all (begins mark_front) (path_bytes marks.now)) }
    ensures others { IsTrue (F.outside.tells folder.old) → HasNoOtherMark (F.outside.state folder.old).held (path_bytes marks.now)
        → OnOk result (HasNoOtherMark (F.outside.state folder.new).held (mark_names count)) }
    ensures safe { IsTrue (F.outside.tells folder.old) → OnOk result (IsSettled (F.outside.state folder.new)) }
    ensures any_moment { IsTrue (F.outside.tells folder.old) → ChangesOnly F.outside (is_other (mark_names count) (path_bytes marks.now)) nowhere folder.old folder.new }
    ensures cause { HasCause (F.outside.faults folder.old) (F.outside.faults folder.new) (IsErr result) }
    ensures same_kind { F.outside.tells folder.new ≡ F.outside.tells folder.old }
    ensures changes { F.outside.changes folder.old ≤ F.outside.changes folder.new }
    ensures changed { risen (F.outside.changes folder.old) ≤ F.outside.changes folder.new }
{
    for mark in marks {
        if !is_among(mark, count) {
            folder.remove(mark)?;
        }
    }
    folder.sync()?;
    Ok(())
}
