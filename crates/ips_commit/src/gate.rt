//! The phases of a commit around the laying of the steps: the gate opens, the gate closes, and what is left is swept.

ghost use Rattle.std.specs.Prelude.{◌≡◌, ◌⊎◌, ◌<◌, ◌≤◌, ℕ, List, Bool, Some, None, IsTrue, IsErr, OnOk, OnErr};
ghost use Rattle.std.specs.List.{list_all, list_any};
ghost use Rattle.ips_text.specs.Ancestry.{covers};
ghost use Rattle.ips_outside.specs.Image.{Image};
ghost use Rattle.ips_outside.specs.Change.{with_entry_at};
ghost use Rattle.ips_outside.specs.State.{MayLeave, IsSettled, nowhere};
ghost use Rattle.ips_outside.specs.Outside.{HasCause, risen};
ghost use Rattle.ips_outside.specs.Children.{path_bytes};
ghost use Rattle.ips_folder.specs.Calls.{CanMake, ChangesOnly, Throughout};
ghost use Rattle.ips_steps.specs.Steps.{Step};
ghost use Rattle.ips_steps.specs.Private.{gate_name, mark_front, begins, is_private, visible};
ghost use Rattle.ips_steps.specs.Owed.{AreMarks, IsReady, FolderOwes};
ghost use Rattle.ips_journal.specs.Text.{journal_text};
ghost use Rattle.ips_commit.specs.Pending.{is_swept, HasNoOtherMark, IsSwept, WasOpened, HasCommitted, mark_names};
ghost use Rattle.ips_commit.specs.Due.{IsSafelyOpen};
ghost use Rattle.ips_commit.specs.Phases.{Opens};

use crate::names::{OwnNames, set_mark};
use crate::sweeping::{sweep, sweep_left};
use ips_folder::Folder;
use ips_outside::{Failed, Source};
use ips_text::RelPath;

/// Opens the gate: makes a file there, and makes it safe.
pub(crate) fn open<F: Folder>(folder: &mut F, names: &OwnNames) -> Result<(), Failed>
    requires { IsTrue (F.outside.tells folder.old) → CanMake (F.outside.state folder.old).held gate_name }
    ensures any_moment { IsTrue (F.outside.tells folder.old) → ChangesOnly F.outside (covers gate_name) nowhere folder.old folder.new }
    ensures opened { IsTrue (F.outside.tells folder.old) → OnOk result (Opens F.outside folder.old folder.new) }
    ensures safe { IsTrue (F.outside.tells folder.old) → OnOk result (IsSettled (F.outside.state folder.new)) }
    ensures not_yet { IsTrue (F.outside.tells folder.old) → OnErr result (Throughout F.outside folder.old folder.new (λ s. IsSafelyOpen s → ⊥)) }
    ensures cause { HasCause (F.outside.faults folder.old) (F.outside.faults folder.new) (IsErr result) }
    ensures same_kind { F.outside.tells folder.new ≡ F.outside.tells folder.old }
    ensures changes { F.outside.changes folder.old ≤ F.outside.changes folder.new }
    ensures changed { risen (F.outside.changes folder.old) ≤ F.outside.changes folder.new }
{
    folder.make_file(&names.gate)?;
    folder.append(&names.gate, b"1")?;
    folder.sync()?;
    Ok(())
}

/// Closes the gate and makes that safe; then takes away the first so many marks and makes that safe; then what else is left
/// behind the gate, and makes that safe.
pub(crate) fn finish<F: Folder>(
    folder: &mut F,
    names: &OwnNames,
    mark: &mut RelPath,
    marks: u64,
) -> Result<(), Failed>
    requires path { 1023 ≤ mark.old.room }
    requires few { marks < 36893488147419105 }
    ensures owed { IsTrue (F.outside.tells folder.old) → IsSettled (F.outside.state folder.old) → (steps : List Step) (count : ℕ) (b a : Image) (due : Bool)
        → IsReady journal_text steps count a (F.outside.state folder.old).held → visible (F.outside.state folder.old).held ≡ a
        → Throughout F.outside folder.old folder.new (FolderOwes journal_text b (Some a) due) }
    ensures done { IsTrue (F.outside.tells folder.old) → HasNoOtherMark (F.outside.state folder.old).held (mark_names marks)
        → OnOk result (HasCommitted (visible (F.outside.state folder.old).held) (F.outside.state folder.new)) }
    ensures any_moment { IsTrue (F.outside.tells folder.old) → ChangesOnly F.outside is_private nowhere folder.old folder.new }
    ensures left { IsTrue (F.outside.tells folder.old) → IsSettled (F.outside.state folder.old) → (count : ℕ) → AreMarks (F.outside.state folder.old).held count
        → OnErr result ((c : Image) → MayLeave (F.outside.state folder.new) c → (c.look gate_name ≡ None) ⊎ AreMarks c count) }
    ensures path { 1023 ≤ mark.new.room }
    ensures cause { HasCause (F.outside.faults folder.old) (F.outside.faults folder.new) (IsErr result) }
    ensures same_kind { F.outside.tells folder.new ≡ F.outside.tells folder.old }
    ensures changes { F.outside.changes folder.old ≤ F.outside.changes folder.new }
    ensures changed { risen (F.outside.changes folder.old) ≤ F.outside.changes folder.new }
{
    close(folder, names)?;
    unmark(folder, mark, marks)?;
    clear(folder, names, &[])?;
    Ok(())
}

// Takes the first so many marks away, and makes that safe.
fn unmark<F: Folder>(folder: &mut F, mark: &mut RelPath, marks: u64) -> Result<(), Failed>
    requires path { 1023 ≤ mark.old.room }
    requires few { marks < 36893488147419105 }
    ensures gone { IsTrue (F.outside.tells folder.old) → OnOk result ((q : List ℕ) → IsTrue (list_any (λ m. covers m q) (mark_names marks)) → (F.outside.state folder.new).held.look q ≡ None) }
    ensures nothing_new { IsTrue (F.outside.tells folder.old) → OnOk result ((q : List ℕ) → (F.outside.state folder.old).held.look q ≡ None → (F.outside.state folder.new).held.look q ≡ None) }
    ensures safe { IsTrue (F.outside.tells folder.old) → OnOk result (IsSettled (F.outside.state folder.new)) }
    ensures any_moment { IsTrue (F.outside.tells folder.old) → ChangesOnly F.outside (begins mark_front) nowhere folder.old folder.new }
    ensures path { 1023 ≤ mark.new.room }
    ensures cause { HasCause (F.outside.faults folder.old) (F.outside.faults folder.new) (IsErr result) }
    ensures same_kind { F.outside.tells folder.new ≡ F.outside.tells folder.old }
    ensures changes { F.outside.changes folder.old ≤ F.outside.changes folder.new }
{
    for before in 0..marks {
        set_mark(mark, before + 1);
        folder.remove(mark)?;
    }
    folder.sync()?;
    Ok(())
}

// Closes the gate, and makes that safe.
fn close<F: Folder>(folder: &mut F, names: &OwnNames) -> Result<(), Failed>
    ensures closed { IsTrue (F.outside.tells folder.old) → OnOk result ((F.outside.state folder.new).held ≡ with_entry_at gate_name None (F.outside.state folder.old).held) }
    ensures safe { IsTrue (F.outside.tells folder.old) → OnOk result (IsSettled (F.outside.state folder.new)) }
    ensures any_moment { IsTrue (F.outside.tells folder.old) → ChangesOnly F.outside (covers gate_name) nowhere folder.old folder.new }
    ensures cause { HasCause (F.outside.faults folder.old) (F.outside.faults folder.new) (IsErr result) }
    ensures same_kind { F.outside.tells folder.new ≡ F.outside.tells folder.old }
    ensures changes { F.outside.changes folder.old ≤ F.outside.changes folder.new }
    ensures changed { risen (F.outside.changes folder.old) ≤ F.outside.changes folder.new }
{
    folder.remove(&names.gate)?;
    folder.sync()?;
    Ok(())
}

// Takes away what is left behind a closed gate, these marks too, and makes that safe.
fn clear<F: Folder>(folder: &mut F, names: &OwnNames, marks: &[RelPath]) -> Result<(), Failed>
    requires own { IsTrue (list_all (begins mark_front) (path_bytes marks.now)) }
    ensures swept { IsTrue (F.outside.tells folder.old) → OnOk result (IsSwept (path_bytes marks.now) (F.outside.state folder.old).held (F.outside.state folder.new).held) }
    ensures safe { IsTrue (F.outside.tells folder.old) → OnOk result (IsSettled (F.outside.state folder.new)) }
    ensures any_moment { IsTrue (F.outside.tells folder.old) → ChangesOnly F.outside is_swept nowhere folder.old folder.new }
    ensures cause { HasCause (F.outside.faults folder.old) (F.outside.faults folder.new) (IsErr result) }
    ensures same_kind { F.outside.tells folder.new ≡ F.outside.tells folder.old }
    ensures changes { F.outside.changes folder.old ≤ F.outside.changes folder.new }
    ensures changed { risen (F.outside.changes folder.old) ≤ F.outside.changes folder.new }
{
    sweep(folder, names, marks)?;
    folder.sync()?;
    Ok(())
}

/// The same of what a run that was stopped may have left: the directories of trials are opened first.
pub(crate) fn clear_left<F: Folder>(
    folder: &mut F,
    names: &OwnNames,
    marks: &[RelPath],
) -> Result<(), Failed>
    requires own { IsTrue (list_all (begins mark_front) (path_bytes marks.now)) }
    ensures opened { IsTrue (F.outside.tells folder.old) → OnOk result (WasOpened F.outside folder.old folder.new) }
    ensures swept { IsTrue (F.outside.tells folder.old) → OnOk result (IsSwept (path_bytes marks.now) (F.outside.state folder.old).held (F.outside.state folder.new).held) }
    ensures safe { IsTrue (F.outside.tells folder.old) → OnOk result (IsSettled (F.outside.state folder.new)) }
    ensures any_moment { IsTrue (F.outside.tells folder.old) → ChangesOnly F.outside is_swept is_swept folder.old folder.new }
    ensures cause { HasCause (F.outside.faults folder.old) (F.outside.faults folder.new) (IsErr result) }
    ensures same_kind { F.outside.tells folder.new ≡ F.outside.tells folder.old }
    ensures changes { F.outside.changes folder.old ≤ F.outside.changes folder.new }
{
    sweep_left(folder, names, marks)?;
    folder.sync()?;
    Ok(())
}
