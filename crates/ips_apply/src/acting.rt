//! The acts of a step, each of them calls on the folder.

ghost use Rattle.std.specs.Prelude.{◌≡◌, ◌<◌, ◌≤◌, IsTrue, IsErr, OnOk, MatchOption, Some, None};
ghost use Rattle.ips_outside.specs.Image.{is_file};
ghost use Rattle.ips_outside.specs.Outside.{HasCause};
ghost use Rattle.ips_outside.specs.Change.{moded, names};
ghost use Rattle.ips_outside.specs.State.{nowhere};
ghost use Rattle.ips_folder.specs.Calls.{ChangesOnly};
ghost use Rattle.ips_steps.specs.Journal.{IsProper};
ghost use Rattle.ips_steps.specs.View.{step_of};
ghost use Rattle.ips_kinds.specs.declared.kind.Act.TheVariants as act;
ghost use Rattle.ips_journal.specs.Reading.{stage_for};
ghost use Rattle.ips_apply.specs.Acting.{acted, cleared, with_dir, with_link, with_name, with_step_mode, CanAct};
ghost use Rattle.ips_apply.specs.Applied.{ChangedBy};
ghost use Rattle.ips_apply.specs.Judging.{has_other_mode, content_differs};

use ips_folder::Folder;
use ips_kinds::{Act, Sort, Step};
use ips_outside::{Failed, Look, Source};
use ips_text::RelPath;

/// Does one act of the step, where it can be done. The caller says whether the content that the step puts has another mode than
/// the step.
pub(crate) fn perform<F: Folder>(
    folder: &mut F,
    step: &Step,
    act: Act,
    content: Option<&RelPath>,
    other_mode: bool,
) -> Result<(), Failed>
    requires can { IsTrue (F.outside.tells folder.old) → CanAct (step_of step.now) act (F.outside.state folder.old).held }
    requires proper { IsProper (step_of step.now) }
    requires content { MatchOption content (stage_for (step_of step.now) ≡ None) (λ p. stage_for (step_of step.now) ≡ Some p.now.bytes) }
    requires mode { IsTrue (F.outside.tells folder.old) → other_mode ≡ content_differs (F.outside.state folder.old).held (step_of step.now) }
    ensures done { IsTrue (F.outside.tells folder.old) → OnOk result ((F.outside.state folder.new).held ≡ acted (step_of step.now) act (F.outside.state folder.old).held) }
    ensures any_moment { IsTrue (F.outside.tells folder.old) → ChangedBy F.outside (step_of step.now) folder.old folder.new }
    ensures same_kind { F.outside.tells folder.new ≡ F.outside.tells folder.old }
    ensures changes { F.outside.changes folder.old ≤ F.outside.changes folder.new }
    ensures cause { HasCause (F.outside.faults folder.old) (F.outside.faults folder.new) (IsErr result) }
{
    match act {
        Act::Clear => clear(folder, step),
        Act::MakeDir => make_dir(folder, step),
        Act::MakeLink => make_link(folder, step),
        Act::MakeHard => make_hard(folder, step, content, other_mode),
        Act::SetMode => set_mode(folder, step),
        Act::Finished => Ok(()),
    }
}

/// Takes away what stands at and below the path of a step other than a mode.
fn clear<F: Folder>(folder: &mut F, step: &Step) -> Result<(), Failed>
    ensures done { IsTrue (F.outside.tells folder.old) → OnOk result ((F.outside.state folder.new).held ≡ cleared (step_of step.now) (F.outside.state folder.old).held) }
    ensures any_moment { IsTrue (F.outside.tells folder.old) → ChangedBy F.outside (step_of step.now) folder.old folder.new }
    ensures same_kind { F.outside.tells folder.new ≡ F.outside.tells folder.old }
    ensures changes { F.outside.changes folder.old ≤ F.outside.changes folder.new }
    ensures cause { HasCause (F.outside.faults folder.old) (F.outside.faults folder.new) (IsErr result) }
{
    if step.sort() == Sort::Mode {
        return Ok(());
    }
    folder.remove(step.path())?;
    Ok(())
}

/// Makes the step's directory.
fn make_dir<F: Folder>(folder: &mut F, step: &Step) -> Result<(), Failed>
    requires can { IsTrue (F.outside.tells folder.old) → CanAct (step_of step.now) act.MakeDir (F.outside.state folder.old).held }
    requires proper { IsProper (step_of step.now) }
    ensures done { IsTrue (F.outside.tells folder.old) → OnOk result ((F.outside.state folder.new).held ≡ with_dir (step_of step.now) (F.outside.state folder.old).held) }
    ensures any_moment { IsTrue (F.outside.tells folder.old) → ChangedBy F.outside (step_of step.now) folder.old folder.new }
    ensures same_kind { F.outside.tells folder.new ≡ F.outside.tells folder.old }
    ensures changes { F.outside.changes folder.old ≤ F.outside.changes folder.new }
    ensures cause { HasCause (F.outside.faults folder.old) (F.outside.faults folder.new) (IsErr result) }
{
    match step {
        Step::Fresh { path, mode } => folder.make_dir(path, *mode),
        _ => Ok(()),
    }
}

/// Makes the step's symbolic link.
fn make_link<F: Folder>(folder: &mut F, step: &Step) -> Result<(), Failed>
    requires can { IsTrue (F.outside.tells folder.old) → CanAct (step_of step.now) act.MakeLink (F.outside.state folder.old).held }
    ensures done { IsTrue (F.outside.tells folder.old) → OnOk result ((F.outside.state folder.new).held ≡ with_link (step_of step.now) (F.outside.state folder.old).held) }
    ensures any_moment { IsTrue (F.outside.tells folder.old) → ChangedBy F.outside (step_of step.now) folder.old folder.new }
    ensures same_kind { F.outside.tells folder.new ≡ F.outside.tells folder.old }
    ensures changes { F.outside.changes folder.old ≤ F.outside.changes folder.new }
    ensures cause { HasCause (F.outside.faults folder.old) (F.outside.faults folder.new) (IsErr result) }
{
    match step {
        Step::Link { path, target } => folder.make_link(path, target.bytes()),
        _ => Ok(()),
    }
}

/// Makes the step's path one more name of its target, or of the content that the step puts, which gets the step's mode first.
fn make_hard<F: Folder>(
    folder: &mut F,
    step: &Step,
    content: Option<&RelPath>,
    other_mode: bool,
) -> Result<(), Failed>
    requires can { IsTrue (F.outside.tells folder.old) → CanAct (step_of step.now) act.MakeHard (F.outside.state folder.old).held }
    requires proper { IsProper (step_of step.now) }
    requires content { MatchOption content (stage_for (step_of step.now) ≡ None) (λ p. stage_for (step_of step.now) ≡ Some p.now.bytes) }
    requires mode { IsTrue (F.outside.tells folder.old) → other_mode ≡ content_differs (F.outside.state folder.old).held (step_of step.now) }
    ensures done { IsTrue (F.outside.tells folder.old) → OnOk result ((F.outside.state folder.new).held ≡ with_name (step_of step.now) (F.outside.state folder.old).held) }
    ensures any_moment { IsTrue (F.outside.tells folder.old) → ChangedBy F.outside (step_of step.now) folder.old folder.new }
    ensures same_kind { F.outside.tells folder.new ≡ F.outside.tells folder.old }
    ensures changes { F.outside.changes folder.old ≤ F.outside.changes folder.new }
    ensures cause { HasCause (F.outside.faults folder.old) (F.outside.faults folder.new) (IsErr result) }
{
    match (step, content) {
        (Step::Put { path, mode, .. }, Some(staged)) => {
            give_mode(folder, staged, *mode, other_mode)?;
            folder.make_hard(path, staged)
        }
        (Step::Hard { path, to }, _) => folder.make_hard(path, to),
        _ => Ok(()),
    }
}

/// Gives the file at the path the mode, where it has another.
fn give_mode<F: Folder>(
    folder: &mut F,
    path: &RelPath,
    mode: u16,
    other_mode: bool,
) -> Result<(), Failed>
    requires file { IsTrue (F.outside.tells folder.old) → IsTrue (is_file ((F.outside.state folder.old).held.look path.now.bytes)) }
    requires mode { mode < 4096 }
    requires other { IsTrue (F.outside.tells folder.old) → other_mode ≡ has_other_mode mode ((F.outside.state folder.old).held.look path.now.bytes) }
    ensures done { IsTrue (F.outside.tells folder.old) → OnOk result ((F.outside.state folder.new).held ≡ moded mode path.now.bytes (F.outside.state folder.old).held) }
    ensures any_moment { IsTrue (F.outside.tells folder.old) → ChangesOnly F.outside nowhere (names (F.outside.state folder.old).held path.now.bytes) folder.old folder.new }
    ensures same_kind { F.outside.tells folder.new ≡ F.outside.tells folder.old }
    ensures changes { F.outside.changes folder.old ≤ F.outside.changes folder.new }
    ensures cause { HasCause (F.outside.faults folder.old) (F.outside.faults folder.new) (IsErr result) }
{
    if !other_mode {
        return Ok(());
    }
    folder.set_mode(path, mode)
}

/// Sets the mode of a step that sets one.
fn set_mode<F: Folder>(folder: &mut F, step: &Step) -> Result<(), Failed>
    requires proper { IsProper (step_of step.now) }
    ensures done { IsTrue (F.outside.tells folder.old) → OnOk result ((F.outside.state folder.new).held ≡ with_step_mode (step_of step.now) (F.outside.state folder.old).held) }
    ensures any_moment { IsTrue (F.outside.tells folder.old) → ChangedBy F.outside (step_of step.now) folder.old folder.new }
    ensures same_kind { F.outside.tells folder.new ≡ F.outside.tells folder.old }
    ensures changes { F.outside.changes folder.old ≤ F.outside.changes folder.new }
    ensures cause { HasCause (F.outside.faults folder.old) (F.outside.faults folder.new) (IsErr result) }
{
    match step {
        Step::Mode { path, mode } => set_standing_mode(folder, path, *mode),
        _ => Ok(()),
    }
}

/// Sets the mode of the directory or file that stands at the path; what has no mode stays.
fn set_standing_mode<F: Folder>(folder: &mut F, path: &RelPath, mode: u16) -> Result<(), Failed>
    requires { mode < 4096 }
    ensures done { IsTrue (F.outside.tells folder.old) → OnOk result ((F.outside.state folder.new).held ≡ moded mode path.now.bytes (F.outside.state folder.old).held) }
    ensures any_moment { IsTrue (F.outside.tells folder.old) → ChangesOnly F.outside nowhere (names (F.outside.state folder.old).held path.now.bytes) folder.old folder.new }
    ensures same_kind { F.outside.tells folder.new ≡ F.outside.tells folder.old }
    ensures changes { F.outside.changes folder.old ≤ F.outside.changes folder.new }
    ensures cause { HasCause (F.outside.faults folder.old) (F.outside.faults folder.new) (IsErr result) }
{
    match folder.look(path)? {
        Look::Dir { .. } | Look::File { .. } => folder.set_mode(path, mode)?,
        Look::Absent | Look::Link | Look::Other => {}
    }
    Ok(())
}
