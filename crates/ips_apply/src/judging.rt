//! Whether a step can be laid on what now stands.

ghost use Rattle.std.specs.Prelude.{◌≡◌, ◌&&◌, false, not, IsTrue, IfOk, IfSome, IsErr, MatchOption, [], ◌∷◌, Some, None, is_some};
ghost use Rattle.ips_text.specs.Ancestry as ancestry;
ghost use Rattle.ips_outside.specs.Image.{is_file, has_parent};
ghost use Rattle.ips_outside.specs.Outside.{Reads};
ghost use Rattle.ips_steps.specs.Steps.{path_of, feasible};
ghost use Rattle.ips_steps.specs.Journal.{step_allowed};
ghost use Rattle.ips_steps.specs.View.{step_of};
ghost use Rattle.ips_journal.specs.Reading.{stage_for};
ghost use Rattle.ips_apply.specs.Judging.{IsKnown, content_differs, finds_source, has_other_mode};

use crate::known::Known;
use ips_folder::Folder;
use ips_kinds::Step;
use ips_outside::{Failed, Look, Source};
use ips_text::{RelPath, covers};

/// None where the step can't be laid now. It can where its parent is a directory, a put's content is a file, and a hard link's
/// target is a file that isn't at or below the link's own path; what goes asks for nothing. Then the answer says whether the
/// content that the step puts has another mode than the step. A directory that is known to stand isn't looked at.
pub(crate) fn judge<F: Folder>(
    folder: &mut F,
    step: &Step,
    above: Option<&RelPath>,
    content: Option<&RelPath>,
    known: &Known,
) -> Result<Option<bool>, Failed>
    requires allowed { IsTrue (step_allowed (step_of step.now)) }
    requires above { MatchOption above (ancestry.parent (path_of (step_of step.now)) ≡ None) (λ p. ancestry.parent (path_of (step_of step.now)) ≡ Some p.now.bytes) }
    requires content { MatchOption content (stage_for (step_of step.now) ≡ None) (λ p. stage_for (step_of step.now) ≡ Some p.now.bytes) }
    requires known { IsTrue (F.outside.tells folder.old) → IsKnown (F.outside.state folder.old).held known.now }
    ensures found { IsTrue (F.outside.tells folder.old) → IfOk result (λ answer. is_some answer ≡ feasible (step_of step.now ∷ []) (F.outside.state folder.old).held) }
    ensures mode { IsTrue (F.outside.tells folder.old) → IfOk result (λ answer. IfSome answer (λ other. other ≡ content_differs (F.outside.state folder.old).held (step_of step.now))) }
    ensures reads { Reads F.outside folder.old folder.new (IsErr result) }
{
    if let Step::Gone { .. } = step {
        return Ok(Some(false));
    }
    if !is_below_dir(folder, step, above, known)? {
        return Ok(None);
    }
    find_source(folder, step, content)
}

/// Whether the step's parent is a directory; that of a path of one part is the root.
fn is_below_dir<F: Folder>(
    folder: &mut F,
    step: &Step,
    above: Option<&RelPath>,
    known: &Known,
) -> Result<bool, Failed>
    requires above { MatchOption above (ancestry.parent (path_of (step_of step.now)) ≡ None) (λ p. ancestry.parent (path_of (step_of step.now)) ≡ Some p.now.bytes) }
    requires known { IsTrue (F.outside.tells folder.old) → IsKnown (F.outside.state folder.old).held known.now }
    ensures found { IsTrue (F.outside.tells folder.old) → IfOk result (λ can. can ≡ has_parent (F.outside.state folder.old).held (path_of (step_of step.now))) }
    ensures reads { Reads F.outside folder.old folder.new (IsErr result) }
{
    let Some(dir) = above else {
        return Ok(true);
    };
    if known.tells(dir) {
        return Ok(true);
    }
    match folder.look(dir)? {
        Look::Dir { .. } => Ok(true),
        Look::Absent | Look::File { .. } | Look::Link | Look::Other => Ok(false),
    }
}

/// None where the step makes one more name of a file that doesn't stand; else whether the content that it puts has another mode.
fn find_source<F: Folder>(
    folder: &mut F,
    step: &Step,
    content: Option<&RelPath>,
) -> Result<Option<bool>, Failed>
    requires content { MatchOption content (stage_for (step_of step.now) ≡ None) (λ p. stage_for (step_of step.now) ≡ Some p.now.bytes) }
    ensures found { IsTrue (F.outside.tells folder.old) → IfOk result (λ answer. is_some answer ≡ finds_source (F.outside.state folder.old).held (step_of step.now)) }
    ensures mode { IsTrue (F.outside.tells folder.old) → IfOk result (λ answer. IfSome answer (λ other. other ≡ content_differs (F.outside.state folder.old).held (step_of step.now))) }
    ensures reads { Reads F.outside folder.old folder.new (IsErr result) }
{
    match (step, content) {
        (Step::Put { mode, .. }, Some(staged)) => find_content(folder, staged, *mode),
        (Step::Hard { path, to }, _) => find_target(folder, path, to),
        _ => Ok(Some(false)),
    }
}

/// None where no file stands at the path; else whether the file has another mode than this.
fn find_content<F: Folder>(
    folder: &mut F,
    path: &RelPath,
    mode: u16,
) -> Result<Option<bool>, Failed>
    ensures found { IsTrue (F.outside.tells folder.old) → IfOk result (λ answer. is_some answer ≡ is_file ((F.outside.state folder.old).held.look path.now.bytes)) }
    ensures mode { IsTrue (F.outside.tells folder.old) → IfOk result (λ answer. IfSome answer (λ other. other ≡ has_other_mode mode ((F.outside.state folder.old).held.look path.now.bytes))) }
    ensures reads { Reads F.outside folder.old folder.new (IsErr result) }
{
    match folder.look(path)? {
        Look::File { mode: own, .. } => Ok(Some(own != mode)),
        Look::Absent | Look::Dir { .. } | Look::Link | Look::Other => Ok(None),
    }
}

/// None where no file stands at `to`, or it goes with what stands at the path; else false, since a hard link sets no mode.
fn find_target<F: Folder>(
    folder: &mut F,
    path: &RelPath,
    to: &RelPath,
) -> Result<Option<bool>, Failed>
    ensures found { IsTrue (F.outside.tells folder.old) → IfOk result (λ answer. is_some answer ≡ (not (ancestry.covers path.now.bytes to.now.bytes) && is_file ((F.outside.state folder.old).held.look to.now.bytes))) }
    ensures mode { IfOk result (λ answer. IfSome answer (λ other. other ≡ false)) }
    ensures reads { Reads F.outside folder.old folder.new (IsErr result) }
{
    if covers(path.bytes(), to.bytes()) {
        return Ok(None);
    }
    match folder.look(to)? {
        Look::File { .. } => Ok(Some(false)),
        Look::Absent | Look::Dir { .. } | Look::Link | Look::Other => Ok(None),
    }
}
