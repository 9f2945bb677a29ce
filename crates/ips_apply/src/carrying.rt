//! A step carried out by the first kind that takes it.

ghost use Rattle.std.specs.Prelude.{◌≡◌, ◌<◌, ◌≤◌, IsTrue, IsFalse, IsErr, IfNone, IfSome, OnOk, OnErr, MatchOption, [], ◌∷◌, Some, None, length, slice_get};
ghost use Rattle.ips_outside.specs.Outside.{HasCause};
ghost use Rattle.ips_steps.specs.Steps.{after, feasible};
ghost use Rattle.ips_steps.specs.Journal.{IsProper};
ghost use Rattle.ips_steps.specs.View.{step_of, sort_of};
ghost use Rattle.ips_steps.specs.declared.step.Sort.{Sort};
ghost use Rattle.ips_kinds.specs.Acts.{acts, tally_after};
ghost use Rattle.ips_kinds.specs.Tallies.{seen_by, taken, counted, IsFirstTaker};
ghost use Rattle.ips_kinds.specs.declared.kind.Act.TheVariants as act;
ghost use Rattle.ips_journal.specs.Reading.{stage_for};
ghost use Rattle.ips_apply.specs.Applied.{ChangedBy};
ghost use Rattle.ips_apply.specs.Judging.{content_differs};

use crate::acting::perform;
use ips_folder::Folder;
use ips_kinds::{Act, Kind, Step};
use ips_outside::{Failed, Source};
use ips_text::RelPath;

/// Carries out a step that can be laid, by the first kind that takes it. The caller says whether the content that it puts has
/// another mode than the step.
pub(crate) fn lay<F: Folder>(
    folder: &mut F,
    kinds: &mut Vec<Box<dyn Kind>>,
    step: &Step,
    content: Option<&RelPath>,
    other_mode: bool,
) -> Result<(), Failed>
    requires takers { (s : Sort) → IsTrue (taken (seen_by sorts finished kinds.old.items) s) }
    requires can { IsTrue (F.outside.tells folder.old) → IsTrue (feasible (step_of step.now ∷ []) (F.outside.state folder.old).held) }
    requires proper { IsProper (step_of step.now) }
    requires content { MatchOption content (stage_for (step_of step.now) ≡ None) (λ p. stage_for (step_of step.now) ≡ Some p.now.bytes) }
    requires mode { IsTrue (F.outside.tells folder.old) → other_mode ≡ content_differs (F.outside.state folder.old).held (step_of step.now) }
    ensures done { IsTrue (F.outside.tells folder.old) → OnOk result ((F.outside.state folder.new).held ≡ after (step_of step.now ∷ []) (F.outside.state folder.old).held) }
    ensures any_moment { IsTrue (F.outside.tells folder.old) → ChangedBy F.outside (step_of step.now) folder.old folder.new }
    ensures counted { OnOk result (seen_by sorts finished kinds.new.items ≡ counted (sort_of (step_of step.now)) (seen_by sorts finished kinds.old.items)) }
    ensures uncounted { OnErr result (seen_by sorts finished kinds.new.items ≡ seen_by sorts finished kinds.old.items) }
    ensures same_kind { F.outside.tells folder.new ≡ F.outside.tells folder.old }
    ensures changes { F.outside.changes folder.old ≤ F.outside.changes folder.new }
    ensures cause { HasCause (F.outside.faults folder.old) (F.outside.faults folder.new) (IsErr result) }
{
    let Some(place) = first_taker(kinds, step) else {
        unreachable!()
    };
    carry_out(folder, &mut kinds[place], step, content, other_mode)?;
    Ok(())
}

/// Carries out the step's acts in turn, as the kind says them.
fn carry_out<F: Folder>(
    folder: &mut F,
    kind: &mut Box<dyn Kind>,
    step: &Step,
    content: Option<&RelPath>,
    other_mode: bool,
) -> Result<(), Failed>
    requires takes { IsTrue (sorts kind.old (sort_of (step_of step.now))) }
    requires can { IsTrue (F.outside.tells folder.old) → IsTrue (feasible (step_of step.now ∷ []) (F.outside.state folder.old).held) }
    requires proper { IsProper (step_of step.now) }
    requires content { MatchOption content (stage_for (step_of step.now) ≡ None) (λ p. stage_for (step_of step.now) ≡ Some p.now.bytes) }
    requires mode { IsTrue (F.outside.tells folder.old) → other_mode ≡ content_differs (F.outside.state folder.old).held (step_of step.now) }
    ensures done { IsTrue (F.outside.tells folder.old) → OnOk result ((F.outside.state folder.new).held ≡ after (step_of step.now ∷ []) (F.outside.state folder.old).held) }
    ensures any_moment { IsTrue (F.outside.tells folder.old) → ChangedBy F.outside (step_of step.now) folder.old folder.new }
    ensures sorts { sorts kind.new ≡ sorts kind.old }
    ensures counted { OnOk result (finished kind.new ≡ tally_after act.Finished (finished kind.old)) }
    ensures uncounted { OnErr result (finished kind.new ≡ finished kind.old) }
    ensures same_kind { F.outside.tells folder.new ≡ F.outside.tells folder.old }
    ensures changes { F.outside.changes folder.old ≤ F.outside.changes folder.new }
    ensures cause { HasCause (F.outside.faults folder.old) (F.outside.faults folder.new) (IsErr result) }
{
    let mut turn = 0u8;
    loop {
        let act = next_act(kind, step, turn);
        if let Act::Finished = act {
            return Ok(());
        }
        perform(folder, step, act, content, other_mode)?;
        turn += 1;
    }
}

/// The act that the kind says for the turn; it counts the step where that is the last.
fn next_act(kind: &mut Box<dyn Kind>, step: &Step, turn: u8) -> Act
    requires takes { IsTrue (sorts kind.old (sort_of (step_of step.now))) }
    requires turn { turn < length (acts (sort_of (step_of step.now))) }
    ensures act { slice_get (acts (sort_of (step_of step.now))) turn ≡ Some result }
    ensures tally { finished kind.new ≡ tally_after result (finished kind.old) }
    ensures sorts { sorts kind.new ≡ sorts kind.old }
{
    kind.next(step, turn)
}

/// The place of the first kind that takes the step.
pub(crate) fn first_taker(kinds: &[Box<dyn Kind>], step: &Step) -> Option<usize>
    ensures none { IfNone result (IsFalse (taken (seen_by sorts finished kinds.now) (sort_of (step_of step.now)))) }
    ensures first { IfSome result (IsFirstTaker (seen_by sorts finished kinds.now) (sort_of (step_of step.now))) }
{
    let mut place = 0;
    for kind in kinds {
        if takes(kind, step) {
            return Some(place);
        }
        place += 1;
    }
    None
}

/// Whether the kind takes the step.
fn takes(kind: &Box<dyn Kind>, step: &Step) -> bool
    ensures { result ≡ sorts kind.now (sort_of (step_of step.now)) }
{
    kind.takes(step)
}
