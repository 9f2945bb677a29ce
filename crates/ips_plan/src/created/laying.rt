//! The steps that make an image, where it is known what no packages mean.

ghost use Rattle.std.specs.Prelude.{◌≡◌, IfOk, None, Some, map};
ghost use Rattle.ips_text.specs.Reading.{IfBad};
ghost use Rattle.ips_steps.specs.View.{step_of};
ghost use Rattle.ips_state.specs.State.{recorded};
ghost use Rattle.ips_state.specs.Lawful.{IsLawful};
ghost use Rattle.ips_due.specs.Delivered as delivered;
ghost use Rattle.ips_due.specs.Due.{HasProperDue, IsDue, MeansSame};
ghost use Rattle.ips_plan.specs.image_plan.Meaning.{StateMeans};
ghost use Rattle.ips_plan_limits.specs.Limits as limits;
ghost use Rattle.ips_plan.specs.created.Creating.{IsBeyond};
ghost use Rattle.ips_plan.specs.created.Planning.{AnswersSteps, AreSurveyed, CanCreate, PlansImage};

use crate::created::fault::CreateFault;
use crate::image_plan::{Between, steps_between};
use ips_change::survey::{Row, survey};
use ips_emit::Emitted;
use ips_folder::Folder;
use ips_image_steps::StepsFault;
use ips_meaning::Want;
use ips_outside::Failed;
use ips_plan_limits::first_excess;
use ips_request_due::{KeptDue, creation_due};
use ips_state::State;
use ips_text::Or;
use std::alloc::{AllocError, Global};

/// The steps that make an image of this state at the moment of this text, where no packages mean this.
pub(crate) fn lay<F: Folder>(
    alloc: Global,
    new: &State,
    want: &Want,
    text: &str,
    folder: &mut F,
) -> Result<Emitted, Or<CreateFault>>
    requires can { CanCreate F.outside text.now new.now folder.old }
    requires new { IsLawful (recorded new.now) }
    requires meant { StateMeans new.now want.now }
    ensures answers { AnswersSteps F.outside folder.old folder.new result }
    ensures plans { PlansImage text.now (recorded new.now) want.now (F.outside.tells folder.old) (F.outside.state folder.old).held result }
{
    match survey(alloc, folder, want, want) {
        Ok(rows) => lay_over(alloc, new, want, &rows, text, folder),
        Err(Or::Bad(Failed)) => Err(Or::Bad(CreateFault::FolderFault)),
        Err(Or::OutOfMemory) => Err(Or::OutOfMemory),
    }
}

// The same over the rows of what is wanted.
fn lay_over<'a, F: Folder>(
    alloc: Global,
    new: &'a State,
    want: &'a Want,
    rows: &[Row<'a>],
    text: &str,
    folder: &mut F,
) -> Result<Emitted, Or<CreateFault>>
    requires can { CanCreate F.outside text.now new.now folder.old }
    requires new { IsLawful (recorded new.now) }
    requires meant { StateMeans new.now want.now }
    requires surveyed { AreSurveyed F.outside want.now folder.old rows.now }
    ensures answers { AnswersSteps F.outside folder.old folder.new result }
    ensures plans { PlansImage text.now (recorded new.now) want.now (F.outside.tells folder.old) (F.outside.state folder.old).held result }
{
    match creation_due(alloc, new) {
        Ok(due) => lay_due(alloc, new, want, rows, &due, text, folder),
        Err(AllocError) => Err(Or::OutOfMemory),
    }
}

// The same, where it is known what is due.
fn lay_due<'a, F: Folder>(
    alloc: Global,
    new: &'a State,
    want: &'a Want,
    rows: &[Row<'a>],
    due: &KeptDue<'_>,
    text: &str,
    folder: &mut F,
) -> Result<Emitted, Or<CreateFault>>
    requires can { CanCreate F.outside text.now new.now folder.old }
    requires meant { StateMeans new.now want.now }
    requires surveyed { AreSurveyed F.outside want.now folder.old rows.now }
    requires due { MeansSame due.now (delivered.creation_due (recorded new.now)) }
    requires together { IsDue due.now }
    requires proper { HasProperDue due.now }
    ensures answers { AnswersSteps F.outside folder.old folder.new result }
    ensures plans { PlansImage text.now (recorded new.now) want.now (F.outside.tells folder.old) (F.outside.state folder.old).held result }
{
    let between = Between {
        old: new,
        new,
        was: want,
        is: want,
    };
    match steps_between(alloc, between, rows, due, text, folder) {
        Ok(emitted) => within(emitted),
        Err(Or::Bad(StepsFault::Unmovable(path))) => Err(Or::Bad(CreateFault::Unmovable(path))),
        Err(Or::Bad(StepsFault::FolderFault)) => Err(Or::Bad(CreateFault::FolderFault)),
        Err(Or::OutOfMemory) => Err(Or::OutOfMemory),
    }
}

// The steps, where neither they nor the files that they write are too many or too large.
fn within(emitted: Emitted) -> Result<Emitted, Or<CreateFault>>
    ensures same { IfOk result (λ e. e ≡ emitted) }
    ensures within { IfOk result (λ e. limits.first_excess (map step_of e.steps.items) e.staged.items ≡ None) }
    ensures beyond { IfBad result (IsBeyond emitted) }
{
    let alloc = *emitted.steps.allocator();
    match first_excess(alloc, &emitted.steps, &emitted.staged) {
        Ok(Some(excess)) => Err(Or::Bad(CreateFault::TooLarge(excess))),
        Ok(None) => Ok(emitted),
        Err(AllocError) => Err(Or::OutOfMemory),
    }
}
