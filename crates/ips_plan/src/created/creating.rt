//! The plan that makes an image.

ghost use Rattle.std.specs.Prelude.{◌≡◌, ◌<◌, ℕ, List, IfOk, IsTrue, Err, None, map, true};
ghost use Rattle.ips_text.specs.Reading.{IfBad};
ghost use Rattle.ips_text.specs.declared.refusal.Or.TheVariants.{Bad};
ghost use Rattle.ips_outside.specs.Image.{Image, is_dir};
ghost use Rattle.ips_outside.specs.Outside.{Reads};
ghost use Rattle.ips_steps.specs.Private.{gate_name, records_name, visible};
ghost use Rattle.ips_steps.specs.Steps.{Stage, all_laid};
ghost use Rattle.ips_steps.specs.View.{step_of};
ghost use Rattle.ips_contents.specs.Contents.{StagedContents};
ghost use Rattle.ips_commit.specs.Staging.{CanStage};
ghost use Rattle.ips_state.specs.State.{recorded};
ghost use Rattle.ips_state.specs.Lawful.{IsLawful};
ghost use Rattle.ips_plan.specs.image_plan.Meaning.{StateMeans};
ghost use Rattle.ips_image_steps.specs.Answers.{CanBeListed};
ghost use Rattle.ips_plan_limits.specs.Limits as limits;
ghost use Rattle.ips_meaning.specs.declared.entry.Entry.{Entry};
ghost use Rattle.ips_plan.specs.created.Creating.{AreCreationSteps, AreStepsToMake, ComesOfCreation, ComesOfMaking};
ghost use Rattle.ips_plan.specs.created.Made.{IsBlank, image_made};
ghost use Rattle.ips_plan.specs.created.Planning.{AnswersSteps, CanCreate};
ghost use Rattle.ips_plan.specs.declared.created.fault.CreateFault.TheVariants as fault;

use crate::created::fault::CreateFault;
use crate::created::laying::lay;
use crate::image_plan::meaning;
use ips_emit::Emitted;
use ips_folder::Folder;
use ips_image_steps::staged_plans::moments_name_folders;
use ips_moment::moment_text;
use ips_state::State;
use ips_text::Or;
use std::alloc::{AllocError, Global};

/// The steps that make an image of this state, in which nothing is installed, in a folder in which that of the records stands. A journal can list them, they can
/// be staged, and what is seen once they are laid is the image that is made. The folder is only looked at.
///
/// # Errors
///
/// `TooLarge`, and `FolderFault` where a call on the folder failed; `Unmovable` only where the folder doesn't tell what it holds.
pub fn create<F: Folder>(
    alloc: Global,
    new: &State,
    moment: u64,
    folder: &mut F,
) -> Result<Emitted, Or<CreateFault>>
    requires moment { moment < 253370764800 }
    requires new { IsLawful (recorded new.now) }
    requires blank { IsBlank new.now }
    requires records { IsTrue (F.outside.tells folder.old) → IsTrue (is_dir ((F.outside.state folder.old).held.look records_name)) }
    requires shut { IsTrue (F.outside.tells folder.old) → (F.outside.state folder.old).held.look gate_name ≡ None }
    ensures lists { IfOk result CanBeListed }
    ensures within { IfOk result (λ e. limits.first_excess (map step_of e.steps.items) e.staged.items ≡ None) }
    ensures created { IsTrue (F.outside.tells folder.old) → IfOk result (AreCreationSteps moment new.now (F.outside.state folder.old).held) }
    ensures refused { IfBad result (ComesOfCreation (F.outside.tells folder.old) (F.outside.state folder.old).held moment new.now) }
    ensures stages { IsTrue (F.outside.tells folder.old) → IfOk result (λ e. CanStage (map step_of e.steps.items) e.staged.items (F.outside.state folder.old).held) }
    ensures meant { IsTrue (F.outside.tells folder.old) → IfOk result (λ e. (repository : Image) (publisher : List ℕ) (contents : Stage)
        → StagedContents true repository publisher (F.outside.state folder.old).held e.staged.items contents
        → visible (all_laid contents (map step_of e.steps.items) (F.outside.state folder.old).held) ≡ image_made (recorded new.now) (visible (F.outside.state folder.old).held)) }
    ensures reads { Reads F.outside folder.old folder.new (result ≡ Err (Bad fault.FolderFault)) }
{
    moments_name_folders();
    match moment_text(alloc, moment) {
        Ok(text) => create_at(alloc, new, text.as_str(), folder),
        Err(AllocError) => Err(Or::OutOfMemory),
    }
}

// The same at the moment of this text, where that can stand in a name.
fn create_at<F: Folder>(
    alloc: Global,
    new: &State,
    text: &str,
    folder: &mut F,
) -> Result<Emitted, Or<CreateFault>>
    requires can { CanCreate F.outside text.now new.now folder.old }
    requires new { IsLawful (recorded new.now) }
    ensures answers { AnswersSteps F.outside folder.old folder.new result }
    ensures laid { IsTrue (F.outside.tells folder.old) → IfOk result (λ e. (want : List (List ℕ × Entry)) × StateMeans new.now want × AreStepsToMake text.now (recorded new.now) want (F.outside.state folder.old).held e) }
    ensures refused { IfBad result (λ why. (want : List (List ℕ × Entry)) × StateMeans new.now want × ComesOfMaking (F.outside.tells folder.old) (F.outside.state folder.old).held text.now (recorded new.now) want why) }
{
    match meaning(alloc, new) {
        Ok(want) => lay(alloc, new, &want, text, folder),
        Err(Or::Bad(_)) => unreachable!(),
        Err(Or::OutOfMemory) => Err(Or::OutOfMemory),
    }
}
