//! The plan of a repair.

ghost use Rattle.std.specs.Prelude.{◌≡◌, ◌<◌, IfOk, IsTrue, Err, None, map, true};
ghost use Rattle.ips_text.specs.Reading.{IfBad};
ghost use Rattle.ips_text.specs.declared.refusal.Or.TheVariants.{Bad};
ghost use Rattle.ips_outside.specs.Image.{Image, is_dir};
ghost use Rattle.ips_outside.specs.Outside.{Reads};
ghost use Rattle.ips_steps.specs.Private.{gate_name, records_name, visible};
ghost use Rattle.ips_steps.specs.Steps.{Stage, all_laid};
ghost use Rattle.ips_steps.specs.View.{step_of};
ghost use Rattle.ips_contents.specs.Contents.{StagedContents};
ghost use Rattle.ips_commit.specs.Staging.{CanStage};
ghost use Rattle.ips_state.specs.State.{recorded};
ghost use Rattle.ips_state.specs.Lawful.{IsLawful};
ghost use Rattle.ips_after.specs.Findings.{findings};
ghost use Rattle.ips_change.specs.wanted.Named.{is_payload_of};
ghost use Rattle.ips_change.specs.wanted.Wanted.{want_of};
ghost use Rattle.ips_verify.specs.Verified.{finding_told};
ghost use Rattle.ips_due.specs.Asked.{AreMeant};
ghost use Rattle.ips_image_steps.specs.Answers.{CanBeListed};
ghost use Rattle.ips_plan_limits.specs.Limits as limits;
ghost use Rattle.ips_repair.specs.Meant.{IsRepairedImage};
ghost use Rattle.ips_repair.specs.Repairing.{AreRepairSteps, ComesOfRepairAt};
ghost use Rattle.ips_repair.specs.declared.fault.RepairFault.TheVariants as fault;

use crate::fault::RepairFault;
use crate::gathering::repair_at;
use ips_emit::Emitted;
use ips_folder::Folder;
use ips_image_steps::staged_plans::moments_name_folders;
use ips_meaning::{Finding, Want};
use ips_moment::moment_text;
use ips_request_due::repairs::{
    findings_are_of_the_visible_image, repairs_are_lawful, repairs_hang_together,
};
use ips_state::State;
use ips_text::Or;
use std::alloc::{AllocError, Global};

/// The steps of the repair of an image by what is found in it against what the packages of the state mean, which leaves the state's history. A journal can list
/// them, they can be staged, and what is seen once they are laid is the repaired image. The folder is only looked at.
///
/// # Errors
///
/// In this order: `Unmovable` with the first path at which the repair can't be carried out, and `TooLarge`; `FolderFault` where a call on the folder failed.
pub fn repair<F: Folder>(
    alloc: Global,
    new: &State,
    want: &Want,
    found: &[Finding],
    moment: u64,
    folder: &mut F,
) -> Result<Emitted, Or<RepairFault>>
    requires moment { moment < 253370764800 }
    requires new { IsLawful (recorded new.now) }
    requires meant { AreMeant new.now.settings new.now.mediators.items new.now.installed.items want.now }
    requires found { IsTrue (F.outside.tells folder.old) → map finding_told found.now ≡ findings is_payload_of (want_of want.now) (F.outside.state folder.old).held }
    requires records { IsTrue (F.outside.tells folder.old) → IsTrue (is_dir ((F.outside.state folder.old).held.look records_name)) }
    requires shut { IsTrue (F.outside.tells folder.old) → (F.outside.state folder.old).held.look gate_name ≡ None }
    ensures lists { IfOk result CanBeListed }
    ensures within { IfOk result (λ e. limits.first_excess (map step_of e.steps.items) e.staged.items ≡ None) }
    ensures repaired { IsTrue (F.outside.tells folder.old) → IfOk result (AreRepairSteps moment new.now.history.items want.now (F.outside.state folder.old).held) }
    ensures refused { IfBad result (ComesOfRepairAt (F.outside.tells folder.old) (F.outside.state folder.old).held moment new.now.history.items want.now) }
    ensures stages { IsTrue (F.outside.tells folder.old) → IfOk result (λ e. CanStage (map step_of e.steps.items) e.staged.items (F.outside.state folder.old).held) }
    ensures meant { IsTrue (F.outside.tells folder.old) → IfOk result (λ e. (repository : Image) (contents : Stage)
        → StagedContents true repository new.now.publisher (F.outside.state folder.old).held e.staged.items contents
        → IsRepairedImage moment new.now repository (visible (F.outside.state folder.old).held) (visible (all_laid contents (map step_of e.steps.items) (F.outside.state folder.old).held))) }
    ensures reads { Reads F.outside folder.old folder.new (result ≡ Err (Bad fault.FolderFault)) }
{
    moments_name_folders();
    repairs_are_lawful();
    repairs_hang_together();
    findings_are_of_the_visible_image();
    match moment_text(alloc, moment) {
        Ok(text) => repair_at(alloc, new, want, found, text.as_str(), folder),
        Err(AllocError) => Err(Or::OutOfMemory),
    }
}
