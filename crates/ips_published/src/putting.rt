//! The manifest and the catalog put.

ghost use Rattle.std.specs.Prelude.{◌≡◌, ◌⊎◌, ◌≤◌, false, true, IsTrue, map};
ghost use Rattle.ips_text.specs.Reading.{IfBad};
ghost use Rattle.ips_outside.specs.State.{IsSettled};
ghost use Rattle.ips_outside.specs.Outside.{HasCause};
ghost use Rattle.ips_steps.specs.Journal.{IsJournal};
ghost use Rattle.ips_steps.specs.View.{step_of};
ghost use Rattle.ips_steps.specs.declared.step.Sort.{Sort};
ghost use Rattle.ips_kinds.specs.Tallies.{seen_by, taken};
ghost use Rattle.ips_commit.specs.Staging.{CanStage};
ghost use Rattle.ips_put.specs.Putting.{AreGiven, IsMeant, Puts, PutsNothing, is_done};
ghost use Rattle.ips_published.specs.Ending.{IsFolderFault, IsStopped};
ghost use Rattle.ips_published.specs.Writing.{IsOfPutting, unput_as};
ghost use Rattle.ips_published.specs.declared.fault.PublishFault.TheVariants as fault;

use crate::fault::PublishFault;
use ips_commit::CommitFault;
use ips_folder::Folder;
use ips_kinds::Kind;
use ips_outside::Source;
use ips_put::put;
use ips_ready::Plan;
use ips_text::Or;
use std::alloc::Global;

/// Puts the manifest and the catalog at once.
pub(crate) fn put_texts<F: Folder>(
    alloc: Global,
    plan: &Plan,
    target: &mut F,
    kinds: &mut Vec<Box<dyn Kind>>,
) -> Result<(), Or<PublishFault>>
    requires lists { IsJournal (map step_of plan.now.steps.items) }
    requires given { AreGiven plan.now.staged.items }
    requires can { IsTrue (F.outside.tells target.old) → CanStage (map step_of plan.now.steps.items) plan.now.staged.items (F.outside.state target.old).held }
    requires takers { (s : Sort) → IsTrue (taken (seen_by sorts finished kinds.old.items) s) }
    ensures puts { IsTrue (F.outside.tells target.old) → IsSettled (F.outside.state target.old)
        → Puts F.outside (IsMeant (map step_of plan.now.steps.items) plan.now.staged.items (F.outside.state target.old).held) (is_done result) target.old target.new }
    ensures nothing { IsTrue (F.outside.tells target.old) → IsSettled (F.outside.state target.old) → IsStopped result → PutsNothing F.outside target.old target.new }
    ensures faults { IsTrue (F.outside.tells target.old) → IfBad result (λ why. (why ≡ fault.FolderFault false) ⊎ (why ≡ fault.FolderFault true)) }
    ensures own { IfBad result IsOfPutting }
    ensures cause { HasCause (F.outside.faults target.old) (F.outside.faults target.new) (IsFolderFault result) }
    ensures same_kind { F.outside.tells target.new ≡ F.outside.tells target.old }
    ensures changes { F.outside.changes target.old ≤ F.outside.changes target.new }
{
    match put(
        alloc,
        plan.steps.as_slice(),
        plan.staged.as_slice(),
        target,
        kinds,
    ) {
        Ok(()) => Ok(()),
        Err(fault) => Err(unput(fault)),
    }
}

// Why they aren't put.
fn unput(fault: Or<CommitFault>) -> Or<PublishFault>
    ensures { result ≡ unput_as fault }
{
    match fault {
        Or::Bad(CommitFault::Unchanged) => Or::Bad(PublishFault::FolderFault { unfinished: false }),
        Or::Bad(CommitFault::Unfinished) => Or::Bad(PublishFault::FolderFault { unfinished: true }),
        Or::Bad(CommitFault::BadJournal { line }) => Or::Bad(PublishFault::BadJournal { line }),
        Or::OutOfMemory => Or::OutOfMemory,
    }
}
