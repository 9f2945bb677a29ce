//! Texts that are put at once.

ghost use Rattle.std.specs.Prelude.{◌≡◌, ◌⊎◌, ◌≤◌, Err, IsTrue, map};
ghost use Rattle.ips_text.specs.Reading.{IfBad};
ghost use Rattle.ips_text.specs.declared.refusal.Or.TheVariants.{Bad};
ghost use Rattle.ips_outside.specs.State.{IsSettled};
ghost use Rattle.ips_outside.specs.Outside.{HasCause};
ghost use Rattle.ips_steps.specs.Journal.{IsJournal};
ghost use Rattle.ips_steps.specs.View.{step_of};
ghost use Rattle.ips_steps.specs.declared.step.Sort.{Sort};
ghost use Rattle.ips_kinds.specs.Tallies.{seen_by, taken};
ghost use Rattle.ips_commit.specs.Staging.{CanStage};
ghost use Rattle.ips_commit.specs.declared.fault.CommitFault.TheVariants as fault;
ghost use Rattle.ips_put.specs.Putting.{AreGiven, IsMeant, IsUnput, Puts, PutsNothing, is_done, unstaged_as};

use ips_commit::{CommitFault, commit, stage};
use ips_contents::StageFault;
use ips_folder::Folder;
use ips_journal::Staged;
use ips_kinds::Kind;
use ips_outside::{Source, SureSource, Tree};
use ips_steps::Step;
use ips_text::Or;
use std::alloc::Global;

/// Lays these steps with the bytes that they put, at once: they are staged and committed.
pub fn put<F: Folder>(
    alloc: Global,
    steps: &[Step],
    staged: &[Staged],
    folder: &mut F,
    kinds: &mut Vec<Box<dyn Kind>>,
) -> Result<(), Or<CommitFault>>
    requires lists { IsJournal (map step_of steps.now) }
    requires given { AreGiven staged.now }
    requires can { IsTrue (F.outside.tells folder.old) → CanStage (map step_of steps.now) staged.now (F.outside.state folder.old).held }
    requires takers { (s : Sort) → IsTrue (taken (seen_by sorts finished kinds.old.items) s) }
    ensures puts { IsTrue (F.outside.tells folder.old) → IsSettled (F.outside.state folder.old)
        → Puts F.outside (IsMeant (map step_of steps.now) staged.now (F.outside.state folder.old).held) (is_done result) folder.old folder.new }
    ensures nothing { IsTrue (F.outside.tells folder.old) → IsSettled (F.outside.state folder.old) → IsUnput result → PutsNothing F.outside folder.old folder.new }
    ensures faults { IsTrue (F.outside.tells folder.old) → IfBad result (λ why. (why ≡ fault.Unchanged) ⊎ (why ≡ fault.Unfinished)) }
    ensures cause { HasCause (F.outside.faults folder.old) (F.outside.faults folder.new) ((result ≡ Err (Bad fault.Unchanged)) ⊎ (result ≡ Err (Bad fault.Unfinished))) }
    ensures same_kind { F.outside.tells folder.new ≡ F.outside.tells folder.old }
    ensures changes { F.outside.changes folder.old ≤ F.outside.changes folder.new }
{
    let mut none = SureSource::new(Tree::new(alloc));
    let ready = match stage(alloc, "", steps, staged, &mut none, folder) {
        Ok(ready) => ready,
        Err(fault) => return Err(unstaged(fault)),
    };
    match commit(ready, folder, kinds) {
        Ok(_) => Ok(()),
        Err(fault) => Err(Or::Bad(fault)),
    }
}

// Why nothing is put, where it isn't staged. The source never fails, and no payload is staged from it.
fn unstaged(fault: Or<StageFault>) -> Or<CommitFault>
    ensures { result ≡ unstaged_as fault }
{
    match fault {
        Or::Bad(StageFault::FolderFault) => Or::Bad(CommitFault::Unchanged),
        Or::Bad(StageFault::SourceFault) => Or::Bad(CommitFault::Unchanged),
        Or::Bad(StageFault::Payload { .. }) => Or::Bad(CommitFault::Unchanged),
        Or::OutOfMemory => Or::OutOfMemory,
    }
}
