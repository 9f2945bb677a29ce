//! The steps of a journal laid one after another.

ghost use Rattle.std.specs.Prelude.{◌≡◌, ◌≤◌, ℕ, IsTrue, IsFalse, IsSome, IfOk, IfErr, OnOk, OnErr, [], ◌∷◌, Some, Err};
ghost use Rattle.ips_outside.specs.Outside.{HasCause, Reads};
ghost use Rattle.ips_steps.specs.Steps.{Step as StepMeant, after, feasible};
ghost use Rattle.ips_steps.specs.View.{sort_of};
ghost use Rattle.ips_steps.specs.declared.step.Sort.{Sort};
ghost use Rattle.ips_kinds.specs.Tallies.{seen_by, taken, counted};
ghost use Rattle.ips_journal.specs.Reading.{TellsLine};
ghost use Rattle.ips_journal.specs.declared.fault.StepFault.TheVariants as fault;
ghost use Rattle.ips_apply.specs.Applied.{ChangedBy, OnBadJournal, Applied, AppliedPart};
ghost use Rattle.ips_apply.specs.Judging.{IsKnown};

use crate::carrying::lay;
use crate::judging::judge;
use crate::known::Known;
use ips_folder::Folder;
use ips_journal::{StepFault, StepReader};
use ips_kinds::Kind;
use ips_outside::Source;

/// Lays the steps of the journal from the reader's place on, each by the first kind that takes it, and answers how many.
///
/// Each sort of step has to have a kind that takes it. A put gives its path one more name of the file of its content.
/// `BadJournal` tells the first line that isn't of the journal's grammar, where the steps before it are laid, or the line of
/// the first step that can't be laid on what those before it left. A step is judged before anything is changed for it. After
/// a fault the kinds have counted the steps that were finished, and the reader only goes back or tells its line, which is
/// that of the fault.
pub fn apply<F: Folder>(
    folder: &mut F,
    reader: &mut StepReader,
    kinds: &mut Vec<Box<dyn Kind>>,
) -> Result<u64, StepFault>
    requires open { IsTrue reader.old.is_open }
    requires takers { (s : Sort) → IsTrue (taken (seen_by sorts finished kinds.old.items) s) }
    ensures applied { Applied F.outside folder.old folder.new reader.old (seen_by sorts finished kinds.old.items) (seen_by sorts finished kinds.new.items) result }
    ensures line { IfErr result (TellsLine reader.new.line) }
    ensures same_kind { F.outside.tells folder.new ≡ F.outside.tells folder.old }
    ensures changes { F.outside.changes folder.old ≤ F.outside.changes folder.new }
    ensures cause { HasCause (F.outside.faults folder.old) (F.outside.faults folder.new) (result ≡ Err fault.FolderFault) }
{
    let count = match apply_block(folder, reader, kinds, u64::MAX) {
        Ok((count, true)) => return Ok(count),
        Ok((count, false)) => count,
        Err(fault) => return Err(fault),
    };
    // no journal lists more steps
    let _more = reader.next(folder)?;
    Ok(count)
}

/// The same for at most so many steps. It answers how many were laid, fewer only where the end line was read, and whether it
/// was.
pub fn apply_block<F: Folder>(
    folder: &mut F,
    reader: &mut StepReader,
    kinds: &mut Vec<Box<dyn Kind>>,
    most: u64,
) -> Result<(u64, bool), StepFault>
    requires open { IsTrue reader.old.is_open }
    requires takers { (s : Sort) → IsTrue (taken (seen_by sorts finished kinds.old.items) s) }
    ensures applied { AppliedPart F.outside most folder.old folder.new reader.old reader.new (seen_by sorts finished kinds.old.items) (seen_by sorts finished kinds.new.items) result }
    ensures open { IfOk result (λ x. IsFalse x.1 → IsTrue reader.new.is_open) }
    ensures line { IfErr result (TellsLine reader.new.line) }
    ensures same_kind { F.outside.tells folder.new ≡ F.outside.tells folder.old }
    ensures changes { F.outside.changes folder.old ≤ F.outside.changes folder.new }
    ensures cause { HasCause (F.outside.faults folder.old) (F.outside.faults folder.new) (result ≡ Err fault.FolderFault) }
{
    let mut known = Known::none();
    let mut count = 0u64;
    while count < most {
        if !reader.next(folder)? {
            return Ok((count, true));
        }
        lay_next(folder, reader, kinds, &mut known)?;
        count += 1;
    }
    Ok((count, false))
}

/// Lays the step that the reader lends, where it can be laid. The directory that is known is told for the step behind it.
fn lay_next<F: Folder>(
    folder: &mut F,
    reader: &StepReader,
    kinds: &mut Vec<Box<dyn Kind>>,
    known: &mut Known,
) -> Result<(), StepFault>
    requires step { IsSome reader.now.step }
    requires known { IsTrue (F.outside.tells folder.old) → IsKnown (F.outside.state folder.old).held known.old }
    requires takers { (s : Sort) → IsTrue (taken (seen_by sorts finished kinds.old.items) s) }
    ensures done { IsTrue (F.outside.tells folder.old) → (s : StepMeant) → reader.now.step ≡ Some s → OnOk result
        (IsTrue (feasible (s ∷ []) (F.outside.state folder.old).held) × ((F.outside.state folder.new).held ≡ after (s ∷ []) (F.outside.state folder.old).held)) }
    ensures bad { IsTrue (F.outside.tells folder.old) → (s : StepMeant) → reader.now.step ≡ Some s → OnBadJournal result
        (λ line. IsFalse (feasible (s ∷ []) (F.outside.state folder.old).held) × Reads F.outside folder.old folder.new ⊥) }
    ensures any_moment { IsTrue (F.outside.tells folder.old) → (s : StepMeant) → reader.now.step ≡ Some s → ChangedBy F.outside s folder.old folder.new }
    ensures known { IsTrue (F.outside.tells folder.old) → OnOk result (IsKnown (F.outside.state folder.new).held known.new) }
    ensures counted { (s : StepMeant) → reader.now.step ≡ Some s → OnOk result (seen_by sorts finished kinds.new.items ≡ counted (sort_of s) (seen_by sorts finished kinds.old.items)) }
    ensures uncounted { OnErr result (seen_by sorts finished kinds.new.items ≡ seen_by sorts finished kinds.old.items) }
    ensures line { IfErr result (TellsLine reader.now.line) }
    ensures same_kind { F.outside.tells folder.new ≡ F.outside.tells folder.old }
    ensures changes { F.outside.changes folder.old ≤ F.outside.changes folder.new }
    ensures cause { HasCause (F.outside.faults folder.old) (F.outside.faults folder.new) (result ≡ Err fault.FolderFault) }
{
    let step = reader.step();
    let content = reader.staged();
    let above = reader.parent();
    let Some(other_mode) = judge(folder, step, above, content, known)? else {
        let line = reader.line();
        return Err(StepFault::BadJournal { line });
    };
    lay(folder, kinds, step, content, other_mode)?;
    known.go_behind(step, above);
    Ok(())
}
