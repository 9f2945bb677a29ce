//! A staged change committed.

ghost use Rattle.std.specs.Prelude.{◌≤◌, [], IsTrue};
ghost use Rattle.ips_folder.specs.Calls.{CanMake};
ghost use Rattle.ips_steps.specs.Private.{gate_name};
ghost use Rattle.ips_steps.specs.declared.step.Sort.{Sort};
ghost use Rattle.ips_kinds.specs.Tallies.{seen_by, taken};
ghost use Rattle.ips_commit.specs.Pending.{HasNoOtherMark};
ghost use Rattle.ips_commit.specs.Calls.{Commits};

use crate::fault::CommitFault;
use crate::gate::open;
use crate::names::OwnNames;
use crate::ready::Ready;
use crate::rolling::roll;
use ips_folder::Folder;
use ips_journal::StepReader;
use ips_kinds::Kind;
use ips_outside::Source;
use ips_text::RelPath;

/// Commits what `stage` left: opens the gate, lays the steps, closes the gate and sweeps, each made safe before the next. After
/// each thousand steps it makes a mark, between two syncs. It answers how many steps were laid, each
/// by the first kind that takes it. Each sort of step has to have a kind that takes it, nothing may stand at the gate or at the
/// names of marks, and the gate's parent has to be a directory, as `stage` left it.
///
/// Wherever it is stopped, within any call, the folder owes the image that was seen before or the one that is meant; once the
/// gate is safely open, the latter. No memory is taken.
pub fn commit<F: Folder>(
    mut ready: Ready,
    folder: &mut F,
    kinds: &mut Vec<Box<dyn Kind>>,
) -> Result<u64, CommitFault>
    requires gate { IsTrue (F.outside.tells folder.old) → CanMake (F.outside.state folder.old).held gate_name }
    requires unmarked { IsTrue (F.outside.tells folder.old) → HasNoOtherMark (F.outside.state folder.old).held [] }
    requires takers { (s : Sort) → IsTrue (taken (seen_by sorts finished kinds.old.items) s) }

    // The image from before is owed, or the one that is meant, and the latter since the gate is safely open.
    ensures commits { Commits F.outside folder.old folder.new (seen_by sorts finished kinds.old.items) (seen_by sorts finished kinds.new.items) result }
{
    let memory = &mut ready;
    run(
        folder,
        &memory.names,
        &mut memory.reader,
        kinds,
        &mut memory.mark,
    )
}

// The same with the memory that is ready lent.
fn run<F: Folder>(
    folder: &mut F,
    names: &OwnNames,
    reader: &mut StepReader,
    kinds: &mut Vec<Box<dyn Kind>>,
    mark: &mut RelPath,
) -> Result<u64, CommitFault>
    requires gate { IsTrue (F.outside.tells folder.old) → CanMake (F.outside.state folder.old).held gate_name }
    requires unmarked { IsTrue (F.outside.tells folder.old) → HasNoOtherMark (F.outside.state folder.old).held [] }
    requires takers { (s : Sort) → IsTrue (taken (seen_by sorts finished kinds.old.items) s) }
    requires path { 1023 ≤ mark.old.room }
    ensures path { 1023 ≤ mark.new.room }
    ensures commits { Commits F.outside folder.old folder.new (seen_by sorts finished kinds.old.items) (seen_by sorts finished kinds.new.items) result }
{
    let Ok(()) = open(folder, names) else {
        return Err(CommitFault::Unfinished);
    };
    reader.rewind();
    match roll(folder, names, reader, kinds, mark, 0) {
        Ok(count) => Ok(count),
        Err(fault) => Err(fault),
    }
}
