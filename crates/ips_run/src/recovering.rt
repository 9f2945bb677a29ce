//! What was stopped, brought to its end.

ghost use Rattle.std.specs.Prelude.{◌≡◌, ◌≢◌, ◌≤◌, None, IsTrue, IsFalse};
ghost use Rattle.ips_outside.specs.State.{IsSettled};
ghost use Rattle.ips_outside.specs.Outside.{HasCause, Rose};
ghost use Rattle.ips_steps.specs.Private.{gate_name};
ghost use Rattle.ips_steps.specs.declared.step.Sort.{Sort};
ghost use Rattle.ips_kinds.specs.Tallies.{seen_by, taken};
ghost use Rattle.ips_run.specs.Ending.{HasPayloadFault, is_told, is_refused, is_left, is_folder_fault, is_source_fault, is_spawn_fault};
ghost use Rattle.ips_run.specs.Comes.{IsBackTo};
ghost use Rattle.ips_run.specs.Phases.{IsBack};

use crate::carrying::uncommitted;
use crate::ending::Ending;
use ips_commit::recover;
use ips_folder::Folder;
use ips_kinds::Kind;
use ips_outside::Source;
use ips_text::Or;
use std::alloc::Global;

// Brings to its end what was stopped.
pub(crate) fn recovered<T: Drop, F: Folder>(
    alloc: Global,
    folder: &mut F,
    kinds: &mut Vec<Box<dyn Kind>>,
) -> Ending<T>
    requires safe { IsTrue (F.outside.tells folder.old) → IsSettled (F.outside.state folder.old) }
    requires takers { (s : Sort) → IsTrue (taken (seen_by sorts finished kinds.old.items) s) }
    ensures back { IsTrue (F.outside.tells folder.old)
        → IsBack F.outside result (seen_by sorts finished kinds.old.items) (seen_by sorts finished kinds.new.items) folder.old folder.new }
    ensures told { IsTrue (F.outside.tells folder.old) → IsBackTo (F.outside.state folder.old).held (F.outside.state folder.new).held
        (seen_by sorts finished kinds.old.items) (seen_by sorts finished kinds.new.items) result }
    ensures cause { HasCause (F.outside.faults folder.old) (F.outside.faults folder.new) (IsTrue (is_folder_fault result)) }
    ensures changed { IsTrue (is_left result) → Rose (F.outside.changes folder.old) (F.outside.changes folder.new) }
    ensures untouched { IsTrue (F.outside.tells folder.old) → (F.outside.state folder.old).held.look gate_name ≢ None
        → IsTrue (is_refused result) → F.outside.changes folder.new ≡ F.outside.changes folder.old }
    ensures kept { IsTrue (F.outside.tells folder.old) → (F.outside.state folder.old).held.look gate_name ≢ None
        → IsTrue (is_refused result) → F.outside.state folder.new ≡ F.outside.state folder.old }
    ensures payload { HasPayloadFault result }
    ensures silent { IsFalse (is_told result) }
    ensures later { F.outside.changes folder.old ≤ F.outside.changes folder.new }
    ensures read { IsFalse (is_source_fault result) }
    ensures unspawned { IsFalse (is_spawn_fault result) }
    ensures same_kind { F.outside.tells folder.new ≡ F.outside.tells folder.old }
{
    match recover(alloc, folder, kinds) {
        Ok(forward) => Ending::Recovered { forward },
        Err(Or::Bad(fault)) => uncommitted(fault),
        Err(Or::OutOfMemory) => Ending::OutOfMemory,
    }
}
