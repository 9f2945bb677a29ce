//! A request, from a closed gate on.

ghost use Rattle.std.specs.Prelude.{◌≡◌, ◌⊎◌, ◌≤◌, None, IsTrue};
ghost use Rattle.ips_outside.specs.State.{IsSettled};
ghost use Rattle.ips_outside.specs.Outside.{HasCause, Reads};
ghost use Rattle.ips_outside.specs.Image.{is_dir};
ghost use Rattle.ips_steps.specs.Private.{records_name, gate_name};
ghost use Rattle.ips_steps.specs.declared.step.Sort.{Sort};
ghost use Rattle.ips_kinds.specs.Tallies.{seen_by, taken};
ghost use Rattle.ips_commit.specs.Answers.{IsToldOrMasked};
ghost use Rattle.ips_history.specs.Directories.{creates};
ghost use Rattle.ips_run.specs.Ending.{HasPayloadFault, TellsAsSaid, is_done, is_left, is_failed, is_folder_fault, is_source_fault, is_spawn_fault};
ghost use Rattle.ips_run.specs.Comes.{Comes, HasRun, IsToDecide};
ghost use Rattle.ips_run.specs.Phases.{HasFailedInCommit, HasListed, IsAsked, IsLeftReady, IsUnbegun};

use crate::carrying::carry_out;
use crate::ending::Ending;
use crate::operation::Operation;
use crate::preparing::prepare;
use ips_folder::Folder;
use ips_kinds::Kind;
use ips_outside::{Source, Spawner};
use std::alloc::Global;

// A request, from a closed gate with nothing touched on.
pub(crate) fn request<T: Drop, S: Source, F: Folder, P: Spawner, C: Operation<T>>(
    alloc: Global,
    operation: &C,
    source: &mut S,
    folder: &mut F,
    spawner: &mut P,
    kinds: &mut Vec<Box<dyn Kind>>,
) -> Ending<T>
    requires shut { IsTrue (F.outside.tells folder.old) → (F.outside.state folder.old).held.look gate_name ≡ None }
    requires records { IsTrue (F.outside.tells folder.old) → IsTrue (creates (C.effect operation.now)) → IsTrue (is_dir ((F.outside.state folder.old).held.look records_name)) }
    requires takers { (s : Sort) → IsTrue (taken (seen_by sorts finished kinds.old.items) s) }
    ensures asked { IsTrue (F.outside.tells folder.old) → IsSettled (F.outside.state folder.old)
        → IsAsked F.outside (C.means operation.now (S.outside.tells source.old) (S.outside.state source.old).held) result
        (seen_by sorts finished kinds.old.items) (seen_by sorts finished kinds.new.items) folder.old folder.new }
    ensures comes { IsTrue (F.outside.tells folder.old) → IsToDecide (C.effect operation.now) (F.outside.state folder.old).held → Comes (C.effect operation.now)
        (C.decides operation.now (S.outside.tells source.old) (S.outside.state source.old).held (F.outside.state folder.old).held)
        (S.outside.tells source.old) (S.outside.state source.old).held (F.outside.state folder.old).held (F.outside.state folder.new).held
        (seen_by sorts finished kinds.old.items) (seen_by sorts finished kinds.new.items) (HasRun P.running spawner.old spawner.new) result }
    ensures begun { IsTrue (F.outside.tells folder.old) → IsSettled (F.outside.state folder.old) → IsTrue (is_left result) → HasFailedInCommit F.outside folder.old folder.new }
    ensures listed { IsTrue (F.outside.tells folder.old) → IsSettled (F.outside.state folder.old) → IsTrue (is_done result) → HasListed F.outside
        (C.decides operation.now (S.outside.tells source.old) (S.outside.state source.old).held (F.outside.state folder.old).held) result
        (seen_by sorts finished kinds.old.items) (seen_by sorts finished kinds.new.items) folder.old folder.new }
    ensures unbegun { IsTrue (F.outside.tells folder.old) → IsSettled (F.outside.state folder.old) → IsTrue (is_failed result) → IsUnbegun (F.outside.state folder.old) (F.outside.state folder.new)
        ⊎ IsLeftReady F.outside (C.decides operation.now (S.outside.tells source.old) (S.outside.state source.old).held (F.outside.state folder.old).held)
        (seen_by sorts finished kinds.old.items) (seen_by sorts finished kinds.new.items) (HasRun P.running spawner.old spawner.new) folder.old folder.new }
    ensures payload { HasPayloadFault result }
    ensures says { TellsAsSaid (C.says operation.now) result }
    ensures later { F.outside.changes folder.old ≤ F.outside.changes folder.new }
    ensures folder { HasCause (F.outside.faults folder.old) (F.outside.faults folder.new) (IsTrue (is_folder_fault result)) }
    ensures source { Reads S.outside source.old source.new
        (IsToldOrMasked (S.outside.faults source.old) (S.outside.faults source.new) (IsTrue (is_source_fault result)) (IsTrue (is_failed result))) }
    ensures spawner { HasCause (P.running.faults spawner.old) (P.running.faults spawner.new)
        (IsToldOrMasked (P.running.faults spawner.old) (P.running.faults spawner.new) (IsTrue (is_spawn_fault result)) (IsTrue (is_failed result))) }
    ensures same_kind { F.outside.tells folder.new ≡ F.outside.tells folder.old }
{
    let prepared = match prepare(alloc, operation, source, folder) {
        Ok(prepared) => prepared,
        Err(ending) => return ending,
    };
    carry_out(prepared, folder, spawner, kinds)
}
