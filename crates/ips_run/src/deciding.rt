//! What an operation decides.

ghost use Rattle.std.specs.Prelude.{◌≡◌, None, IsTrue, IsFalse, IfOk, IfErr};
ghost use Rattle.ips_outside.specs.Outside.{Reads};
ghost use Rattle.ips_outside.specs.Image.{is_dir};
ghost use Rattle.ips_steps.specs.Private.{records_name, gate_name};
ghost use Rattle.ips_history.specs.Directories.{shows, creates};
ghost use Rattle.ips_run.specs.declared.operation.Decision.TheVariants as decision;
ghost use Rattle.ips_run.specs.Planned.{CanBeListed, IsPlanned};
ghost use Rattle.ips_run.specs.Ending.{EndsAs, TellsAsSaid, IsEarly, is_folder_fault, is_source_fault, is_withdrawn};
ghost use Rattle.ips_run.specs.Comes.{IsUnready};

use crate::ending::Ending;
use crate::operation::{Change, DecideFault, Decision, Operation};
use ips_folder::Folder;
use ips_outside::Source;
use ips_text::Or;
use std::alloc::Global;

// Decides on a change. Nothing is written.
pub(crate) fn decided<T: Drop, S: Source, F: Folder, C: Operation<T>>(
    alloc: Global,
    operation: &C,
    source: &mut S,
    folder: &mut F,
) -> Result<Change<T>, Ending<T>>
    requires shut { IsTrue (F.outside.tells folder.old) → (F.outside.state folder.old).held.look gate_name ≡ None }
    requires records { IsTrue (F.outside.tells folder.old) → IsTrue (creates (C.effect operation.now)) → IsTrue (is_dir ((F.outside.state folder.old).held.look records_name)) }
    ensures decided { IsTrue (F.outside.tells folder.old)
        → IfOk result (λ c. C.decides operation.now (S.outside.tells source.old) (S.outside.state source.old).held (F.outside.state folder.old).held (decision.Change c)) }
    ensures changes { IfOk result (λ _. IsFalse (shows (C.effect operation.now))) }
    ensures says { IfOk result (λ c. C.says operation.now (decision.Change c)) }
    ensures told { IfErr result (TellsAsSaid (C.says operation.now)) }
    ensures listed { IfOk result CanBeListed }
    ensures planned { IsTrue (F.outside.tells folder.old)
        → IfOk result (IsPlanned (C.means operation.now) (S.outside.tells source.old) (S.outside.state source.old).held (F.outside.state folder.old).held) }
    ensures early { IfErr result IsEarly }
    ensures unready { IsTrue (F.outside.tells folder.old) → IfErr result (IsUnready (C.effect operation.now)
        (C.decides operation.now (S.outside.tells source.old) (S.outside.state source.old).held (F.outside.state folder.old).held)
        (S.outside.tells source.old) (S.outside.state source.old).held) }
    ensures unstaged { IfErr result (λ x. IsFalse (is_withdrawn x)) }
    ensures unasked { IsTrue (shows (C.effect operation.now)) → IfErr result (λ x. IsFalse (is_source_fault x)) }
    ensures reads { Reads F.outside folder.old folder.new (EndsAs is_folder_fault result) }
    ensures source { Reads S.outside source.old source.new (EndsAs is_source_fault result) }
{
    match operation.decide(alloc, source, folder) {
        Ok(Decision::Change(change)) => Ok(change),
        Ok(Decision::Nothing) => Err(Ending::NothingToDo),
        Ok(Decision::Shown(told)) => Err(Ending::Shown(told)),
        Ok(Decision::Refused(told)) => Err(Ending::Refused(told)),
        Err(Or::Bad(DecideFault::FolderFault)) => Err(Ending::FolderFault { unfinished: false }),
        Err(Or::Bad(DecideFault::SourceFault)) => Err(Ending::SourceFault),
        Err(Or::OutOfMemory) => Err(Ending::OutOfMemory),
    }
}

// Decides on what is to be shown.
pub(crate) fn shown<T: Drop, S: Source, F: Folder, C: Operation<T>>(
    alloc: Global,
    operation: &C,
    source: &mut S,
    folder: &mut F,
) -> Ending<T>
    requires shows { IsTrue (shows (C.effect operation.now)) }
    requires shut { IsTrue (F.outside.tells folder.old) → (F.outside.state folder.old).held.look gate_name ≡ None }
    ensures early { IsEarly result }
    ensures told { TellsAsSaid (C.says operation.now) result }
    ensures unready { IsTrue (F.outside.tells folder.old) → IsUnready (C.effect operation.now)
        (C.decides operation.now (S.outside.tells source.old) (S.outside.state source.old).held (F.outside.state folder.old).held)
        (S.outside.tells source.old) (S.outside.state source.old).held result }
    ensures unstaged { IsFalse (is_withdrawn result) }
    ensures unasked { IsFalse (is_source_fault result) }
    ensures reads { Reads F.outside folder.old folder.new (IsTrue (is_folder_fault result)) }
    ensures source { Reads S.outside source.old source.new (IsTrue (is_source_fault result)) }
{
    match decided(alloc, operation, source, folder) {
        Err(ending) => ending,
        Ok(_) => unreachable!(),
    }
}
