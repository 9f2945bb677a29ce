//! An image that is made: the directories of its records first.

ghost use Rattle.std.specs.Prelude.{◌≡◌, ◌⊎◌, ◌≤◌, false, None, Some, IsTrue, IsFalse, IfOk, OnOk, OnErr, IfErr, IsErr, IsErrOf};
ghost use Rattle.ips_text.specs.Path.{IsPath};
ghost use Rattle.ips_outside.specs.Image.{Dir};
ghost use Rattle.ips_outside.specs.Change.{with_entry_at};
ghost use Rattle.ips_outside.specs.State.{MayChange, nowhere, settled, untouched};
ghost use Rattle.ips_outside.specs.Outside.{HasCause, Reads};
ghost use Rattle.ips_folder.specs.Calls.{CanMake, Throughout, ChangesOnly};
ghost use Rattle.ips_text.specs.Ancestry.{covers};
ghost use Rattle.ips_steps.specs.Private.{records_name, gate_name};
ghost use Rattle.ips_steps.specs.declared.step.Sort.{Sort};
ghost use Rattle.ips_kinds.specs.Tallies.{seen_by, taken};
ghost use Rattle.ips_commit.specs.Answers.{IsToldOrMasked};
ghost use Rattle.ips_history.specs.Directories.{creates, var_name, with_directories};
ghost use Rattle.ips_history.specs.Transition.{IsNotYetSafe};
ghost use Rattle.ips_history.specs.Run.{StaysShut};
ghost use Rattle.ips_run.specs.declared.creating.DirectoryFault.TheVariants as fault;
ghost use Rattle.ips_run.specs.Ending.{EndsAs, HasPayloadFault, TellsAsSaid, is_done, is_told, is_left, is_failed, is_folder_fault, is_source_fault, is_spawn_fault};
ghost use Rattle.ips_run.specs.Comes.{Comes, HasRun};
ghost use Rattle.ips_run.specs.Creating.{IsMissing, IsBlockedBy, SaysOfDirectories, HasMade, HasMadeAtLast, HasMadeInPart, IsSafeAtLast, AreMade, AreUnmade, IsCreated, ended_as};
ghost use Rattle.ips_run.specs.Phases.{HasFailedInCommit, HasListed};

use crate::ending::Ending;
use crate::operation::Operation;
use crate::requesting::request;
use ips_folder::Folder;
use ips_kinds::Kind;
use ips_outside::{Failed, Look, Source, Spawner};
use ips_text::{Or, RelPath};
use std::alloc::{AllocError, Global};

// Which of the directories are to be made.
#[derive(Clone, Copy)]
enum Missing {
    Nothing,
    Records,
    Both,
}

// Why they aren't made: a call failed, or something else than a directory stands at one of them.
#[derive(Clone, Copy)]
enum DirectoryFault {
    Failed,
    Var,
    Records,
}

// A request of a command that makes an image, from a closed gate with nothing touched on: the directories of the records are made
// where nothing stands, and made safe.
pub(crate) fn create<T: Drop, S: Source, F: Folder, P: Spawner, C: Operation<T>>(
    alloc: Global,
    operation: &C,
    source: &mut S,
    folder: &mut F,
    spawner: &mut P,
    kinds: &mut Vec<Box<dyn Kind>>,
) -> Ending<T>
    requires safe { IsTrue (F.outside.tells folder.old) → F.outside.state folder.old ≡ settled (F.outside.state folder.old) }
    requires shut { IsTrue (F.outside.tells folder.old) → (F.outside.state folder.old).held.look gate_name ≡ None }
    requires creates { IsTrue (creates (C.effect operation.now)) }
    requires takers { (s : Sort) → IsTrue (taken (seen_by sorts finished kinds.old.items) s) }
    ensures created { IsTrue (F.outside.tells folder.old)
        → IsCreated F.outside (C.means operation.now (S.outside.tells source.old) (S.outside.state source.old).held) result
        (seen_by sorts finished kinds.old.items) (seen_by sorts finished kinds.new.items) folder.old folder.new }
    ensures comes { IsTrue (F.outside.tells folder.old) → Comes (C.effect operation.now)
        (C.decides operation.now (S.outside.tells source.old) (S.outside.state source.old).held (with_directories (F.outside.state folder.old).held))
        (S.outside.tells source.old) (S.outside.state source.old).held (F.outside.state folder.old).held (F.outside.state folder.new).held
        (seen_by sorts finished kinds.old.items) (seen_by sorts finished kinds.new.items) (HasRun P.running spawner.old spawner.new) result }
    ensures begun { IsTrue (F.outside.tells folder.old) → IsTrue (is_left result) → HasFailedInCommit F.outside folder.old folder.new }
    ensures listed { IsTrue (F.outside.tells folder.old) → IsTrue (is_done result) → HasListed F.outside
        (C.decides operation.now (S.outside.tells source.old) (S.outside.state source.old).held (with_directories (F.outside.state folder.old).held)) result
        (seen_by sorts finished kinds.old.items) (seen_by sorts finished kinds.new.items) folder.old folder.new }
    ensures later { F.outside.changes folder.old ≤ F.outside.changes folder.new }
    ensures folder { HasCause (F.outside.faults folder.old) (F.outside.faults folder.new) (IsTrue (is_folder_fault result)) }
    ensures source { Reads S.outside source.old source.new
        (IsToldOrMasked (S.outside.faults source.old) (S.outside.faults source.new) (IsTrue (is_source_fault result)) (IsTrue (is_failed result))) }
    ensures spawner { HasCause (P.running.faults spawner.old) (P.running.faults spawner.new)
        (IsToldOrMasked (P.running.faults spawner.old) (P.running.faults spawner.new) (IsTrue (is_spawn_fault result)) (IsTrue (is_failed result))) }
    ensures payload { HasPayloadFault result }
    ensures says { TellsAsSaid (C.says operation.now) result }
    ensures same_kind { F.outside.tells folder.new ≡ F.outside.tells folder.old }
{
    match make_directories(alloc, folder) {
        Ok(()) => request(alloc, operation, source, folder, spawner, kinds),
        Err(ending) => ending,
    }
}

// Makes the directories of the records where nothing stands, and makes them safe. Where something else than a directory stands at
// one of them, none is made.
fn make_directories<T: Drop, F: Folder>(alloc: Global, folder: &mut F) -> Result<(), Ending<T>>
    requires safe { IsTrue (F.outside.tells folder.old) → F.outside.state folder.old ≡ settled (F.outside.state folder.old) }
    requires shut { IsTrue (F.outside.tells folder.old) → (F.outside.state folder.old).held.look gate_name ≡ None }
    ensures made { IsTrue (F.outside.tells folder.old) → OnOk result (AreMade F.outside folder.old folder.new) }
    ensures unmade { IsTrue (F.outside.tells folder.old) → IfErr result (AreUnmade F.outside folder.old folder.new) }
    ensures cause { HasCause (F.outside.faults folder.old) (F.outside.faults folder.new) (EndsAs is_folder_fault result) }
    ensures read { IfErr result (λ x. IsFalse (is_source_fault x)) }
    ensures unspawned { IfErr result (λ x. IsFalse (is_spawn_fault x)) }
    ensures payload { IfErr result HasPayloadFault }
    ensures silent { IfErr result (λ x. IsFalse (is_told x)) }
    ensures later { F.outside.changes folder.old ≤ F.outside.changes folder.new }
    ensures same_kind { F.outside.tells folder.new ≡ F.outside.tells folder.old }
{
    let (Ok(var), Ok(records)) = (
        directory_path(alloc, b"var"),
        directory_path(alloc, b"var/pkg"),
    ) else {
        return Err(Ending::OutOfMemory);
    };
    match make_in(folder, &var, &records) {
        Ok(()) => Ok(()),
        Err(fault) => Err(ended(fault, var, records)),
    }
}

// How a run ends where the directories aren't made.
fn ended<T: Drop>(fault: DirectoryFault, var: RelPath, records: RelPath) -> Ending<T>
    ensures { result ≡ ended_as fault var records }
{
    match fault {
        DirectoryFault::Failed => Ending::FolderFault { unfinished: false },
        DirectoryFault::Var => Ending::NotDirectory { path: var },
        DirectoryFault::Records => Ending::NotDirectory { path: records },
    }
}

// The path of one of the two.
fn directory_path(alloc: Global, bytes: &[u8]) -> Result<RelPath, AllocError>
    requires { IsPath bytes.now }
    ensures { IfOk result (λ path. path.bytes ≡ bytes.now) }
{
    match RelPath::parse(alloc, bytes) {
        Ok(path) => Ok(path),
        Err(Or::Bad(_)) => unreachable!(),
        Err(Or::OutOfMemory) => Err(AllocError),
    }
}

// Makes those that are missing, with their paths lent.
fn make_in<F: Folder>(
    folder: &mut F,
    var: &RelPath,
    records: &RelPath,
) -> Result<(), DirectoryFault>
    requires var { var.now.bytes ≡ var_name }
    requires records { records.now.bytes ≡ records_name }
    requires safe { IsTrue (F.outside.tells folder.old) → F.outside.state folder.old ≡ settled (F.outside.state folder.old) }
    requires shut { IsTrue (F.outside.tells folder.old) → (F.outside.state folder.old).held.look gate_name ≡ None }
    ensures made { IsTrue (F.outside.tells folder.old) → OnOk result (AreMade F.outside folder.old folder.new) }
    ensures unmade { IsTrue (F.outside.tells folder.old) → IfErr result (SaysOfDirectories F.outside folder.old folder.new) }
    ensures cause { HasCause (F.outside.faults folder.old) (F.outside.faults folder.new) (IsErrOf result fault.Failed) }
    ensures later { F.outside.changes folder.old ≤ F.outside.changes folder.new }
    ensures same_kind { F.outside.tells folder.new ≡ F.outside.tells folder.old }
{
    let missing = match find_missing(folder, var, records) {
        Ok(missing) => missing,
        Err(fault) => return Err(fault),
    };
    match make_missing(folder, var, records, missing) {
        Ok(()) => Ok(()),
        Err(Failed) => Err(DirectoryFault::Failed),
    }
}

// Which of them are missing.
fn find_missing<F: Folder>(
    folder: &mut F,
    var: &RelPath,
    records: &RelPath,
) -> Result<Missing, DirectoryFault>
    requires var { var.now.bytes ≡ var_name }
    requires records { records.now.bytes ≡ records_name }
    ensures found { IsTrue (F.outside.tells folder.old) → IfOk result (IsMissing (F.outside.state folder.old).held) }
    ensures in_the_way { IsTrue (F.outside.tells folder.old) → IfErr result (IsBlockedBy (F.outside.state folder.old).held) }
    ensures reads { Reads F.outside folder.old folder.new (IsErrOf result fault.Failed) }
{
    match folder.look(var) {
        Ok(Look::Absent) => return Ok(Missing::Both),
        Ok(Look::Dir { .. }) => {}
        Ok(Look::File { .. } | Look::Link | Look::Other) => return Err(DirectoryFault::Var),
        Err(Failed) => return Err(DirectoryFault::Failed),
    }
    match folder.look(records) {
        Ok(Look::Absent) => Ok(Missing::Records),
        Ok(Look::Dir { .. }) => Ok(Missing::Nothing),
        Ok(Look::File { .. } | Look::Link | Look::Other) => Err(DirectoryFault::Records),
        Err(Failed) => Err(DirectoryFault::Failed),
    }
}

// Makes what is missing, and makes it safe.
fn make_missing<F: Folder>(
    folder: &mut F,
    var: &RelPath,
    records: &RelPath,
    missing: Missing,
) -> Result<(), Failed>
    requires var { var.now.bytes ≡ var_name }
    requires records { records.now.bytes ≡ records_name }
    requires missing { IsTrue (F.outside.tells folder.old) → IsMissing (F.outside.state folder.old).held missing }
    requires safe { IsTrue (F.outside.tells folder.old) → F.outside.state folder.old ≡ settled (F.outside.state folder.old) }
    requires shut { IsTrue (F.outside.tells folder.old) → (F.outside.state folder.old).held.look gate_name ≡ None }
    ensures made { IsTrue (F.outside.tells folder.old) → OnOk result (F.outside.state folder.new ≡ untouched (with_directories (F.outside.state folder.old).held)) }
    ensures shut { IsTrue (F.outside.tells folder.old) → OnOk result (StaysShut F.outside folder.old folder.new) }
    ensures kept { IsTrue (F.outside.tells folder.old) → HasMade F.outside missing folder.old folder.new }
    ensures in_part { IsTrue (F.outside.tells folder.old) → OnErr result (HasMadeInPart F.outside missing folder.old folder.new) }
    ensures last { IsTrue (F.outside.tells folder.old) → HasMadeAtLast F.outside missing folder.old folder.new }
    ensures cause { HasCause (F.outside.faults folder.old) (F.outside.faults folder.new) (IsErr result) }
    ensures later { F.outside.changes folder.old ≤ F.outside.changes folder.new }
    ensures same_kind { F.outside.tells folder.new ≡ F.outside.tells folder.old }
{
    match missing {
        Missing::Nothing => Ok(()),
        Missing::Records => make_records(folder, records),
        Missing::Both => make_both(folder, var, records),
    }
}

// Makes both.
fn make_both<F: Folder>(folder: &mut F, var: &RelPath, records: &RelPath) -> Result<(), Failed>
    requires var { var.now.bytes ≡ var_name }
    requires records { records.now.bytes ≡ records_name }
    requires absent { IsTrue (F.outside.tells folder.old) → (F.outside.state folder.old).held.look var_name ≡ None }
    requires shut { IsTrue (F.outside.tells folder.old) → (F.outside.state folder.old).held.look gate_name ≡ None }
    ensures made { IsTrue (F.outside.tells folder.old) → OnOk result
        (F.outside.state folder.new ≡ untouched (with_entry_at records_name (Some (Dir 493 false)) (with_entry_at var_name (Some (Dir 493 false)) (F.outside.state folder.old).held))) }
    ensures shut { IsTrue (F.outside.tells folder.old) → OnOk result (StaysShut F.outside folder.old folder.new) }
    ensures kept { IsTrue (F.outside.tells folder.old) → ChangesOnly F.outside (covers var_name) nowhere folder.old folder.new }
    ensures in_part { IsTrue (F.outside.tells folder.old) → OnErr result (Throughout F.outside folder.old folder.new (IsNotYetSafe var_name (F.outside.state folder.old))) }
    ensures last { IsTrue (F.outside.tells folder.old) → IsSafeAtLast F.outside var_name folder.old folder.new }
    ensures cause { HasCause (F.outside.faults folder.old) (F.outside.faults folder.new) (IsErr result) }
    ensures later { F.outside.changes folder.old ≤ F.outside.changes folder.new }
    ensures same_kind { F.outside.tells folder.new ≡ F.outside.tells folder.old }
{
    match folder.make_dir(var, 0o755) {
        Ok(()) => make_records(folder, records),
        Err(Failed) => Err(Failed),
    }
}

// Makes the folder of the records, and makes it safe.
fn make_records<F: Folder>(folder: &mut F, records: &RelPath) -> Result<(), Failed>
    requires records { records.now.bytes ≡ records_name }
    requires can { IsTrue (F.outside.tells folder.old) → CanMake (F.outside.state folder.old).held records_name }
    requires shut { IsTrue (F.outside.tells folder.old) → (F.outside.state folder.old).held.look gate_name ≡ None }
    ensures made { IsTrue (F.outside.tells folder.old) → OnOk result
        (F.outside.state folder.new ≡ untouched (with_entry_at records_name (Some (Dir 493 false)) (F.outside.state folder.old).held)) }
    ensures shut { IsTrue (F.outside.tells folder.old) → OnOk result (StaysShut F.outside folder.old folder.new) }
    ensures kept { IsTrue (F.outside.tells folder.old) → ChangesOnly F.outside (covers records_name) nowhere folder.old folder.new }
    ensures in_part { IsTrue (F.outside.tells folder.old) → OnErr result (Throughout F.outside folder.old folder.new (MayChange (covers records_name) nowhere (F.outside.state folder.old))) }
    ensures last { IsTrue (F.outside.tells folder.old) → Throughout F.outside folder.old folder.new (λ s. MayChange (covers records_name) nowhere (F.outside.state folder.old) s ⊎ (s ≡ F.outside.state folder.new)) }
    ensures cause { HasCause (F.outside.faults folder.old) (F.outside.faults folder.new) (IsErr result) }
    ensures later { F.outside.changes folder.old ≤ F.outside.changes folder.new }
    ensures same_kind { F.outside.tells folder.new ≡ F.outside.tells folder.old }
{
    match folder.make_dir(records, 0o755) {
        Ok(()) => folder.sync(),
        Err(Failed) => Err(Failed),
    }
}
