//! The steps of a journal laid behind an open gate, with a mark made after each thousand.

ghost use Rattle.std.specs.Prelude.{◌≡◌, ◌+◌, ◌<◌, ◌≤◌, List, [], Some, Err, IsTrue, IsFalse, IsErr, IfOk, OnOk};
ghost use Rattle.ips_text.specs.Ancestry.{covers};
ghost use Rattle.ips_outside.specs.Image.{File};
ghost use Rattle.ips_outside.specs.State.{IsSettled, nowhere};
ghost use Rattle.ips_outside.specs.Outside.{HasCause};
ghost use Rattle.ips_folder.specs.Calls.{CanMake, ChangesOnly};
ghost use Rattle.ips_steps.specs.Steps.{Step};
ghost use Rattle.ips_steps.specs.Private.{mark_name};
ghost use Rattle.ips_steps.specs.declared.step.Sort.{Sort};
ghost use Rattle.ips_kinds.specs.Tallies.{seen_by, taken};
ghost use Rattle.ips_journal.specs.Reading.{IsAt, journal_of};
ghost use Rattle.ips_journal.specs.declared.fault.StepFault.TheVariants as step_fault;
ghost use Rattle.ips_commit.specs.Phases.{IsUnderWay, LaysThousand, LaysAll};

use crate::names::set_mark;
use ips_apply::apply_block;
use ips_folder::Folder;
use ips_journal::{StepFault, StepReader};
use ips_kinds::Kind;
use ips_outside::{Failed, Source};
use ips_text::RelPath;

// No journal lists so many thousands of steps.
const TOO_MANY: u64 = u64::MAX / 1000 + 1;

/// Lays the steps of the journal from the reader's place on. After each thousand it makes them safe, then a mark, and that
/// safe; after the last ones it makes them safe. It answers how many marks stand then, and how many steps were laid.
pub(crate) fn lay_marked<F: Folder>(
    folder: &mut F,
    reader: &mut StepReader,
    kinds: &mut Vec<Box<dyn Kind>>,
    mark: &mut RelPath,
    first: u64,
) -> Result<(u64, u64), StepFault>
    requires open { IsTrue reader.old.is_open }
    requires takers { (s : Sort) → IsTrue (taken (seen_by sorts finished kinds.old.items) s) }
    requires path { 1023 ≤ mark.old.room }
    requires few { first ≤ 18446744073709552 }
    requires way { IsTrue (F.outside.tells folder.old) → IsUnderWay (F.outside.state folder.old) first }
    requires at { IsTrue (F.outside.tells folder.old) → (front : List Step) × IsAt (journal_of (F.outside.state folder.old).held) front reader.old }
    ensures lays { LaysAll F.outside first folder.old folder.new reader.old reader.new (seen_by sorts finished kinds.old.items) (seen_by sorts finished kinds.new.items) result }
    ensures path { 1023 ≤ mark.new.room }
    ensures few { IfOk result (λ x. x.0 < 36893488147419105) }
    ensures cause { HasCause (F.outside.faults folder.old) (F.outside.faults folder.new) (result ≡ Err step_fault.FolderFault) }
    ensures same_kind { F.outside.tells folder.new ≡ F.outside.tells folder.old }
    ensures changes { F.outside.changes folder.old ≤ F.outside.changes folder.new }
{
    for turn in 0..TOO_MANY {
        let laid = match lay_thousand(folder, reader, kinds, mark, first + turn) {
            Ok(laid) => laid,
            Err(fault) => return Err(fault),
        };
        if laid.1 {
            let count = turn.saturating_mul(1000).saturating_add(laid.0);
            return Ok((first + turn, count));
        }
    }
    Err(StepFault::BadJournal {
        line: reader.line(),
    })
}

// Lays a thousand steps, or fewer where the end is read, and makes them safe; then, where the end wasn't read, makes the next
// mark. It answers how many were laid, and whether the end was read.
fn lay_thousand<F: Folder>(
    folder: &mut F,
    reader: &mut StepReader,
    kinds: &mut Vec<Box<dyn Kind>>,
    mark: &mut RelPath,
    marks: u64,
) -> Result<(u64, bool), StepFault>
    requires open { IsTrue reader.old.is_open }
    requires takers { (s : Sort) → IsTrue (taken (seen_by sorts finished kinds.old.items) s) }
    requires path { 1023 ≤ mark.old.room }
    requires few { marks < 36893488147419105 }
    requires way { IsTrue (F.outside.tells folder.old) → IsUnderWay (F.outside.state folder.old) marks }
    requires at { IsTrue (F.outside.tells folder.old) → (front : List Step) × IsAt (journal_of (F.outside.state folder.old).held) front reader.old }
    ensures lays { LaysThousand F.outside marks folder.old folder.new reader.old reader.new (seen_by sorts finished kinds.old.items) (seen_by sorts finished kinds.new.items) result }
    ensures open { IfOk result (λ x. IsFalse x.1 → IsTrue reader.new.is_open) }
    ensures path { 1023 ≤ mark.new.room }
    ensures cause { HasCause (F.outside.faults folder.old) (F.outside.faults folder.new) (result ≡ Err step_fault.FolderFault) }
    ensures same_kind { F.outside.tells folder.new ≡ F.outside.tells folder.old }
    ensures changes { F.outside.changes folder.old ≤ F.outside.changes folder.new }
{
    let laid = match apply_block(folder, reader, kinds, 1000) {
        Ok(laid) => laid,
        Err(fault) => return Err(fault),
    };
    let Ok(()) = folder.sync() else {
        return Err(StepFault::FolderFault);
    };
    if laid.1 {
        return Ok(laid);
    }
    let Ok(()) = make_mark(folder, mark, marks + 1) else {
        return Err(StepFault::FolderFault);
    };
    Ok(laid)
}

// Makes a mark, and makes it safe.
fn make_mark<F: Folder>(folder: &mut F, mark: &mut RelPath, number: u64) -> Result<(), Failed>
    requires path { 1023 ≤ mark.old.room }
    requires can { IsTrue (F.outside.tells folder.old) → CanMake (F.outside.state folder.old).held (mark_name number) }
    ensures path { 1023 ≤ mark.new.room }
    ensures any_moment { IsTrue (F.outside.tells folder.old) → ChangesOnly F.outside (covers (mark_name number)) nowhere folder.old folder.new }
    ensures made { IsTrue (F.outside.tells folder.old) → OnOk result ((F.outside.state folder.new).held.look (mark_name number) ≡ Some (File 384 [])) }
    ensures safe { IsTrue (F.outside.tells folder.old) → OnOk result (IsSettled (F.outside.state folder.new)) }
    ensures cause { HasCause (F.outside.faults folder.old) (F.outside.faults folder.new) (IsErr result) }
    ensures same_kind { F.outside.tells folder.new ≡ F.outside.tells folder.old }
    ensures changes { F.outside.changes folder.old ≤ F.outside.changes folder.new }
{
    set_mark(mark, number);
    folder.make_file(mark)?;
    folder.sync()?;
    Ok(())
}
