//! An operation, carried out and told.

ghost use Rattle.std.specs.Prelude.{IsTrue};
ghost use Rattle.ips_steps.specs.declared.step.Sort.{Sort};
ghost use Rattle.ips_kinds.specs.Tallies.{seen_by, taken};
ghost use Rattle.ips_report.specs.Report.{report_text};
ghost use Rattle.ips_report.specs.declared.outcome.Outcome.{Outcome as OutcomeMeant};
ghost use Rattle.ips_run.specs.declared.operation.Decision.{Decision};
ghost use Rattle.ips_tell.specs.told.Told.{IsToldAs};
ghost use Rattle.ips_files.specs.Telling.{Tells};
ghost use Rattle.ips_tell.specs.performing.Performed.{IsPerformed};

use crate::telling::finish;
use crate::told::{outcome_of, outcomes_blame_alike, outcomes_claim_alike};
use ips_folder::Folder;
use ips_kinds::Kind;
use ips_outside::{Sink, Source, Spawner};
use ips_report::{Outcome, Status};
use ips_run::{Operation, perform};
use std::alloc::Global;

/// Carries out an operation and writes its report. Its decisions have to be told by outcomes of their manners, and each sort of step has to have a kind that
/// takes it.
pub fn performed<S: Source, F: Folder, P: Spawner, O: Sink, C: Operation<Outcome>>(
    alloc: Global,
    operation: &C,
    repo: &mut S,
    image: &mut F,
    spawner: &mut P,
    kinds: &mut Vec<Box<dyn Kind>>,
    out: &mut O,
) -> Status
    requires takers { (s : Sort) → IsTrue (taken (seen_by sorts finished kinds.old.items) s) }
    requires says { (d : Decision OutcomeMeant) → C.says operation.now d → IsToldAs d }
    // What is claimed of the image, the cause of each outcome, and whose fault one is.
    ensures performed { IsPerformed F.outside S.outside P.running (C.effect operation.now) (C.decides operation.now) (C.means operation.now)
        (record { folder = image.old; source = repo.old; spawner = spawner.old; counted = seen_by sorts finished kinds.old.items })
        (record { folder = image.new; source = repo.new; spawner = spawner.new; counted = seen_by sorts finished kinds.new.items }) result.outcome }

    // The sink took the report, whole where that is answered.
    ensures told { Tells O.taking (report_text result.outcome) out.old out.new result.told }
{
    outcomes_claim_alike();
    outcomes_blame_alike();
    let ending = perform(alloc, operation, repo, image, spawner, kinds);
    finish(alloc, outcome_of(ending), out)
}
