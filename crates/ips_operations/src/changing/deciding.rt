//! The steps of a decision: the state that the records tell, the next one, the plan of the request, and the change.

ghost use Rattle.std.specs.Prelude.{◌≡◌, ◌<◌, IsTrue, None};
ghost use Rattle.ips_steps.specs.Private.{gate_name};
ghost use Rattle.ips_asked.specs.Formed.{IsFormedCommand};
ghost use Rattle.ips_tell.specs.told.Naming.{AreNamed};
ghost use Rattle.ips_operations.specs.changing.Decides.{LeadsOn, asked_of};
ghost use Rattle.ips_operations.specs.changing.Deciding.{IsDecisionOrFault, IsLoaded};
ghost use Rattle.ips_operations.specs.changing.Plans as plans;

use crate::changing::changing::accepts;
use crate::changing::laws::plan_faults_are_told;
use crate::changing::refusing::{unled, unplanned};
use ips_counts::Sorts;
use ips_emit::Emitted;
use ips_folder::Folder;
use ips_image::load;
use ips_next::next_state;
use ips_outside::Source;
use ips_plan::image_plan::Planned;
use ips_plan::request_plan::Plan;
use ips_plan::requested::plan;
use ips_report::Outcome;
use ips_run::{Change, DecideFault, Decision};
use ips_state::State;
use ips_tell::refusals::unread;
use ips_tell::told::payloads_are_named;
use ips_text::{Or, Text};
use ips_words::Command;
use std::alloc::{AllocError, Global};

// What the command decides.
pub(crate) fn loaded<S: Source, F: Folder>(
    alloc: Global,
    command: &Command,
    moment: u64,
    source: &mut S,
    folder: &mut F,
) -> Result<Decision<Outcome>, Or<DecideFault>>
    requires moment { moment < 253370764800 }
    requires formed { IsFormedCommand command.now }
    requires shut { IsTrue (F.outside.tells folder.old) → (F.outside.state folder.old).held.look gate_name ≡ None }
    ensures { IsDecisionOrFault F.outside S.outside command.now moment folder.old folder.new source.old source.new result }
{
    match load(alloc, folder) {
        Ok(old) => stated(alloc, command, moment, &old, source, folder),
        Err(fault) => unread(fault),
    }
}

// The same, where the records tell this state.
fn stated<S: Source, F: Folder>(
    alloc: Global,
    command: &Command,
    moment: u64,
    old: &State,
    source: &mut S,
    folder: &mut F,
) -> Result<Decision<Outcome>, Or<DecideFault>>
    requires moment { moment < 253370764800 }
    requires formed { IsFormedCommand command.now }
    requires loaded { IsLoaded F.outside folder.old old.now }
    ensures { IsDecisionOrFault F.outside S.outside command.now moment folder.old folder.new source.old source.new result }
{
    match next_state(alloc, command, moment, old, source) {
        Ok(new) => led(alloc, command, moment, old, &new, source, folder),
        Err(fault) => unled(fault),
    }
}

// The same, where the command leads to this new state.
fn led<S: Source, F: Folder>(
    alloc: Global,
    command: &Command,
    moment: u64,
    old: &State,
    new: &State,
    source: &mut S,
    folder: &mut F,
) -> Result<Decision<Outcome>, Or<DecideFault>>
    requires moment { moment < 253370764800 }
    requires loaded { IsLoaded F.outside folder.old old.now }
    requires leads { LeadsOn (asked_of command.now moment (S.outside.tells source.old) (S.outside.state source.old).held (F.outside.state folder.old).held) old.now new.now }
    ensures { IsDecisionOrFault F.outside S.outside command.now moment folder.old folder.new source.old source.new result }
{
    plan_faults_are_told();
    let Ok(publisher) = new.publisher.copy(alloc) else {
        return Err(Or::OutOfMemory);
    };
    let accept = accepts(&command.what);
    match plan(alloc, old, new, moment, accept, source, folder) {
        Ok(plan) => Ok(Decision::Change(change_of(publisher, plan))),
        Err(fault) => unplanned(fault),
    }
}

// The change that the plan is, whose payloads have names.
fn change_of(publisher: Text, plan: Plan) -> Change<Outcome>
    ensures is { result ≡ plans.change_of publisher plan }
    ensures named { AreNamed plan.planned.emitted.staged.items }
{
    let Plan {
        planned,
        before,
        after,
        counts,
    } = plan;
    let Planned { emitted, licenses } = planned;
    let Emitted { steps, staged } = emitted;
    payloads_are_named(&staged);
    let sorts = Sorts::of(&steps);
    Change {
        publisher,
        steps,
        staged,
        before,
        after,
        told: Outcome::Done {
            counts,
            steps: sorts,
            licenses,
        },
    }
}
