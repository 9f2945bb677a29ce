//! What an operation comes to.

ghost use Rattle.std.specs.Prelude.{◌≡◌, Bool, IfSome, IsTrue};
ghost use Rattle.ips_outside.specs.Image.{Image};
ghost use Rattle.ips_steps.specs.declared.step.Sort.{Sort};
ghost use Rattle.ips_kinds.specs.Tallies.{seen_by, taken};
ghost use Rattle.ips_report.specs.declared.outcome.Outcome.{Outcome as OutcomeMeant};
ghost use Rattle.ips_run.specs.declared.operation.Decision.{Decision};
ghost use Rattle.ips_tell.specs.told.Laying.{TellsItsSteps};
ghost use Rattle.ips_trial.specs.Carried.{AreFinished, number_in};

use crate::world::World;
use ips_counts::Sorts;
use ips_kinds::Kind;
use ips_report::Outcome;
use ips_run::{Ending, Operation, perform};
use std::alloc::Global;

/// A change that is done: how many packages it installs, and how many steps it has.
#[derive(Clone, Copy, Drop)]
pub(crate) struct Carried {
    pub packages: u64,
    pub steps: u64,
}

/// Carries out a change that tells its steps; None where it isn't done.
pub(crate) fn carry_out<C: Operation<Outcome>>(
    alloc: Global,
    change: &C,
    world: &mut World,
    kinds: &mut Vec<Box<dyn Kind>>,
) -> Option<Carried>
    requires takers { (s : Sort) → IsTrue (taken (seen_by sorts finished kinds.old.items) s) }
    requires tells { (tells : Bool) (repository t : Image) (d : Decision OutcomeMeant) → C.decides change.now tells repository t d → TellsItsSteps d }
    ensures { IfSome result (λ x. AreFinished x.steps (seen_by sorts finished kinds.old.items) (seen_by sorts finished kinds.new.items)) }
{
    match perform(
        alloc,
        change,
        &mut world.repository,
        &mut world.folder,
        &mut world.spawner,
        kinds,
    ) {
        Ending::Done(Outcome::Done { counts, steps, .. }) => Some(Carried {
            packages: counts.installs,
            steps: number_of(&steps),
        }),
        _ => None,
    }
}

// How many steps there are of all sorts together, as far as a number goes.
fn number_of(steps: &Sorts) -> u64
    ensures { result ≡ number_in steps.now }
{
    let laid = steps.gone as u128 + steps.fresh as u128 + steps.mode as u128;
    let all = laid + steps.put as u128 + steps.link as u128 + steps.hard as u128;
    if all < u64::MAX as u128 {
        all as u64
    } else {
        u64::MAX
    }
}

/// How much of the image isn't as its packages say, by an operation that verifies it; None where that isn't told.
pub(crate) fn findings<V: Operation<Outcome>>(
    alloc: Global,
    verifying: &V,
    world: &mut World,
    kinds: &mut Vec<Box<dyn Kind>>,
) -> Option<u64>
    requires takers { (s : Sort) → IsTrue (taken (seen_by sorts finished kinds.old.items) s) }
    ensures { IfSome result (λ _. seen_by sorts finished kinds.new.items ≡ seen_by sorts finished kinds.old.items) }
{
    match perform(
        alloc,
        verifying,
        &mut world.repository,
        &mut world.folder,
        &mut world.spawner,
        kinds,
    ) {
        Ending::Shown(_) => Some(0),
        Ending::Refused(Outcome::Damaged { findings }) => Some(findings.len() as u64),
        _ => None,
    }
}
