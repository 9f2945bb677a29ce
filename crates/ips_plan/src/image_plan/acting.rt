//! The words that the actuator of an image is run with.

ghost use Rattle.std.specs.Prelude.{◌≡◌, [], IfOk, OnOk, map};
ghost use Rattle.ips_plan.specs.image_plan.Acting.{AreActions, AreRuns, AreRunsOf};

use ips_action::Action;
use ips_actuate::{Words, words};
use ips_conflict::Placed;
use ips_delivered::delivered::admitted;
use ips_state::State;
use ips_text::Text;
use std::alloc::{AllocError, Global};

/// The words that the actuator of the new state is run with before and after a change of the image from the old state to the new one; none where none is set.
pub fn words_between(
    alloc: Global,
    old: &State,
    new: &State,
) -> Result<(Vec<Words>, Vec<Words>), AllocError>
    ensures { IfOk result (λ lists. AreRuns old.now new.now lists.0.items lists.1.items) }
{
    match &new.actuator {
        Some(program) => words_of(alloc, old, new, program),
        None => Ok((Vec::new(alloc), Vec::new(alloc))),
    }
}

// The words that this program is run with.
fn words_of(
    alloc: Global,
    old: &State,
    new: &State,
    program: &Text,
) -> Result<(Vec<Words>, Vec<Words>), AllocError>
    ensures { IfOk result (λ lists. AreRunsOf program.now old.now new.now lists.0.items lists.1.items) }
{
    let before = actions_of(alloc, old)?;
    let after = actions_of(alloc, new)?;
    words(alloc, &before, &after, Some(program))
}

// The admitted actions of the state's packages.
fn actions_of(alloc: Global, state: &State) -> Result<Vec<Action>, AllocError>
    ensures { IfOk result (λ actions. AreActions state.now actions.items) }
{
    let admitted = admitted(alloc, &state.installed, &state.settings)?;
    let mut actions = Vec::new(alloc);
    add_actions(alloc, &admitted, &mut actions)?;
    Ok(actions)
}

// Adds these actions.
fn add_actions(
    alloc: Global,
    admitted: &[Placed<'_>],
    actions: &mut Vec<Action>,
) -> Result<(), AllocError>
    requires { actions.old.items ≡ [] }
    ensures { OnOk result (actions.new.items ≡ map (λ p. p.action) admitted.now) }
{
    for item in admitted {
        actions.push(item.action().copy(alloc)?)?;
    }
    Ok(())
}
