//! What comes behind the look at the gate.

ghost use Rattle.std.specs.Prelude.{◌≡◌};
ghost use Rattle.ips_run.specs.Phases.{next_of, decided_next};

use ips_commit::Pending;
use ips_history::Effect;

// What comes behind the look at the gate.
#[derive(Drop)]
pub(crate) enum Next {
    // Something stands there, and the operation doesn't recover.
    Refuse,
    // What was stopped is brought to its end.
    Recover,
    // Something is shown.
    Show,
    // The operation decides on a change.
    Change,
    // The directories of the records are made, and then the operation decides on a change.
    Create,
}

pub(crate) fn phase_behind(effect: Effect, found: Pending) -> Next
    ensures { result ≡ next_of effect found }
{
    match (found, effect) {
        (Pending::Open | Pending::Leftover, Effect::Fixes) => Next::Recover,
        (Pending::Open, _) => Next::Refuse,
        (Pending::Nothing | Pending::Leftover, _) => decided_next(effect),
    }
}

fn decided_next(effect: Effect) -> Next
    ensures { result ≡ decided_next effect }
{
    match effect {
        Effect::Shows => Next::Show,
        Effect::Changes | Effect::Fixes => Next::Change,
        Effect::Creates => Next::Create,
    }
}
