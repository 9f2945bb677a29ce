//! The state that the command begins.

ghost use Rattle.std.specs.Prelude.{◌≡◌, ◌<◌, IfOk, IsTrue, map};
ghost use Rattle.ips_state.specs.State.{recorded};
ghost use Rattle.ips_state.specs.Lawful.{IsLawful};
ghost use Rattle.ips_asked.specs.Formed.{IsFormedCommand};
ghost use Rattle.ips_plan.specs.created.Made.{IsBlank};
ghost use Rattle.ips_operations.specs.creating.Creations.{AreFoundedBy, IsBegun, makes_image};

use ips_asked::{founded, founded_is_lawful};
use ips_next::add_line;
use ips_state::State;
use ips_words::{Command, What};
use std::alloc::{AllocError, Global};

// The state of the image that the command makes at this moment.
pub(crate) fn begun(alloc: Global, command: &Command, moment: u64) -> Result<State, AllocError>
    requires moment { moment < 253370764800 }
    requires formed { IsFormedCommand command.now }
    requires makes { IsTrue (makes_image command.now.what) }
    ensures begun { IfOk result (IsBegun (record { command = command.now; moment = moment })) }
    ensures lawful { IfOk result (λ s. IsLawful (recorded s)) }
    ensures blank { IfOk result IsBlank }
{
    founded_is_lawful();
    let mut state = founded_by(alloc, &command.what)?;
    add_line(alloc, moment, &command.history, &mut state.history)?;
    Ok(state)
}

// The same before its history.
fn founded_by(alloc: Global, what: &What) -> Result<State, AllocError>
    requires makes { IsTrue (makes_image what.now) }
    ensures founded { IfOk result (λ s. AreFoundedBy what.now (recorded s)) }
{
    match what {
        What::ImageCreate {
            publisher,
            variants,
            facets,
            actuator,
        } => founded(alloc, publisher, variants, facets, actuator),
        _ => unreachable!(),
    }
}
