//! The law of the records that a repair leaves, the contract of a function that does nothing.

ghost use Rattle.std.specs.Prelude.{ℕ};
ghost use Rattle.ips_outside.specs.Image.{Image};
ghost use Rattle.ips_state.specs.State.{Recorded, recorded};
ghost use Rattle.ips_state.specs.declared.state.State.{State};
ghost use Rattle.ips_laws.specs.record_laws.Recording.{HoldsJust, IsRepairedOf};

use ips_request_due::repairs::{repairs_are_lawful, repairs_hang_together};

/// The repaired image of one that holds a state holds just that state, with the history that the repair puts.
pub fn records_of_repairs_read_back()
    ensures { (moment : ℕ) (old : Recorded) (new : State) (repository t after : Image) → IsRepairedOf moment old new repository t after → HoldsJust after (recorded new) }
{
    repairs_are_lawful();
    repairs_hang_together();
}
