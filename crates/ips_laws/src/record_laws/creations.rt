//! The law of the records that an image is made with, the contract of a function that does nothing.

ghost use Rattle.ips_outside.specs.Image.{Image};
ghost use Rattle.ips_state.specs.State.{recorded};
ghost use Rattle.ips_state.specs.declared.state.State.{State};
ghost use Rattle.ips_laws.specs.record_laws.Recording.{HoldsJust, IsMadeOf};

use ips_manifest::manifests_read_back;

/// The image that is made with a state in which nothing is installed holds just that state, whatever stood where its records are. The state can be recorded, and
/// none of its records is too large.
pub fn records_of_creations_read_back()
    ensures { (new : State) (t after : Image) → IsMadeOf new t after → HoldsJust after (recorded new) }
{
    manifests_read_back();
}
