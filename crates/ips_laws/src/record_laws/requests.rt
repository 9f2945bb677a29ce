//! The law of the records that a request leaves, the contract of a function that does nothing.

ghost use Rattle.std.specs.Prelude.{ℕ};
ghost use Rattle.ips_outside.specs.Image.{Image};
ghost use Rattle.ips_state.specs.State.{recorded};
ghost use Rattle.ips_state.specs.declared.state.State.{State};
ghost use Rattle.ips_entries.specs.Standing.{recounted};
ghost use Rattle.ips_laws.specs.record_laws.Recording.{HoldsJust, IsRequestedOf};

use ips_account_files::{due_files_are_proper, due_files_fit};
use ips_manifest::manifests_read_back;

/// What is seen after a request, of an image that holds the old state, holds just the new one: lines of manifests have the numbers of the texts that were
/// written. The new state can be recorded, none of its records is too large, and it has an index where the old one has one, as each state has to which a
/// command leads.
pub fn records_of_requests_read_back()
    ensures { (moment : ℕ) (old new : State) (repository t after : Image) → IsRequestedOf moment old new repository t after → HoldsJust after (recounted (recorded new)) }
{
    due_files_fit();
    due_files_are_proper();
    manifests_read_back();
}
