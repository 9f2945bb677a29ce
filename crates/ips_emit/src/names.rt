//! The paths that steps may name.

ghost use Rattle.std.specs.Prelude.{◌≡◌};
ghost use Rattle.ips_text.specs.Ancestry as ancestry;
ghost use Rattle.ips_steps.specs.Journal as journal;
ghost use Rattle.ips_steps.specs.Private as private_names;

use ips_text::covers;

/// Whether a step that isn't a mode may name the path: it is neither private, nor the folder of the records, nor above that.
pub fn may_name(path: &[u8]) -> bool
    ensures { result ≡ journal.may_name path.now }
{
    !is_private(path) && !is_above_records(path)
}

// Whether the path is the folder of the records or above it.
#[tactic(auto, unfolding(ips_steps::specs::Private::records_name))]
fn is_above_records(path: &[u8]) -> bool
    ensures { result ≡ ancestry.covers path.now private_names.records_name }
{
    covers(path, b"var/pkg")
}

/// Whether the path is at or below the stage, the journal or the gate, or begins as the names of marks do.
pub fn is_private(path: &[u8]) -> bool
    ensures { result ≡ private_names.is_private path.now }
{
    if covers(b"var/pkg/stage", path) {
        return true;
    }
    if covers(b"var/pkg/journal", path) {
        return true;
    }
    if covers(b"var/pkg/gate", path) {
        return true;
    }
    path.starts_with(b"var/pkg/done.")
}
