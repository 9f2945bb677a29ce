//! The states between which a request goes.

use ips_meaning::Want;
use ips_state::State;

/// The old and the new state of an image, and what the packages of each mean.
#[derive(Clone, Copy, Drop)]
pub struct Between<'a> {
    /// The old state.
    pub old: &'a State,
    /// The new state.
    pub new: &'a State,
    /// What the old packages mean.
    pub was: &'a Want,
    /// What the new packages mean.
    pub is: &'a Want,
}
