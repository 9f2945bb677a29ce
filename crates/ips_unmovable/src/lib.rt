//! The first path at which a request can't be carried out: a thing to be salvaged that can't be moved, a directory with names that are no paths that would
//! go unsaved, or a side name that is too long.
#![tactic(auto)]

mod first;

pub use first::unmovable;
