//! The laws of loading: where an image holds a state no record is at fault, so a state and a fault exclude each other; and two faults of
//! records are one.
mod law;

pub use law::{first_fault_is_one, held_has_no_fault};
