//! Which account files and records are due behind a request, and what of it the request says.
//!
//! A record that stands as it should isn't spoken of, nor is a removal where nothing stands. What is said so fits what packages
//! mean, as the laws of the image after ask for, and a journal can name it.
//!
//! Above it, with its own contracts: which of them aren't as they are due (`outstanding`).
#![tactic(auto)]

mod laws;
pub mod outstanding;

pub use laws::{
    creations_hang_together, creations_have_proper_due, due_can_be_named, due_fits_the_want,
    due_is_told_by_paths, requests_are_lawful, requests_hang_together, requests_have_proper_due,
    requests_leave_salvage, salvage_lies_apart, standing_is_not_spoken_of, standing_records_stay,
    state_hangs_together,
};
