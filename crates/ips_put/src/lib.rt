//! Texts put into a folder at once, through a journal, and what was stopped brought to its end before.
#![tactic(auto)]

mod laws;
mod putting;
mod settling;

pub use laws::{
    all_stay_whole_or_out, places_stand_apart, puts_keep, two_texts_are_put, what_is_begun_is_out,
    what_is_put_is_whole,
};
pub use putting::put;
pub use settling::settle;
