//! The text of a moment: the date and the time of day that a clock in UTC shows.
#![tactic(auto)]

mod moment;

pub use moment::moment_text;
