//! Laws of reports: no two outcomes that differ in what they tell have one text, but for those that show a text as it stands.
#![tactic(auto)]

mod law;

pub use law::{reports_tell_their_kind, reports_tell_their_lists, reports_tell_what_they_say};
