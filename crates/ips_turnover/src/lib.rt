//! Which users and groups go as the actions of packages give way to others, and which are new.
//!
//! A name goes where an old action has it and no new one: its lines leave the account files, and a user leaves all lists of members.
//! An action is new where its canonical line differs from every old one.
//!
//! In reading order: what actions say (`values`), sets of texts (`sets`), names that go (`gone`), and new actions (`comparing`).
#![tactic(auto)]

mod comparing;
mod gone;
mod sets;
mod values;

pub use comparing::fresh;
pub use gone::{Gone, remove_gone};
pub use values::{given_or, number_given, value_of};
