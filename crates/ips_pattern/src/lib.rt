//! Patterns: regular expressions, and the replacement of what they match.
//!
//! What a text means as a pattern, where it matches and what a replacement writes is said by the definitions of the crate
//! `regex`. A text is refused exactly where it is no pattern of its grammar or is nested deeper than 250.
#![tactic(auto)]

mod editor;
mod finder;
mod pattern;

pub use editor::Editor;
pub use finder::Finder;
pub use pattern::{NoPattern, Pattern};
