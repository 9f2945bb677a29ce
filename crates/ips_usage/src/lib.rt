//! The law of usage: words that are no command are told at the first word that no line continues.
#![tactic(auto)]

mod law;

pub use law::usage_names_the_first_wrong_word;
