//! The words of a line: a name, a payload word, and `key=value`, as in the manifests of packages (pkg(7)).
//!
//! A line is read exactly where it has the form of one, to the words that it says; else the first place is told at which it
//! goes wrong, or the quote that isn't closed. Each line's words have one canonical spelling, which reads back. Which names
//! there are, and what their words mean, isn't known here.
#![tactic(auto)]

mod attributes;
mod classes;
mod fault;
mod payload;
mod printing;
mod values;
mod words;

pub use classes::{Class, run};
pub use fault::{Part, WordFault};
pub use printing::{lines_read_back, push_pair, push_payload, push_words};
pub use values::{Written, read_value, value};
pub use words::{Pair, Word, Words, read_words};
