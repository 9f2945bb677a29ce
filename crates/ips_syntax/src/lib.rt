//! The syntax of the command line: a table of the commands, their options and their operands, and the reading of a line by it.
//!
//! `read_line` answers what a line of the table says, with what is given to its command, and else the first word at fault with what is
//! wrong there. In reading order: the table (`table`), values of options and operands (`values`), lines (`lines`).
#![tactic(auto)]

mod lines;
mod table;
mod values;

pub use lines::{Line, next_word, read_line, stands};
pub use table::{
    Form, Operands, Role, VERBS, Verb, Why, operands_of, options_of, repeats, required_of,
    role_name, sets, value_form, verb_name,
};
pub use values::{FacetWord, Given, Value, VariantWord};
