//! The words of the command line, as one table says them: each command, its options and its operands.
//!
//! `Command::read` answers a command exactly where the words are a line of the table, and else the first word at fault with what is
//! wrong there. The help is a page of the same table.
#![tactic(auto)]

mod command;
mod gather;
mod helping;
mod history;
mod making;
mod what;

pub use command::{Command, roots};
pub use helping::{help, version};
pub use history::history_reads_back;
pub use ips_syntax::{FacetWord, Form, Given, Operands, Role, Value, VariantWord, Verb, Why};
pub use what::{Usage, What};
