//! The journal: the text in which the steps of a plan are kept, so that they can be laid again after a stop.
//!
//! The text has one spelling. `write_steps` makes that of a list of steps, and a `JournalWriter` writes it into a file step by
//! step. A `StepReader` gives the steps back one by one,
//! from a file that it reads piece by piece and never holds whole; it is made with all the memory that it needs. It answers
//! just the steps of the text, or the number of the first line that isn't of the grammar.
//!
//! `specs/Text` has the text, `specs/Bad` which line is bad, `specs/Reading` what a reader's answers mean.
#![tactic(auto)]

mod ahead;
mod beside;
mod cursor;
mod fault;
mod fields;
mod held;
mod laws;
mod lines;
mod names;
mod parts;
mod reader;
mod reading;
mod staged;
mod stepping;
mod words;
mod writer;
mod writing;

pub use fault::StepFault;
pub use laws::{journals_read_back, one_bad_line, steps_come_in_order};
pub use reader::StepReader;
pub use staged::Staged;
pub use writer::JournalWriter;
pub use writing::write_steps;
