//! The top call: all that the program does, from the words of the command line to the report.
//!
//! In reading order: what is answered with nothing done (`answering`), the command `gen` (`trying`), and the whole (`running`).
#![tactic(auto)]

mod answering;
mod running;
mod trying;

pub use running::{perform, run};
