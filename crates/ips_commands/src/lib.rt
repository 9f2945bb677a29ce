//! Programs that are run: which program with which arguments, and what its end tells. Nothing is run here.
//!
//! A command is promised to have just the program and the arguments that are asked for, and a program to be believed just where it
//! ended with 0.
#![tactic(auto)]

mod commands;
mod ends;

pub use commands::{actuator_command, sync_command};
pub use ends::{Unwell, ended, told_by};
