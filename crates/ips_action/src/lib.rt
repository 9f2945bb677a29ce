//! Actions: the lines of a manifest, read exactly and printed in one spelling each.
//!
//! The table of actions says which attributes each action has, and what their values must be. A line is read exactly where
//! it is an action of the table, and else its first fault is told, in a stated order. What is printed reads back.
#![tactic(auto)]

mod action;
mod attrs;
mod check;
mod drafting;
mod fault;
mod holding;
mod judging;
mod key;
mod kind;
mod printing;
mod reading;
mod table;
mod target;
mod values;

pub use action::{Action, Preserve};
pub use attrs::{Attr, AttrList, Attrs};
pub use check::Check;
pub use drafting::parse_draft;
pub use fault::ActionFault;
pub use judging::takes_payload;
pub use key::Key;
pub use kind::ActionKind;
pub use printing::{actions_read_back, print_line, print_parts};
pub use reading::parse_line;
pub use table::{Row, Times, rows};
pub use target::leads_to;
pub use values::Values;
