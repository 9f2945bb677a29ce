//! The account files `etc/passwd`, `etc/shadow` and `etc/group` with their lines found by name and by number, so that nothing
//! passes over a file for one user.
//!
//! Each answer is the one that a pass over the lines would give.
//!
//! In reading order: what leads to a line by its name (`names`), lines found by name (`named`), what leads to lines by their numbers
//! (`numbers`) and to free numbers (`free`), lines found by name and number (`numbered`), and numbers of owners (`owners`).
#![tactic(auto)]

mod free;
mod named;
mod names;
mod numbered;
mod numbers;
mod owners;

pub use named::Named;
pub use numbered::Numbered;
pub use owners::{Owners, gid_at};
