//! Puzzles, refutations, and the checker whose yes means that a puzzle has no solution.
//!
//! A puzzle asks for one candidate for each stem such that no test is broken. A refutation is a list of nogoods that ends with
//! the empty one; `check` takes it exactly where each nogood follows from the puzzle and from the ones before it. Where it does,
//! no choice of candidates breaks no test, and `refutes` is that law. Whoever found the refutation need not be trusted. A
//! refutation has a text, in one spelling, which reads back.
#![tactic(auto)]

mod ascending;
mod checking;
mod lookup;
mod nogoods;
mod printing;
mod puzzle;
mod reading;
mod runs;
mod table;

pub use ascending::ascend;
pub use checking::{check, explains, is_broken, is_nogood, refutes};
pub use nogoods::{Nogood, Pair, Reason, Refutation, refutations_read_back};
pub use puzzle::{Hint, Puzzle};
pub use reading::BadLine;
pub use table::{Rule, Table};
