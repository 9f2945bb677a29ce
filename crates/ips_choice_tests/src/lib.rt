//! Tests of choices: the checker of refutations, the search, and the puzzle that a request poses.
//!
//! `table` reads the cases of puzzles, and `puzzle` the puzzles that they spell. The cases of requests are tables of `cases`;
//! `asked` says what is asked of a row, and `problem` asks it.
#![tactic(auto)]

#[cfg(test)]
mod asked;
#[cfg(test)]
mod cases;
#[cfg(test)]
mod problem;
#[cfg(test)]
mod puzzle;
#[cfg(test)]
mod refute;
#[cfg(test)]
mod rows;
#[cfg(test)]
mod search;
#[cfg(test)]
mod table;
