//! Tests of publishing over folders in memory.
//!
//! Runs of `send` and of the program are tables of rows, and `runs` says what is asked of a row, over the folder of what is published, the repository and the image of a
//! `world`: what is made and published, and how each refusal is told (`cases`); and runs that are stopped at each call, sent again, and installed from (`stops`).
#![tactic(auto)]

#[cfg(test)]
mod cases;
#[cfg(test)]
mod rows;
#[cfg(test)]
mod runs;
#[cfg(test)]
mod stops;
#[cfg(test)]
mod world;
