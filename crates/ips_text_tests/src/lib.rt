//! Tests of the crates of words: paths and texts, words of a line, versions, FMRIs
//! and patterns, payload names, the tables of `ips_cases`, and why a line is no action,
//! a text no catalog, and two actions clash. `table` reads the cases.
#![tactic(auto)]

#[cfg(test)]
mod cases;
#[cfg(test)]
mod digest;
#[cfg(test)]
mod faults;
#[cfg(test)]
mod fmri;
#[cfg(test)]
mod line;
#[cfg(test)]
mod stops;
#[cfg(test)]
mod table;
#[cfg(test)]
mod text;
#[cfg(test)]
mod told;
