//! Tests of repositories, with their mark, catalog, manifests and payloads, and of the adapters over real files and standard
//! output.
//!
//! The cases of repositories are tables of `cases`; `asked` says what is asked of a row, `trees` makes the folder, and `answers`
//! asks it. The adapters play a `script`; `faults` asks for the words behind their faults.
#![tactic(auto)]

#[cfg(test)]
mod answers;
#[cfg(test)]
mod asked;
#[cfg(test)]
mod cases;
#[cfg(test)]
mod faults;
#[cfg(test)]
mod folder;
#[cfg(test)]
mod generated;
#[cfg(test)]
mod rows;
#[cfg(test)]
mod script;
#[cfg(test)]
mod sink;
#[cfg(test)]
mod source;
#[cfg(test)]
mod trees;
