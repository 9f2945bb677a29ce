//! Tests of trees, sources, sinks and spawners in memory, of steps, their kinds and journals, and of the folder with its stops and
//! faults.
#![tactic(auto)]

#[cfg(test)]
mod folder;
#[cfg(test)]
mod journal;
#[cfg(test)]
mod kinds;
#[cfg(test)]
mod outside;
#[cfg(test)]
mod script;
#[cfg(test)]
mod steps;
