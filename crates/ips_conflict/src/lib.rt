//! Clashes: actions of different packages, or of one, that can't stand in one image.
//!
//! `clash` tells the first clash among the actions that an image takes: the least by its key, then by its rule, then by the
//! first two actions in the order of packages and lines. Two actions of one key are judged by a table of cases, which is
//! proved to decide each pair once. Only neighbours in maps are compared, so that the time grows as n log n. Actions are lent,
//! so that no more than their keys is copied.
//!
//! In reading order: placed actions and their keys (`placed`), when two say the same (`alike`), the table (`verdict`), what is
//! told (`clashing`), what is looked up (`index`), the first of a group (`earliest`), the rules (`pairs`, `paths`), the
//! first clash (`finding`).
#![tactic(auto)]

mod alike;
mod clashing;
mod earliest;
mod finding;
mod index;
mod pairs;
mod paths;
mod placed;
mod verdict;

pub use clashing::{Clash, Rule};
pub use finding::clash;
pub use placed::{Placed, Sort};
