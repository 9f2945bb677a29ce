//! What a repair makes of an image, path by path, before any step is planned.
//!
//! In reading order, each with its own contracts: what becomes of each wanted path, its order and its steps (`mended`), and what a repair salvages
//! (`displaced`).
#![tactic(auto)]

pub mod displaced;
pub mod mended;
