//! What is salvaged, with what stands there: at the paths that a request is about, and at others where something goes.
//!
//! In reading order: what stands at a path (`finding`), a thing that is added (`adding`), all that stands at or below a path (`gathering`), what
//! stands below a row without a row of its own (`hanging`), all of it where something goes (`straying`), what stands at rows (`marked`), and all
//! that is salvaged as one list (`joining`).
//!
//! What is salvaged at the paths that a request is about stands in `ips_salvage`, below it. Above it, with its own contracts: directories with names
//! that are no paths (`foreign`).
#![tactic(auto)]

mod adding;
mod finding;
pub mod foreign;
mod gathering;
mod hanging;
mod joining;
mod marked;
mod straying;

pub use gathering::gather;
pub use joining::things;
pub use marked::add_row;
pub use straying::{sort, strays};
