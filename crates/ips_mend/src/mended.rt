//! What a repair makes of each wanted path, by what is found there.
//!
//! A repair goes by the Want and its findings; no rows of a request are needed, since nothing else was wanted. In reading order: what
//! becomes of a path by its own finding (`remedy`), of all of them (`listing`), the files that hard links need (`lacking`), the hard
//! links of files that are laid (`relinking`), and all of it (`mending`); the order of the wanted paths (`ordering`), their steps
//! (`drafting`), and what is known of both (`laws`).
mod drafting;
mod lacking;
mod laws;
mod listing;
mod mending;
mod ordering;
mod relinking;
mod remedy;

pub use drafting::draft_mended;
pub use laws::{mended_changes_have_targets, repairs_are_in_order};
pub use mending::mend;
pub use ordering::mended_order;
