//! Contents of a publication, laid in a repository at their names.
//!
//! A content that stands there intact isn't written again. What is written is read piece by piece and judged by its digest. It is beside
//! all that a repository shows: only places of contents that aren't intact are changed.
#![tactic(auto)]

mod content;
mod copying;
mod laying;
mod records;
mod standing;

pub use content::{Content, LayFault};
pub use laying::lay;
pub use records::{make_records, make_safe};
