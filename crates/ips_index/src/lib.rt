//! An index: by which words the actions of packages are found, kept in order as packages come and go.
#![tactic(auto)]

mod entry;
mod fault;
mod finding;
mod index;
mod keeping;
mod laws;
mod printing;
mod reading;
mod row;
mod scanning;
mod sets;
mod words;

pub use fault::BadIndex;
pub use index::Index;
pub use laws::{index_is_scan, indexes_read_back};
pub use row::IndexRow;
