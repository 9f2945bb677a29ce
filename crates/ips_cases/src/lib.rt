//! Case tables: a decision over four small numbers, written as rows of sets. A table is accepted only where each key
//! is met by just one row, so no case is forgotten and none is decided twice.
#![tactic(auto)]

mod keys;
mod row;
mod table;

pub use row::Row;
pub use table::Cases;
