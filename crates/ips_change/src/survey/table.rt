//! All paths that a request is about.

use crate::survey::row::Row;
use crate::survey::said::Said;

/// All paths that a request is about, in the order of their bytes, and what account files and records say of each.
#[derive(Drop)]
pub struct Table<'a> {
    /// The paths, with what was and what is wanted there, and with what stands as far as a rule asks.
    pub rows: Vec<Row<'a>>,
    /// What is said of each of these paths.
    pub said: Vec<Option<Said>>,
}
