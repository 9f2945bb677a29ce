//! What becomes of the rows of a table.

use ips_change::Change;

/// What becomes of the rows of a table, each list in their order.
#[derive(Drop)]
pub struct Settled<'a> {
    /// What becomes of each path, where account files and records don't speak of it.
    pub changes: Vec<Change<'a>>,
    /// Whether a directory is made at the path for what is made below it.
    pub supports: Vec<bool>,
    /// Whether the directory at the path is emptied.
    pub emptied: Vec<bool>,
}
