//! How the report of a run is written to a sink: without memory where anything may have been changed or a call has failed.
//!
//! In reading order: pieces of reports (`pieces`), the reports that need no memory (`late`), and all of them (`finishing`).
mod finishing;
mod late;
mod pieces;

pub use finishing::finish;
