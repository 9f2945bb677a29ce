//! Which licenses a request newly delivers: those that are to be shown, and those that must be accepted.
//!
//! In reading order: what the old packages delivered (`before`), the licenses that are new and marked (`marked`), and their texts (`newly`).
mod before;
mod marked;
mod newly;

pub use newly::{NewLicenses, new_licenses};
