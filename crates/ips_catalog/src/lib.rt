//! The catalog of a repository: which versions of which packages a publisher has.
//!
//! A catalog is read exactly where the JSON value of its text holds one, and else its first fault is told: packages are read by
//! the bytes of their stems, and the entries of each in their order. A catalog lists its packages by stem, each with its
//! versions ascending.
//!
//! The text is read in one pass (`outline`) that passes over what isn't needed (`skip`), so that no JSON value of it is made; what is
//! kept is then judged (`packages`, `entries`) and dropped, a package at a time.
#![tactic(auto)]

mod catalog;
mod entries;
mod fault;
mod numbers;
mod outline;
mod packages;
mod pointers;
mod skip;
mod stems;
mod unread;

pub use catalog::Catalog;
pub use fault::CatalogFault;
pub use pointers::pointers_lead;
