//! The order of a plan: in which order the paths of a request have their steps.
//!
//! What is only old goes first, from the last path on; then come directories, and files and symbolic links, that were wanted and are, and the
//! same of those that are new; account files; hard links; records. In reading order: the paths of account files (`account`), the groups (`group`),
//! places that are marked (`choosing`), and the order (`ordering`).
mod account;
mod choosing;
mod group;
mod ordering;

pub use account::accounts;
pub use ordering::order;
