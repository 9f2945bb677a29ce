//! What is due behind a request, behind the making of an image and behind a repair, kept as it is lent.
//!
//! In reading order: what is due, kept (`kept`), what a request makes due (`asking`), what an image is made with (`creating`), what a repair makes due
//! (`repairing`), and which account files a request may ask for (`laws`).
//!
//! Below it, each with its own contracts: what a repair makes due (`repairs`), and the records of a state (`state_due`).
#![tactic(auto)]

mod asking;
mod creating;
mod kept;
mod laws;
mod repairing;
pub mod repairs;
pub mod state_due;

pub use asking::request_due;
pub use creating::creation_due;
pub use kept::KeptDue;
pub use laws::changed_files_are_account_files;
pub use repairing::repair_due;
