//! The account files that are due behind a request, and their texts behind it, in one call.
//!
//! In reading order: whether users or groups are admitted (`admitted`), what a request leaves of one file (`finding`) and of all three before they are edited
//! (`bases`), the edit and what it makes due (`files`, `editing`), the call (`giving`), and what follows
//! of its answer (`laws`).
//!
//! Below it, with its own contracts: what is left of each file, and what an edit makes of it (`ledger`).
#![tactic(auto)]

mod admitted;
mod bases;
mod editing;
mod files;
mod finding;
mod giving;
mod laws;
pub mod ledger;

pub use files::AccountFiles;
pub use giving::account_files;
pub use laws::{answers_are_one, bases_are_files, due_files_are_proper, due_files_fit};
