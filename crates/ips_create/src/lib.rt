//! A repository made in a folder: its directories, the catalog of one publisher without packages, and its mark.
//!
//! The mark comes last, when the rest is safe: where it is valid, the rest stands. `specs/Created` says what is made and why it isn't,
//! and `specs/Making` what is so at each moment meanwhile.
#![tactic(auto)]

mod creating;
mod fault;
mod judging;
mod making;
mod parts;
mod writing;

pub use creating::create;
pub use fault::CreateFault;
