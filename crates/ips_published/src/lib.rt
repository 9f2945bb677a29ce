//! A package published: its contents, its manifest, and the catalog that lists it.
//!
//! It is judged before anything is written. Then the directories on the way are made, contents are laid and made safe, and the manifest
//! and the catalog are put at once. Wherever that is stopped, the package stands whole in the repository or isn't listed.
//!
//! `specs/Publishing` says what is left, and `specs/Answers` how a publication ends, by its cause.
#![tactic(auto)]

mod carrying;
mod fault;
mod publishing;
mod putting;

pub use fault::PublishFault;
pub use publishing::publish;
