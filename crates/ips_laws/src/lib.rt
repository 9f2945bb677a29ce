//! Laws of what packages mean: one list of entries, but for the room of texts; and where they mean something, they have no fault.
//!
//! Above them, each a module of its own: what is loaded (`recorded`), what a command comes to (`next_laws`), plans (`plan_laws`), the records that they
//! leave (`record_laws`), answers of runs (`answers`), histories of runs (`histories`), and the transformation of manifests (`mogrify_laws`).
#![tactic(auto)]

pub mod answers;
pub mod histories;
mod law;
pub mod mogrify_laws;
pub mod next_laws;
pub mod plan_laws;
pub mod record_laws;
pub mod recorded;

pub use law::{meaning_is_one, meaning_or_fault};
