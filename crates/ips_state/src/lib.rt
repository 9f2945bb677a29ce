//! The records of an image: which packages are installed at which versions, and what is set.
//!
//! What an image records is a state; `specs/Text` and `specs/Records` say in which files, with which texts, and `specs/Lawful`
//! which states have such texts. In reading order: states (`state`, `copying`), the texts of records (`printing`, `head`), laws (`laws`).
#![tactic(auto)]

mod copying;
mod head;
mod laws;
mod printing;
mod state;

pub use head::head_text;
pub use laws::lawful_is_ordered;
pub use printing::{mediators_text, names_text, package_record, texts_text};
pub use state::{Origin, Record, State};
