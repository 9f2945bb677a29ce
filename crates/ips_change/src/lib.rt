//! What becomes of a path by itself: by what was wanted there, what is wanted, and what stands.
//!
//! `stand_at` learns what stands by one look, and reads a file only where a rule asks for its bytes. The rest is rules, each a choice by
//! entries and by what stands: what becomes of the path (`itself`), the file that is put beside it (`side`), and whether what stands
//! may go unsaved (`given_up`, `saved`, `drops_edit`). In reading order: the nouns (`stands`, `change`), questions of entries (`asking`), the
//! keep table's answers (`answering`), the rules (`rules`), and the look (`standing`).
//!
//! Below it, each with its own contracts: what packages mean as a request wants it (`wanted`), whether a file has the bytes of a payload (`content`). Above
//! it: all paths that a request is about, as rows (`survey`).
#![tactic(auto)]

mod answering;
mod asking;
mod change;
pub mod content;
mod rules;
mod standing;
mod stands;
pub mod survey;
pub mod wanted;

pub use asking::is_equal;
pub use change::{Beside, Change};
pub use rules::{drops_edit, given_up, itself, saved, side};
pub use standing::stand_at;
pub use stands::Stands;
