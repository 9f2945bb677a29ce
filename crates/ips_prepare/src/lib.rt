//! What a publication puts, prepared of the lines of its manifest with the names of their contents.
//!
//! Its name stands in the manifest, the contents are listed, the directories on the way and the texts that are put are made. Nothing
//! is read or written.
//!
//! What is to be made say the definitions of publications; `specs/Prepared` says of which lines.
#![tactic(auto)]

mod directories;
mod limits;
mod naming;
mod prepared;
mod preparing;
mod texts;

pub use directories::ways;
pub use limits::{Over, limit_passed};
pub use naming::name_of;
pub use prepared::{Content, Prepared, Texts};
pub use preparing::prepare;
pub use texts::print_texts;
