//! The records of an image as a whole, loaded file by file in one order: what the image is by itself, packages, lists, the index.
//!
//! The first file that isn't of its grammar is told, with its first bad line (`specs/Fault`, `specs/Whole`). In reading order:
//! what stands at a path (`standing`), the file `image` (`heading`), the lists (`lists`), the index (`index`), all of them
//! (`loading`).
#![tactic(auto)]

mod heading;
mod index;
mod lists;
mod loading;
mod standing;

pub use heading::load_heading;
pub use index::{index_of, load_index};
pub use lists::{Lists, load_lists};
pub use loading::load;
