//! The records of an image, read back from the files that it stands in.
//!
//! A file is loaded at a time: the file `image`, lists, the history and manifests. Packages and a whole state are loaded above.
//!
//! What an image holds is told by its files (`specs/Held`), and so is why its records can't be read (`specs/Fault`): the first
//! file that isn't of its grammar, and its first bad line. In reading order: why records can't be loaded (`fault`), files
//! (`files`), the file `image` (`set_lines`, `origins`, `head_words`, `head_lines`, `heading`), lists of one item a line (`listings`, `mediators`, `lists`),
//! manifests (`manifests`), laws (`laws`).
#![tactic(auto)]

mod fault;
mod files;
mod head_lines;
mod head_words;
mod heading;
mod laws;
mod listings;
mod lists;
mod manifests;
mod mediators;
mod origins;
mod set_lines;

pub use fault::StateFault;
pub use files::{bad_line, load_bytes, load_list, path_of};
pub use head_lines::HeadLine;
pub use heading::{Heading, read_heading};
pub use laws::lists_are_one;
pub use listings::{Mediators, Names, Requests, Stems};
pub use lists::{load_history, load_mediators, load_names, load_stems};
pub use manifests::{load_manifest, manifest_path};
