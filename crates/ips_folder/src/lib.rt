//! Folders: what the program asks of the place where it keeps an image, and a folder in memory that tells what a
//! crash may leave.
#![tactic(auto)]

mod call;
mod folder;
mod listing;
mod log;
mod memory;
mod stop;

pub use folder::Folder;
pub use listing::{ListFault, Listing, Paths};
pub use memory::MemFolder;
pub use stop::{Choice, Stop};
