//! What commands that show tell of an image: the texts that `list`, `history`, `contents` and `search` print, and the one package
//! that a pattern names.
//!
//! In reading order: packages (`packages`), the history (`history`), the package that is named (`naming`) and what it delivers
//! (`contents`), the rows of the index that are found (`found`).
#![tactic(auto)]

mod contents;
mod found;
mod history;
mod naming;
mod packages;

pub use contents::contents_text;
pub use found::found_text;
pub use history::history_text;
pub use naming::{NamingFault, named};
pub use packages::list_text;
