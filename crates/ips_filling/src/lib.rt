//! Drafts of manifests, filled with the names of their contents.
//!
//! A content is a file of a folder, which a word of the draft names, or else the action's path or the license's name. Whether all
//! stand is told by looks alone; then each is read once, piece by piece, and its SHA-1 digest is the payload's name.
//!
//! Which actions have a content, which text names it, and what a filled draft is, say the definitions of publications; `specs/Filled`
//! says what is answered.
#![tactic(auto)]

mod content;
mod digest;
mod filled;
mod filling;
mod finding;

pub use content::{content_text, has_content};
pub use filled::{ContentFault, Filled};
pub use filling::fill;
pub use finding::find_contents;
