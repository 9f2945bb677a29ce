//! What stands at a path: a look, and whether a file has the bytes of a payload, read piece by piece.
mod content;
mod looking;

pub use content::{has_content, is_same, is_same_name};
pub use looking::look_at;
