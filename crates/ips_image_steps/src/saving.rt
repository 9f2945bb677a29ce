//! The steps of what is saved: things that are salvaged, files that are put beside paths, and the directories that are missing on the way to them.
//!
//! In reading order: what is saved at a path (`saved`), all of it by its paths (`filling`), and the steps, by the bytes of the paths (`emitting`
//! and `saving`), and what is copied for them (`laws`).
mod emitting;
mod filling;
mod laws;
mod saved;
mod saving;

pub use laws::saved_files_are_seen;
pub use saving::add_saved;
