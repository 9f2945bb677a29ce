//! Names in the folder for what is salvaged.
//!
//! In reading order: the folder itself, which has the first of the names of a moment at which nothing stands (`root`), and whether a side name
//! can't be used beside its path and so goes into that folder (`side`).
mod root;
mod side;

pub use root::salvage_root;
pub use side::is_lost;
