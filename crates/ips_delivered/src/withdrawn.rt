//! What goes with a request: the records of packages that aren't installed any more, and licenses and legacy packages that aren't delivered any more.
//!
//! In reading order: sets of bytes (`sets`), what the new packages still have (`staying`), what goes of each sort (`leaving`), and all of it as paths
//! (`paths`).
mod leaving;
mod paths;
mod sets;
mod staying;

pub use paths::withdrawn;
