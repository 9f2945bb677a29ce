//! What packages mean, as a request on an image wants it.
//!
//! What packages mean is a list of paths with entries; a request wants something at each path. The one is told as the
//! other, and whatever packages mean is a Want such as the laws of the image after ask for.
mod laws;

pub use laws::{
    links_lead_to_files, meanings_are_wants, names_are_digests, own_folders_are_left,
    parts_are_proper,
};
