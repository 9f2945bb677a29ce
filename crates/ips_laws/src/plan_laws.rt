//! Laws of plans: what an image was, the records of both states, the repository, the moment and whether licenses are accepted leave one image after a request, one
//! plan of it and one cause for which there is none; likewise for a repair and for the making of an image.
//!
//! In reading order: what packages mean (`meanings`), requests (`requests`), repairs (`repairs`), and the making of an image (`creations`).
mod creations;
mod meanings;
mod repairs;
mod requests;

pub use creations::{creation_excludes_causes, creation_steps_are_one, uncreated_is_one};
pub use meanings::{unmeant_is_one, want_is_one, want_or_fault};
pub use repairs::{
    repair_excludes_causes, repair_steps_are_one, repaired_image_is_one, unrepaired_is_one,
};
pub use requests::{image_after_is_one, plan_excludes_causes, plans_are_one, unplanned_is_one};
