//! What steps over an image promise of what is staged for them: that they can be staged, whatever bytes the contents have, and what is then seen where these are
//! the right ones.
mod laws;

pub use laws::{
    due_is_of_the_visible_image, moments_name_folders, staged_plans_mean_the_image_after,
};
