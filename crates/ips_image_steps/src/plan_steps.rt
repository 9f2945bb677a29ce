//! The steps of a plan, and what they make of the image.
mod drawing;
mod laws;

pub use drawing::draw;
pub use laws::plans_change_the_visible_image;
