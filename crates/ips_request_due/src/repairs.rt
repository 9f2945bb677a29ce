//! What a repair makes due of an image's records, and that a repair of what packages mean is a lawful request.
mod laws;

pub use laws::{findings_are_of_the_visible_image, repairs_are_lawful, repairs_hang_together};
