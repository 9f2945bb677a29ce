//! What a command does to an image.

/// What a command does to an image.
#[derive(Clone, Copy)]
pub enum Effect {
    /// It shows something of the image, and changes nothing that is seen.
    Shows,
    /// It changes the image.
    Changes,
    /// It makes the image, and the directories of its records where nothing stands.
    Creates,
    /// It brings to an end what was stopped, or changes the image where nothing was.
    Fixes,
}
