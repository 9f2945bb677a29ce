//! What a repair salvages: what stands where something of another kind is laid, with all below it.
//!
//! In reading order: whether what stands at a path is displaced (`asking`), and all that is (`displacing`).
mod asking;
mod displacing;

pub use displacing::displaced;
