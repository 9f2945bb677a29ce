//! One kind for each sort of step.

mod fresh;
mod gone;
mod hard;
mod link;
mod mode;
mod put;

pub use fresh::FreshKind;
pub use gone::GoneKind;
pub use hard::HardKind;
pub use link::LinkKind;
pub use mode::ModeKind;
pub use put::PutKind;
