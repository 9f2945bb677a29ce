//! Which actions of a package an image takes: those whose variants and facets are as the image has them set.
#![tactic(auto)]

mod admitting;
mod settings;

pub use settings::Settings;
