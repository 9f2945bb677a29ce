//! The laws that the grammar of manifests is decided: each text is the text of a manifest of a list of lines, or of none, and
//! lines ask an image for a list of dependencies, or for none. So there is a reading of manifests, and what other contracts say
//! of every reading is said of something.
#![tactic(auto)]

mod law;

pub use law::{every_manifest_asks, every_text_is_judged};
