//! Dependencies between packages: which ones a manifest asks for in an image, and whether each holds in a selection.
//!
//! The `depend` actions that the image takes are read exactly: each is a dependency of one of ten types, or the first that is
//! none is told by its line. Each type is one sentence over the selected packages, those selected before and the stems that are spared, and `holds`
//! answers just that sentence. It is a law that a dependency looks only at the stems that it mentions, of the selection before at
//! those that it is about, and that only the stems that it wants have to be there: the absence of any other breaks none.
#![tactic(auto)]

mod copying;
mod dependency;
mod dependency_type;
mod holding;
mod laws;
mod places;
mod reading;

pub use dependency::Test;
pub use holding::reaches;
pub use laws::{asks_for_one_list, judged_by_mentions, only_wanted_drawn_in, versions_are_matched};
pub use places::Places;
pub use reading::{BadDepend, tests_of};
