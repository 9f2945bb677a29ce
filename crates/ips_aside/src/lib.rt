//! What the rules leave to a search: names in the salvage folder of files that can't be used beside their paths, and the directories that are missing
//! for what is saved.
//!
//! In reading order: such a file (`lost`), paths that are marked with all above them (`marking`), the first free name of one (`free`), the names
//! of all (`finding`), what they are by an image (`laws`), the first path whose file gets too long a name (`long`), and the directories that are
//! missing for what is saved (`ways`).
//!
//! Below it, each with its own contracts: the files that are put beside paths (`sides`), and the names in the salvage folder (`lost_and_found`).
#![tactic(auto)]

mod finding;
mod free;
mod laws;
mod long;
mod lost;
pub mod lost_and_found;
mod marking;
pub mod sides;
mod ways;

pub use finding::lost_names;
pub use free::inside;
pub use laws::{asides_are_defined, lost_names_are_defined, names_are_had};
pub use long::first_long_side;
pub use lost::LostName;
pub use ways::{Ways, find_ways};
