//! What the packages of an image mean: which directories, files and links it should hold.
//!
//! An image takes the actions that its settings admit, without the links of other mediations than the best. Each path that such
//! an action gives is wanted as it says, and the directories above it are wanted with it. Lines are brought together in maps by
//! path, so that the time grows as n log n. Actions are lent by the packages: but for mediated links, none is copied.
//!
//! In reading order: what is wanted at a path (`entry`), and why nothing can be wanted (`fault`), what is wrong at a
//! path (`finding`), what an action says
//! (`attributes`), the admitted actions (`admitted`), the best links of mediators (`mediated`), the kept actions (`kept`), the
//! least reserved path (`reserved`), the action that counts at each path (`leading`), the wanted paths (`paths`), what is
//! wanted (`wanted`), and all together (`meaning`).
#![tactic(auto)]

mod admitted;
mod attributes;
mod entry;
mod fault;
mod finding;
mod kept;
mod leading;
mod meaning;
mod mediated;
mod paths;
mod reserved;
mod wanted;

pub use entry::Entry;
pub use fault::WantFault;
pub use finding::{Damage, Finding};
pub use meaning::want;
pub use wanted::Want;
