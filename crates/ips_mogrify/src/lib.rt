//! Transforms manifests by rules, as `pkgmogrify` does.
//!
//! The rules are tried in order, each on an action as the earlier ones left it. What is written is the canonical manifest of the
//! actions that remain, where each of them is an action still.
#![tactic(auto)]

mod asked;
mod files;
mod judging;
mod status;
mod top;

pub use judging::{Refusal, judged};
pub use status::{MogrifyOutcome, MogrifyStatus};
pub use top::mogrify;
