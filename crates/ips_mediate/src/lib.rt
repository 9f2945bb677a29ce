//! Mediated links (pkg(7), "Mediators"): several links of one mediator may be delivered, and those of the best mediation are
//! kept.
//!
//! A mediation is a version and an implementation. Without a setting the best one has the greatest priority, then the greatest
//! version, then no implementation or the least one; a setting of the administrator leaves those that fit it. `choose` answers
//! a link of the best mediation and `same_mediation` tells which links go with it.
//!
//! In reading order: what a link offers (`offer`), its numbers (`numbers`), what is set (`set`), which link is best (`choice`).
#![tactic(auto)]

mod choice;
mod numbers;
mod offer;
mod set;

pub use choice::{best_mediation_is_one, choose};
pub use offer::{Priority, same_mediation};
pub use set::SetMediator;
