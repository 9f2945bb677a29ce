//! The whole plan of a request from one state of an image to another, or why there is none.
//!
//! In reading order: why there is none (`fault`), and the plan (`planning`).
mod fault;
mod planning;

pub use fault::PlanFault;
pub use planning::{Plan, plan_request};
