//! The plans of operations: of a request from one state of an image to another, and of the making of an image.
//!
//! In reading order, each with its own contracts: the plan of a request over what packages mean (`image_plan`), between two states (`request_plan`) and as
//! it is carried out (`requested`), and the plan that makes an image (`created`).
#![tactic(auto)]

pub mod created;
pub mod image_plan;
pub mod request_plan;
pub mod requested;
