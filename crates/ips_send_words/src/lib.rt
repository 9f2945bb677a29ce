//! The words of `send`: what they ask for, and the first one that goes wrong.
#![tactic(auto)]

mod reading;
mod request;
mod stamping;
mod words;

pub use reading::read_request;
pub use request::Request;
