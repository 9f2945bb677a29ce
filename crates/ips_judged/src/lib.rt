//! What a publication is to put, judged before anything is written.
//!
//! Both folders are read and nothing is changed. Each refusal comes behind those that are told before it; what is published is the
//! manifest with the names of its contents, and the catalog with one version more.
//!
//! `specs/Answers` says what is answered in terms of the judging of publications.
#![tactic(auto)]

mod building;
mod contents;
mod judging;
mod listing;
mod opening;
mod verdict;

pub use judging::judged;
pub use verdict::{Asked, JudgeFault, Publication, Refusal};
