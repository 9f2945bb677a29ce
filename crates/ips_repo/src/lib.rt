//! A repository that is a folder of format 4 (pkgrepo(1)): its mark, and the catalog, manifests and payloads of a publisher.
//!
//! Where the source tells what it holds, each call answers what the files at their places mean, and else just why: places, the
//! limits of files and the first fault are definitions of `specs/`. A payload is never held whole in memory: its bytes are given
//! in pieces, and then it is told whether their digest is its name.
#![tactic(auto)]

mod fault;
mod manifest;
mod mark;
mod payload;
mod places;
mod repository;
mod start;

pub use fault::RepoFault;
pub use ips_files::{FileFault, read_whole};
pub use mark::check_mark;
pub use payload::Payload;
pub use places::{catalog_place, manifest_place, payload_place, places_are_paths};
pub use repository::Repo;
