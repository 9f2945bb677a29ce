//! The outside, as the program meets it: sources of files, sinks of bytes and spawners of programs, each with a count of
//! faults that never falls and rises wherever a call fails, and their forms in memory.
//!
//! What an image is stands in `specs/Image`, and what one change makes of it in `specs/Change`. A `Tree` holds an image in
//! memory, well formed at every moment: directories, files under one name or several, symbolic links and others. Each of
//! its calls makes just that change, or refuses it for the first of the causes in `TreeFault` and changes nothing. `Calls`
//! counts the calls on an object in memory and says which of them fail.
#![tactic(auto)]

mod calls;
mod listing;
mod outside;
mod refusal;
mod sink;
mod source;
mod spawner;
mod subtree;
mod table;
mod tearing;
mod tree;

pub use calls::Calls;
pub use outside::{Failed, Look, Sink, Source, Spawner};
pub use refusal::TreeFault;
pub use sink::MemSink;
pub use source::{MemSource, SureSource};
pub use spawner::MemSpawner;
pub use tree::Tree;
