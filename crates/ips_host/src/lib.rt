//! The trusted edge: the host's files, its programs and its standard output, as a source, a folder, a sink and a spawner.
//!
//! Nothing is proved of what the host holds or takes. What is proved: each object counts its faults, fails exactly where
//! that count rose, and tells of a first call that failed exactly where that count isn't 0.
//!
//! Beside the objects stand the lock on an image's folder (`lock`), the words of the system behind a fault (`telling`), and how far a run is, for who
//! sits at a terminal (`progress`).
#![tactic(auto)]

mod calls;
mod fault;
mod folder;
mod listing;
mod lock;
mod modes;
mod opened;
mod programs;
mod progress;
mod root;
mod sink;
mod source;
mod spawner;
mod standard;
mod standing;
mod stat;
mod telling;

pub use fault::{FailedCall, Refused};
pub use folder::HostFolder;
pub use lock::{Held, Lock, Unlocked, take_lock};
pub use sink::HostSink;
pub use source::HostSource;
pub use spawner::HostSpawner;
pub use telling::{Told, tell_faults};
