//! Changes of an image that a stop can't tear: staged beside it, committed through a gate, and recovered after a stop.
//!
//! `stage` writes the steps and all that they put at the updater's own names, behind a closed gate; a refusal takes that away
//! again, and `discard` takes away what isn't to be committed. `commit` opens the gate, lays the steps, closes the gate and sweeps. Wherever a run is stopped, within any call, the image is owed: the one before,
//! or the one that the steps mean; and from the moment on at which the gate is safely open, the latter. `recover` then brings
//! it about: it lays the steps again where the gate stands open, and else takes away what was left.
//!
//! `specs/Pending` says what a stop may leave, `specs/Staging` what stands ready, `specs/Due` from when on the new image is
//! due, and `specs/Calls` what each call promises. Read on with `finding`, `staging`, `discarding`, `committing` and `recovering`.
#![tactic(auto)]

mod committing;
mod discarding;
mod fault;
mod finding;
mod found;
mod gate;
mod laying;
mod names;
mod placing;
mod ready;
mod recovering;
mod rolling;
mod staging;
mod sweeping;

pub use committing::commit;
pub use discarding::discard;
pub use fault::CommitFault;
pub use finding::pending;
pub use found::Pending;
pub use ready::Ready;
pub use recovering::recover;
pub use staging::stage;
