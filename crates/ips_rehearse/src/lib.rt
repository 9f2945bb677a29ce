//! Tries in the stage, before the gate is opened, what a file system or a missing right may refuse for good.
//!
//! A step that can never be laid would stop each repair behind the gate. So what the steps ask for is made once in a directory of
//! trials and taken away again: a further name of a file, the longest target, the longest name, and each mode that a directory has in
//! which a step makes or takes away something. Nothing but what is at or below that directory is changed.
//!
//! In reading order: what the steps ask for (`asking`), modes (`modes`) and sets of paths (`sets`), the modes of the directories that
//! stand (`standing`), paths of trials (`places`), single trials (`trying`), all of them (`rehearsing`), and what
//! one that was stopped may have left (`opening`).
#![tactic(auto)]

mod asking;
mod modes;
mod opening;
mod places;
mod rehearsing;
mod sets;
mod standing;
mod trying;

pub use opening::{TrialDirs, open_left};
pub use rehearsing::{Rehearsed, rehearse};
