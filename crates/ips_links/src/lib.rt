//! What paths need of others: the files that hard links need, and the directories that are made for what is below them.
//!
//! In reading order: questions of changes and entries (`asking`), the files that hard links need (`needing`), what becomes of each path
//! with hard links and the files that they need (`linking`), and the marks of paths at which something is made (`making`); the directories that go
//! (`taking`), the paths at which one is made for what is made below (`supporting`), and what becomes of a path with it (`changing`).
#![tactic(auto)]

mod asking;
mod changing;
mod linking;
mod making;
mod needing;
mod supporting;
mod taking;

pub use asking::makes;
pub use changing::{supported, supported_at};
pub use linking::links;
pub use making::made;
pub use needing::needs;
pub use supporting::supports;
pub use taking::taken;
