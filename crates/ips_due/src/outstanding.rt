//! Which account files and records aren't as they are due: the paths of which a request speaks, and what it says of each.
//!
//! In reading order: what is due, lent part by part (`due`), what is said of a path (`verdict`), whether a file has given bytes (`bytes`), what
//! the parts say where they stand otherwise (`asking`), the notes that are taken of it (`notes`, `marking`), what goes with folders that are made anew or
//! taken away (`going`), all that is due, asked about in turn (`filling`, `finding`), and the answer (`answer`).
mod answer;
mod asking;
mod bytes;
mod due;
mod filling;
mod finding;
mod going;
mod marking;
mod notes;
mod verdict;

pub use answer::Outstanding;
pub use bytes::has_bytes;
pub use due::{AccountFile, Content, DueParts, DueRecord, Records};
pub use finding::outstanding;
pub use verdict::{Named, Verdict};
