//! Files that are put beside paths: what stands, before something else takes its place, or what is wanted, where what stands stays.
//!
//! In reading order: a file that is put beside a path (`side`), which one that is (`putting`), what becomes of its name beside the path (`naming`),
//! and all of them (`siding`).
mod naming;
mod putting;
mod side;
mod siding;

pub use side::{Put, Side, SideName};
pub use siding::sides;
