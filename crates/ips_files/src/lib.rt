//! Files read whole from a source, under a limit, and texts written whole to a sink.
//!
//! Where the source tells what it holds, the bytes are those of the file, and a file is refused just where there is none or it
//! has more bytes than the limit.
#![tactic(auto)]

mod reading;
mod telling;

pub use reading::{CHUNK, FileFault, find_file, read_part, read_whole, size_of_file};
pub use telling::tell;
