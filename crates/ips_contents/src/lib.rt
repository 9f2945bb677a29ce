//! Contents written into the stage before a change is committed: payloads, bytes that are handed in, and files of the image. What the
//! steps ask of the file system is tried beside them.
#![tactic(auto)]

mod contents;
mod copying;
mod fault;
mod names;
mod payloads;

pub use contents::write_tried;
pub use copying::new_buffer;
pub use fault::StageFault;
pub use names::path_of;
pub use payloads::write_payload;
