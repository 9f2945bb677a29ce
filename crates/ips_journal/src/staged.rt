//! Contents that are to be staged.

use ips_digest::PayloadName;
use ips_text::RelPath;

/// Where the bytes of a content come from, before it is put into the stage.
#[derive(Drop)]
pub enum Staged {
    /// A payload of the repository.
    Payload(PayloadName),
    /// These bytes.
    Bytes(Vec<u8>),
    /// The bytes of the file that stands at a path of the image.
    Standing(RelPath),
}
