//! A place in a journal.

ghost use Rattle.std.specs.Prelude.{◌≡◌, vec_len};
ghost use Rattle.ips_steps.specs.Private.{journal_name};

use crate::ahead::Ahead;
use ips_text::RelPath;

/// A place in the journal, what was read behind it, and the buffer that reading needs.
#[derive(Drop)]
pub struct Cursor {
    pub journal: RelPath,
    pub ahead: Ahead,
    pub decoded: Vec<u8>,
    /// How many bytes lie behind.
    pub place: u64,
    /// How many steps do, and how many of them put a content.
    pub steps: u64,
    pub puts: u64,
    /// The number of the line that was read last.
    pub line: u64,
    /// Neither the end nor a fault was met.
    pub is_open: bool,
    ghost named: { journal.bytes ≡ journal_name },
    ghost decoded_size: { vec_len decoded ≡ 4095 },
}
