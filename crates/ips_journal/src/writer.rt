//! A writer of a journal.

ghost use Rattle.std.specs.Prelude.{◌≡◌, ◌≤◌, vec_capacity};
ghost use Rattle.ips_steps.specs.Private.{journal_name};

use ips_text::RelPath;

/// Writes the journal of a list of steps into its file, step by step. It takes all its memory as it is made, and gathers
/// lines before it appends them.
#[derive(Drop)]
pub struct JournalWriter {
    pub(crate) journal: RelPath,
    pub(crate) gathered: Vec<u8>,
    pub(crate) steps: u64,
    ghost named: { journal.bytes ≡ journal_name },
    ghost room: { 65536 ≤ vec_capacity gathered },
}
