//! The updater's own names, as paths.

ghost use Rattle.std.specs.Prelude.{◌≡◌, ◌≤◌, IfOk, length, take};
ghost use Rattle.std.specs.List.{list_any};
ghost use Rattle.ips_text.specs.Ancestry.{same_path};
ghost use Rattle.ips_steps.specs.Steps.{stage_name};
ghost use Rattle.ips_steps.specs.Private.{records_name, journal_name, gate_name, mark_name};
ghost use Rattle.ips_commit.specs.Pending.{mark_names};

use ips_contents::path_of;
use ips_rehearse::TrialDirs;
use ips_text::RelPath;
use itoa::Buffer;
use std::alloc::{AllocError, Global};

/// The folder of the image's records, and in it the stage, the journal and the gate; and the directories of trials in the stage.
#[derive(Drop)]
pub(crate) struct OwnNames {
    pub(crate) records: RelPath,
    pub(crate) stage: RelPath,
    pub(crate) journal: RelPath,
    pub(crate) gate: RelPath,
    pub(crate) trials: TrialDirs,
    ghost records_is: { records.bytes ≡ records_name },
    ghost stage_is: { stage.bytes ≡ stage_name },
    ghost journal_is: { journal.bytes ≡ journal_name },
    ghost gate_is: { gate.bytes ≡ gate_name },
}

impl OwnNames {
    /// These names.
    pub(crate) fn new(alloc: Global) -> Result<OwnNames, AllocError> {
        Ok(OwnNames {
            records: path_of(alloc, b"var/pkg")?,
            stage: path_of(alloc, b"var/pkg/stage")?,
            journal: path_of(alloc, b"var/pkg/journal")?,
            gate: path_of(alloc, b"var/pkg/gate")?,
            trials: TrialDirs::new(alloc)?,
        })
    }
}

/// The path of a mark.
pub(crate) fn mark_path(alloc: Global, number: u64) -> Result<RelPath, AllocError>
    ensures { IfOk result (λ path. path.bytes ≡ mark_name number) }
{
    let text = format!(in alloc; "var/pkg/done.{number}")?;
    path_of(alloc, text.as_bytes())
}

/// Sets a path to that of a mark.
pub(crate) fn set_mark(path: &mut RelPath, number: u64)
    requires { 1023 ≤ path.old.room }
    ensures room { 1023 ≤ path.new.room }
    ensures named { path.new.bytes ≡ mark_name number }
{
    let mut bytes = [0u8; 40];
    let count = write_mark(number, &mut bytes);
    match path.set(&bytes[..count]) {
        Ok(()) => {}
        Err(_) => unreachable!(),
    }
}

/// Whether the path is that of one of the first so many marks.
pub(crate) fn is_among(path: &RelPath, count: u64) -> bool
    ensures { result ≡ list_any (λ m. same_path m path.now.bytes) (mark_names count) }
{
    for before in 0..count {
        let mut bytes = [0u8; 40];
        let end = write_mark(before + 1, &mut bytes);
        if &bytes[..end] == path.bytes() {
            return true;
        }
    }
    false
}

// Writes the path of a mark to the front of the bytes.
fn write_mark(number: u64, bytes: &mut [u8]) -> usize
    requires { length bytes.old ≡ 40 }
    ensures fits { result ≤ 40 }
    ensures written { take result bytes.new ≡ mark_name number }
{
    let mut buffer = Buffer::new();
    let digits = buffer.format(number).as_bytes();
    let end = 13 + digits.len();
    bytes[..13].copy_from_slice(b"var/pkg/done.");
    bytes[13..end].copy_from_slice(digits);
    end
}
