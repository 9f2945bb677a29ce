//! What a commit needs, taken before it begins.

ghost use Rattle.std.specs.Prelude.{◌≤◌};

use crate::names::OwnNames;
use ips_journal::StepReader;
use ips_text::RelPath;
use std::alloc::{AllocError, Global};

/// All the memory that laying the staged steps needs, so that nothing between the opening and the closing of the gate asks
/// for any. What is staged stands in the folder.
#[derive(Drop)]
pub struct Ready {
    pub(crate) names: OwnNames,
    pub(crate) reader: StepReader,
    /// The path of the mark that is made or taken away, with room for each.
    pub(crate) mark: RelPath,
    ghost mark_room: { 1023 ≤ mark.room },
}

impl Ready {
    /// This memory.
    pub(crate) fn new(alloc: Global) -> Result<Ready, AllocError> {
        let Ok(mark) = RelPath::with_room(alloc, b"var/pkg/done.1") else {
            return Err(AllocError);
        };
        Ok(Ready {
            names: OwnNames::new(alloc)?,
            reader: StepReader::new(alloc)?,
            mark,
        })
    }
}
