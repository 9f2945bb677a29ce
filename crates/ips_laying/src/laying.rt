//! What account files and records lay.

ghost use Rattle.std.specs.Prelude.{◌≡◌, ℕ, IfOk, List, Option};
ghost use Rattle.std.specs.Option.{option_map};
ghost use Rattle.ips_laying.specs.Laying as spec;

use ips_digest::PayloadName;
use ips_text::RelPath;
use std::alloc::{AllocError, Global};

/// An entry that account files and records lay.
#[derive(Drop)]
pub enum Laid {
    /// A directory.
    Dir {
        /// Its mode.
        mode: u16,
    },
    /// A file with bytes of its own.
    File {
        /// Its mode.
        mode: u16,
        /// Its bytes.
        bytes: Vec<u8>,
    },
    /// A file with a payload of the repository, as a license is.
    Payload {
        /// Its mode.
        mode: u16,
        /// Its content.
        payload: PayloadName,
    },
}

/// What account files and records lay, one entry at a time.
pub trait Laying {
    ghost laid: { Self → (List ℕ → Option spec.Laid) };

    /// The entry that is laid at the path, if one is.
    fn entry(&self, alloc: Global, path: &RelPath) -> Result<Option<Laid>, AllocError>
        ensures { IfOk result (λ found. option_map spec.laid_told found ≡ laid self.now path.now.bytes) };
}
