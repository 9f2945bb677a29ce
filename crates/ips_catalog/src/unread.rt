//! Why no JSON value was read.

ghost use Rattle.std.specs.Prelude.{◌≡◌};
ghost use Rattle.ips_catalog.specs.declared.unread.Unread.TheVariants.{NotJson, OutOfMemory};

use json::Invalid;
use std::alloc::{AllocError, AllocFailed};

/// Why no JSON value was read.
#[derive(Clone, Copy, Drop)]
pub enum Unread {
    /// The text is no JSON, nests too deep, or has a number too large for a float or half of a surrogate pair.
    NotJson,
    /// Memory was refused.
    OutOfMemory,
}

impl From<Invalid> for Unread {
    ghost from_gives = { λ _ e. e ≡ NotJson };

    fn from(_e: Invalid) -> Unread {
        Unread::NotJson
    }
}

impl From<AllocError> for Unread {
    ghost from_gives = { λ _ e. e ≡ OutOfMemory };

    fn from(_e: AllocError) -> Unread {
        Unread::OutOfMemory
    }
}

impl<T: Drop> From<AllocFailed<T>> for Unread {
    ghost from_gives = { λ _ e. e ≡ OutOfMemory };

    fn from(_e: AllocFailed<T>) -> Unread {
        Unread::OutOfMemory
    }
}
