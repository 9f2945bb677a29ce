//! What a folder answers of a directory's children.

ghost use Rattle.std.specs.Prelude.{◌≡◌, map};
ghost use Rattle.ips_folder.specs.declared.listing.ListFault.TheVariants as list_fault;

use ips_outside::Failed;
use ips_text::RelPath;
use std::alloc::AllocError;
use std::marker::Model;

/// Why a folder answered no list of children, or no target of a link.
#[derive(Clone, Copy, Debug, PartialEq, Eq)]
pub enum ListFault {
    /// The call failed: the folder's count of faults rose.
    Failed,
    /// Memory ran out. That is no fault of the folder.
    OutOfMemory,
}

impl From<Failed> for ListFault {
    ghost from_gives = { λ _ e. e ≡ list_fault.Failed };

    fn from(_e: Failed) -> ListFault {
        ListFault::Failed
    }
}

impl From<AllocError> for ListFault {
    ghost from_gives = { λ _ e. e ≡ list_fault.OutOfMemory };

    fn from(_e: AllocError) -> ListFault {
        ListFault::OutOfMemory
    }
}

/// Paths, one after another. Contracts see the list of their bytes.
#[derive(Debug, Drop)]
pub struct Paths {
    paths: Vec<RelPath>,
}

impl Model for Paths {
    ghost use Rattle.std.specs.Prelude.{List, ℕ, map};

    ghost Value = { List (List ℕ) };

    ghost view = { λ l. map (λ p. p.bytes) l.paths.items };
}

impl Paths {
    /// These paths.
    pub fn new(paths: Vec<RelPath>) -> Paths
        ensures { result ≡ map (λ p. p.bytes) paths.items }
    {
        Paths { paths }
    }

    /// The paths.
    pub fn as_slice(&self) -> &[RelPath]
        ensures { map (λ p. p.bytes) result.now ≡ self.now }
    {
        &self.paths
    }
}

/// The children of a directory.
#[derive(Debug, Drop)]
pub struct Listing {
    /// The full paths of the children, in the order of their bytes.
    pub names: Paths,
    /// Whether a child has a name that is no path.
    pub foreign: bool,
}
