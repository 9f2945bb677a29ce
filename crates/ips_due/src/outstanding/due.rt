//! What is due, lent part by part.

ghost use Rattle.std.specs.Prelude.{◌≡◌, ◌<◌, ℕ, List, Some, IfOk, length, map, slice_get};
ghost use Rattle.ips_due.specs.Due as spec;
ghost use Rattle.ips_due.specs.outstanding.Parts.{content_told};

use ips_digest::PayloadName;
use ips_text::RelPath;
use std::alloc::{AllocError, Global};

/// An account file that is due.
#[derive(Drop)]
pub struct AccountFile {
    /// Its path.
    pub path: RelPath,
    /// The mode that is left there.
    pub mode: u16,
    /// Its bytes.
    pub bytes: Vec<u8>,
}

/// The content of a record that is due.
#[derive(Drop)]
pub enum Content {
    /// Bytes of its own.
    Own(Vec<u8>),
    /// A payload of the repository, as that of a license.
    Payload(PayloadName),
}

impl Content {
    /// The same content.
    pub fn copy(&self, alloc: Global) -> Result<Content, AllocError>
        ensures { IfOk result (λ copied. content_told copied ≡ content_told self.now) }
    {
        match self {
            Content::Own(bytes) => Ok(Content::Own(Vec::from_slice(alloc, bytes)?)),
            Content::Payload(name) => Ok(Content::Payload(*name)),
        }
    }
}

/// A record that is due.
#[derive(Drop)]
pub struct DueRecord {
    /// Its path.
    pub path: RelPath,
    /// Its content.
    pub content: Content,
}

/// The records that are due, by their numbers from 0 on. The content of each is made when it is asked for. Where a path is that of two,
/// the first counts.
pub trait Records {
    ghost records: { Self → List (List ℕ × spec.Content) };

    /// How many there are.
    fn count(&self) -> usize
        ensures { result ≡ length (records self.now) };

    /// The path of a record.
    fn path(&self, number: usize) -> &RelPath
        requires { number < length (records self.now) }
        ensures { slice_get (map (λ r. r.0) (records self.now)) number ≡ Some result.now.bytes };

    /// The content of a record.
    fn content(&self, alloc: Global, number: usize) -> Result<Content, AllocError>
        requires { number < length (records self.now) }
        ensures { IfOk result (λ content. slice_get (map (λ r. r.1) (records self.now)) number ≡ Some (content_told content)) };
}

/// What is due behind a request.
pub struct DueParts<'a, R> {
    /// The account files whose text changes.
    pub accounts: &'a [AccountFile],
    /// The records.
    pub records: &'a R,
    /// The folders that are made anew, whatever stands there.
    pub renewed: &'a [RelPath],
    /// The folders that are made where no directory stands.
    pub folders: &'a [RelPath],
    /// What goes, with all below it.
    pub gone: &'a [RelPath],
}
