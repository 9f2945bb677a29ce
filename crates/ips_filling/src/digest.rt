//! The digest of a file.

ghost use Rattle.std.specs.Prelude.{◌≡◌, ◌<◌, ℕ, List, Some, IsTrue, IfOk, IsErr, OnOk, length};
ghost use Rattle.ips_outside.specs.Outside.{Reads};
ghost use Rattle.ips_digest.specs.Name.{IsName};
ghost use Rattle.ips_files.specs.Files.{file_at};
ghost use Rattle.ips_repo.specs.Payload.{IsFrontOf, digest_by};

use ips_digest::PayloadName;
use ips_outside::{Failed, Source};
use ips_repo::{Payload, RepoFault};

/// The digest of all bytes of a payload, by the hash function of its name. They are read piece by piece into the buffer.
pub(crate) fn digest<S: Source>(
    payload: Payload,
    source: &mut S,
    buffer: &mut [u8],
) -> Result<PayloadName, Failed>
    requires room { 0 < length buffer.old }
    ensures found { IsTrue (S.outside.tells source.old) → IsFrontOf (S.outside.state source.old).held payload
        → IfOk result (λ name. (bytes : List ℕ) × (file_at (S.outside.state source.old).held payload.place ≡ Some bytes) × (name ≡ digest_by payload.name bytes)) }
    ensures reads { Reads S.outside source.old source.new (IsErr result) }
{
    let mut payload = payload;
    match read_through(&mut payload, source, buffer) {
        Ok(()) => Ok(told_digest(payload)),
        Err(Failed) => Err(Failed),
    }
}

// The digest of the bytes that were given.
fn told_digest(payload: Payload) -> PayloadName
    requires { IsTrue payload.ended }
    ensures { result ≡ digest_by payload.name payload.bytes }
{
    let name = *payload.name();
    match payload.finish() {
        Ok(()) => name,
        Err(RepoFault::PayloadDamaged { found } | RepoFault::Compressed { found }) => found,
        Err(_) => unreachable!(),
    }
}

// Reads the payload to its end.
fn read_through<S: Source>(
    payload: &mut Payload,
    source: &mut S,
    buffer: &mut [u8],
) -> Result<(), Failed>
    requires room { 0 < length buffer.old }
    ensures ended { OnOk result (IsTrue payload.new.ended) }
    ensures named { payload.new.name ≡ payload.old.name }
    ensures placed { payload.new.place ≡ payload.old.place }
    ensures front { IsTrue (S.outside.tells source.old) → IsFrontOf (S.outside.state source.old).held payload.old → IsFrontOf (S.outside.state source.old).held payload.new }
    ensures reads { Reads S.outside source.old source.new (IsErr result) }
{
    loop {
        let Ok(count) = payload.next(source, buffer) else {
            return Err(Failed);
        };
        if count == 0 {
            return Ok(());
        }
    }
}

/// A name has as many bytes as its digest.
pub(crate) fn has_digest(name: PayloadName)
    ensures { IsName name }
{}
