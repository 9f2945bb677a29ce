//! Payloads that are laid at account files, read whole.

ghost use Rattle.std.specs.Prelude.{◌≡◌, ◌+◌, ◌<◌, ◌≤◌, ◌++◌, [], IsTrue, IfOk, IfErr, OnOk, Err, length};
ghost use Rattle.ips_text.specs.Reading.{IfBad};
ghost use Rattle.ips_text.specs.declared.refusal.Or.TheVariants.{Bad};
ghost use Rattle.ips_outside.specs.Outside.{Reads};
ghost use Rattle.ips_repo.specs.Places.{payload_place};
ghost use Rattle.ips_repo.specs.Payload.{IsFrontOf, IsOpened, IsPayload, digest_by, payload_limit};
ghost use Rattle.ips_account_files.specs.declared.ledger.fault.LedgerFault.TheVariants as fault;
ghost use Rattle.ips_account_files.specs.ledger.Texts.{IsRefused, IsUnread, account_limit};

use crate::ledger::fault::LedgerFault;
use ips_digest::PayloadName;
use ips_files::CHUNK;
use ips_outside::Source;
use ips_repo::{Payload, RepoFault};
use ips_text::Or;
use std::alloc::{AllocError, Global};

/// The most bytes that an account file may have.
pub(crate) const ACCOUNT_BYTES: u64 = 16_777_216;

/// The bytes of the payload, which is intact and has no more than an account file may have.
pub(crate) fn read_payload<S: Source>(
    alloc: Global,
    source: &mut S,
    publisher: &str,
    name: &PayloadName,
) -> Result<Vec<u8>, Or<LedgerFault>>
    ensures is { IfOk result (λ bytes. IsPayload (S.outside.tells source.old) publisher.now (S.outside.state source.old).held name.now bytes.items) }
    ensures within { IfOk result (λ bytes. length bytes.items ≤ account_limit) }
    ensures refused { IfBad result (IsUnread (S.outside.tells source.old) publisher.now (S.outside.state source.old).held name.now) }
    ensures reads { Reads S.outside source.old source.new (result ≡ Err (Bad fault.SourceFault)) }
{
    let mut buffer = vec![in alloc; 0u8; CHUNK]?;
    let mut bytes = Vec::new(alloc);
    match fetch(alloc, source, publisher, name, &mut buffer, &mut bytes) {
        Ok(()) => Ok(bytes),
        Err(fault) => Err(fault),
    }
}

// Adds the bytes of the payload to none.
fn fetch<S: Source>(
    alloc: Global,
    source: &mut S,
    publisher: &str,
    name: &PayloadName,
    buffer: &mut [u8],
    bytes: &mut Vec<u8>,
) -> Result<(), Or<LedgerFault>>
    requires room { 0 < length buffer.old }
    requires none { bytes.old.items ≡ [] }
    ensures is { OnOk result (IsPayload (S.outside.tells source.old) publisher.now (S.outside.state source.old).held name.now bytes.new.items) }
    ensures within { OnOk result (length bytes.new.items ≤ account_limit) }
    ensures refused { IfBad result (IsUnread (S.outside.tells source.old) publisher.now (S.outside.state source.old).held name.now) }
    ensures reads { Reads S.outside source.old source.new (result ≡ Err (Bad fault.SourceFault)) }
{
    let mut payload = match open(alloc, source, publisher, name) {
        Ok(payload) => payload,
        Err(fault) => return Err(fault),
    };
    let count = match gather(source, &mut payload, buffer, bytes) {
        Ok(count) => count,
        Err(fault) => return Err(fault),
    };
    match judge(payload, count) {
        Ok(()) => Ok(()),
        Err(fault) => Err(Or::Bad(fault)),
    }
}

// Whether a payload that was read to its end is intact and has no more bytes than an account file may have.
fn judge(payload: Payload, count: u64) -> Result<(), LedgerFault>
    requires { IsTrue payload.ended }
    ensures intact { OnOk result (digest_by payload.name payload.bytes ≡ payload.name) }
    ensures within { OnOk result (count ≤ account_limit) }
    ensures refused { IfErr result (IsRefused payload.name payload.bytes count) }
{
    let name = *payload.name();
    match payload.finish() {
        Ok(()) if count > ACCOUNT_BYTES => Err(LedgerFault::TooLarge { count }),
        Ok(()) => Ok(()),
        Err(fault) => Err(LedgerFault::Payload { name, fault }),
    }
}

// Looks for the payload.
fn open<S: Source>(
    alloc: Global,
    source: &mut S,
    publisher: &str,
    name: &PayloadName,
) -> Result<Payload, Or<LedgerFault>>
    ensures opened { IfOk result (IsOpened (payload_place publisher.now name.now) name.now) }
    ensures front { IsTrue (S.outside.tells source.old) → IfOk result (IsFrontOf (S.outside.state source.old).held) }
    ensures refused { IfBad result (IsUnread (S.outside.tells source.old) publisher.now (S.outside.state source.old).held name.now) }
    ensures reads { Reads S.outside source.old source.new (result ≡ Err (Bad fault.SourceFault)) }
{
    match Payload::open(alloc, source, publisher, name) {
        Ok(payload) => Ok(payload),
        Err(Or::Bad(RepoFault::SourceFault)) => Err(Or::Bad(LedgerFault::SourceFault)),
        Err(Or::Bad(fault)) => Err(Or::Bad(LedgerFault::Payload { name: *name, fault })),
        Err(Or::OutOfMemory) => Err(Or::OutOfMemory),
    }
}

// Reads the payload to its end, and answers how many bytes it has. They are kept as far as an account file may have so many.
fn gather<S: Source>(
    source: &mut S,
    payload: &mut Payload,
    buffer: &mut [u8],
    bytes: &mut Vec<u8>,
) -> Result<u64, Or<LedgerFault>>
    requires room { 0 < length buffer.old }
    requires start { payload.old.bytes ≡ [] }
    requires sized { payload.old.size ≤ payload_limit }
    requires none { bytes.old.items ≡ [] }
    ensures ended { OnOk result (IsTrue payload.new.ended) }
    ensures named { payload.new.name ≡ payload.old.name }
    ensures placed { payload.new.place ≡ payload.old.place }
    ensures count { IfOk result (λ count. count ≡ length payload.new.bytes) }
    ensures sized { IfOk result (λ count. count ≤ payload_limit) }
    ensures kept { IfOk result (λ count. count ≤ account_limit → bytes.new.items ≡ payload.new.bytes) }
    ensures front { IsTrue (S.outside.tells source.old) → IsFrontOf (S.outside.state source.old).held payload.old → IsFrontOf (S.outside.state source.old).held payload.new }
    ensures faults { IfBad result (λ why. why ≡ fault.SourceFault) }
    ensures reads { Reads S.outside source.old source.new (result ≡ Err (Bad fault.SourceFault)) }
{
    let mut count = 0u64;
    loop {
        let Ok(more) = payload.next(source, buffer) else {
            return Err(Or::Bad(LedgerFault::SourceFault));
        };
        if more == 0 {
            return Ok(count);
        }
        count += more as u64;
        keep(bytes, &buffer[..more], count)?;
    }
}

// Adds the piece to the bytes, where an account file may have so many.
fn keep(bytes: &mut Vec<u8>, piece: &[u8], count: u64) -> Result<(), AllocError>
    ensures { OnOk result (count ≤ account_limit → bytes.new.items ≡ bytes.old.items ++ piece.now) }
{
    if count <= ACCOUNT_BYTES {
        bytes.extend_from_slice(piece)?;
    }
    Ok(())
}
