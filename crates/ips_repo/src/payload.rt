//! Payloads, given piece by piece and judged by their digest.

ghost use Rattle.std.specs.Prelude.{◌≡◌, ◌+◌, ◌<◌, ◌≤◌, ◌↔◌, [], false, IsTrue, IfOk, IfErr, IsOk, IsErr, OnErr, Ok, length, take};
ghost use Rattle.ips_text.specs.Reading.{IfBad};
ghost use Rattle.ips_text.specs.declared.refusal.Or.TheVariants.{Bad};
ghost use Rattle.ips_outside.specs.Image.{Image};
ghost use Rattle.ips_outside.specs.Outside.{Reads, readable, IsRead};
ghost use Rattle.ips_repo.specs.Places as place;
ghost use Rattle.ips_files.specs.Files.{file_at};
ghost use Rattle.ips_repo.specs.Answer.{Answers, IsMeantFault};
ghost use Rattle.ips_repo.specs.Payload.{IsOpened, payload_in, payload_opening, from_start, with_piece, IsFrontOf, digest_by, IsDamage, IsOpenFault, fault_of_opening};
ghost use Rattle.ips_repo.specs.declared.fault.RepoFault.TheVariants as fault;

use crate::fault::RepoFault;
use crate::places::payload_place;
use crate::start::Start;
use ips_digest::{Hasher, PayloadName};
use ips_files::{FileFault, read_part, size_of_file};
use ips_outside::{Failed, Source};
use ips_text::{Or, RelPath, Which};
use std::alloc::{AllocError, Global};
use std::marker::Model;

/// The most bytes that a payload may have.
const PAYLOAD_BYTES: u64 = 4_294_967_296;

/// A payload that is being read, piece by piece and never whole in memory. Contracts see its name, the place and size of its
/// file, the bytes given so far, and whether the end was told.
#[derive(Drop)]
pub struct Payload {
    name: PayloadName,
    place: RelPath,
    size: u64,
    at: u64,
    ended: bool,
    start: Start,
    hasher: Hasher,
}

impl Model for Payload {
    ghost use Rattle.std.specs.Prelude.{◌≡◌, ◌≤◌, length};
    ghost use Rattle.ips_digest.specs.Digest.{algorithm_of};
    ghost use Rattle.ips_repo.specs.Start.{start_of};
    ghost use Rattle.ips_repo.specs.Payload.{PayloadReading};

    ghost Value = { PayloadReading };

    ghost view = { λ p. record { name = p.name; place = p.place.bytes; size = p.size; bytes = p.hasher.bytes; ended = p.ended } };

    ghost invariant = { λ p. (p.hasher.algorithm ≡ algorithm_of p.name) × (p.at ≡ length p.hasher.bytes) × (p.at ≤ p.size) × (p.start ≡ start_of p.hasher.bytes) };
}

impl Payload {
    /// Looks for the payload of this name. Nothing of it is read yet.
    pub fn open<S: Source>(
        alloc: Global,
        source: &mut S,
        publisher: &str,
        name: &PayloadName,
    ) -> Result<Payload, Or<RepoFault>>
        ensures opened { IfOk result (IsOpened (place.payload_place publisher.now name.now) name.now) }
        ensures front { IsTrue (S.outside.tells source.old) → IfOk result (IsFrontOf (S.outside.state source.old).held) }
        ensures meant { IsTrue (S.outside.tells source.old) → Answers (λ payload. payload) result (payload_opening publisher.now name.now (S.outside.state source.old).held) }
        ensures faults { IfBad result IsOpenFault }
        ensures reads { Reads S.outside source.old source.new (result ≡ Err (Bad fault.SourceFault)) }
    {
        let Some(place) = payload_place(alloc, publisher, name)? else {
            return Err(Or::Bad(RepoFault::PayloadMissing));
        };
        match Payload::open_file(source, place, name) {
            Ok(payload) => Ok(payload),
            Err(fault) => Err(Or::Bad(fault)),
        }
    }

    /// Looks for a payload of this name at the path, wherever that is. Nothing of it is read yet.
    pub fn open_file<S: Source>(
        source: &mut S,
        place: RelPath,
        name: &PayloadName,
    ) -> Result<Payload, RepoFault>
        ensures opened { IfOk result (IsOpened place.bytes name.now) }
        ensures front { IsTrue (S.outside.tells source.old) → IfOk result (IsFrontOf (S.outside.state source.old).held) }
        ensures found { IsTrue (S.outside.tells source.old) → IfOk result (λ payload. payload_in name.now place.bytes (file_at (S.outside.state source.old).held place.bytes) ≡ Ok payload) }
        ensures meant { IsTrue (S.outside.tells source.old) → IfErr result (λ why. IsMeantFault why (payload_in name.now place.bytes (file_at (S.outside.state source.old).held place.bytes))) }
        ensures faults { IfErr result IsOpenFault }
        ensures reads { Reads S.outside source.old source.new (result ≡ Err fault.SourceFault) }
    {
        let size = match size_of_file(source, &place, PAYLOAD_BYTES) {
            Ok(size) => size,
            Err(fault) => return Err(open_fault(fault)),
        };
        Ok(Payload {
            name: *name,
            place,
            size,
            at: 0,
            ended: false,
            start: Start::Nothing,
            hasher: Hasher::new(name),
        })
    }

    /// The payload's name.
    pub fn name(&self) -> &PayloadName
        ensures { result.now ≡ self.now.name }
    {
        &self.name
    }

    /// The same payload from its beginning: nothing of it is given yet. Its file isn't looked for again.
    pub fn again(&self, alloc: Global) -> Result<Payload, AllocError>
        ensures begun { IfOk result (λ payload. payload ≡ from_start self.now) }
        ensures front { (t : Image) → IsFrontOf t self.now → IfOk result (IsFrontOf t) }
    {
        let place = self.place.copy(alloc)?;
        Ok(Payload {
            name: self.name,
            place,
            size: self.size,
            at: 0,
            ended: false,
            start: Start::Nothing,
            hasher: Hasher::new(&self.name),
        })
    }

    /// Gives the next bytes in the front of the buffer, and answers how many: 0 at the end alone. After a fault the payload
    /// is as before.
    pub fn next<S: Source>(&mut self, source: &mut S, buf: &mut [u8]) -> Result<usize, Failed>
        requires room { 0 < length buf.old }
        ensures fits { IfOk result (λ count. count ≤ length buf.old) }
        ensures within { IfOk result (λ count. length self.old.bytes + count ≤ self.old.size) }
        ensures given { IfOk result (λ count. self.new ≡ with_piece count buf.new self.old) }
        ensures as_before { OnErr result (self.new ≡ self.old) }
        ensures found { IsTrue (S.outside.tells source.old) → IfOk result
            (IsRead (take self.old.size (readable ((S.outside.state source.old).held.look self.old.place))) (length self.old.bytes) buf.new) }
        ensures front { IsTrue (S.outside.tells source.old) → IsFrontOf (S.outside.state source.old).held self.old → IsFrontOf (S.outside.state source.old).held self.new }
        ensures reads { Reads S.outside source.old source.new (IsErr result) }
    {
        let count = if self.at < self.size {
            read_part(source, &self.place, self.at, self.size, buf)?
        } else {
            0
        };
        self.hasher.update(&buf[..count]);
        self.start = self.start.behind(&buf[..count]);
        self.at += count as u64;
        self.ended = count == 0;
        Ok(count)
    }

    /// Tells whether the payload is intact: the digest of the bytes that were given is its name. The end has to have been told.
    pub fn finish(self) -> Result<(), RepoFault>
        requires { IsTrue self.ended }
        ensures intact { IsOk result ↔ (digest_by self.name self.bytes ≡ self.name) }
        ensures damage { IfErr result (IsDamage self.name self.bytes) }
    {
        let found = self.hasher.finish();
        if found == self.name {
            Ok(())
        } else if self.start == Start::Gzip {
            Err(RepoFault::Compressed { found })
        } else {
            Err(RepoFault::PayloadDamaged { found })
        }
    }
}

// Why a payload isn't opened.
fn open_fault(fault: FileFault) -> RepoFault
    ensures { result ≡ fault_of_opening fault }
{
    match fault {
        FileFault::Missing => RepoFault::PayloadMissing,
        FileFault::TooLarge { count } => RepoFault::TooLarge {
            which: Which::PayloadBytes,
            count,
        },
        FileFault::SourceFault => RepoFault::SourceFault,
    }
}
