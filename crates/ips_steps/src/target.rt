//! What symbolic links say.

ghost use Rattle.std.specs.Prelude.{◌≡◌, ◌≤◌, IfOk, IfErr, IsOk, OnErr, OnOk, IfNone, IfSome, IsNone, MatchOption, length};
ghost use Rattle.ips_text.specs.Reading.{IfBad};
ghost use Rattle.ips_steps.specs.Targets.{IsTarget, HasFault};

use ips_text::Or;
use std::alloc::{AllocError, Global};
use std::marker::Model;

/// Why bytes are no target: the first of these that they have.
#[derive(Drop)]
pub enum TargetFault {
    /// There are no bytes.
    Empty,
    /// There are more than 4,095 bytes.
    TooLong,
    /// One of them is NUL, which no system takes, and they aren't too long.
    Nul,
}

/// The target of a symbolic link: 1 to 4,095 bytes without NUL. It needn't be UTF-8, and nothing need stand there.
/// Contracts see its bytes and the number of bytes that it keeps room for.
#[derive(Drop)]
pub struct Target {
    bytes: Vec<u8>,
}

impl Model for Target {
    ghost use Rattle.std.specs.Prelude.{vec_capacity};
    ghost use Rattle.ips_text.specs.Kept.{Kept};
    ghost use Rattle.ips_steps.specs.Targets.{IsTarget};

    ghost Value = { Kept };

    ghost view = { λ t. record { bytes = t.bytes.items; room = vec_capacity t.bytes } };

    ghost invariant = { λ t. IsTarget t.bytes.items };
}

impl Target {
    /// The target that the bytes are, or their fault.
    pub fn parse(alloc: Global, bytes: &[u8]) -> Result<Target, Or<TargetFault>>
        ensures found { IfOk result (λ t. t.bytes ≡ bytes.now) }
        ensures target { IfOk result (λ t. IsTarget t.bytes) }
        ensures only { IsTarget bytes.now → IfBad result (λ _. ⊥) }
        ensures fault { IfBad result (λ fault. HasFault fault bytes.now) }
    {
        match fault_of(bytes) {
            Some(fault) => Err(Or::Bad(fault)),
            None => Ok(Target {
                bytes: Vec::from_slice(alloc, bytes)?,
            }),
        }
    }

    /// The same, with room for every target, so that `set` can write any target over this one.
    pub fn with_room(alloc: Global, bytes: &[u8]) -> Result<Target, Or<TargetFault>>
        ensures found { IfOk result (λ t. t.bytes ≡ bytes.now) }
        ensures target { IfOk result (λ t. IsTarget t.bytes) }
        ensures room { IfOk result (λ t. 4095 ≤ t.room) }
        ensures only { IsTarget bytes.now → IfBad result (λ _. ⊥) }
        ensures fault { IfBad result (λ fault. HasFault fault bytes.now) }
    {
        if let Some(fault) = fault_of(bytes) {
            return Err(Or::Bad(fault));
        }
        let mut kept = Vec::with_capacity(alloc, 4095)?;
        kept.extend_from_slice(bytes)?;
        Ok(Target { bytes: kept })
    }

    /// Writes another target over this one, without memory. At a fault the target stays as it
    /// was. It has to keep room for every target, as one made by `with_room` does.
    pub fn set(&mut self, bytes: &[u8]) -> Result<(), TargetFault>
        requires { 4095 ≤ self.old.room }
        ensures written { OnOk result (self.new.bytes ≡ bytes.now) }
        ensures room { OnOk result (4095 ≤ self.new.room) }
        ensures target { OnOk result (IsTarget bytes.now) }
        ensures only { IsTarget bytes.now → IsOk result }
        ensures fault { IfErr result (λ fault. HasFault fault bytes.now) }
        ensures stays { OnErr result (self.new ≡ self.old) }
    {
        if let Some(fault) = fault_of(bytes) {
            return Err(fault);
        }
        self.bytes.clear();
        match self.bytes.extend_from_slice(bytes) {
            Ok(()) => Ok(()),
            Err(_) => unreachable!(),
        }
    }

    /// The bytes of the target.
    pub fn bytes(&self) -> &[u8]
        ensures value { result.now ≡ self.now.bytes }
        ensures target { IsTarget self.now.bytes }
    {
        &self.bytes
    }

    /// A copy, without room to spare.
    pub fn copy(&self, alloc: Global) -> Result<Target, AllocError>
        ensures same { IfOk result (λ t. t.bytes ≡ self.now.bytes) }
        ensures target { IfOk result (λ t. IsTarget t.bytes) }
    {
        Ok(Target {
            bytes: Vec::from_slice(alloc, &self.bytes)?,
        })
    }
}

// The fault of the bytes, or None where they are a target.
fn fault_of(bytes: &[u8]) -> Option<TargetFault>
    ensures found { MatchOption result (IsTarget bytes.now) (λ fault. HasFault fault bytes.now) }
    ensures fits { IfNone result (length bytes.now ≤ 4095) }
    ensures only { IsTarget bytes.now → IsNone result }
{
    if bytes.is_empty() {
        Some(TargetFault::Empty)
    } else if bytes.len() > 4095 {
        Some(TargetFault::TooLong)
    } else if bytes.contains(&0) {
        Some(TargetFault::Nul)
    } else {
        None
    }
}
