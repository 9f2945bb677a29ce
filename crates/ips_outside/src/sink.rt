//! A sink of bytes in memory.

ghost use Rattle.std.specs.Prelude.{◌≡◌, ◌≤◌, ◌++◌, [], IsTrue, IfOk, IsErr, OnErr, is_err, length, take, min};
ghost use Rattle.ips_outside.specs.Outside.{HasCause};
ghost use Rattle.ips_outside.specs.Taking.{TakesSome};
ghost use Rattle.ips_outside.specs.Tally.{fresh, after_call};
ghost use Rattle.ips_outside.specs.Filling.{Filled, left, write_fails, mem_taking};

use crate::calls::Calls;
use crate::outside::{Failed, Sink};
use std::alloc::{AllocError, Global};
use std::marker::Model;

/// A sink in memory with room for so many bytes, of which some calls fail.
#[derive(Drop)]
pub struct MemSink {
    taken: Vec<u8>,
    room: usize,
    calls: Calls,
}

impl Model for MemSink {
    ghost use Rattle.std.specs.Prelude.{◌≤◌, length, vec_capacity};
    ghost use Rattle.ips_outside.specs.Filling.{Filled};

    ghost Value = { Filled };

    ghost view = { λ s. record { taken = s.taken.items; room = s.room; calls = s.calls } };

    ghost invariant = { λ s. (length s.taken.items ≤ s.room) × (s.room ≤ vec_capacity s.taken) };
}

impl MemSink {
    /// An empty sink. Its calls are numbered from 1 on, and the listed ones fail, as do those at which its room is full.
    pub fn new(alloc: Global, room: usize, fails: Vec<u64>) -> Result<MemSink, AllocError>
        ensures { IfOk result (λ sink. sink ≡ record { taken = []; room = room; calls = fresh fails.items }) }
    {
        Ok(MemSink {
            taken: Vec::with_capacity(alloc, room)?,
            room,
            calls: Calls::new(fails),
        })
    }

    /// The bytes that it took, the oldest first.
    pub fn taken(&self) -> &[u8]
        ensures { result.now ≡ self.now.taken }
    {
        &self.taken
    }
}

impl Sink for MemSink {
    ghost taking = { mem_taking };

    fn write(&mut self, bytes: &[u8]) -> Result<usize, Failed>
        ensures same_kind { mem_taking.tells self.new ≡ mem_taking.tells self.old }
        ensures cause { HasCause (mem_taking.faults self.old) (mem_taking.faults self.new) (IsErr result) }
        ensures some { IfOk result (TakesSome bytes.now) }
        ensures taken { IsTrue (mem_taking.tells self.old) → IfOk result (λ count. mem_taking.taken self.new ≡ mem_taking.taken self.old ++ take count bytes.now) }
        ensures kept { IsTrue (mem_taking.tells self.old) → OnErr result (mem_taking.taken self.new ≡ mem_taking.taken self.old) }

        ensures fails { is_err result ≡ write_fails self.old bytes.now }
        ensures fills { IfOk result (λ count. count ≡ min (left self.old) (length bytes.now)) }
        ensures same_room { self.new.room ≡ self.old.room }
        ensures counted { self.new.calls ≡ after_call (is_err result) self.old.calls }
    {
        let left = self.room - self.taken.len();
        if self.calls.fails(left == 0 && !bytes.is_empty()) {
            return Err(Failed);
        }
        let count = left.min(bytes.len());
        match self.taken.extend_from_slice(&bytes[..count]) {
            Ok(()) => Ok(count),
            Err(_) => unreachable!(),
        }
    }
}
