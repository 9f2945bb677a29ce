//! Bytes of a file that were read before they are used.

ghost use Rattle.std.specs.Prelude.{◌≡◌, ◌<◌, ◌≤◌, ◌^◌, [], IsTrue, IfOk, IfSome, IsErr, length, drop};
ghost use Rattle.ips_outside.specs.Outside.{Reads, readable};
ghost use Rattle.ips_journal.specs.Line.{ComeFirst, IsLineFound};

use crate::fields::first_place;
use crate::lines::read_line;
use ips_outside::{Failed, Source};
use ips_text::RelPath;
use std::alloc::{AllocError, Global};
use std::marker::Model;

/// As many bytes as hold each line of a journal: the longest has 15,361 with its newline, in which a path of 1,023 bytes and
/// a target of 4,095 have three bytes for each.
const LINE_BYTES: usize = 16_384;

/// The bytes behind a place of a file that were read already, in a buffer that holds any line. Contracts see these bytes.
#[derive(Drop)]
pub struct Ahead {
    buffer: Vec<u8>,
    start: usize,
    end: usize,
}

impl Model for Ahead {
    ghost use Rattle.std.specs.Prelude.{◌≡◌, ◌-◌, ◌≤◌, ℕ, List, take, drop, vec_len};

    ghost Value = { List ℕ };

    ghost view = { λ a. take (a.end - a.start) (drop a.start a.buffer.items) };

    ghost invariant = { λ a. (vec_len a.buffer ≡ 16384) × (a.start ≤ a.end) × (a.end ≤ 16384) };
}

impl Ahead {
    /// A buffer in which nothing is read yet.
    pub fn new(alloc: Global) -> Result<Ahead, AllocError>
        ensures { IfOk result (λ ahead. ahead ≡ []) }
    {
        let buffer = vec![in alloc; 0u8; LINE_BYTES]?;
        Ok(Ahead {
            buffer,
            start: 0,
            end: 0,
        })
    }

    /// Forgets what was read.
    pub fn clear(&mut self)
        ensures { self.new ≡ [] }
    {
        self.start = 0;
        self.end = 0;
    }

    /// The bytes.
    pub fn bytes(&self) -> &[u8]
        ensures { result.now ≡ self.now }
    {
        &self.buffer[self.start..self.end]
    }

    /// Goes behind so many of the bytes.
    pub fn skip(&mut self, count: usize)
        requires { count ≤ length self.old }
        ensures { self.new ≡ drop count self.old }
    {
        self.start += count;
    }

    /// Sees that the line at the place of the file, behind which the bytes were read, is held whole, and answers its length
    /// without the newline. It reads only where the line isn't, and then from its first byte on. None where no newline
    /// stands among as many bytes as the buffer has.
    pub fn find_line<S: Source>(
        &mut self,
        source: &mut S,
        path: &RelPath,
        place: u64,
    ) -> Result<Option<usize>, Failed>
        ensures fits { IfOk result (λ found. IfSome found (λ count. count < length self.new)) }
        ensures found { IsTrue (S.outside.tells source.old) → place ≤ length (readable ((S.outside.state source.old).held.look path.now.bytes))
            → length (readable ((S.outside.state source.old).held.look path.now.bytes)) < 2 ^ 64
            → ComeFirst self.old (drop place (readable ((S.outside.state source.old).held.look path.now.bytes)))
            → IfOk result (λ found. ComeFirst self.new (drop place (readable ((S.outside.state source.old).held.look path.now.bytes)))
            × IsLineFound 16384 (drop place (readable ((S.outside.state source.old).held.look path.now.bytes))) self.new found) }
        ensures reads { Reads S.outside source.old source.new (IsErr result) }
    {
        if let Some(length) = first_place(b'\n', self.bytes()) {
            return Ok(Some(length));
        }
        self.start = 0;
        self.end = 0;
        let (found, end) = read_line(source, path, place, self.buffer.as_mut_slice())?;
        self.end = end;
        Ok(found)
    }
}
