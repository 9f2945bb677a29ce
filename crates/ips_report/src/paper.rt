//! A text that grows by pieces, and says at its end whether it holds them all.

ghost use Rattle.std.specs.Prelude.{◌≡◌, ◌++◌, ◌≤◌, [], IfOk, length};
ghost use Rattle.std.specs.Fmt.{decimal};

use crate::taken::Taken;
use ips_text::Text;
use itoa::Buffer;
use std::alloc::{AllocError, Global};
use std::marker::Model;

/// A text that grows by pieces. Where memory for a piece is refused it is cut off there, and says so at its end; as long as its
/// room isn't passed, none is asked for. Contracts see all that it was given, and its room.
#[derive(Drop)]
pub struct Paper {
    text: String,
    cut: bool,
    room: usize,
    taken: Taken,
}

impl Model for Paper {
    ghost use Rattle.std.specs.Prelude.{◌≡◌, ◌<◌, ◌≤◌, true, false, length, string_bytes, string_capacity};
    ghost use Rattle.ips_report.specs.Written.{Written};

    ghost Value = { Written };

    ghost view = { λ p. record { text = p.taken.bytes; room = p.room } };

    ghost invariant = { λ p. (p.cut ≡ false → string_bytes p.text ≡ p.taken.bytes) × (p.cut ≡ true → p.room < length p.taken.bytes) × (p.room ≤ string_capacity p.text) };
}

impl Paper {
    /// An empty text, with room for so many bytes.
    pub fn with_room(alloc: Global, room: usize) -> Result<Paper, AllocError>
        ensures { IfOk result (λ p. p ≡ record { text = []; room = room }) }
    {
        Ok(Paper {
            text: String::with_capacity(alloc, room)?,
            cut: false,
            room,
            taken: Taken::new(),
        })
    }

    /// Takes all pieces away.
    pub fn clear(&mut self)
        ensures { self.new ≡ record { text = []; room = self.old.room } }
    {
        self.text.clear();
        self.cut = false;
        self.taken = Taken::new();
    }

    /// Writes a piece behind the others.
    pub fn put(&mut self, piece: &str)
        ensures text { self.new.text ≡ self.old.text ++ piece.now }
        ensures room { self.new.room ≡ self.old.room }
    {
        self.taken.append(piece.as_bytes());
        if !self.cut && self.text.push_str(piece).is_err() {
            self.cut = true;
        }
    }

    /// Writes a number in decimal digits.
    pub fn put_number(&mut self, number: u64)
        ensures text { self.new.text ≡ self.old.text ++ decimal number }
        ensures room { self.new.room ≡ self.old.room }
    {
        let mut buffer = Buffer::new();
        self.put(buffer.format(number));
    }

    /// The text, which fits into the room.
    pub fn bytes(&self) -> &[u8]
        requires { length self.now.text ≤ self.now.room }
        ensures { result.now ≡ self.now.text }
    {
        self.text.as_str().as_bytes()
    }

    /// The whole text, unless memory was refused.
    pub fn finish(self) -> Result<Text, AllocError>
        ensures { IfOk result (λ text. text ≡ self.text) }
    {
        if self.cut {
            return Err(AllocError);
        }
        Ok(Text::from_string(self.text))
    }
}
