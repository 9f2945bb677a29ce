//! A spawner of programs in memory.

ghost use Rattle.std.specs.Prelude.{◌≡◌, ◌≤◌, ◌<◌, ◌+◌, ◌++◌, ◌∷◌, [], IfOk, is_err, length, vec_capacity, get_or, nat_le};
ghost use Rattle.ips_outside.specs.Running.{Runs};
ghost use Rattle.ips_outside.specs.Tally.{fresh, after_call};
ghost use Rattle.ips_outside.specs.Spawning.{Spawned, word_text, words_text, ran_text, run_fails, next_status, mem_running};
ghost use Rattle.ips_outside.specs.Marks.{word_marks, words_marks};

use crate::calls::Calls;
use crate::outside::{Failed, Spawner};
use ips_text::Text;
use std::alloc::{AllocError, Global};
use std::marker::Model;

/// What a byte of the text of what was run is.
#[derive(Drop)]
pub enum Mark {
    /// A byte of a word.
    Inside { byte: u8 },
    /// The end of a word.
    WordEnd,
    /// The end of a run, which ended with this status.
    RunEnd { status: u8 },
}

/// A spawner in memory, which runs nothing but keeps the words, in room for so many bytes. Some calls fail.
#[derive(Drop)]
pub struct MemSpawner {
    text: Vec<u8>,
    // What each byte of the text is, since words may hold any bytes.
    marks: Vec<Mark>,
    statuses: Vec<u8>,
    room: usize,
    calls: Calls,
}

impl Model for MemSpawner {
    ghost use Rattle.std.specs.Prelude.{◌≡◌, ◌≤◌, length, vec_capacity};
    ghost use Rattle.ips_outside.specs.Spawning.{Spawned, ran_text};
    ghost use Rattle.ips_outside.specs.Marks.{runs_of, HasEnded};

    ghost Value = { Spawned };

    ghost view = { λ s. record { ran = runs_of s.marks.items; statuses = s.statuses.items; room = s.room; calls = s.calls } };

    ghost invariant = { λ s. HasEnded s.marks.items × (s.text.items ≡ ran_text (runs_of s.marks.items)) × (length s.marks.items ≡ length s.text.items)
        × (length s.text.items ≤ s.room) × (s.room ≤ vec_capacity s.text) × (s.room ≤ vec_capacity s.marks) };
}

impl MemSpawner {
    /// A spawner that has run nothing. Its calls are numbered from 1 on. The call of number k ends with status k of the
    /// list, and with 0 past its end. The calls with the listed numbers fail, as do those for whose words there is no
    /// room.
    pub fn new(
        alloc: Global,
        room: usize,
        statuses: Vec<u8>,
        fails: Vec<u64>,
    ) -> Result<MemSpawner, AllocError>
        ensures { IfOk result (λ spawner. spawner ≡ record { ran = []; statuses = statuses.items; room = room; calls = fresh fails.items }) }
    {
        Ok(MemSpawner {
            text: Vec::with_capacity(alloc, room)?,
            marks: Vec::with_capacity(alloc, room)?,
            statuses,
            room,
            calls: Calls::new(fails),
        })
    }

    /// The words that it ran, the oldest first: each ended by a byte 0, and each run by a byte 10.
    pub fn ran(&self) -> &[u8]
        ensures { result.now ≡ ran_text self.now.ran }
    {
        &self.text
    }
}

impl Spawner for MemSpawner {
    ghost running = { mem_running };

    fn run(&mut self, words: &[Text]) -> Result<u8, Failed>
        ensures runs { Runs mem_running words.now self.old self.new result }
        ensures fails { is_err result ≡ run_fails self.old words.now }
        ensures status { IfOk result (λ status. status ≡ next_status self.old) }
        ensures same_room { self.new.room ≡ self.old.room }
        ensures same_statuses { self.new.statuses ≡ self.old.statuses }
        ensures counted { self.new.calls ≡ after_call (is_err result) self.old.calls }
    {
        let status = status_at(&self.statuses, self.calls.made());
        let fits = fits(words, self.room - self.text.len());
        if self.calls.fails(!fits) {
            return Err(Failed);
        }
        write_run(&mut self.text, &mut self.marks, words, status);
        Ok(status)
    }
}

// The status of the call after so many.
fn status_at(statuses: &[u8], made: u64) -> u8
    ensures { result ≡ get_or statuses.now made 0 }
{
    match statuses.get(made as usize) {
        Some(status) => *status,
        None => 0,
    }
}

// Whether the text of these words is no longer than this.
fn fits(words: &[Text], room: usize) -> bool
    ensures { result ≡ nat_le (length (words_text words.now)) room }
{
    let mut left = room;
    for word in words {
        let length = word.as_str().len();
        if left <= length {
            return false;
        }
        left -= length + 1;
    }
    left > 0
}

// Writes a byte and what it is.
fn write(text: &mut Vec<u8>, marks: &mut Vec<Mark>, byte: u8, mark: Mark)
    requires same { length marks.old.items ≡ length text.old.items }
    requires text { length text.old.items < vec_capacity text.old }
    requires marks { length text.old.items < vec_capacity marks.old }
    ensures text { text.new.items ≡ text.old.items ++ byte ∷ [] }
    ensures marks { marks.new.items ≡ marks.old.items ++ mark ∷ [] }
    ensures same_text_room { vec_capacity text.new ≡ vec_capacity text.old }
    ensures same_marks_room { vec_capacity marks.new ≡ vec_capacity marks.old }
{
    text.push_reserved(byte);
    marks.push_reserved(mark);
}

// Writes the text of a word.
fn write_word(text: &mut Vec<u8>, marks: &mut Vec<Mark>, word: &[u8])
    requires same { length marks.old.items ≡ length text.old.items }
    requires text { length text.old.items + length (word_text word.now) ≤ vec_capacity text.old }
    requires marks { length text.old.items + length (word_text word.now) ≤ vec_capacity marks.old }
    ensures text { text.new.items ≡ text.old.items ++ word_text word.now }
    ensures marks { marks.new.items ≡ marks.old.items ++ word_marks word.now }
    ensures same { length marks.new.items ≡ length text.new.items }
    ensures same_text_room { vec_capacity text.new ≡ vec_capacity text.old }
    ensures same_marks_room { vec_capacity marks.new ≡ vec_capacity marks.old }
{
    for byte in word {
        write(text, marks, *byte, Mark::Inside { byte: *byte });
    }
    write(text, marks, 0, Mark::WordEnd);
}

// Writes the text of words that were run.
fn write_run(text: &mut Vec<u8>, marks: &mut Vec<Mark>, words: &[Text], status: u8)
    requires same { length marks.old.items ≡ length text.old.items }
    requires text { length text.old.items + length (words_text words.now) ≤ vec_capacity text.old }
    requires marks { length text.old.items + length (words_text words.now) ≤ vec_capacity marks.old }
    ensures text { text.new.items ≡ text.old.items ++ words_text words.now }
    ensures marks { marks.new.items ≡ marks.old.items ++ words_marks words.now ++ Mark.RunEnd status ∷ [] }
    ensures same { length marks.new.items ≡ length text.new.items }
    ensures same_text_room { vec_capacity text.new ≡ vec_capacity text.old }
    ensures same_marks_room { vec_capacity marks.new ≡ vec_capacity marks.old }
{
    for word in words {
        write_word(text, marks, word.as_str().as_bytes());
    }
    write(text, marks, b'\n', Mark::RunEnd { status });
}
