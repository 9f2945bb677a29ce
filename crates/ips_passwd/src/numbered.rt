//! The lines of an account file, found by name and by number.

ghost use Rattle.std.specs.Prelude.{◌≡◌, ◌<◌, length, slice_set, IfOk, OnOk, OnErr};
ghost use Rattle.ips_books.specs.Writing as writing_spec;
ghost use Rattle.ips_passwd.specs.Entries.{IsLeastFree};

use crate::free::{below, count_used, give_up};
use crate::named::Named;
use crate::numbers::{Numbers, is_taken, list, numbers};
use ips_books::Line;
use std::alloc::{AllocError, Global};
use std::collections::BTreeSet;
use std::marker::Model;

/// The lines of an account file, found by name and by number. Contracts see the lines.
#[derive(Drop)]
pub struct Numbered {
    named: Named,
    numbers: Numbers,
    free: BTreeSet<usize>,
}

impl Model for Numbered {
    ghost use Rattle.std.specs.Prelude.{List};
    ghost use Rattle.ips_books.specs.Lines.{AccountLine};
    ghost use Rattle.ips_passwd.specs.Entries.{IsByNumber};

    ghost Value = { List AccountLine };

    ghost view = { λ n. n.named };

    ghost invariant = { λ n. IsByNumber n.numbers n.free n.named };
}

impl Numbered {
    /// These lines.
    pub fn new(alloc: Global, named: Named) -> Result<Numbered, AllocError>
        ensures { IfOk result (λ numbered. numbered ≡ named) }
    {
        let numbers = numbers(alloc, named.lines())?;
        let free = below(alloc, named.lines().len())?;
        Ok(Numbered {
            named,
            numbers,
            free,
        })
    }

    /// The lines, found by name.
    pub fn named(&self) -> &Named
        ensures { result.now ≡ self.now }
    {
        &self.named
    }

    /// Whether the number is that of a line that speaks of another name.
    pub fn is_taken(&self, name: &[u8], id: u32) -> bool
        ensures { result ≡ writing_spec.is_number_taken self.now name.now id }
    {
        is_taken(&self.numbers, self.named.lines(), name, id)
    }

    /// How many numbers from 1 on are used before the first that is free.
    pub fn count_used(&mut self) -> usize
        ensures same { self.new ≡ self.old }
        ensures least { IsLeastFree self.old result }
    {
        count_used(&self.numbers, &mut self.free, self.named.lines())
    }

    /// Writes the line of a name: its first line is rewritten at its place, or a line is added at the end.
    pub fn put(&mut self, alloc: Global, name: &[u8], text: Vec<u8>) -> Result<(), AllocError>
        ensures { OnOk result (self.new ≡ writing_spec.with_line name.now text.items self.old) }
    {
        match self.named.place_of(name) {
            Some(place) => {
                let ended = self.named.lines()[place].is_ended();
                self.replace(alloc, place, Line::new(text, ended))
            }
            None => self.add(alloc, text),
        }
    }

    // Adds a line at the end; a line that lacked its newline gets it.
    fn add(&mut self, alloc: Global, text: Vec<u8>) -> Result<(), AllocError>
        ensures { OnOk result (self.new ≡ writing_spec.added text.items self.old) }
    {
        let place = self.named.lines().len();
        list(alloc, &mut self.numbers, &text, place)?;
        self.free.insert(place)?;
        self.named.add(alloc, text)
    }

    /// Puts another line at a place.
    pub fn replace(&mut self, alloc: Global, place: usize, line: Line) -> Result<(), AllocError>
        requires { place < length self.old }
        ensures { OnOk result (self.new ≡ slice_set self.old place line) }
    {
        give_up(&mut self.free, self.named.lines()[place].text())?;
        list(alloc, &mut self.numbers, line.text(), place)?;
        self.named.replace(alloc, place, line)
    }
}
