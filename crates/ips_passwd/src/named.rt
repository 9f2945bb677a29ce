//! The lines of an account file, found by name.

ghost use Rattle.std.specs.Prelude.{◌≡◌, ◌<◌, length, option_map, slice_set, IfOk, OnOk, OnErr};
ghost use Rattle.std.specs.List.{position};
ghost use Rattle.ips_books.specs.Accounts as books_spec;
ghost use Rattle.ips_books.specs.Writing as writing_spec;

use crate::names::{Places, find, note, places};
use ips_books::{Line, add};
use std::alloc::{AllocError, Global};
use std::marker::Model;

/// The lines of an account file, found by name. Contracts see the lines.
#[derive(Drop)]
pub struct Named {
    lines: Vec<Line>,
    places: Places,
}

impl Model for Named {
    ghost use Rattle.std.specs.Prelude.{List};
    ghost use Rattle.ips_books.specs.Lines.{AccountLine};
    ghost use Rattle.ips_passwd.specs.Entries.{LeadByName};

    ghost Value = { List AccountLine };

    ghost view = { λ n. n.lines.items };

    ghost invariant = { λ n. LeadByName n.places n.lines.items };
}

impl Named {
    /// These lines.
    pub fn new(alloc: Global, lines: Vec<Line>) -> Result<Named, AllocError>
        ensures { IfOk result (λ named. named ≡ lines.items) }
    {
        let places = places(alloc, &lines)?;
        Ok(Named { lines, places })
    }

    /// The lines.
    pub fn lines(&self) -> &[Line]
        ensures { result.now ≡ self.now }
    {
        &self.lines
    }

    /// The place of the first line of a name.
    pub fn place_of(&self, name: &[u8]) -> Option<usize>
        ensures { result ≡ position (books_spec.is_of name.now) self.now }
    {
        find(&self.places, &self.lines, name)
    }

    /// The first line of a name.
    pub fn line_at(&self, name: &[u8]) -> Option<&Line>
        ensures { option_map (λ line. line.now) result ≡ books_spec.line_at self.now name.now }
    {
        match self.place_of(name) {
            Some(place) => Some(&self.lines[place]),
            None => None,
        }
    }

    /// Adds a line at the end; a line that lacked its newline gets it. Where memory runs out, the lines are as before.
    pub fn add(&mut self, alloc: Global, text: Vec<u8>) -> Result<(), AllocError>
        ensures added { OnOk result (self.new ≡ writing_spec.added text.items self.old) }
        ensures same { OnErr result (self.new ≡ self.old) }
    {
        note(alloc, &mut self.places, &text, self.lines.len())?;
        add(&mut self.lines, text)
    }

    /// Puts another line at a place. Where memory runs out, the lines are as before.
    pub fn replace(&mut self, alloc: Global, place: usize, line: Line) -> Result<(), AllocError>
        requires { place < length self.old }
        ensures replaced { OnOk result (self.new ≡ slice_set self.old place line) }
        ensures same { OnErr result (self.new ≡ self.old) }
    {
        note(alloc, &mut self.places, line.text(), place)?;
        self.lines[place] = line;
        Ok(())
    }
}
