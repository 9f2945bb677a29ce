//! Sets of literals that are being gathered.

use crate::numbers::{NONE, at, counted, filled, pushed, put, swap};
use std::alloc::Global;

/// A set of literals, at most one of each stem.
#[derive(Drop)]
pub struct Gathered {
    pub members: Vec<u32>,
    /// The stems whose literals were members since the set was cleared.
    pub met: Vec<u32>,
    marks: Vec<u32>,
    /// Whether something was ever left out that had no room or no place here.
    pub is_lost: bool,
}

impl Gathered {
    /// The empty set of no stems.
    pub fn new(alloc: Global) -> Gathered {
        Gathered {
            members: Vec::new(alloc),
            met: Vec::new(alloc),
            marks: Vec::new(alloc),
            is_lost: false,
        }
    }

    /// Makes room for literals of so many stems; false where there is none.
    pub fn lay_out(&mut self, stems: usize) -> bool {
        filled(&mut self.marks, stems, NONE)
    }

    /// Empties the set.
    pub fn clear(&mut self) {
        for stem in &self.met {
            put(&mut self.marks, *stem, NONE);
        }
        self.met.clear();
        self.members.clear();
    }

    /// Adds a literal of a stem.
    pub fn add(&mut self, literal: u32, stem: u32) {
        let mark = at(&self.marks, stem);
        if mark == literal {
            return;
        }
        let fits = mark == NONE
            && (stem as usize) < self.marks.len()
            && pushed(&mut self.members, literal)
            && pushed(&mut self.met, stem);
        put(&mut self.marks, stem, literal);
        self.is_lost |= !fits;
    }

    /// Takes a literal of a stem out.
    pub fn remove(&mut self, literal: u32, stem: u32) {
        put(&mut self.marks, stem, NONE);
        let count = counted(self.members.len());
        for place in 0..count {
            if at(&self.members, place) == literal {
                swap(&mut self.members, place, count - 1);
                self.members.pop();
                return;
            }
        }
    }
}
