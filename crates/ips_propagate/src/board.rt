//! Which candidates are left for each stem, and why the others aren't.

use crate::numbers::{NONE, at, counted, put};
use crate::order::Order;
use crate::trail::Trail;
use ips_refute::{Pair, Puzzle};
use std::alloc::Global;

/// Why a candidate isn't left.
#[derive(Clone, Copy)]
pub enum Why {
    /// It is left.
    Left,
    /// Another candidate of its stem was decided on.
    Decided,
    /// It and a chosen pair break a test of two stems: it is the test's own and that is the bad literal at this place, or the other
    /// way round.
    Test(u32),
    /// It is the test's own, and no candidate is left that the test takes.
    Support(u32),
    /// It and the chosen pairs of the other stems break this wide test.
    Wide(u32),
    /// It is the last pair of a learned set, the others of which are chosen.
    Learned(u32),
    /// It is the last pair of a line, the others of which are chosen.
    Line(u32),
}

/// The last candidate that was left for a stem, and why it is to go.
#[derive(Clone, Copy)]
pub struct Conflict {
    pub literal: u32,
    pub why: Why,
}

/// A stem: its literals, how many of them are left, and its value once that is one.
#[derive(Clone, Copy)]
pub struct Stem {
    pub first: u32,
    /// The first literal that isn't the stem's any more.
    pub end: u32,
    pub left: u32,
    pub value: u32,
    /// The value that it had last.
    pub phase: u32,
    /// Whether the value was decided on, at which level it came, and how many literals had been removed by then.
    pub decided: bool,
    pub level: u32,
    pub valued_at: u32,
}

/// A candidate of a stem.
#[derive(Clone, Copy)]
pub struct Literal {
    pub stem: u32,
    pub why: Why,
    /// How many literals had been removed before this one was.
    pub removed_at: u32,
}

/// The candidates of all stems, each by its number. A stem for which one candidate is left has a value.
#[derive(Drop)]
pub struct Board {
    pub stems: Vec<Stem>,
    pub literals: Vec<Literal>,
    /// Literals in the order of their removal, and stems in the order in which they got their value.
    pub removed: Trail,
    pub valued: Trail,
    /// How many decisions stand.
    pub level: u32,
    /// Each stem below this one has a value.
    pub lowest: u32,
    /// Each stem below this one was seen to have the value of the choice.
    pub standing: u32,
}

impl Board {
    /// Without stems.
    pub fn new(alloc: Global) -> Board {
        Board {
            stems: Vec::new(alloc),
            literals: Vec::new(alloc),
            removed: Trail::new(alloc),
            valued: Trail::new(alloc),
            level: 0,
            lowest: 0,
            standing: 0,
        }
    }

    /// Takes the stems of a puzzle, with all candidates left; false where there is no room.
    pub fn lay_out<P: Puzzle>(&mut self, puzzle: &P) -> bool {
        for stem in 0..puzzle.stems() {
            if !self.add_stem(stem, puzzle.candidates(stem)) {
                return false;
            }
        }
        let stems = self.stems.len();
        self.removed.lay_out(self.literals.len(), stems) && self.valued.lay_out(stems, stems)
    }

    fn add_stem(&mut self, stem: u32, count: u32) -> bool {
        let first = counted(self.literals.len());
        let end = counted(self.literals.len().saturating_add(count as usize));
        if end == NONE {
            return false;
        }
        let literal = Literal {
            stem,
            why: Why::Left,
            removed_at: 0,
        };
        let stem = Stem {
            first,
            end,
            left: count,
            value: NONE,
            phase: NONE,
            decided: false,
            level: 0,
            valued_at: 0,
        };
        self.literals.resize(end as usize, literal).is_ok() && self.stems.push(stem).is_ok()
    }

    /// The stem of a number.
    pub fn stem(&self, number: u32) -> Stem {
        self.stems.get(number as usize).copied().unwrap_or(Stem {
            first: NONE,
            end: NONE,
            left: NONE,
            value: NONE,
            phase: NONE,
            decided: false,
            level: NONE,
            valued_at: NONE,
        })
    }

    /// The literal of a number.
    pub fn literal(&self, number: u32) -> Literal {
        self.literals
            .get(number as usize)
            .copied()
            .unwrap_or(Literal {
                stem: NONE,
                why: Why::Left,
                removed_at: NONE,
            })
    }

    /// The number of a pair's literal.
    pub fn number(&self, pair: Pair) -> u32 {
        let stem = self.stem(pair.stem);
        let number = stem.first.saturating_add(pair.candidate);
        if number < stem.end { number } else { NONE }
    }

    /// The pair of a literal.
    pub fn pair(&self, literal: u32) -> Pair {
        let stem = self.literal(literal).stem;
        Pair {
            stem,
            candidate: literal.saturating_sub(self.stem(stem).first),
        }
    }

    /// The value of a stem.
    pub fn value(&self, stem: u32) -> u32 {
        self.stem(stem).value
    }

    /// The stem of which a literal is.
    pub fn stem_of(&self, literal: u32) -> Stem {
        self.stem(self.literal(literal).stem)
    }

    /// Whether the literal is left.
    pub fn is_left(&self, literal: u32) -> bool {
        matches!(self.literal(literal).why, Why::Left)
    }

    /// Writes why a literal isn't left, as if it had gone by now.
    pub fn explain(&mut self, literal: u32, why: Why) {
        if let Some(it) = self.literals.get_mut(literal as usize) {
            it.why = why;
            it.removed_at = self.removed.count;
        }
    }

    /// The first literal of the stem that is left.
    pub fn first_left(&self, stem: u32) -> u32 {
        let Stem { first, end, .. } = self.stem(stem);
        for literal in first..end {
            if self.is_left(literal) {
                return literal;
            }
        }
        NONE
    }

    /// The first stem without a value.
    pub fn first_open(&mut self, stems: u32) -> Option<u32> {
        for stem in self.lowest..stems {
            if self.value(stem) == NONE {
                self.lowest = stem;
                return Some(stem);
            }
        }
        self.lowest = stems;
        None
    }

    /// Gives a stem its value.
    pub fn set(&mut self, stem: u32, literal: u32, decided: bool) {
        if let Some(it) = self.stems.get_mut(stem as usize) {
            it.value = literal;
            it.decided = decided;
            it.level = self.level;
            it.valued_at = self.removed.count;
        }
        self.valued.push(stem);
    }

    // The literal goes.
    fn strike(&mut self, literal: u32, why: Why) {
        let stem = self.literal(literal).stem;
        self.explain(literal, why);
        self.removed.push(literal);
        if let Some(it) = self.stems.get_mut(stem as usize) {
            it.left = it.left.saturating_sub(1);
        }
    }

    /// Removes a literal that is left; false where its stem has no other.
    pub fn remove(&mut self, literal: u32, why: Why) -> bool {
        if !self.is_left(literal) {
            return true;
        }
        let stem = self.literal(literal).stem;
        let left = self.stem(stem).left;
        if left <= 1 {
            return false;
        }
        self.strike(literal, why);
        if left == 2 {
            let last = self.first_left(stem);
            self.set(stem, last, false);
        }
        true
    }

    /// Decides on a literal.
    pub fn decide(&mut self, literal: u32) {
        let stem = self.literal(literal).stem;
        put(&mut self.removed.marks, self.level, self.removed.count);
        put(&mut self.valued.marks, self.level, self.valued.count);
        self.level = self.level.saturating_add(1);
        self.set(stem, literal, true);
        let Stem { first, end, .. } = self.stem(stem);
        for other in first..end {
            if other != literal && self.is_left(other) {
                self.strike(other, Why::Decided);
            }
        }
    }

    /// The stem that was decided on at the last level.
    pub fn last_decision(&self) -> u32 {
        let last = at(&self.valued.marks, self.level.wrapping_sub(1));
        at(&self.valued.items, last)
    }

    /// Takes back all decisions beyond this level.
    pub fn undo(&mut self, level: u32, order: &mut Order) {
        if level >= self.level {
            return;
        }
        let removed = at(&self.removed.marks, level);
        self.undo_values(level, order);
        for place in removed..self.removed.count {
            let literal = at(&self.removed.items, place);
            let stem = self.literal(literal).stem;
            self.explain(literal, Why::Left);
            if let Some(it) = self.stems.get_mut(stem as usize) {
                it.left = it.left.saturating_add(1);
            }
        }
        self.level = level;
        self.removed.cut(removed);
    }

    fn undo_values(&mut self, level: u32, order: &mut Order) {
        let valued = at(&self.valued.marks, level);
        for place in valued..self.valued.count {
            let stem = at(&self.valued.items, place);
            if let Some(it) = self.stems.get_mut(stem as usize) {
                it.phase = it.value;
                it.value = NONE;
            }
            self.lowest = self.lowest.min(stem);
            self.standing = self.standing.min(stem);
            order.push(stem);
        }
        self.valued.cut(valued);
    }

    /// A copy of all values.
    pub fn copy_values(&self, into: &mut Vec<u32>) {
        for (place, stem) in self.stems.iter().enumerate() {
            if place < into.len() {
                into[place] = stem.value;
            }
        }
    }
}
