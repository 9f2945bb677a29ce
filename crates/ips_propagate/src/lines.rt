//! Lines of a refutation: sets of literals that no solution has, and why.

use crate::board::Board;
use crate::numbers::{MOST, NONE, at, between, counted, extended, pushed, put};
use ips_refute::{Nogood, Reason};
use std::alloc::Global;

// It is about to get its number.
const PENDING: u32 = NONE - 1;

// A line: where its literals and its reasons stand, and its further stem.
#[derive(Clone, Copy)]
struct Line {
    start: u32,
    end: u32,
    first_reason: u32,
    end_reason: u32,
    stem: u32,
}

/// The lines that were made. A reason `Earlier` of them names a line of this list.
#[derive(Drop)]
pub struct Lines {
    members: Vec<u32>,
    reasons: Vec<Reason>,
    lines: Vec<Line>,
    // How many reasons are of lines that were closed.
    closed: u32,
    // By line, its number where it was handed over.
    numbers: Vec<u32>,
    pending: Vec<u32>,
    fresh: Vec<u32>,
    /// Whether something had no room.
    pub is_lost: bool,
}

impl Lines {
    /// No lines.
    pub fn new(alloc: Global) -> Lines {
        Lines {
            members: Vec::new(alloc),
            reasons: Vec::new(alloc),
            lines: Vec::new(alloc),
            closed: 0,
            numbers: Vec::new(alloc),
            pending: Vec::new(alloc),
            fresh: Vec::new(alloc),
            is_lost: false,
        }
    }

    /// A reason of the line that is closed next.
    pub fn add_reason(&mut self, reason: Reason) {
        let fits = counted(self.reasons.len()) < MOST && self.reasons.push(reason).is_ok();
        self.is_lost |= !fits;
    }

    /// Makes a line of this set, at a further stem, with the reasons that were added.
    pub fn close(&mut self, members: &[u32], stem: u32) -> u32 {
        let start = counted(self.members.len());
        let has_members = extended(&mut self.members, members);
        let line = Line {
            start,
            end: counted(self.members.len()),
            first_reason: self.closed,
            end_reason: counted(self.reasons.len()),
            stem,
        };
        self.closed = line.end_reason;
        let number = counted(self.lines.len());
        let fits = pushed(&mut self.numbers, NONE) && self.lines.push(line).is_ok();
        self.is_lost |= !(has_members && fits);
        number
    }

    fn line(&self, number: u32) -> Line {
        self.lines.get(number as usize).copied().unwrap_or(Line {
            start: NONE,
            end: NONE,
            first_reason: NONE,
            end_reason: NONE,
            stem: NONE,
        })
    }

    /// The set of a line.
    pub fn members(&self, line: u32) -> &[u32] {
        let Line { start, end, .. } = self.line(line);
        between(&self.members, start, end)
    }

    /// The reason as whoever gets the lines knows it.
    pub fn told(&self, reason: Reason) -> Reason {
        match reason {
            Reason::Test(test) => Reason::Test(test),
            Reason::Earlier(line) => Reason::Earlier(at(&self.numbers, line)),
        }
    }

    /// Hands over the lines that a reason rests on and that weren't handed over, the last one first; `known` is the number of the
    /// first of them. False where there is no room.
    pub fn tell(
        &mut self,
        alloc: Global,
        board: &Board,
        reason: Reason,
        known: u32,
        into: &mut Vec<Nogood>,
    ) -> bool {
        self.gather(reason);
        self.fresh.sort_unstable();
        let mut next = known;
        for line in &self.fresh {
            put(&mut self.numbers, *line, next);
            next = next.saturating_add(1);
        }
        next <= MOST && self.hand_over(alloc, board, into)
    }

    // The lines that are fresh, the last one first.
    fn hand_over(&self, alloc: Global, board: &Board, into: &mut Vec<Nogood>) -> bool {
        let mut sorted = Vec::new(alloc);
        let mut fits = true;
        for line in self.fresh.iter().rev() {
            let mut nogood = Nogood {
                set: Vec::new(alloc),
                stem: self.line(*line).stem,
                reasons: Vec::new(alloc),
            };
            fits &= self.write_set(board, *line, &mut sorted, &mut nogood);
            fits &= self.write_reasons(*line, &mut nogood);
            fits &= into.push(nogood).is_ok();
        }
        fits
    }

    // Writes the set of a line, ascending.
    fn write_set(
        &self,
        board: &Board,
        line: u32,
        sorted: &mut Vec<u32>,
        nogood: &mut Nogood,
    ) -> bool {
        sorted.clear();
        let mut fits = extended(sorted, self.members(line));
        sorted.sort_unstable();
        for literal in sorted {
            fits &= nogood.set.push(board.pair(*literal)).is_ok();
        }
        fits
    }

    fn write_reasons(&self, line: u32, nogood: &mut Nogood) -> bool {
        let line = self.line(line);
        let mut fits = true;
        for place in line.first_reason..line.end_reason {
            if let Some(reason) = self.reasons.get(place as usize) {
                fits &= nogood.reasons.push(self.told(*reason)).is_ok();
            }
        }
        fits
    }

    // The lines that a reason rests on and that weren't handed over.
    fn gather(&mut self, reason: Reason) {
        self.fresh.clear();
        self.pending.clear();
        self.want(reason);
        for _ in 0..u64::MAX {
            let Some(line) = self.pending.pop() else {
                break;
            };
            self.is_lost |= !pushed(&mut self.fresh, line);
            self.want_all(line);
        }
    }

    fn want_all(&mut self, line: u32) {
        let line = self.line(line);
        for place in line.first_reason..line.end_reason {
            if let Some(reason) = self.reasons.get(place as usize).copied() {
                self.want(reason);
            }
        }
    }

    fn want(&mut self, reason: Reason) {
        if let Reason::Earlier(line) = reason
            && at(&self.numbers, line) == NONE
        {
            put(&mut self.numbers, line, PENDING);
            self.is_lost |= !pushed(&mut self.pending, line);
        }
    }
}
