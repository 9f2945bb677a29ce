//! The engine's own search for a solution.

use crate::analysis::{Known, Work, analyse};
use crate::board::{Board, Conflict, Stem, Why};
use crate::gathered::Gathered;
use crate::learned::Learned;
use crate::lines::Lines;
use crate::numbers::{NONE, counted};
use crate::order::Order;
use crate::spreading::Watches;
use crate::tables::Tables;
use ips_refute::{Pair, Puzzle, Reason};
use std::alloc::Global;

// After how many conflicts the search by activity begins anew, times 1, 1, 2, 1, 1, 2, 4, ..
const PERIOD: u64 = 100;

/// How a search ended.
#[derive(Clone, Copy)]
pub enum End {
    /// All stems have a value.
    Full,
    /// No solution exists, for this reason.
    Refuted(Reason),
    /// No solution has the decisions that stood at first.
    Fallen,
    /// There were too many conflicts.
    Tired,
    /// It can't go on, as for want of memory.
    Lost,
}

/// A search: what is known, what is watched, and the order of decisions by activity. What had no room is marked where it was to
/// stand, and the search is lost from then on.
#[derive(Drop)]
pub struct Search {
    pub known: Known,
    pub work: Work,
    conflicts: u64,
    watches: Watches,
    order: Order,
}

impl Search {
    /// A search without a puzzle.
    pub fn new(alloc: Global) -> Search {
        Search {
            known: Known {
                board: Board::new(alloc),
                tables: Tables::new(alloc),
                learned: Learned::new(alloc),
                lines: Lines::new(alloc),
            },
            work: Work {
                set: Gathered::new(alloc),
                inner: Gathered::new(alloc),
                stack: Vec::new(alloc),
            },
            conflicts: 0,
            watches: Watches::new(alloc),
            order: Order::new(alloc),
        }
    }

    /// Takes a puzzle; false where there is no room.
    pub fn lay_out<P: Puzzle>(&mut self, alloc: Global, puzzle: &P) -> bool {
        let stems = puzzle.stems();
        let known = &mut self.known;
        known.board.lay_out(puzzle)
            && known.tables.lay_out(alloc, puzzle, &known.board)
            && known.learned.watches.lay_out(known.board.literals.len(), 0)
            && self.work.set.lay_out(stems as usize)
            && self.work.inner.lay_out(stems as usize)
            && self.watches.lay_out(known)
            && self.order.lay_out(stems)
    }

    /// Whether something had no room.
    pub fn is_lost(&self) -> bool {
        self.work.set.is_lost
            || self.work.inner.is_lost
            || self.known.learned.is_lost
            || self.known.lines.is_lost
            || self.watches.is_lost
    }

    /// Seeks the first solution in the stems' order, with so many conflicts at most.
    pub fn begin<P: Puzzle>(&mut self, puzzle: &P, most: u64) -> End {
        if let Some(stem) = self.set_single() {
            return End::Refuted(Reason::Earlier(self.known.lines.close(&[], stem)));
        }
        let mut conflict = self.watches.put_supports(&mut self.known);
        if conflict.is_none() {
            conflict = self.watches.put_wides(puzzle, &mut self.known);
        }
        match self.quiet(puzzle, conflict, most) {
            Some(end) => end,
            None => self.by_reach(puzzle, most),
        }
    }

    // Gives the stems with one candidate their value, up to a stem that has none.
    fn set_single(&mut self) -> Option<u32> {
        for stem in 0..counted(self.known.board.stems.len()) {
            let Stem { first, end, .. } = self.known.board.stem(stem);
            if first == end {
                return Some(stem);
            }
            if first.saturating_add(1) == end {
                self.known.board.set(stem, first, false);
            }
        }
        None
    }

    // Goes through all that follows, and learns from each conflict. None where no conflict is left.
    fn quiet<P: Puzzle>(&mut self, puzzle: &P, first: Option<Conflict>, most: u64) -> Option<End> {
        let mut next = first;
        for _ in 0..u64::MAX {
            if next.is_none() {
                next = self.watches.spread(puzzle, &mut self.known);
            }
            if self.is_lost() {
                return Some(End::Lost);
            }
            let Some(conflict) = next else {
                return None;
            };
            // A conflict without a decision is the last one: the puzzle has no solution.
            if self.conflicts >= most && self.known.board.level > 0 {
                return Some(End::Tired);
            }
            self.conflicts = self.conflicts.saturating_add(1);
            let reason = analyse(&mut self.known, &mut self.work, conflict);
            if self.work.set.members.is_empty() {
                return Some(End::Refuted(reason));
            }
            next = self.learn(reason);
        }
        None
    }

    // Learns the set that was resolved, goes back to where all but one of it are true, and removes that one.
    fn learn(&mut self, reason: Reason) -> Option<Conflict> {
        self.order.raise_all(&self.work.set.met);
        let known = &mut self.known;
        let set = known
            .learned
            .add(&known.board, &self.work.set.members, reason);
        let literal = known.learned.watchable(set, 0);
        let second = known.learned.watchable(set, 1);
        let mut level = 0;
        if second != NONE {
            level = known.board.stem_of(second).level;
        }
        if level >= known.board.level || literal == NONE {
            self.work.set.is_lost = true;
            return None;
        }
        known.board.undo(level, &mut self.order);
        known.learned.watch(set);
        let why = Why::Learned(set);
        if known.board.remove(literal, why) {
            return None;
        }
        Some(Conflict { literal, why })
    }

    /// Takes back all decisions beyond this level.
    pub fn undo(&mut self, level: u32) {
        self.known.board.undo(level, &mut self.order);
    }

    // Seeks a solution by deciding on the first candidate that is left of the first stem without a value.
    fn by_reach<P: Puzzle>(&mut self, puzzle: &P, most: u64) -> End {
        let stems = puzzle.stems();
        for _ in 0..u64::MAX {
            if let Some(end) = self.quiet(puzzle, None, most) {
                return end;
            }
            let Some(stem) = self.known.board.first_open(stems) else {
                return End::Full;
            };
            let literal = self.known.board.first_left(stem);
            self.known.board.decide(literal);
        }
        End::Tired
    }

    /// Seeks a solution that keeps the first decisions, by deciding on the most active stem.
    pub fn by_activity<P: Puzzle>(&mut self, puzzle: &P, base: u32, most: u64) -> End {
        let mut turn = 1_u64;
        let mut next = self.conflicts.saturating_add(PERIOD);
        for _ in 0..u64::MAX {
            if let Some(end) = self.quiet(puzzle, None, most) {
                return end;
            }
            if self.known.board.level < base {
                return End::Fallen;
            }
            if self.conflicts >= next {
                turn = turn.saturating_add(1);
                let step = PERIOD.saturating_mul(turn & turn.wrapping_neg());
                next = self.conflicts.saturating_add(step);
                self.undo(base);
            }
            if !self.decide_active() {
                return End::Full;
            }
        }
        End::Tired
    }

    // Decides on the value that the most active stem without one had last, or on its first candidate left; false where all have one.
    fn decide_active(&mut self) -> bool {
        let board = &mut self.known.board;
        for _ in 0..u64::MAX {
            let Some(stem) = self.order.pop() else {
                return false;
            };
            let Stem { value, phase, .. } = board.stem(stem);
            if value != NONE {
                continue;
            }
            let literal = if phase != NONE && board.is_left(phase) {
                phase
            } else {
                board.first_left(stem)
            };
            board.decide(literal);
            return true;
        }
        false
    }

    /// Decides on this choice for the first stems, and on nothing else; false where that can't stand.
    pub fn stand<P: Puzzle>(&mut self, puzzle: &P, front: &[u32], most: u64) -> bool {
        let count = counted(front.len());
        for _ in 0..u64::MAX {
            self.undo_beyond(count);
            if self.quiet(puzzle, None, most).is_some() {
                return false;
            }
            let stem = self.known.board.standing.min(count);
            let Some(candidate) = front.get(stem as usize).copied() else {
                return true;
            };
            if !self.stand_at(Pair { stem, candidate }) {
                return false;
            }
        }
        true
    }

    // Decides on a pair of the choice, or sees that it stands, or that what stands has to go; false where that can't be.
    fn stand_at(&mut self, pair: Pair) -> bool {
        let board = &mut self.known.board;
        let literal = board.number(pair);
        let value = board.value(pair.stem);
        if value == literal {
            board.standing = pair.stem.saturating_add(1);
        } else if value == NONE && board.is_left(literal) {
            board.decide(literal);
        } else if board.level > 0 {
            self.undo(0);
        } else {
            return false;
        }
        true
    }

    // Takes back the decisions on stems from this one on.
    fn undo_beyond(&mut self, stem: u32) {
        for _ in 0..self.known.board.level {
            if self.known.board.last_decision() < stem {
                break;
            }
            let level = self.known.board.level.saturating_sub(1);
            self.undo(level);
        }
    }
}
