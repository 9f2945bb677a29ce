//! Learned sets: literals that no solution has together, two of each watched.

use crate::board::Board;
use crate::numbers::{Chains, NONE, at, between, counted, pushed, swap};
use ips_refute::Reason;
use std::alloc::Global;

/// A learned set: where its literals stand, up to where they may be watched, and why no solution has it. Those that had got their
/// value by no decision stand behind the others, and aren't watched.
#[derive(Clone, Copy)]
pub struct LearnedSet {
    start: u32,
    watched: u32,
    end: u32,
    pub reason: Reason,
}

/// The learned sets.
#[derive(Drop)]
pub struct Learned {
    members: Vec<u32>,
    sets: Vec<LearnedSet>,
    /// The watches by literal: two of each set.
    pub watches: Chains,
    /// Whether something had no room.
    pub is_lost: bool,
}

impl Learned {
    /// No sets.
    pub fn new(alloc: Global) -> Learned {
        Learned {
            members: Vec::new(alloc),
            sets: Vec::new(alloc),
            watches: Chains::new(alloc),
            is_lost: false,
        }
    }

    /// Learns a set for a reason. The two literals of the greatest levels come first in it.
    pub fn add(&mut self, board: &Board, members: &[u32], reason: Reason) -> u32 {
        let number = counted(self.sets.len());
        let start = counted(self.members.len());
        self.add_members(board, members, false);
        let watched = counted(self.members.len());
        self.add_members(board, members, true);
        let set = LearnedSet {
            start,
            watched,
            end: counted(self.members.len()),
            reason,
        };
        let fits = self.sets.push(set).is_ok() && self.watches.grow() && self.watches.grow();
        self.is_lost |= !fits;
        self.bring_forward(board, start, watched);
        self.bring_forward(board, start.saturating_add(1), watched);
        number
    }

    fn add_members(&mut self, board: &Board, members: &[u32], lowest: bool) {
        for literal in members {
            if (board.stem_of(*literal).level == 0) == lowest {
                self.is_lost |= !pushed(&mut self.members, *literal);
            }
        }
    }

    // The literal of the greatest level between the places comes to the first of them.
    fn bring_forward(&mut self, board: &Board, start: u32, end: u32) {
        let mut best = start;
        for place in start..end {
            let here = board.stem_of(at(&self.members, place)).level;
            if here > board.stem_of(at(&self.members, best)).level {
                best = place;
            }
        }
        swap(&mut self.members, start, best);
    }

    /// The set of a number.
    pub fn set(&self, number: u32) -> LearnedSet {
        self.sets
            .get(number as usize)
            .copied()
            .unwrap_or(LearnedSet {
                start: NONE,
                watched: NONE,
                end: NONE,
                reason: Reason::Test(NONE),
            })
    }

    /// The literal of a set at a place among those that are watched or may be; `NONE` behind them.
    pub fn watchable(&self, set: u32, place: u32) -> u32 {
        let LearnedSet { start, watched, .. } = self.set(set);
        let here = start.saturating_add(place);
        if here < watched {
            at(&self.members, here)
        } else {
            NONE
        }
    }

    /// Watches the first two literals of a set, where it has two.
    pub fn watch(&mut self, set: u32) {
        let first = self.watchable(set, 0);
        let second = self.watchable(set, 1);
        if second != NONE {
            let watch = set.saturating_mul(2);
            self.watches.put(first, watch);
            self.watches.put(second, watch.saturating_add(1));
        }
    }

    /// All literals of a set.
    pub fn members(&self, set: u32) -> &[u32] {
        let LearnedSet { start, end, .. } = self.set(set);
        between(&self.members, start, end)
    }

    /// Puts back a watch of a literal that became true: at another literal of its set that isn't, if there is one, or where it was.
    /// Then the other watched literal is to go, with the set.
    pub fn watch_again(&mut self, board: &Board, watch: u32, literal: u32) -> Option<(u32, u32)> {
        let set = watch / 2;
        let side = watch % 2;
        let other = self.watchable(set, 1 - side);
        if !board.is_left(other) {
            self.watches.put(literal, watch);
            return None;
        }
        let LearnedSet { start, watched, .. } = self.set(set);
        for place in start.saturating_add(2)..watched {
            let next = at(&self.members, place);
            if board.stem_of(next).value != next {
                swap(&mut self.members, start.saturating_add(side), place);
                self.watches.put(next, watch);
                return None;
            }
        }
        self.watches.put(literal, watch);
        Some((other, set))
    }
}
