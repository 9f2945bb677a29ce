//! What follows at once from a value, or from a literal's removal.

use crate::analysis::Known;
use crate::board::{Board, Conflict, Stem, Why};
use crate::numbers::{Chains, NONE, counted};
use crate::tables::{Narrow, Tables};
use ips_refute::{Pair, Puzzle, is_broken};
use std::alloc::Global;

/// Which test is looked at where: tests of two stems at one good literal each, wide ones at two stems.
#[derive(Drop)]
pub struct Watches {
    supports: Chains,
    wides: Chains,
    pairs: Vec<Pair>,
    /// Whether something had no room.
    pub is_lost: bool,
}

// A literal of the test's other stem that is left and that it takes.
fn good_left(board: &Board, tables: &Tables, test: u32) -> u32 {
    let Stem { first, end, .. } = board.stem(tables.narrow(test).other);
    for literal in first..end {
        if board.is_left(literal) && tables.bad_place(test, literal) == NONE {
            return literal;
        }
    }
    NONE
}

// The bad literals of a test whose own literal became true go.
fn strike_bads(known: &mut Known, test: u32) -> Option<Conflict> {
    let Narrow { start, end, .. } = known.tables.narrow(test);
    for place in start..end {
        let literal = known.tables.bad(place).literal;
        let why = Why::Test(place);
        if !known.board.remove(literal, why) {
            return Some(Conflict { literal, why });
        }
    }
    None
}

// A literal became true that is tests' own.
fn spread_own(known: &mut Known, literal: u32) -> Option<Conflict> {
    let mut test = known.tables.by_own.first(literal);
    for _ in 0..u64::MAX {
        if test == NONE {
            break;
        }
        let conflict = strike_bads(known, test);
        if conflict.is_some() {
            return conflict;
        }
        test = known.tables.by_own.after(test);
    }
    None
}

// A literal became true that tests don't take.
fn spread_bad(known: &mut Known, literal: u32) -> Option<Conflict> {
    let mut place = known.tables.by_bad.first(literal);
    for _ in 0..u64::MAX {
        if place == NONE {
            break;
        }
        let why = Why::Test(place);
        let literal = known.tables.narrow(known.tables.bad(place).test).own;
        if !known.board.remove(literal, why) {
            return Some(Conflict { literal, why });
        }
        place = known.tables.by_bad.after(place);
    }
    None
}

// A literal became true that learned sets watch.
fn spread_learned(known: &mut Known, literal: u32) -> Option<Conflict> {
    let mut watch = known.learned.watches.take(literal);
    let mut conflict = None;
    for _ in 0..u64::MAX {
        if watch == NONE {
            break;
        }
        let next = known.learned.watches.after(watch);
        if let Some((literal, set)) = known.learned.watch_again(&known.board, watch, literal) {
            let why = Why::Learned(set);
            if conflict.is_none() && !known.board.remove(literal, why) {
                conflict = Some(Conflict { literal, why });
            }
        }
        watch = next;
    }
    conflict
}

impl Watches {
    /// No watches.
    pub fn new(alloc: Global) -> Watches {
        Watches {
            supports: Chains::new(alloc),
            wides: Chains::new(alloc),
            pairs: Vec::new(alloc),
            is_lost: false,
        }
    }

    /// Makes the watches of a puzzle's tests, which none of them was put to yet; false where there is no room.
    pub fn lay_out(&mut self, known: &Known) -> bool {
        let wides = known.tables.wides.len().saturating_mul(2);
        self.supports
            .lay_out(known.board.literals.len(), known.tables.narrows.len())
            && self.wides.lay_out(known.board.stems.len(), wides)
    }

    /// Puts each test of two stems to a good literal; its own goes where there is none.
    pub fn put_supports(&mut self, known: &mut Known) -> Option<Conflict> {
        for test in 0..counted(known.tables.narrows.len()) {
            let good = good_left(&known.board, &known.tables, test);
            self.supports.put(good, test);
            let literal = known.tables.narrow(test).own;
            let why = Why::Support(test);
            if good == NONE && !known.board.remove(literal, why) {
                return Some(Conflict { literal, why });
            }
        }
        None
    }

    /// Puts each wide test to two of its stems, and looks at each one.
    pub fn put_wides<P: Puzzle>(&mut self, puzzle: &P, known: &mut Known) -> Option<Conflict> {
        for wide in 0..counted(known.tables.wides.len()) {
            let first = known.tables.watched(wide, 0);
            if known.tables.stems(wide).len() > 1 {
                let second = known.tables.watched(wide, 1);
                let watch = wide.saturating_mul(2);
                self.wides.put(first, watch);
                self.wides.put(second, watch.saturating_add(1));
            } else {
                let conflict = self.press(puzzle, known, wide, first);
                if conflict.is_some() {
                    return conflict;
                }
            }
        }
        None
    }

    // A literal went that may be a support.
    fn spread_removed(&mut self, known: &mut Known, removed: u32) -> Option<Conflict> {
        let mut test = self.supports.take(removed);
        let mut conflict = None;
        for _ in 0..u64::MAX {
            if test == NONE {
                break;
            }
            let next = self.supports.after(test);
            let literal = known.tables.narrow(test).own;
            let mut good = removed;
            if known.board.is_left(literal) {
                good = good_left(&known.board, &known.tables, test);
            }
            let why = Why::Support(test);
            if good != NONE {
                self.supports.put(good, test);
            } else {
                self.supports.put(removed, test);
                if conflict.is_none() && !known.board.remove(literal, why) {
                    conflict = Some(Conflict { literal, why });
                }
            }
            test = next;
        }
        conflict
    }

    // A stem got a value that wide tests watch.
    fn spread_wide<P: Puzzle>(
        &mut self,
        puzzle: &P,
        known: &mut Known,
        stem: u32,
    ) -> Option<Conflict> {
        let mut watch = self.wides.take(stem);
        let mut conflict = None;
        for _ in 0..u64::MAX {
            if watch == NONE {
                break;
            }
            let next = self.wides.after(watch);
            let wide = watch / 2;
            let side = watch % 2;
            let place = known.tables.watch_another(&known.board, wide, side);
            self.wides.put(place, watch);
            if place == stem && conflict.is_none() {
                let open = known.tables.watched(wide, 1 - side);
                conflict = self.press(puzzle, known, wide, open);
            }
            watch = next;
        }
        conflict
    }

    // All stems of the wide test but one have a value: what of that one breaks it goes.
    fn press<P: Puzzle>(
        &mut self,
        puzzle: &P,
        known: &mut Known,
        wide: u32,
        open: u32,
    ) -> Option<Conflict> {
        let test = known.tables.wide(wide);
        if test.own != NONE && !known.board.is_left(test.own) {
            return None;
        }
        self.gather_pairs(known, wide, open);
        let why = Why::Wide(wide);
        let Stem { first, end, .. } = known.board.stem(open);
        for literal in first..end {
            if known.board.is_left(literal)
                && is_broken(puzzle, test.number, &self.pairs, known.board.pair(literal))
                && !known.board.remove(literal, why)
            {
                return Some(Conflict { literal, why });
            }
        }
        None
    }

    // The values of the wide test's stems but for one.
    fn gather_pairs(&mut self, known: &Known, wide: u32, open: u32) {
        self.pairs.clear();
        for stem in known.tables.stems(wide) {
            let value = known.board.value(*stem);
            if *stem != open && value != NONE {
                self.is_lost |= self.pairs.push(known.board.pair(value)).is_err();
            }
        }
    }

    /// Goes through all that became true or went; ends at a conflict.
    pub fn spread<P: Puzzle>(&mut self, puzzle: &P, known: &mut Known) -> Option<Conflict> {
        for _ in 0..u64::MAX {
            let conflict = if let Some(stem) = known.board.valued.follow() {
                self.spread_value(puzzle, known, stem)
            } else if let Some(literal) = known.board.removed.follow() {
                self.spread_removed(known, literal)
            } else {
                return None;
            };
            if conflict.is_some() {
                return conflict;
            }
        }
        None
    }

    // A stem got a value.
    fn spread_value<P: Puzzle>(
        &mut self,
        puzzle: &P,
        known: &mut Known,
        stem: u32,
    ) -> Option<Conflict> {
        let literal = known.board.value(stem);
        let mut conflict = spread_own(known, literal);
        if conflict.is_none() {
            conflict = spread_bad(known, literal);
        }
        if conflict.is_none() {
            conflict = spread_learned(known, literal);
        }
        if conflict.is_none() {
            conflict = self.spread_wide(puzzle, known, stem);
        }
        conflict
    }
}
