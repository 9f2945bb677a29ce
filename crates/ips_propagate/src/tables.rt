//! What the tests take, asked once.

use crate::board::{Board, Stem};
use crate::numbers::{Chains, MOST, NONE, at, between, counted, extended, pushed, swap};
use ips_refute::{Hint, Pair, Puzzle, is_broken};
use std::alloc::Global;

// So many hints of a test are asked for at most.
const MOST_HINTS: u32 = 1 << 16;

/// A test of two stems: its own literal, the other stem, and where its bad literals stand. Tests of the puzzle that stand in a row
/// and have both in common are one.
#[derive(Clone, Copy)]
pub struct Narrow {
    pub own: u32,
    pub other: u32,
    pub start: u32,
    pub end: u32,
}

/// A literal that breaks a test of two stems with the test's own one, and the test's number in the puzzle.
#[derive(Clone, Copy)]
pub struct Bad {
    pub literal: u32,
    pub test: u32,
    pub number: u32,
}

/// A wide test: its number in the puzzle, its own literal where it has one, and where its stems stand.
#[derive(Clone, Copy)]
pub struct Wide {
    pub number: u32,
    pub own: u32,
    pub start: u32,
    pub end: u32,
}

/// The tests. Those of two stems are broken by a literal of their own and the bad literals of the other stem; the others are wide.
#[derive(Drop)]
pub struct Tables {
    pub narrows: Vec<Narrow>,
    bads: Vec<Bad>,
    /// The tests of two stems by their own literal, and the places of the bad literals by literal.
    pub by_own: Chains,
    pub by_bad: Chains,
    pub wides: Vec<Wide>,
    // The stems of the wide tests, of each ascending, and the same with the two watched ones in front.
    wide_stems: Vec<u32>,
    watched_stems: Vec<u32>,
    // Whether something had no room.
    is_lost: bool,
}

impl Tables {
    /// Without tests.
    pub fn new(alloc: Global) -> Tables {
        Tables {
            narrows: Vec::new(alloc),
            bads: Vec::new(alloc),
            by_own: Chains::new(alloc),
            by_bad: Chains::new(alloc),
            wides: Vec::new(alloc),
            wide_stems: Vec::new(alloc),
            watched_stems: Vec::new(alloc),
            is_lost: false,
        }
    }

    /// Takes the tests of a puzzle; false where there is no room.
    pub fn lay_out<P: Puzzle>(&mut self, alloc: Global, puzzle: &P, board: &Board) -> bool {
        let literals = board.literals.len();
        self.is_lost = !(self.by_own.lay_out(literals, 0) && self.by_bad.lay_out(literals, 0));
        let mut stems = Vec::new(alloc);
        for test in 0..puzzle.tests() {
            if self.is_lost {
                break;
            }
            let first = self.gather_hints(puzzle, test, &mut stems);
            self.add(puzzle, board, test, first, &stems);
        }
        !self.is_lost
    }

    // The stems of a test, ascending, each once, and the pair that its first hint gives.
    fn gather_hints<P: Puzzle>(
        &mut self,
        puzzle: &P,
        test: u32,
        stems: &mut Vec<u32>,
    ) -> Option<Hint> {
        stems.clear();
        let first = puzzle.hint(test, 0);
        for place in 0..MOST_HINTS {
            let Some(hint) = puzzle.hint(test, place) else {
                break;
            };
            if hint.stem >= puzzle.stems() {
                stems.clear();
                return None;
            }
            self.is_lost |= !pushed(stems, hint.stem);
        }
        stems.sort_unstable();
        stems.dedup();
        first
    }

    fn add<P: Puzzle>(
        &mut self,
        puzzle: &P,
        board: &Board,
        test: u32,
        first: Option<Hint>,
        stems: &[u32],
    ) {
        let own = match first {
            Some(
                Hint {
                    stem,
                    candidate: Some(candidate),
                },
            ) => Pair { stem, candidate },
            _ => Pair {
                stem: NONE,
                candidate: 0,
            },
        };
        match stems {
            [] => {}
            [one, two] if own.stem == *one => self.add_narrow(puzzle, board, test, own, *two),
            [one, two] if own.stem == *two => self.add_narrow(puzzle, board, test, own, *one),
            _ => self.add_wide(test, board.number(own), stems),
        }
    }

    fn add_narrow<P: Puzzle>(
        &mut self,
        puzzle: &P,
        board: &Board,
        test: u32,
        own: Pair,
        other: u32,
    ) {
        let literal = board.number(own);
        let narrow = self.narrow_of(literal, other);
        let start = counted(self.bads.len());
        let Stem { first, end, .. } = board.stem(other);
        for bad in first..end {
            if is_broken(puzzle, test, &[own], board.pair(bad))
                && self.bad_place(narrow, bad) == NONE
            {
                self.add_bad(Bad {
                    literal: bad,
                    test: narrow,
                    number: test,
                });
            }
        }
        let narrow_end = counted(self.bads.len());
        let made = Narrow {
            own: literal,
            other,
            start,
            end: narrow_end,
        };
        self.end_narrow(narrow, made);
    }

    // The last test, where it has these in common, or the number of the next one.
    fn narrow_of(&self, literal: u32, other: u32) -> u32 {
        let next = counted(self.narrows.len());
        let last = next.wrapping_sub(1);
        let Narrow {
            own,
            other: same,
            ..
        } = self.narrow(last);
        if own == literal && same == other {
            last
        } else {
            next
        }
    }

    fn add_bad(&mut self, bad: Bad) {
        let place = counted(self.bads.len());
        let fits = place < MOST && self.bads.push(bad).is_ok() && self.by_bad.grow();
        self.is_lost |= !fits;
        self.by_bad.put(bad.literal, place);
    }

    // The test got its bad literals. One of which nothing is bad yet is none.
    fn end_narrow(&mut self, number: u32, narrow: Narrow) {
        if let Some(it) = self.narrows.get_mut(number as usize) {
            it.end = narrow.end;
        } else if narrow.start < narrow.end {
            self.is_lost |= !(self.narrows.push(narrow).is_ok() && self.by_own.grow());
            self.by_own.put(narrow.own, number);
        }
    }

    fn add_wide(&mut self, number: u32, own: u32, stems: &[u32]) {
        let start = counted(self.wide_stems.len());
        let fits = extended(&mut self.wide_stems, stems)
            && extended(&mut self.watched_stems, stems);
        let end = counted(self.wide_stems.len());
        let wide = Wide {
            number,
            own,
            start,
            end,
        };
        self.is_lost |= !(fits && self.wides.push(wide).is_ok());
    }

    /// The test of two stems of a number.
    pub fn narrow(&self, number: u32) -> Narrow {
        self.narrows
            .get(number as usize)
            .copied()
            .unwrap_or(Narrow {
                own: NONE,
                other: NONE,
                start: NONE,
                end: NONE,
            })
    }

    /// The bad literal at a place.
    pub fn bad(&self, place: u32) -> Bad {
        self.bads.get(place as usize).copied().unwrap_or(Bad {
            literal: NONE,
            test: NONE,
            number: NONE,
        })
    }

    /// The place of a literal among the bad ones of a test; `NONE` where the test takes it.
    pub fn bad_place(&self, test: u32, literal: u32) -> u32 {
        let Narrow { start, end, .. } = self.narrow(test);
        for place in start..end {
            if self.bad(place).literal == literal {
                return place;
            }
        }
        NONE
    }

    /// The wide test of a number.
    pub fn wide(&self, number: u32) -> Wide {
        self.wides.get(number as usize).copied().unwrap_or(Wide {
            number: NONE,
            own: NONE,
            start: NONE,
            end: NONE,
        })
    }

    /// The stems of a wide test, ascending.
    pub fn stems(&self, wide: u32) -> &[u32] {
        let Wide { start, end, .. } = self.wide(wide);
        between(&self.wide_stems, start, end)
    }

    /// The watched stem of a wide test, the first or the second.
    pub fn watched(&self, wide: u32, side: u32) -> u32 {
        let start = self.wide(wide).start;
        at(&self.watched_stems, start.saturating_add(side))
    }

    /// Watches another stem in place of this one, where one has no value yet: the stem that is watched now.
    pub fn watch_another(&mut self, board: &Board, wide: u32, side: u32) -> u32 {
        let Wide { start, end, .. } = self.wide(wide);
        let here = start.saturating_add(side);
        for place in start.saturating_add(2)..end {
            let stem = at(&self.watched_stems, place);
            if board.value(stem) == NONE {
                swap(&mut self.watched_stems, here, place);
                return stem;
            }
        }
        at(&self.watched_stems, here)
    }
}
