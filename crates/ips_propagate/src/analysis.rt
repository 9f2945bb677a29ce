//! Why literals went, and what follows from that: one resolution is one line.

use crate::board::{Board, Conflict, Stem, Why};
use crate::gathered::Gathered;
use crate::learned::Learned;
use crate::lines::Lines;
use crate::numbers::{NONE, pushed};
use crate::tables::Tables;
use ips_refute::Reason;

/// What is known of a puzzle: which literals are left, its tests, what was learned, and the lines that show it.
#[derive(Drop)]
pub struct Known {
    pub board: Board,
    pub tables: Tables,
    pub learned: Learned,
    pub lines: Lines,
}

/// The set that is resolved, and room for the sets of lines that it rests on. Once the set is lost, what is said here is void.
#[derive(Drop)]
pub struct Work {
    pub set: Gathered,
    pub inner: Gathered,
    pub stack: Vec<u32>,
}

// Adds a literal of a value.
fn add(board: &Board, set: &mut Gathered, literal: u32) {
    set.add(literal, board.literal(literal).stem);
}

// Adds all of these literals but one.
fn add_others(board: &Board, set: &mut Gathered, members: &[u32], literal: u32) {
    for member in members {
        if *member != literal {
            add(board, set, *member);
        }
    }
}

// Adds the values of all of these stems but one.
fn add_values(board: &Board, set: &mut Gathered, stems: &[u32], stem: u32) {
    for other in stems {
        if *other != stem {
            add(board, set, board.value(*other));
        }
    }
}

// Adds the values on which it rests that a literal went, which is the reason.
fn explain(known: &Known, set: &mut Gathered, literal: u32) -> Reason {
    let board = &known.board;
    let tables = &known.tables;
    let gone = board.literal(literal);
    match gone.why {
        Why::Test(place) => {
            let bad = tables.bad(place);
            let own = tables.narrow(bad.test).own;
            add(board, set, if own == literal { bad.literal } else { own });
            Reason::Test(bad.number)
        }
        Why::Support(test) => {
            let value = board.value(tables.narrow(test).other);
            add(board, set, value);
            Reason::Test(tables.bad(tables.bad_place(test, value)).number)
        }
        Why::Wide(wide) => {
            add_values(board, set, tables.stems(wide), gone.stem);
            Reason::Test(tables.wide(wide).number)
        }
        Why::Learned(learned) => {
            add_others(board, set, known.learned.members(learned), literal);
            known.learned.set(learned).reason
        }
        Why::Line(line) => {
            add_others(board, set, known.lines.members(line), literal);
            Reason::Earlier(line)
        }
        Why::Left | Why::Decided => {
            set.is_lost = true;
            Reason::Test(NONE)
        }
    }
}

// The test for want of whose good literals this one went, where no value of the other stem tells it.
fn unsupported(known: &Known, literal: u32) -> Option<u32> {
    let gone = known.board.literal(literal);
    let Why::Support(test) = gone.why else {
        return None;
    };
    let other = known.board.stem(known.tables.narrow(test).other);
    if other.value != NONE && other.valued_at <= gone.removed_at {
        return None;
    }
    Some(test)
}

// A good literal of the test by which this one went, whose own line is to be made first.
fn unsupported_below(known: &Known, test: u32) -> Option<u32> {
    let Stem { first, end, .. } = known.board.stem(known.tables.narrow(test).other);
    for good in first..end {
        if unsupported(known, good).is_some() && known.tables.bad_place(test, good) == NONE {
            return Some(good);
        }
    }
    None
}

// Makes a line of it that no good literal of the test is left.
fn support_line(known: &mut Known, inner: &mut Gathered, literal: u32, test: u32) {
    inner.clear();
    add(&known.board, inner, literal);
    let other = known.tables.narrow(test).other;
    let Stem { first, end, .. } = known.board.stem(other);
    for good in first..end {
        let place = known.tables.bad_place(test, good);
        let reason = if place == NONE {
            explain(known, inner, good)
        } else {
            Reason::Test(known.tables.bad(place).number)
        };
        known.lines.add_reason(reason);
    }
    let line = known.lines.close(&inner.members, other);
    known.board.explain(literal, Why::Line(line));
}

// Makes the lines on which it rests that a literal went.
fn settle(known: &mut Known, work: &mut Work, literal: u32) {
    work.stack.clear();
    let mut fits = pushed(&mut work.stack, literal);
    for _ in 0..u64::MAX {
        let Some(top) = work.stack.last().copied() else {
            break;
        };
        if let Some(test) = unsupported(known, top) {
            if let Some(below) = unsupported_below(known, test) {
                fits = pushed(&mut work.stack, below);
                if fits {
                    continue;
                }
                break;
            }
            support_line(known, &mut work.inner, top, test);
        }
        work.stack.pop();
    }
    work.set.is_lost |= !fits;
}

// The set with the reasons why the stem's literals went, in place of the one with that reason, if there is one.
fn resolve(
    known: &mut Known,
    work: &mut Work,
    stem: u32,
    resolved: u32,
    reason: Option<Reason>,
) -> Reason {
    let Stem { first, end, .. } = known.board.stem(stem);
    for literal in first..end {
        settle(known, work, literal);
    }
    work.set.remove(resolved, stem);
    for literal in first..end {
        let why = match reason {
            Some(reason) if literal == resolved => reason,
            _ => explain(known, &mut work.set, literal),
        };
        known.lines.add_reason(why);
    }
    Reason::Earlier(known.lines.close(&work.set.members, stem))
}

// The value that was forced last among those of the last level; none where at most one is of it, beyond the first level.
fn last_forced(board: &Board, set: &Gathered) -> Option<u32> {
    let mut count = 0_u32;
    let mut best = None;
    let mut best_at = 0;
    for literal in &set.members {
        let stem = board.stem_of(*literal);
        if stem.level != board.level {
            continue;
        }
        count = count.saturating_add(1);
        if !stem.decided && stem.valued_at >= best_at {
            best = Some(*literal);
            best_at = stem.valued_at;
        }
    }
    if set.is_lost || (board.level > 0 && count <= 1) {
        None
    } else {
        best
    }
}

// The value that was forced last among those of this stem and later ones, but for one literal. The set is lost where one of them
// was decided on.
fn last_ahead(board: &Board, set: &mut Gathered, from: u32, but: u32) -> Option<u32> {
    let mut best = None;
    let mut best_at = 0;
    for literal in &set.members {
        let number = board.literal(*literal).stem;
        if *literal == but || number < from {
            continue;
        }
        let stem = board.stem(number);
        set.is_lost |= stem.decided;
        if stem.valued_at >= best_at {
            best = Some(*literal);
            best_at = stem.valued_at;
        }
    }
    if set.is_lost { None } else { best }
}

/// The set of values that a conflict gives, with at most one of the last level, and why no solution has it.
pub fn analyse(known: &mut Known, work: &mut Work, conflict: Conflict) -> Reason {
    let Conflict { literal, why } = conflict;
    let stem = known.board.literal(literal).stem;
    known.board.explain(literal, why);
    work.set.clear();
    let mut reason = if known.board.stem(stem).decided {
        settle(known, work, literal);
        let reason = explain(known, &mut work.set, literal);
        work.set.add(literal, stem);
        reason
    } else {
        resolve(known, work, stem, literal, None)
    };
    known.board.explain(literal, Why::Left);
    for _ in 0..u64::MAX {
        let Some(forced) = last_forced(&known.board, &work.set) else {
            break;
        };
        let at = known.board.literal(forced).stem;
        reason = resolve(known, work, at, forced, Some(reason));
    }
    reason
}

/// The set of a literal that went and of values of stems before its own, and why no solution has it.
pub fn down_to_front(known: &mut Known, work: &mut Work, literal: u32) -> Reason {
    let stem = known.board.literal(literal).stem;
    settle(known, work, literal);
    work.set.clear();
    let mut reason = explain(known, &mut work.set, literal);
    work.set.add(literal, stem);
    for _ in 0..u64::MAX {
        let Some(forced) = last_ahead(&known.board, &mut work.set, stem, literal) else {
            break;
        };
        let at = known.board.literal(forced).stem;
        reason = resolve(known, work, at, forced, Some(reason));
    }
    reason
}
