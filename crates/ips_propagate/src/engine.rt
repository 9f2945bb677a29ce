//! The engine: it seeks a solution, and says of each candidate that comes before the solution's why it fails.

use crate::analysis::down_to_front;
use crate::numbers::{NONE, at, counted, extended, filled};
use crate::searching::{End, Search};
use ips_refute::{Nogood, Pair, Puzzle, Reason};
use std::alloc::{AllocError, Global};

// How many conflicts the search in the stems' order may meet.
const PATIENCE: u64 = 200;

/// What the engine hands over: lines, the last one first, and why a candidate fails with which pairs of the choice.
#[derive(Drop)]
pub struct Found {
    pub lines: Vec<Nogood>,
    pub failure: Option<(Reason, Vec<Pair>)>,
}

// How far the engine is.
#[derive(Clone, Copy)]
enum Stage {
    // It didn't begin.
    New,
    // The values that stand are the first solution.
    First,
    // It knows a solution, and whether an earlier one exists is asked of each candidate.
    Any,
    // There is no solution.
    Refuted(Reason),
    // It says nothing more.
    Silent,
}

// What the choice asks of the engine.
#[derive(Clone, Copy)]
enum Question {
    // Nothing: the solution that is known has it.
    Answered,
    // Whether this literal, which comes before the solution's, fails.
    Fails(u32),
    // Nothing that it could say: something comes behind the solution's, which is none then.
    Beyond,
}

/// An engine over a puzzle, which it is lent at each call: always the same.
#[derive(Drop)]
pub struct Engine {
    search: Search,
    stage: Stage,
    // By stem, the literal of the solution that is known; so many stems of the choice agree with it.
    model: Vec<u32>,
    agreed: u32,
    // The literal of which was last said that it fails, and why.
    last: u32,
    reason: Reason,
    core: Vec<u32>,
    // How many conflicts may come, and at how many lines the others are, where all were kept.
    effort: u64,
    expected: usize,
}

impl Engine {
    /// An engine that may meet so many conflicts.
    pub fn new<P: Puzzle>(alloc: Global, puzzle: &P, effort: u64) -> Result<Engine, AllocError> {
        let mut engine = Engine {
            search: Search::new(alloc),
            stage: Stage::New,
            model: Vec::new(alloc),
            agreed: 0,
            last: NONE,
            reason: Reason::Test(0),
            core: Vec::new(alloc),
            effort,
            expected: 0,
        };
        let stems = puzzle.stems() as usize;
        if engine.search.lay_out(alloc, puzzle) && filled(&mut engine.model, stems, NONE) {
            Ok(engine)
        } else {
            Err(AllocError)
        }
    }

    /// What to know before a candidate is put to a choice, where so many lines are kept. Once it can't go on, as for want of
    /// memory, it says nothing more.
    pub fn look<P: Puzzle>(
        &mut self,
        alloc: Global,
        puzzle: &P,
        choice: &[u32],
        more: Pair,
        kept: usize,
    ) -> Found {
        let mut found = Found {
            lines: Vec::new(alloc),
            failure: None,
        };
        let goes_on = self.answer(alloc, puzzle, choice, more, kept, &mut found);
        if !goes_on || self.search.is_lost() {
            self.stage = Stage::Silent;
            found.lines.clear();
            found.failure = None;
        }
        found
    }

    /// Whether it says nothing more.
    pub fn is_silent(&self) -> bool {
        matches!(self.stage, Stage::Silent)
    }

    // Writes what to know; false where it can't go on.
    fn answer<P: Puzzle>(
        &mut self,
        alloc: Global,
        puzzle: &P,
        choice: &[u32],
        more: Pair,
        kept: usize,
        found: &mut Found,
    ) -> bool {
        if kept < self.expected {
            return false;
        }
        if let Stage::New = self.stage {
            self.begin(puzzle);
        }
        if let Stage::Refuted(reason) = self.stage {
            self.core.clear();
            return self.tell(alloc, reason, more, kept, found);
        }
        for _ in 0..u64::MAX {
            if self.is_silent() {
                break;
            }
            match self.question(choice, more) {
                Question::Answered => return true,
                Question::Beyond => break,
                Question::Fails(literal) => {
                    if self.is_failing(puzzle, choice, literal) {
                        let reason = self.reason;
                        return self.tell(alloc, reason, more, kept, found);
                    }
                }
            }
        }
        false
    }

    // Seeks a solution.
    fn begin<P: Puzzle>(&mut self, puzzle: &P) {
        let mut found = Stage::First;
        let mut end = self.search.begin(puzzle, self.effort.min(PATIENCE));
        if let End::Fallen | End::Tired = end {
            self.search.undo(0);
            found = Stage::Any;
            end = self.search.by_activity(puzzle, 0, self.effort);
        }
        self.stage = match end {
            End::Full => found,
            End::Refuted(reason) => Stage::Refuted(reason),
            End::Fallen | End::Tired | End::Lost => Stage::Silent,
        };
        if let End::Full = end {
            self.search.known.board.copy_values(&mut self.model);
        }
        if let Stage::Any = self.stage {
            self.search.undo(0);
        }
    }

    // The first literal of the choice and the candidate that comes before the solution's.
    fn question(&mut self, choice: &[u32], more: Pair) -> Question {
        let count = counted(choice.len());
        if count == NONE {
            return Question::Beyond;
        }
        self.agreed = self.agreed.min(count);
        for stem in self.agreed..count {
            let candidate = at(choice, stem);
            let asked = self.question_of(Pair { stem, candidate });
            if !matches!(asked, Question::Answered) {
                return asked;
            }
            self.agreed = stem.saturating_add(1);
        }
        self.question_of(more)
    }

    fn question_of(&self, pair: Pair) -> Question {
        let literal = self.search.known.board.number(pair);
        let known = at(&self.model, pair.stem);
        if literal == known {
            Question::Answered
        } else if literal < known {
            Question::Fails(literal)
        } else {
            Question::Beyond
        }
    }

    // Whether a literal before the solution's fails after the choice for the stems before it; else there is a new solution, or
    // nothing more to say.
    fn is_failing<P: Puzzle>(&mut self, puzzle: &P, choice: &[u32], literal: u32) -> bool {
        if literal == self.last && self.is_core_chosen(choice) {
            return true;
        }
        if let Stage::Any = self.stage
            && !self.is_ruled_out(puzzle, choice, literal)
        {
            return false;
        }
        let Search { known, work, .. } = &mut self.search;
        self.reason = down_to_front(known, work, literal);
        self.last = literal;
        self.core.clear();
        work.set.is_lost |= !extended(&mut self.core, &work.set.members);
        self.core.sort_unstable();
        true
    }

    // Whether the choice still has what the last failure rests on.
    fn is_core_chosen(&self, choice: &[u32]) -> bool {
        for literal in &self.core {
            let pair = self.search.known.board.pair(*literal);
            if *literal != self.last && at(choice, pair.stem) != pair.candidate {
                return false;
            }
        }
        true
    }

    // Whether no solution has the literal behind the choice for the stems before it; else there is a new solution, or nothing more
    // to say.
    fn is_ruled_out<P: Puzzle>(&mut self, puzzle: &P, choice: &[u32], literal: u32) -> bool {
        let stem = self.search.known.board.literal(literal).stem;
        let front = choice.get(..stem as usize).unwrap_or(choice);
        for _ in 0..u64::MAX {
            if !self.search.stand(puzzle, front, self.effort) {
                break;
            }
            let board = &mut self.search.known.board;
            if !board.is_left(literal) {
                return true;
            }
            if board.value(stem) != literal {
                board.decide(literal);
            }
            let base = board.level;
            match self.search.by_activity(puzzle, base, self.effort) {
                End::Full => {
                    self.search.known.board.copy_values(&mut self.model);
                    self.search.undo(base);
                    return false;
                }
                End::Fallen => {}
                End::Refuted(_) | End::Tired | End::Lost => break,
            }
        }
        self.stage = Stage::Silent;
        false
    }

    // Hands over the lines on which the failure of a candidate rests, and the failure; false where there is no room.
    fn tell(
        &mut self,
        alloc: Global,
        reason: Reason,
        more: Pair,
        kept: usize,
        found: &mut Found,
    ) -> bool {
        let known = &mut self.search.known;
        let start = counted(kept);
        let mut fits = start != NONE
            && known
                .lines
                .tell(alloc, &known.board, reason, start, &mut found.lines);
        let mut core = Vec::new(alloc);
        for literal in &self.core {
            let pair = known.board.pair(*literal);
            if pair != more {
                fits &= core.push(pair).is_ok();
            }
        }
        self.expected = kept.saturating_add(found.lines.len());
        found.failure = Some((known.lines.told(reason), core));
        fits
    }
}
