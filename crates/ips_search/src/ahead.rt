//! An adviser that propagates.

use crate::advice::{Advice, Adviser};
use crate::state::Failure;
use ips_propagate::{Engine, Found};
use ips_refute::{Pair, Puzzle};
use std::alloc::{AllocError, Global};

// An engine is made where each stem has at most so many candidates, since what it asks of each test grows with their square.
const MOST_CANDIDATES: u32 = 64;

/// Advice of an engine over the puzzle. It says nothing of the first candidates, since a small search is over sooner than an
/// engine stands; nothing where a stem has many candidates; and nothing more once the engine met too many conflicts, or wants
/// more memory than there is.
#[derive(Drop)]
pub struct Ahead<'a, P: Puzzle> {
    puzzle: &'a P,
    engine: Option<Engine>,
    silent_for: u32,
    effort: u64,
}

impl<P: Puzzle> Ahead<'_, P> {
    /// An adviser that is silent for so many candidates, and whose engine may then meet so many conflicts.
    pub fn new<'a>(puzzle: &'a P, silent_for: u32, effort: u64) -> Ahead<'a, P> {
        Ahead {
            puzzle,
            engine: None,
            silent_for,
            effort,
        }
    }

    // The engine, where it may speak by now.
    fn start(&mut self, alloc: Global) {
        if self.silent_for > 0 {
            self.silent_for -= 1;
            return;
        }
        if self.engine.is_some() || self.effort == 0 {
            return;
        }
        if has_many_candidates(self.puzzle) {
            self.effort = 0;
            return;
        }
        match Engine::new(alloc, self.puzzle, self.effort) {
            Ok(engine) => self.engine = Some(engine),
            Err(_) => self.effort = 0,
        }
    }
}

impl<P: Puzzle> Adviser for Ahead<'_, P> {
    fn advise(
        &mut self,
        alloc: Global,
        choice: &[u32],
        more: Pair,
        known: usize,
    ) -> Result<Advice, AllocError> {
        self.start(alloc);
        let Some(engine) = &mut self.engine else {
            return Ok(Advice {
                lines: Vec::new(alloc),
                failure: None,
            });
        };
        let Found { lines, failure } = engine.look(alloc, self.puzzle, choice, more, known);
        if engine.is_silent() {
            self.engine = None;
            self.effort = 0;
        }
        Ok(Advice {
            lines,
            failure: failure.map(|(reason, core)| Failure { reason, core }),
        })
    }
}

// Whether a stem of the puzzle has too many candidates for an engine.
fn has_many_candidates<P: Puzzle>(puzzle: &P) -> bool {
    for stem in 0..puzzle.stems() {
        if puzzle.candidates(stem) > MOST_CANDIDATES {
            return true;
        }
    }
    false
}
