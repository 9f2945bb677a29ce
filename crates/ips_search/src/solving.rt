//! The searches.

ghost use Rattle.std.specs.Prelude.{◌≡◌, ℕ, ◌<◌, IfOk};
ghost use Rattle.ips_refute.specs.Meaning.{Meaning};
ghost use Rattle.ips_refute.specs.Refuting.{IsTidyRefutation};
ghost use Rattle.ips_search.specs.Searching.{IsSearching, IsCounted, IsGuide};
ghost use Rattle.ips_search.specs.Answer.{IsAnswer};

use crate::advice::{Advice, Adviser};
use crate::ahead::Ahead;
use crate::chains::{Chains, index_tests};
use crate::pruning::prune;
use crate::state::{Found, Guide, Level, State};
use crate::steps::{advance, proceed};
use ips_refute::{Pair, Puzzle, Refutation};
use std::alloc::{AllocError, Global};

// How many candidates a search tries before an engine looks ahead of it.
const SMALL: u32 = 64;

// How many beginnings of the limit stand for a conflict of the engine.
const PER_CONFLICT: u64 = 8;

// Who says nothing.
#[derive(Drop)]
struct Silent;

impl Adviser for Silent {
    fn advise(
        &mut self,
        alloc: Global,
        _choice: &[u32],
        _more: Pair,
        _known: usize,
    ) -> Result<Advice, AllocError> {
        Ok(Advice {
            lines: Vec::new(alloc),
            failure: None,
        })
    }
}

fn start<P: Puzzle>(alloc: Global, _puzzle: &P) -> State
    ensures searching { IsSearching (P.meaning _puzzle.now) result }
    ensures counted { IsCounted (P.meaning _puzzle.now) result 0 }
{
    State {
        choice: Vec::new(alloc),
        pairs: Vec::new(alloc),
        levels: Vec::new(alloc),
        top: Level {
            set: Vec::new(alloc),
            reasons: Vec::new(alloc),
        },
        nogoods: Vec::new(alloc),
    }
}

fn into_choice(state: State) -> Vec<u32>
    ensures { result ≡ state.choice }
{
    let State {
        choice,
        pairs: _,
        levels: _,
        top: _,
        nogoods: _,
    } = state;
    choice
}

fn into_refutation(alloc: Global, state: State) -> Result<Refutation, AllocError>
    ensures { IfOk result (λ r. (m : Meaning) → IsTidyRefutation m state.nogoods.items → IsTidyRefutation m r.nogoods.items) }
{
    let State {
        choice: _,
        pairs: _,
        levels: _,
        top: _,
        nogoods,
    } = state;
    let nogoods = prune(alloc, nogoods)?;
    Ok(Refutation { nogoods })
}

/// The best choice for the puzzle, or a refutation of it: a search that learns.
///
/// A beginning is a choice for the first k stems, k at least 1, that breaks no test whose stems are all decided; the search counts
/// the beginnings that it reaches. `Chosen` is the first choice for all stems in lexicographic order of candidate numbers that
/// breaks no test; it comes only under a limit of at least as many as there are stems. `Refuted` comes only where there is none,
/// with a refutation that `check` accepts. `Spent` comes only where the beginnings that stand no later than the best choice's own,
/// or all of them where there is none, are more than the limit.
pub fn solve<P: Puzzle>(alloc: Global, puzzle: &P, limit: u64) -> Result<Found, AllocError>
    ensures { IfOk result (λ found. IsAnswer (P.meaning puzzle.now) limit found) }
{
    let mut ahead = Ahead::new(puzzle, SMALL, limit / PER_CONFLICT);
    solve_advised(alloc, puzzle, &mut ahead, limit)
}

/// The same with an adviser, of whom nothing is asked.
pub fn solve_advised<P: Puzzle, A: Adviser>(
    alloc: Global,
    puzzle: &P,
    adviser: &mut A,
    limit: u64,
) -> Result<Found, AllocError>
    ensures { IfOk result (λ found. IsAnswer (P.meaning puzzle.now) limit found) }
{
    let guide = Guide {
        learns: true,
        tests: index_tests(alloc, puzzle)?,
    };
    let learned = Chains::new(alloc, puzzle.stems())?;
    search(alloc, puzzle, adviser, &guide, learned, limit)
}

/// The same by plain backtracking: all candidates are tried in order, and a stem without a candidate left leads back to the stem
/// before it. Where this is `Spent`, `solve` may have found an answer.
pub fn backtrack<P: Puzzle>(alloc: Global, puzzle: &P, limit: u64) -> Result<Found, AllocError>
    ensures { IfOk result (λ found. IsAnswer (P.meaning puzzle.now) limit found) }
{
    let guide = Guide {
        learns: false,
        tests: Chains::new(alloc, 0)?,
    };
    let learned = Chains::new(alloc, 0)?;
    search(alloc, puzzle, &mut Silent, &guide, learned, limit)
}

fn search<P: Puzzle, A: Adviser>(
    alloc: Global,
    puzzle: &P,
    adviser: &mut A,
    guide: &Guide,
    mut learned: Chains,
    limit: u64,
) -> Result<Found, AllocError>
    requires { IsGuide (P.meaning puzzle.now) guide.now }
    ensures { IfOk result (λ found. IsAnswer (P.meaning puzzle.now) limit found) }
{
    let mut state = start(alloc, puzzle);
    let stems = puzzle.stems() as usize;
    for reached in 0..limit {
        if state.choice.len() == stems {
            return Ok(Found::Chosen(into_choice(state)));
        }
        let found = proceed(alloc, puzzle, adviser, guide, &mut learned, &mut state)?;
        if !found {
            let refutation = into_refutation(alloc, state)?;
            return Ok(Found::Refuted(refutation));
        }
        advance(alloc, puzzle, guide, &mut state)?;
    }
    if state.choice.len() == stems {
        return Ok(Found::Chosen(into_choice(state)));
    }
    let found = proceed(alloc, puzzle, adviser, guide, &mut learned, &mut state)?;
    if !found {
        let refutation = into_refutation(alloc, state)?;
        return Ok(Found::Refuted(refutation));
    }
    Ok(Found::Spent)
}
