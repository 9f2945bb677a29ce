//! What an adviser may say to a search: nogoods that it found, and why the candidate that comes next fails. Nothing of it is
//! believed: a nogood is kept only where it is one, and the candidate is rejected only where the reason holds.

ghost use Rattle.std.specs.Prelude.{◌≡◌, ◌<◌, OnOk, IfOk, IsTrue};
ghost use Rattle.ips_search.specs.Searching.{IsSearching, IsCore, next_pair};
ghost use Rattle.ips_search.specs.Advising.{Learned};

use crate::chains::Chains;
use crate::cores::are_chosen;
use crate::state::{Failure, State};
use ips_refute::{Nogood, Pair, Puzzle, ascend, explains, is_nogood};
use std::alloc::{AllocError, Global};

/// Nogoods, the last one first, and why the candidate that comes next fails, if it does.
#[derive(Drop)]
pub struct Advice {
    pub lines: Vec<Nogood>,
    pub failure: Option<Failure>,
}

/// Who looks ahead of a search.
pub trait Adviser {
    /// What to know before the candidate `more` is put to the choice, where so many nogoods are kept.
    fn advise(
        &mut self,
        alloc: Global,
        choice: &[u32],
        more: Pair,
        known: usize,
    ) -> Result<Advice, AllocError>;
}

/// Keeps a nogood, where it is one and its set ascends.
pub fn learn<P: Puzzle>(
    puzzle: &P,
    learned: &mut Chains,
    state: &mut State,
    line: Nogood,
) -> Result<(), AllocError>
    requires searching { IsSearching (P.meaning puzzle.now) state.old }
    ensures { OnOk result (Learned (P.meaning puzzle.now) state.old state.new) }
{
    if !ascend(&line.set) {
        return Ok(());
    }
    if !is_nogood(puzzle, &state.nogoods, &line) {
        return Ok(());
    }
    let stem = line.set.last().map_or(0, |pair| pair.stem);
    learned.note(stem)?;
    state.nogoods.push(line)?;
    Ok(())
}

/// Asks the adviser, and keeps what it says.
pub fn consult<P: Puzzle, A: Adviser>(
    alloc: Global,
    puzzle: &P,
    adviser: &mut A,
    learned: &mut Chains,
    state: &mut State,
    more: Pair,
) -> Result<Option<Failure>, AllocError>
    requires searching { IsSearching (P.meaning puzzle.now) state.old }
    ensures { IfOk result (λ _. Learned (P.meaning puzzle.now) state.old state.new) }
{
    let known = state.nogoods.len();
    let advice = adviser.advise(alloc, &state.choice, more, known)?;
    let Advice { mut lines, failure } = advice;
    while let Some(line) = lines.pop() {
        learn(puzzle, learned, state, line)?;
    }
    Ok(failure)
}

/// Whether the candidate that comes next fails for this reason.
pub fn is_failure<P: Puzzle>(puzzle: &P, state: &State, more: Pair, failure: &Failure) -> bool
    requires searching { IsSearching (P.meaning puzzle.now) state.now }
    requires next { more ≡ next_pair state.now }
    requires room { more.stem < (P.meaning puzzle.now).stems }
    requires offered { more.candidate < (P.meaning puzzle.now).candidates more.stem }
    ensures { IsTrue result → IsCore (P.meaning puzzle.now) state.now.nogoods.items state.now.pairs.items (next_pair state.now) failure.now.reason failure.now.core.items }
{
    let chosen = state.pairs.as_slice();
    let nogoods = state.nogoods.as_slice();
    let core = failure.core.as_slice();
    if !are_chosen(core, chosen) {
        return false;
    }
    if !ascend(core) {
        return false;
    }
    explains(puzzle, nogoods, core, more, failure.reason)
}
