//! The steps of a search.

ghost use Rattle.std.specs.Prelude.{◌≡◌, ℕ, ◌<◌, ◌^◌, ◌∷◌, ◌++◌, [], length, IfOk, OnOk, true};
ghost use Rattle.ips_refute.specs.Meaning.{Ascends, IsBeginning, IsSubset};
ghost use Rattle.ips_search.specs.Searching.{IsSearching, IsGuide, IsCore, IsJudged, Rejected, Settled, Retreated, Restored, Moved, Advanced, place, next_pair, top_nogood};
ghost use Rattle.ips_search.specs.Indexing.{IsIndexed};

use crate::advice::{Adviser, consult, is_failure};
use crate::chains::Chains;
use crate::cores::{core, failing, failing_plainly, kept, kept_core};
use crate::sets::union;
use crate::state::{Failure, Guide, Level, State};
use ips_refute::{Nogood, Pair, Puzzle, Reason};
use std::alloc::{AllocError, Global};
use std::mem;

// The candidate that comes next fails.
fn reject<P: Puzzle>(
    alloc: Global,
    _puzzle: &P,
    state: &mut State,
    core: &[Pair],
    reason: Reason,
) -> Result<(), AllocError>
    requires searching { IsSearching (P.meaning _puzzle.now) state.old }
    requires room { length state.old.choice.items < (P.meaning _puzzle.now).stems }
    requires offered { length state.old.top.reasons.items < (P.meaning _puzzle.now).candidates (length state.old.choice.items) }
    requires core { IsCore (P.meaning _puzzle.now) state.old.nogoods.items state.old.pairs.items (next_pair state.old) reason core.now }
    ensures { OnOk result (Rejected (P.meaning _puzzle.now) state.old state.new) }
{
    let set = union(alloc, &state.top.set, core)?;
    state.top.set = set;
    state.top.reasons.push(reason)?;
    Ok(())
}

// Whether the candidate that comes next fails.
fn judge<P: Puzzle>(
    alloc: Global,
    puzzle: &P,
    guide: &Guide,
    learned: &Chains,
    state: &State,
    more: Pair,
) -> Result<Option<Failure>, AllocError>
    requires guide { IsGuide (P.meaning puzzle.now) guide.now }
    requires searching { IsSearching (P.meaning puzzle.now) state.now }
    requires next { more ≡ next_pair state.now }
    requires room { more.stem < (P.meaning puzzle.now).stems }
    requires offered { more.candidate < (P.meaning puzzle.now).candidates more.stem }
    ensures { IfOk result (λ judged. IsJudged (P.meaning puzzle.now) state.now judged) }
{
    if !guide.learns {
        return judge_plainly(alloc, puzzle, state, more);
    }
    let chosen = state.pairs.as_slice();
    let nogoods = state.nogoods.as_slice();
    if let Some(number) = kept(learned, nogoods, chosen, more) {
        let core = kept_core(alloc, nogoods, number)?;
        let reason = Reason::Earlier(number);
        return Ok(Some(Failure { reason, core }));
    }
    judge_by_tests(alloc, puzzle, &guide.tests, state, more)
}

// The same, where an adviser says why it may fail.
fn judge_advised<P: Puzzle>(
    alloc: Global,
    puzzle: &P,
    guide: &Guide,
    learned: &Chains,
    state: &State,
    more: Pair,
    proposed: Option<Failure>,
) -> Result<Option<Failure>, AllocError>
    requires guide { IsGuide (P.meaning puzzle.now) guide.now }
    requires searching { IsSearching (P.meaning puzzle.now) state.now }
    requires next { more ≡ next_pair state.now }
    requires room { more.stem < (P.meaning puzzle.now).stems }
    requires offered { more.candidate < (P.meaning puzzle.now).candidates more.stem }
    ensures { IfOk result (λ judged. IsJudged (P.meaning puzzle.now) state.now judged) }
{
    if let Some(failure) = proposed {
        if is_failure(puzzle, state, more, &failure) {
            return Ok(Some(failure));
        }
    }
    judge(alloc, puzzle, guide, learned, state, more)
}

// Whether a test that ends at the stem of the new pair is broken, and on which pairs that rests.
fn judge_by_tests<P: Puzzle>(
    alloc: Global,
    puzzle: &P,
    tests: &Chains,
    state: &State,
    more: Pair,
) -> Result<Option<Failure>, AllocError>
    requires indexed { IsIndexed (P.meaning puzzle.now) tests.now }
    requires searching { IsSearching (P.meaning puzzle.now) state.now }
    requires next { more ≡ next_pair state.now }
    requires room { more.stem < (P.meaning puzzle.now).stems }
    requires offered { more.candidate < (P.meaning puzzle.now).candidates more.stem }
    ensures { IfOk result (λ judged. IsJudged (P.meaning puzzle.now) state.now judged) }
{
    let chosen = state.pairs.as_slice();
    let choice = state.choice.as_slice();
    match failing(puzzle, tests, choice, chosen, more) {
        None => Ok(None),
        Some(test) => {
            let core = core(alloc, puzzle, chosen, more, test)?;
            let reason = Reason::Test(test);
            Ok(Some(Failure { reason, core }))
        }
    }
}

// The same without learning: the failure rests on the whole choice.
fn judge_plainly<P: Puzzle>(
    alloc: Global,
    puzzle: &P,
    state: &State,
    more: Pair,
) -> Result<Option<Failure>, AllocError>
    requires searching { IsSearching (P.meaning puzzle.now) state.now }
    requires next { more ≡ next_pair state.now }
    requires room { more.stem < (P.meaning puzzle.now).stems }
    requires offered { more.candidate < (P.meaning puzzle.now).candidates more.stem }
    ensures { IfOk result (λ judged. IsJudged (P.meaning puzzle.now) state.now judged) }
{
    let chosen = state.pairs.as_slice();
    let choice = state.choice.as_slice();
    match failing_plainly(puzzle, choice, chosen, more) {
        None => Ok(None),
        Some(test) => {
            let core = Vec::from_slice(alloc, chosen)?;
            let reason = Reason::Test(test);
            Ok(Some(Failure { reason, core }))
        }
    }
}

// Tries the candidates of the stem that come next, up to one that breaks no test.
fn settle<P: Puzzle, A: Adviser>(
    alloc: Global,
    puzzle: &P,
    adviser: &mut A,
    guide: &Guide,
    learned: &mut Chains,
    state: &mut State,
) -> Result<bool, AllocError>
    requires guide { IsGuide (P.meaning puzzle.now) guide.now }
    requires searching { IsSearching (P.meaning puzzle.now) state.old }
    requires room { length state.old.choice.items < (P.meaning puzzle.now).stems }
    ensures { IfOk result (λ found. Settled (P.meaning puzzle.now) state.old state.new found) }
{
    let _stems = puzzle.stems();
    let stem = state.choice.len() as u32;
    let count = puzzle.candidates(stem);
    let first = state.top.reasons.len() as u32;
    for candidate in first..count {
        let more = Pair { stem, candidate };
        let proposed = consult(alloc, puzzle, adviser, learned, state, more)?;
        let judged = judge_advised(alloc, puzzle, guide, learned, state, more, proposed)?;
        match judged {
            None => return Ok(true),
            Some(Failure { reason, core }) => reject(alloc, puzzle, state, &core, reason)?,
        }
    }
    Ok(false)
}

// On which pairs the failure of a stem rests before any candidate was tried: on none, or without learning on the whole choice.
fn first_set(alloc: Global, guide: &Guide, pairs: &[Pair]) -> Result<Vec<Pair>, AllocError>
    ensures { IfOk result (λ set. IsSubset set.items pairs.now × (Ascends pairs.now → Ascends set.items)) }
{
    if guide.learns {
        return Ok(Vec::new(alloc));
    }
    let set = Vec::from_slice(alloc, pairs)?;
    Ok(set)
}

// Takes the candidate that comes next.
pub fn advance<P: Puzzle>(
    alloc: Global,
    puzzle: &P,
    guide: &Guide,
    state: &mut State,
) -> Result<(), AllocError>
    requires searching { IsSearching (P.meaning puzzle.now) state.old }
    requires room { length state.old.choice.items < (P.meaning puzzle.now).stems }
    requires begins { IsBeginning (P.meaning puzzle.now) (place state.old) }
    ensures { OnOk result (Advanced (P.meaning puzzle.now) state.old state.new) }
{
    let _stems = puzzle.stems();
    let stem = state.choice.len() as u32;
    let _count = puzzle.candidates(stem);
    let candidate = state.top.reasons.len() as u32;
    state.choice.push(candidate)?;
    state.pairs.push(Pair { stem, candidate })?;
    let set = first_set(alloc, guide, &state.pairs)?;
    let next = Level {
        set,
        reasons: Vec::new(alloc),
    };
    let level = mem::replace(&mut state.top, next);
    state.levels.push(level)?;
    Ok(())
}

// The stem at the top has no candidate left: its nogood is kept, and the search stands where it stood at an earlier stem.
fn restore(state: &mut State, stem: usize) -> Result<(), AllocError>
    requires stem { stem < length state.old.levels.items }
    requires few { length state.old.choice.items < 2 ^ 32 }
    ensures { OnOk result (Restored state.old state.new stem) }
{
    let top_stem = state.choice.len() as u32;
    state.choice.truncate(stem);
    state.pairs.truncate(stem);
    state.levels.truncate(stem + 1);
    let Some(level) = state.levels.pop() else {
        unreachable!()
    };
    let top = mem::replace(&mut state.top, level);
    let Level { set, reasons } = top;
    let nogood = Nogood {
        set,
        stem: top_stem,
        reasons,
    };
    state.nogoods.push(nogood)?;
    Ok(())
}

// The first stem that is in question has no candidate left.
fn finish(alloc: Global, state: &mut State) -> Result<(), AllocError>
    requires few { length state.old.choice.items < 2 ^ 32 }
    ensures { OnOk result (state.new.nogoods.items ≡ state.old.nogoods.items ++ top_nogood state.old ∷ []) }
{
    let stem = state.choice.len() as u32;
    let next = Level {
        set: Vec::new(alloc),
        reasons: Vec::new(alloc),
    };
    let top = mem::replace(&mut state.top, next);
    let Level { set, reasons } = top;
    state.nogoods.push(Nogood { set, stem, reasons })?;
    Ok(())
}

// Jumps back to the last stem on which the failure rests; at none, true: refuted.
fn retreat<P: Puzzle>(
    alloc: Global,
    puzzle: &P,
    learned: &mut Chains,
    state: &mut State,
) -> Result<bool, AllocError>
    requires searching { IsSearching (P.meaning puzzle.now) state.old }
    requires room { length state.old.choice.items < (P.meaning puzzle.now).stems }
    requires tried { length state.old.top.reasons.items ≡ (P.meaning puzzle.now).candidates (length state.old.choice.items) }
    ensures { IfOk result (λ done. Retreated (P.meaning puzzle.now) state.old state.new done) }
{
    let _stems = puzzle.stems();
    let number = state.nogoods.len();
    if number > u32::MAX as usize {
        return Err(AllocError);
    }
    let count = state.top.set.len();
    if count == 0 {
        finish(alloc, state)?;
        return Ok(true);
    }
    let stem = state.top.set[count - 1].stem;
    let rest = Vec::from_slice(alloc, &state.top.set[..count - 1])?;
    learned.note(stem)?;
    restore(state, stem as usize)?;
    reject(alloc, puzzle, state, &rest, Reason::Earlier(number as u32))?;
    Ok(false)
}

// Goes to the next beginning; at none, false: refuted.
pub fn proceed<P: Puzzle, A: Adviser>(
    alloc: Global,
    puzzle: &P,
    adviser: &mut A,
    guide: &Guide,
    learned: &mut Chains,
    state: &mut State,
) -> Result<bool, AllocError>
    requires guide { IsGuide (P.meaning puzzle.now) guide.now }
    requires searching { IsSearching (P.meaning puzzle.now) state.old }
    requires room { length state.old.choice.items < (P.meaning puzzle.now).stems }
    ensures { IfOk result (λ found. Moved (P.meaning puzzle.now) state.old state.new found) }
{
    'hunt: loop {
        let found = settle(alloc, puzzle, adviser, guide, learned, state)?;
        if found {
            return Ok(true);
        }
        let done = retreat(alloc, puzzle, learned, state)?;
        if done {
            return Ok(false);
        }
    }
}
