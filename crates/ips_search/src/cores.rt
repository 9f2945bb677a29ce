//! Why a candidate fails, and on which pairs of the choice that rests.

ghost use Rattle.std.specs.Prelude.{◌≡◌, ◌<◌, ◌≤◌, ◌≢◌, ◌-◌, ◌∷◌, ◌++◌, [], length, take, true, List, All, Contains, IfOk, IfSome, IsTrue, MatchOption, Some, slice_get};
ghost use Rattle.ips_refute.specs.Meaning.{Ascends, BreaksNone, IsBeginning, IsOffered, Meaning, OnePerStem, IsSubset, pairs};
ghost use Rattle.ips_refute.specs.declared.nogoods.Nogood as declared;
ghost use Rattle.ips_search.specs.Indexing.{IsIndexed};
ghost use Rattle.ips_search.specs.Searching.{EndsWith, HasKept, IsCore, IsKept};

use crate::chains::{Chains, entry};
use ips_refute::{Nogood, Pair, Puzzle, Reason};
use std::alloc::{AllocError, Global};

// How many kept nogoods are looked at for a candidate, so that a step of the search costs no more than that however many it keeps.
const MOST_LOOKED_AT: u32 = 256;

/// A kept nogood that the choice has with the new pair. It is sought among the last ones whose last pair is of the new pair's stem.
pub fn kept(learned: &Chains, nogoods: &[Nogood], chosen: &[Pair], more: Pair) -> Option<u32>
    ensures { IfSome result (λ n. HasKept nogoods.now chosen.now more n) }
{
    let mut next = entry(&learned.heads, more.stem);
    for _ in 0..MOST_LOOKED_AT {
        if next == 0 {
            return None;
        }
        let number = next - 1;
        if ends_choice(nogoods, number, chosen, more) {
            return Some(number);
        }
        next = entry(&learned.links, number);
    }
    None
}

// Whether the set of the nogood ends in the new pair, and the choice has the rest.
fn ends_choice(nogoods: &[Nogood], number: u32, chosen: &[Pair], more: Pair) -> bool
    ensures { IsTrue result → HasKept nogoods.now chosen.now more number }
{
    let number = number as usize;
    number < nogoods.len() && is_with_choice(&nogoods[number].set, chosen, more)
}

fn is_with_choice(set: &[Pair], chosen: &[Pair], more: Pair) -> bool
    ensures { IsTrue result → EndsWith set.now chosen.now more }
{
    match set.split_last() {
        Some((last, rest)) => *last == more && are_chosen(rest, chosen),
        None => false,
    }
}

/// Whether the choice has these pairs.
pub fn are_chosen(few: &[Pair], chosen: &[Pair]) -> bool
    ensures { IsTrue result → IsSubset few.now chosen.now }
{
    for q in few {
        if !is_chosen(chosen, *q) {
            return false;
        }
    }
    true
}

// The pair of a stem stands at the stem's place.
fn is_chosen(chosen: &[Pair], pair: Pair) -> bool
    ensures { IsTrue result → Contains chosen.now pair }
{
    let place = pair.stem as usize;
    place < chosen.len() && chosen[place] == pair
}

/// The set of a kept nogood without its last pair.
pub fn kept_core(alloc: Global, nogoods: &[Nogood], number: u32) -> Result<Vec<Pair>, AllocError>
    requires { number < length nogoods.now }
    ensures { IfOk result (λ core. (g : declared.Nogood) → slice_get nogoods.now number ≡ Some g → core.items ≡ take (length g.set.items - 1) g.set.items) }
{
    let set = nogoods[number as usize].set.as_slice();
    Vec::from_slice(alloc, &set[..set.len().saturating_sub(1)])
}

/// A test that the new pair breaks: only those that end at its stem can be.
pub fn failing<P: Puzzle>(
    puzzle: &P,
    tests: &Chains,
    choice: &[u32],
    chosen: &[Pair],
    more: Pair,
) -> Option<u32>
    requires indexed { IsIndexed (P.meaning puzzle.now) tests.now }
    requires begun { IsBeginning (P.meaning puzzle.now) choice.now }
    requires paired { chosen.now ≡ pairs choice.now }
    requires stem { more.stem ≡ length choice.now }
    requires room { more.stem < (P.meaning puzzle.now).stems }
    requires offered { more.candidate < (P.meaning puzzle.now).candidates more.stem }
    ensures { MatchOption result (BreaksNone (P.meaning puzzle.now) (pairs (choice.now ++ more.candidate ∷ []))) (λ t. (t < (P.meaning puzzle.now).tests) × ((P.meaning puzzle.now).breaks t (more ∷ chosen.now) ≡ true)) }
{
    let mut next = tests.heads[more.stem as usize];
    while next > 0 {
        let test = next - 1;
        if puzzle.broken(test, chosen, more) {
            return Some(test);
        }
        next = tests.links[test as usize];
    }
    None
}

/// The same, by a look at each test.
pub fn failing_plainly<P: Puzzle>(
    puzzle: &P,
    choice: &[u32],
    chosen: &[Pair],
    more: Pair,
) -> Option<u32>
    requires begun { IsBeginning (P.meaning puzzle.now) choice.now }
    requires paired { chosen.now ≡ pairs choice.now }
    requires stem { more.stem ≡ length choice.now }
    requires room { more.stem < (P.meaning puzzle.now).stems }
    requires offered { more.candidate < (P.meaning puzzle.now).candidates more.stem }
    ensures { MatchOption result (BreaksNone (P.meaning puzzle.now) (pairs (choice.now ++ more.candidate ∷ []))) (λ t. (t < (P.meaning puzzle.now).tests) × ((P.meaning puzzle.now).breaks t (more ∷ chosen.now) ≡ true)) }
{
    for test in 0..puzzle.tests() {
        if puzzle.last(test) == more.stem && puzzle.broken(test, chosen, more) {
            return Some(test);
        }
    }
    None
}

/// The pairs of the choice that the broken test needs. Each one, from the last on, ends the shortest front of the choice with
/// which, beside the pairs that were found, the test is broken.
pub fn core<P: Puzzle>(
    alloc: Global,
    puzzle: &P,
    whole: &[Pair],
    more: Pair,
    test: u32,
) -> Result<Vec<Pair>, AllocError>
    requires known { test < (P.meaning puzzle.now).tests }
    requires offered { All (IsOffered (P.meaning puzzle.now)) (more ∷ whole.now) }
    requires free { All (λ q. q.stem ≢ more.stem) whole.now }
    requires ascends { Ascends whole.now }
    requires broken { (P.meaning puzzle.now).breaks test (more ∷ whole.now) ≡ true }
    ensures { IfOk result (λ core. (nogoods : List declared.Nogood) → IsCore (P.meaning puzzle.now) nogoods whole.now more (Reason.Test test) core.items) }
{
    let mut kept = Vec::new(alloc);
    let mut front = whole.len();
    while front > 0 {
        let needed = shortest(alloc, puzzle, whole, more, test, front, &kept)?;
        if needed == 0 {
            return Ok(kept);
        }
        front = needed - 1;
        kept.insert(0, whole[front])?;
    }
    Ok(kept)
}

// The length of the shortest front with which the test is broken beside the kept pairs, by bisection.
fn shortest<P: Puzzle>(
    alloc: Global,
    puzzle: &P,
    whole: &[Pair],
    more: Pair,
    test: u32,
    front: usize,
    kept: &[Pair],
) -> Result<usize, AllocError>
    requires known { test < (P.meaning puzzle.now).tests }
    requires offered { All (IsOffered (P.meaning puzzle.now)) (more ∷ whole.now) }
    requires free { All (λ q. q.stem ≢ more.stem) whole.now }
    requires ascends { Ascends whole.now }
    requires kept { IsKept (P.meaning puzzle.now) whole.now more test front kept.now }
    ensures { IfOk result (λ n. (n ≤ front) × IsKept (P.meaning puzzle.now) whole.now more test n kept.now) }
{
    let mut low = 0;
    let mut high = front;
    let mut middle = 0;
    while low < high {
        if breaks(alloc, puzzle, whole, more, test, middle, kept)? {
            high = middle;
        } else {
            low = middle + 1;
        }
        middle = low + (high - low) / 2;
    }
    Ok(high)
}

// Whether the test is broken with a front of this length beside the kept pairs.
fn breaks<P: Puzzle>(
    alloc: Global,
    puzzle: &P,
    whole: &[Pair],
    more: Pair,
    test: u32,
    front: usize,
    kept: &[Pair],
) -> Result<bool, AllocError>
    requires known { test < (P.meaning puzzle.now).tests }
    requires offered { All (IsOffered (P.meaning puzzle.now)) (more ∷ (take front whole.now ++ kept.now)) }
    requires one_per_stem { OnePerStem (more ∷ (take front whole.now ++ kept.now)) }
    requires front { front ≤ length whole.now }
    ensures { IfOk result (λ b. b ≡ (P.meaning puzzle.now).breaks test (more ∷ (take front whole.now ++ kept.now))) }
{
    if kept.is_empty() {
        return Ok(puzzle.broken(test, &whole[..front], more));
    }
    if front == 0 {
        return Ok(puzzle.broken(test, kept, more));
    }
    let mut set = Vec::with_capacity(alloc, front + kept.len())?;
    set.extend_from_slice(&whole[..front])?;
    set.extend_from_slice(kept)?;
    Ok(puzzle.broken(test, &set, more))
}
