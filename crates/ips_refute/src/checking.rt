//! The checker of refutations.

ghost use Rattle.std.specs.Prelude.{◌≡◌, ℕ, ◌+◌, ◌<◌, ◌≤◌, ◌≢◌, ◌↔◌, ◌∷◌, All, Contains, IfNone, IfSome, IsTrue, length, true};
ghost use Rattle.ips_refute.specs.Meaning.{Meaning, IsSubset, OnePerStem, IsOffered, HasNoChoice};
ghost use Rattle.ips_refute.specs.Refuting.{ContainsEarlier, Explains, ExplainsEach, IsNogood, AreNogoods, EndsEmpty, IsRefutation};

use crate::ascending::ascend;
use crate::nogoods::{Nogood, Pair, Reason, Refutation};
use crate::puzzle::Puzzle;

// Whether each of the few pairs is `more` or in the set. The search for a pair goes on where the one before was found, so sets
// in one order are gone through once.
fn is_within(few: &[Pair], set: &[Pair], more: Pair) -> bool
    ensures { IsTrue result ↔ IsSubset few.now (more ∷ set.now) }
{
    let mut from = 0;
    for q in few {
        let Some(place) = seek(set, more, from, *q) else {
            return false;
        };
        from = place;
    }
    true
}

// Where to go on behind a pair that is `more` or in the set; none where it is neither.
fn seek(set: &[Pair], more: Pair, from: usize, pair: Pair) -> Option<usize>
    requires { from ≤ length set.now }
    ensures some { IfSome result (λ i. (i ≤ length set.now) × Contains (more ∷ set.now) pair) }
    ensures none { IfNone result (Contains (more ∷ set.now) pair → ⊥) }
{
    if pair == more {
        Some(from)
    } else {
        find(set, from, pair)
    }
}

// The place of a pair, sought from this place on and then before it.
fn find(set: &[Pair], from: usize, pair: Pair) -> Option<usize>
    requires { from ≤ length set.now }
    ensures some { IfSome result (λ i. (i ≤ length set.now) × Contains set.now pair) }
    ensures none { IfNone result (Contains set.now pair → ⊥) }
{
    match position(&set[from..], pair) {
        Some(place) => Some(from + place),
        None => position(&set[..from], pair),
    }
}

fn position(set: &[Pair], pair: Pair) -> Option<usize>
    ensures some { IfSome result (λ i. (i < length set.now) × Contains set.now pair) }
    ensures none { IfNone result (Contains set.now pair → ⊥) }
{
    for (i, q) in set.iter().enumerate() {
        if *q == pair {
            return Some(i);
        }
    }
    None
}

fn is_free(set: &[Pair], stem: u32) -> bool
    ensures { IsTrue result ↔ All (λ q. q.stem ≢ stem) set.now }
{
    set.iter().all(|q| q.stem != stem)
}

fn has_one_per_stem(set: &[Pair]) -> bool
    ensures { IsTrue result ↔ OnePerStem set.now }
{
    ascend(set) || repeats_no_stem(set)
}

// The same for a set in any order.
fn repeats_no_stem(set: &[Pair]) -> bool
    ensures { IsTrue result ↔ OnePerStem set.now }
{
    for (i, q) in set.iter().enumerate() {
        if !is_free(&set[..i], q.stem) {
            return false;
        }
    }
    true
}

fn are_offered<P: Puzzle>(puzzle: &P, set: &[Pair]) -> bool
    ensures { IsTrue result ↔ All (IsOffered (P.meaning puzzle.now)) set.now }
{
    for q in set {
        if q.stem >= puzzle.stems() || q.candidate >= puzzle.candidates(q.stem) {
            return false;
        }
    }
    true
}

fn has_earlier(earlier: &[Nogood], number: u32, set: &[Pair], more: Pair) -> bool
    ensures { IsTrue result ↔ ContainsEarlier earlier.now number (more ∷ set.now) }
{
    let number = number as usize;
    number < earlier.len() && is_within(&earlier[number].set, set, more)
}

/// Whether the set with the pair `more` breaks the test, or contains the set of the earlier nogood.
pub fn explains<P: Puzzle>(
    puzzle: &P,
    earlier: &[Nogood],
    set: &[Pair],
    more: Pair,
    reason: Reason,
) -> bool
    requires offered { All (IsOffered (P.meaning puzzle.now)) (more ∷ set.now) }
    requires one_per_stem { OnePerStem (more ∷ set.now) }
    ensures { IsTrue result ↔ Explains (P.meaning puzzle.now) earlier.now (more ∷ set.now) reason }
{
    match reason {
        Reason::Test(test) => test < puzzle.tests() && puzzle.broken(test, set, more),
        Reason::Earlier(number) => has_earlier(earlier, number, set, more),
    }
}

/// Whether the set with the pair `more` breaks the test. It may be any set: one that isn't of pairs of the puzzle, one per stem,
/// breaks none.
pub fn is_broken<P: Puzzle>(puzzle: &P, test: u32, set: &[Pair], more: Pair) -> bool
    ensures { IsTrue result → (test < (P.meaning puzzle.now).tests) × ((P.meaning puzzle.now).breaks test (more ∷ set.now) ≡ true) }
{
    test < puzzle.tests()
        && more.stem < puzzle.stems()
        && more.candidate < puzzle.candidates(more.stem)
        && are_offered(puzzle, set)
        && is_free(set, more.stem)
        && has_one_per_stem(set)
        && puzzle.broken(test, set, more)
}

fn explains_each<P: Puzzle>(
    puzzle: &P,
    earlier: &[Nogood],
    set: &[Pair],
    stem: u32,
    reasons: &[Reason],
) -> bool
    requires offered { All (IsOffered (P.meaning puzzle.now)) set.now }
    requires one_per_stem { OnePerStem set.now }
    requires known { stem < (P.meaning puzzle.now).stems }
    requires free { All (λ q. q.stem ≢ stem) set.now }
    requires each { length reasons.now ≡ (P.meaning puzzle.now).candidates stem }
    ensures { IsTrue result ↔ ExplainsEach (P.meaning puzzle.now) earlier.now set.now stem reasons.now }
{
    let count = puzzle.candidates(stem);
    for candidate in 0..count {
        let more = Pair { stem, candidate };
        let reason = reasons[candidate as usize];
        if !explains(puzzle, earlier, set, more, reason) {
            return false;
        }
    }
    true
}

/// Whether the nogood follows from the puzzle and from these nogoods.
pub fn is_nogood<P: Puzzle>(puzzle: &P, earlier: &[Nogood], nogood: &Nogood) -> bool
    ensures { IsTrue result ↔ IsNogood (P.meaning puzzle.now) earlier.now nogood.now }
{
    are_offered(puzzle, &nogood.set)
        && has_one_per_stem(&nogood.set)
        && nogood.stem < puzzle.stems()
        && is_free(&nogood.set, nogood.stem)
        && nogood.reasons.len() == puzzle.candidates(nogood.stem) as usize
        && explains_each(puzzle, earlier, &nogood.set, nogood.stem, &nogood.reasons)
}

fn are_nogoods<P: Puzzle>(puzzle: &P, nogoods: &[Nogood]) -> bool
    ensures { IsTrue result ↔ AreNogoods (P.meaning puzzle.now) nogoods.now }
{
    for (i, nogood) in nogoods.iter().enumerate() {
        if !is_nogood(puzzle, &nogoods[..i], nogood) {
            return false;
        }
    }
    true
}

fn ends_empty(nogoods: &[Nogood]) -> bool
    ensures { IsTrue result ↔ EndsEmpty nogoods.now }
{
    let count = nogoods.len();
    count > 0 && nogoods[count - 1].set.is_empty()
}

/// Whether this is a refutation of the puzzle: there is a last set and it is empty; all numbers of stems, candidates and tests are
/// below the puzzle's counts; and of each nogood, no two pairs of the set are of one stem, the further stem isn't in the set, there
/// is one reason per candidate of it, and the set with that candidate contains the set of the earlier nogood, or breaks the test,
/// that the reason names.
pub fn check<P: Puzzle>(puzzle: &P, refutation: &Refutation) -> bool
    ensures { IsTrue result ↔ IsRefutation (P.meaning puzzle.now) refutation.now.nogoods.items }
{
    let nogoods = refutation.nogoods.as_slice();
    are_nogoods(puzzle, nogoods) && ends_empty(nogoods)
}

/// The law of refutations: where there is one, no choice of a candidate for each stem breaks no test.
pub fn refutes<P: Puzzle>(puzzle: &P, refutation: &Refutation)
    requires { IsRefutation (P.meaning puzzle.now) refutation.now.nogoods.items }
    ensures { HasNoChoice (P.meaning puzzle.now) }
{}
