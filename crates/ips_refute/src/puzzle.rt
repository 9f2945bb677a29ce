//! What a checker or a search has to know of a puzzle.

ghost use Rattle.std.specs.Prelude.{◌≡◌, ◌<◌, ◌∷◌, All};
ghost use Rattle.ips_refute.specs.Meaning.{Meaning, Lawful, OnePerStem, IsOffered};

use crate::nogoods::Pair;

/// What a search may want to know of a test beforehand: one of its stems and, where the test is broken with one candidate of that
/// stem alone, this candidate.
#[derive(Clone, Copy)]
pub struct Hint {
    /// The number of the stem.
    pub stem: u32,
    /// The number of the only candidate, where there is one.
    pub candidate: Option<u32>,
}

/// A puzzle: one candidate is sought for each stem such that no test is broken. Stems, the candidates of each stem and tests are
/// named by numbers from 0. A test is a fact about the candidates of some stems.
pub trait Puzzle {
    ghost meaning: { Self → Meaning };

    /// How many stems there are.
    fn stems(&self) -> u32
        ensures { result ≡ (meaning self.now).stems };

    /// How many candidates a stem has. They are preferred in their order.
    fn candidates(&self, stem: u32) -> u32
        requires { stem < (meaning self.now).stems }
        ensures { result ≡ (meaning self.now).candidates stem };

    /// How many tests there are.
    fn tests(&self) -> u32
        ensures { result ≡ (meaning self.now).tests };

    /// The greatest stem of a test.
    fn last(&self, test: u32) -> u32
        requires { test < (meaning self.now).tests }
        ensures { result ≡ (meaning self.now).last test };

    /// Whether the set with the pair `more` decides all stems of the test, and the test is false. No two of the pairs are of one
    /// stem. Where the set is a choice for the first stems, the pair of stem `i` stands at place `i`: that is the place to look at
    /// first.
    fn broken(&self, test: u32, set: &[Pair], more: Pair) -> bool
        requires known { test < (meaning self.now).tests }
        requires offered { All (IsOffered (meaning self.now)) (more ∷ set.now) }
        requires one_per_stem { OnePerStem (more ∷ set.now) }
        ensures { result ≡ (meaning self.now).breaks test (more ∷ set.now) };

    /// The stems of a test, one by its place from 0 on; None behind the last. It says where to look and is believed by nobody:
    /// nothing is promised of it.
    fn hint(&self, test: u32, place: u32) -> Option<Hint>;

    ghost lawful: { (it : Self) → Lawful (meaning it) };
}
