//! What a problem answers as a puzzle.

ghost use Rattle.std.specs.Prelude.{◌≡◌, ◌∷◌, map, not, position};
ghost use Rattle.std.specs.Str.{bytes_eq};
ghost use Rattle.ips_fmri.specs.declared.fmri.Fmri as declared;
ghost use Rattle.ips_depend.specs.Dependency.{mentions};
ghost use Rattle.ips_depend.specs.Holds.{holds};
ghost use Rattle.ips_refute.specs.Meaning.{OnePerStem};
ghost use Rattle.ips_request.specs.Stems.{stems_of};
ghost use Rattle.ips_problem.specs.Held.{posed_of, problem_lawful};
ghost use Rattle.ips_problem.specs.Posed as posed;
ghost use Rattle.ips_problem.specs.Posed.{meaning_of};
ghost use Rattle.ips_problem.specs.Seen.{puzzle_of};

use crate::picked::{Picked, candidate, decides_all};
use crate::problem::Problem;
use crate::rows::{Numbered, Row};
use indexmap::IndexSet;
use ips_refute::{Hint, Pair, Puzzle};

impl Puzzle for Problem {
    ghost meaning = { λ p. meaning_of (posed_of p) };

    ghost lawful = { problem_lawful };

    fn stems(&self) -> u32 {
        self.stems.len() as u32
    }

    fn candidates(&self, stem: u32) -> u32 {
        self.rows[stem as usize].candidates.len() as u32
    }

    fn tests(&self) -> u32 {
        self.tests.len() as u32
    }

    fn last(&self, test: u32) -> u32 {
        self.numbers[test as usize].last
    }

    fn broken(&self, test: u32, set: &[Pair], more: Pair) -> bool {
        let numbered = &self.tests[test as usize];
        if !is_chosen(set, more, numbered) {
            return false;
        }
        let mentioned = self.numbers[test as usize].mentioned.as_slice();
        if !decides_all(set, more, mentioned) {
            return false;
        }
        fails(&self.stems, &self.rows, numbered, mentioned, set, more)
    }

    // A stem that isn't in reach leaves the place to the test's own.
    fn hint(&self, test: u32, place: u32) -> Option<Hint> {
        let numbered = self.tests.get(test as usize)?;
        let own = Hint {
            stem: numbered.stem,
            candidate: Some(numbered.candidate),
        };
        if place == 0 {
            return Some(own);
        }
        let numbers = self.numbers.get(test as usize)?;
        match *numbers.mentioned.get(place as usize - 1)? {
            Some(stem) => Some(Hint {
                stem,
                candidate: None,
            }),
            None => Some(own),
        }
    }
}

// Whether the dependency of the test, which mentions stems with these numbers, fails in the selection that the set makes with the
// pair `more`.
fn fails(
    stems: &IndexSet<String>,
    rows: &[Row],
    numbered: &Numbered,
    mentioned: &[Option<u32>],
    set: &[Pair],
    more: Pair,
) -> bool
    requires numbered { mentioned.now ≡ map (λ (f : declared.Fmri). position (bytes_eq f.stem) (stems_of stems.now.keys)) (mentions numbered.now.test) }
    requires one_per_stem { OnePerStem (more ∷ set.now) }
    ensures { result ≡ not (holds (posed.picked (puzzle_of stems.now.keys rows.now) (more ∷ set.now)) (posed.before (puzzle_of stems.now.keys rows.now)) (posed.spared (puzzle_of stems.now.keys rows.now)) numbered.now.test) }
{
    let picked = Picked::new(stems, rows, &numbered.test, mentioned, set, more);
    !numbered.test.holds(&picked)
}

// Whether the set with the pair `more` has the candidate of the test.
fn is_chosen(set: &[Pair], more: Pair, numbered: &Numbered) -> bool
    requires { OnePerStem (more ∷ set.now) }
    ensures { result ≡ posed.is_number (posed.candidate_of (more ∷ set.now) numbered.now.stem) numbered.now.candidate }
{
    match candidate(set, more, numbered.stem as usize) {
        Some(number) => number == numbered.candidate,
        None => false,
    }
}
