//! The selection that a set of candidates makes.

ghost use Rattle.std.specs.Prelude.{◌≡◌, ◌∷◌, Some, map, position, slice_get};
ghost use Rattle.std.specs.List.{list_all};
ghost use Rattle.std.specs.Option.{option_map, option_to_list};
ghost use Rattle.std.specs.Str.{bytes_eq};
ghost use Rattle.std.proofs.Props.{props};
ghost use Rattle.ips_fmri.specs.declared.fmri.Fmri as declared;
ghost use Rattle.ips_depend.specs.Dependency as dependency;
ghost use Rattle.ips_refute.specs.Meaning.{OnePerStem};
ghost use Rattle.ips_request.specs.Stems.{stems_of};
ghost use Rattle.ips_problem.specs.Posed as posed;
ghost use Rattle.ips_problem.specs.Posed.{candidate_of, decides, picked, spared, tells_spared};
ghost use Rattle.ips_problem.specs.Seen.{puzzle_of, seen_row};

use crate::rows::Row;
use indexmap::IndexSet;
use ips_depend::{Places, Test};
use ips_fmri::Version;
use ips_refute::Pair;
use ips_request::number;

/// The selection that a set of candidates with one more makes, over the stems in reach: what has no candidate in it is absent. It
/// is asked for the stems that one dependency mentions, and has their numbers.
#[derive(Drop)]
pub struct Picked<'a> {
    stems: &'a IndexSet<String>,
    rows: &'a [Row],
    test: &'a Test,
    mentioned: &'a [Option<u32>],
    set: &'a [Pair],
    more: Pair,
    ghost numbered: { mentioned.now ≡ map (λ (f : declared.Fmri). position (bytes_eq f.stem) (stems_of stems.now.keys)) (dependency.mentions test.now) } by { Prim.hlevel props },
    ghost one_per_stem: { OnePerStem (more ∷ set.now) },
}

impl Picked<'_> {
    /// The selection that the set makes with the pair `more`, for a dependency that mentions stems with these numbers. No two of
    /// the pairs are of one stem.
    pub fn new<'a>(
        stems: &'a IndexSet<String>,
        rows: &'a [Row],
        test: &'a Test,
        mentioned: &'a [Option<u32>],
        set: &'a [Pair],
        more: Pair,
    ) -> Picked<'a>
        requires numbered { mentioned.now ≡ map (λ (f : declared.Fmri). position (bytes_eq f.stem) (stems_of stems.now.keys)) (dependency.mentions test.now) }
        requires one_per_stem { OnePerStem (more ∷ set.now) }
        ensures stems { result.stems ≡ stems.entry }
        ensures rows { result.rows ≡ rows.entry }
        ensures test { result.test ≡ test.entry }
        ensures set { result.set ≡ set.entry }
        ensures more { result.more ≡ more }
    {
        Picked {
            stems,
            rows,
            test,
            mentioned,
            set,
            more,
        }
    }
}

impl Places for Picked<'_> {
    ghost selection = { λ v. picked (puzzle_of v.stems.now.keys v.rows.now) (v.more ∷ v.set.now) };

    ghost old_selection = { λ v. posed.before (puzzle_of v.stems.now.keys v.rows.now) };

    ghost spares = { λ v. spared (puzzle_of v.stems.now.keys v.rows.now) };

    ghost stems = { λ v. dependency.stems (dependency.mentions v.test.now) };

    fn version(&self, place: usize) -> Option<&Version> {
        match self.mentioned[place] {
            Some(number) => version_at(self.rows, self.set, self.more, number as usize),
            None => None,
        }
    }

    fn before(&self, stem: &str) -> Option<&Version> {
        let Some(number) = number(self.stems, stem) else {
            return None;
        };
        version_before(self.rows, number)
    }

    fn spared(&self, place: usize) -> bool {
        match self.mentioned[place] {
            Some(number) => spared_at(self.rows, number as usize),
            None => false,
        }
    }
}

// The version of the candidate that the set, with the pair `more`, has for the stem with this number.
fn version_at<'a>(rows: &'a [Row], set: &[Pair], more: Pair, number: usize) -> Option<&'a Version>
    requires { OnePerStem (more ∷ set.now) }
    ensures { option_map (λ v. v.now) result ≡ posed.version_at (option_map seen_row (slice_get rows.now number)) (candidate_of (more ∷ set.now) number) }
{
    let Some(row) = rows.get(number) else {
        return None;
    };
    let Some(candidate) = candidate(set, more, number) else {
        return None;
    };
    version_of(row, candidate)
}

// The version at which the stem with this number is installed before the request.
fn version_before(rows: &[Row], number: usize) -> Option<&Version>
    ensures { option_map (λ v. v.now) result ≡ posed.version_before (option_map seen_row (slice_get rows.now number)) }
{
    match rows.get(number) {
        Some(row) => row.before.as_ref(),
        None => None,
    }
}

// Whether the stem with this number is spared.
fn spared_at(rows: &[Row], number: usize) -> bool
    ensures { result ≡ tells_spared (option_map seen_row (slice_get rows.now number)) }
{
    match rows.get(number) {
        Some(row) => row.spared,
        None => false,
    }
}

/// The version of the candidate with this number; None where that is absence.
pub fn version_of(row: &Row, candidate: u32) -> Option<&Version>
    ensures { option_map (λ v. v.now) result ≡ posed.version_at (Some (seen_row row.now)) (Some candidate) }
{
    let number = (*row.candidates.get(candidate as usize)?)?;
    let read = row.reads.get(number)?;
    Some(&read.version)
}

/// The candidate that the set, with the pair `more`, has for the stem with this number.
pub fn candidate(set: &[Pair], more: Pair, stem: usize) -> Option<u32>
    requires { OnePerStem (more ∷ set.now) }
    ensures { result ≡ candidate_of (more ∷ set.now) stem }
{
    if more.stem as usize == stem {
        return Some(more.candidate);
    }
    candidate_in(set, stem)
}

// The candidate that the set has for the stem with this number.
fn candidate_in(set: &[Pair], stem: usize) -> Option<u32>
    requires { OnePerStem set.now }
    ensures { result ≡ candidate_of set.now stem }
{
    let place = place_of(set, stem);
    if place < set.len() {
        let pair = set[place];
        if pair.stem as usize == stem {
            return Some(pair.candidate);
        }
    }
    for pair in set {
        if pair.stem as usize == stem {
            return Some(pair.candidate);
        }
    }
    None
}

// The place of the stem's pair in a set that is in the order of its stems, where it has one. In a choice, or a part of one, the stem
// tells it at once.
fn place_of(set: &[Pair], stem: usize) -> usize {
    let place = match set {
        [first, ..] if first.stem as usize <= stem => stem - first.stem as usize,
        _ => 0,
    };
    if set
        .get(place)
        .is_some_and(|pair| pair.stem as usize == stem)
    {
        return place;
    }
    set.partition_point(|pair| (pair.stem as usize) < stem)
}

/// Whether the set, with the pair `more`, has a candidate for each of these numbers.
pub fn decides_all(set: &[Pair], more: Pair, numbers: &[Option<u32>]) -> bool
    requires { OnePerStem (more ∷ set.now) }
    ensures { result ≡ list_all (λ o. decides (more ∷ set.now) (option_to_list o)) numbers.now }
{
    for number in numbers {
        if !decides_one(set, more, *number) {
            return false;
        }
    }
    true
}

// Whether the set, with the pair `more`, has a candidate for the number, where there is one.
fn decides_one(set: &[Pair], more: Pair, number: Option<u32>) -> bool
    requires { OnePerStem (more ∷ set.now) }
    ensures { result ≡ decides (more ∷ set.now) (option_to_list number) }
{
    match number {
        Some(number) => candidate(set, more, number as usize).is_some(),
        None => true,
    }
}
