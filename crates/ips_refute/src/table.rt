//! Puzzles that are written out.

ghost use Rattle.std.specs.Prelude.{◌<◌, ◌^◌, All, vec_len};

use crate::nogoods::Pair;

/// A test of a table: false where all of these pairs are chosen. The stems of the others aren't greater than that of the last.
#[derive(Drop)]
pub struct Rule {
    /// The pair of the greatest stem.
    pub last: Pair,
    /// The pairs of other stems.
    pub others: Vec<Pair>,
}

/// A puzzle that is written out: the number of candidates of each stem, and the sets of pairs that may not all be chosen.
#[derive(Drop)]
pub struct Table {
    pub(crate) counts: Vec<u32>,
    pub(crate) rules: Vec<Rule>,
    ghost few_stems: { vec_len counts < 2 ^ 32 },
    ghost few_rules: { vec_len rules < 2 ^ 32 },
    ghost known: { All (λ r. r.last.stem < vec_len counts) rules.items },
}
