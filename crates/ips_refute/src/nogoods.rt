//! Refutations and what they are made of.

ghost use Rattle.std.specs.Prelude.{◌≡◌, ℕ, IfOk, Ok, List, All};
ghost use Rattle.ips_text.specs.Reading.{Gives, IfBad};
ghost use Rattle.ips_refute.specs.Text.{RefutationEntry, IsEntry, IsBadLine, IsTextOf, entries, refutation_text};

use crate::printing::print_refutation;
use crate::reading::{BadLine, read_refutation};
use ips_text::{Or, Text};
use std::alloc::{AllocError, Global};

/// A candidate for a stem, each by its number.
#[derive(Clone, Copy, PartialEq, Eq, Debug)]
pub struct Pair {
    /// The number of the stem, from 0.
    pub stem: u32,
    /// The number of the candidate among those of its stem, from 0.
    pub candidate: u32,
}

/// Why a set of pairs is in no solution.
#[derive(Clone, Copy, PartialEq, Eq, Debug)]
pub enum Reason {
    /// It breaks the test of this number.
    Test(u32),
    /// It contains the set of the nogood of this number, counted from 0, which stands earlier.
    Earlier(u32),
}

/// A set of pairs that is in no solution, and why: each candidate of one further stem, put to the set, gives a set that breaks a
/// test or contains the set of an earlier nogood.
#[derive(Drop)]
pub struct Nogood {
    /// The pairs.
    pub set: Vec<Pair>,
    /// The further stem.
    pub stem: u32,
    /// A reason for each of that stem's candidates, in their order.
    pub reasons: Vec<Reason>,
}

/// Nogoods, each of which may rest on the ones before it. The last one's set is empty where no solution exists.
#[derive(Drop)]
pub struct Refutation {
    /// The nogoods.
    pub nogoods: Vec<Nogood>,
}

impl Refutation {
    /// The text of the refutation: the line `refutation 2`, and for each nogood a line `<set> | <stem> | <reasons>`. A set is `-`,
    /// or its pairs, each written `<stem>.<candidate>`, joined by `,`. The reasons are `-`, or `t<test>` and `n<nogood>` joined by
    /// one blank. Two or more equal reasons in a row are written once with their count, as `t<test>*<count>`, in runs of as many as
    /// there are, but at most 200,002. Numbers are decimal, and each line ends with a newline.
    pub fn print(&self, alloc: Global) -> Result<Text, AllocError>
        ensures { IfOk result (λ text. text ≡ refutation_text (entries self.now.nogoods.items)) }
    {
        print_refutation(alloc, &self.nogoods)
    }

    /// Reads the text of a refutation, which has to be all of the bytes. The pairs of each set have to stand by ascending stem,
    /// each stem once, and each number is below 2^32. A reason may have a count from 2 to 200,002, and equal reasons need not be
    /// joined into one. Behind the line `refutation 1` no counts are written. What is answered need not be a refutation of any
    /// puzzle: that is for `check` to say.
    ///
    /// `BadLine` has the number, from 1, of the first line that isn't of this grammar; a last line without its newline isn't.
    pub fn read(alloc: Global, bytes: &[u8]) -> Result<Refutation, Or<BadLine>>
        ensures found { IfOk result (λ r. All IsEntry (entries r.nogoods.items) × IsTextOf (entries r.nogoods.items) bytes.now) }
        ensures only { (es : List RefutationEntry) → IsTextOf es bytes.now → Gives (λ r. entries r.nogoods.items) result (Ok es) }
        ensures line { IfBad result (λ bad. IsBadLine bytes.now bad.line) }
    {
        let nogoods = read_refutation(alloc, bytes)?;
        Ok(Refutation { nogoods })
    }
}

/// The law of refutations' texts: what is printed is a text of the refutation, and no text is one of two refutations.
pub fn refutations_read_back()
    ensures printed { (es : List RefutationEntry) → All IsEntry es → IsTextOf es (refutation_text es) }
    ensures one { (es fs : List RefutationEntry) (text : List ℕ) → IsTextOf es text → IsTextOf fs text → es ≡ fs }
{}
