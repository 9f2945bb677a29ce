//! The words that begin the lines of steps.

ghost use Rattle.std.specs.Prelude.{◌≡◌, ◌++◌, ℕ, List, IfNone, IfSome, true, false};
ghost use Rattle.ips_steps.specs.declared.step.Sort.{Sort as SortMeant};
ghost use Rattle.ips_journal.specs.Text.{word};

use ips_steps::Sort;

/// The sort of the step that a line tells by its word, and what stands behind that.
pub fn sort_of_line(line: &[u8]) -> Option<(Sort, &[u8])>
    ensures found { IfSome result (λ x. line.now ≡ word x.0 ++ x.1.now) }
    ensures none { IfNone result ((sort : SortMeant) (rest : List ℕ) → line.now ≡ word sort ++ rest → ⊥) }
{
    if let Some(rest) = behind_word(b"gone ", line) {
        return Some((Sort::Gone, rest));
    }
    if let Some(rest) = behind_word(b"fresh ", line) {
        return Some((Sort::Fresh, rest));
    }
    if let Some(rest) = behind_word(b"mode ", line) {
        return Some((Sort::Mode, rest));
    }
    if let Some(rest) = behind_word(b"put ", line) {
        return Some((Sort::Put, rest));
    }
    if let Some(rest) = behind_word(b"link ", line) {
        return Some((Sort::Link, rest));
    }
    if let Some(rest) = behind_word(b"hard ", line) {
        return Some((Sort::Hard, rest));
    }
    None
}

/// What stands behind this word at the front of the line.
pub fn behind_word<'a>(word: &[u8], line: &'a [u8]) -> Option<&'a [u8]>
    ensures none { IfNone result ((rest : List ℕ) → line.now ≡ word.now ++ rest → ⊥) }
    ensures some { IfSome result (λ rest. line.now ≡ word.now ++ rest.now) }
{
    line.strip_prefix(word)
}
