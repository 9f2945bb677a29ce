//! Words behind `->`.

ghost use Rattle.std.specs.Prelude.{◌≡◌, [], List, ℕ, Ok, IfOk, IfSome, IfNone};
ghost use Rattle.std.specs.List.{list_all};
ghost use Rattle.ips_text.specs.Reading as texts;
ghost use Rattle.ips_line.specs.Line as line;
ghost use Rattle.ips_line.specs.Line.{IsRunOfBytes};
ghost use Rattle.ips_line.specs.Reading.{written_at};
ghost use Rattle.ips_line.specs.Seen.{seen_written};
ghost use Rattle.ips_rule.specs.Rules as spec;
ghost use Rattle.ips_rule.specs.Rules.{IsValue, AreDone};
ghost use Rattle.ips_rules.specs.Next as next;
ghost use Rattle.ips_rules.specs.Next.{IsNext, IsNoWord};

use ips_line::{Class, Written, read_value, run, value};
use ips_text::Text;
use std::alloc::{AllocError, Global};

/// The values that stand in the text, each behind blanks, up to the blanks at its end; None where the text isn't so.
pub fn words(alloc: Global, text: &str) -> Result<Option<Vec<Text>>, AllocError>
    ensures some { IfOk result (λ found. IfSome found (λ words. AreDone words.items text.now)) }
    ensures none { IfOk result (λ found. IfNone found ((others : List (List ℕ)) → AreDone others text.now → ⊥)) }
{
    let mut words = Vec::new(alloc);
    let mut rest = text;
    while !is_blank(rest) {
        let Some((written, after)) = next_value(rest) else {
            return Ok(None);
        };
        words.push(value(alloc, written)?)?;
        rest = after;
    }
    Ok(Some(words))
}

// Whether there are only blanks.
fn is_blank(text: &str) -> bool
    ensures { result ≡ list_all line.is_blank text.now }
{
    run(Class::Blank, text).1.is_empty()
}

// The next value behind blanks, and what stands behind it; None where no value comes next that ends at a blank or with the text.
fn next_value(text: &str) -> Option<(Written<'_>, &str)>
    ensures some { IfSome result (λ x. IsNext IsValue text.now (spec.Value (seen_written x.0)) x.1.now) }
    ensures none { IfNone result (IsNoWord IsValue text.now) }
{
    let (value, behind) = value_at(behind_blanks(text)?)?;
    if ends_word(behind) {
        Some((value, behind))
    } else {
        None
    }
}

/// What stands behind the blanks at the front, or None where there are none.
pub fn behind_blanks(text: &str) -> Option<&str>
    ensures some { IfSome result (λ body. IsRunOfBytes line.is_blank (texts.run line.is_blank text.now).0 × ((texts.run line.is_blank text.now).1 ≡ body.now)) }
    ensures none { IfNone result ((texts.run line.is_blank text.now).0 ≡ []) }
{
    let (gap, body) = run(Class::Blank, text);
    if gap.is_empty() { None } else { Some(body) }
}

/// The value that stands first, as it is written, and what stands behind it; None where none does.
pub fn value_at(text: &str) -> Option<(Written<'_>, &str)>
    ensures some { IfSome result (λ x. written_at text.now ≡ Ok (seen_written x.0, x.1.now)) }
    ensures none { IfNone result ((value : line.Written) (behind : List ℕ) → written_at text.now ≡ Ok (value, behind) → ⊥) }
{
    match read_value(text) {
        Ok((value, behind)) => Some((value, behind)),
        Err(_) => None,
    }
}

/// Whether a word may end before this text: it is empty, or a blank comes first.
pub fn ends_word(text: &str) -> bool
    ensures { result ≡ next.ends_word text.now }
{
    match text.as_bytes() {
        [] => true,
        [first, ..] => matches!(*first, b' ' | b'\t'),
    }
}
