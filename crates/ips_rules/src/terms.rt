//! Words up to `->`.

ghost use Rattle.std.specs.Prelude.{◌≡◌, ◌++◌, ◌∷◌, true, List, ℕ, Ok, IfOk, IfSome, IfNone};
ghost use Rattle.ips_line.specs.Line.{IsRunOfBytes, in_key, Quoted};
ghost use Rattle.ips_line.specs.Reading as reading;
ghost use Rattle.ips_line.specs.Reading.{written_at};
ghost use Rattle.ips_rule.specs.Rules.{Word, IsTerm, QuotesValue, written_word};
ghost use Rattle.ips_rules.specs.Next.{TermAt, IsNext, IsNoWord};
ghost use Rattle.ips_rules.specs.Seen.{seen_term};

use crate::keys::key_at;
use crate::words::{behind_blanks, ends_word, value_at};
use ips_line::{Written, value};
use ips_text::Text;
use std::alloc::{AllocError, Global};

/// A word up to `->`, as it is written.
#[derive(Clone, Copy, Drop)]
pub enum Term<'a> {
    /// A value.
    Value(Written<'a>),
    /// A key, `=`, and a value between two quotes.
    Keyed {
        key: &'a str,
        quote: u8,
        inside: &'a str,
    },
}

/// The next word up to `->`, and what stands behind it; None where no such word comes next that ends at a blank or with the text.
pub fn next_term(text: &str) -> Option<(Term<'_>, &str)>
    ensures some { IfSome result (λ x. IsNext IsTerm text.now (seen_term x.0) x.1.now) }
    ensures none { IfNone result (IsNoWord IsTerm text.now) }
{
    let (term, behind) = term_at(behind_blanks(text)?)?;
    if ends_word(behind) {
        Some((term, behind))
    } else {
        None
    }
}

// The word that stands first, and what stands behind it; None where none does.
fn term_at(text: &str) -> Option<(Term<'_>, &str)>
    ensures some { IfSome result (λ x. TermAt text.now (seen_term x.0) x.1.now) }
    ensures none { IfNone result ((word : Word) (behind : List ℕ) → TermAt text.now word behind → ⊥) }
{
    match quoting_key(text) {
        Some((key, rest)) => {
            let (quote, inside, behind) = quoted_at(rest)?;
            Some((Term::Keyed { key, quote, inside }, behind))
        }
        None => {
            let (value, behind) = value_at(text)?;
            Some((Term::Value(value), behind))
        }
    }
}

// The key at the front of the text, and what begins with a quote behind the `=` that follows it.
fn quoting_key(text: &str) -> Option<(&str, &str)>
    ensures some { IfSome result (λ x. IsRunOfBytes in_key x.0.now × (text.now ≡ x.0.now ++ 61 ∷ x.1.now) × (reading.begins_quote x.1.now ≡ true)) }
    ensures none { IfNone result (QuotesValue text.now → ⊥) }
{
    let (key, rest) = key_at(text)?;
    if begins_quote(rest) {
        Some((key, rest))
    } else {
        None
    }
}

// Whether a quote comes first.
fn begins_quote(text: &str) -> bool
    ensures { result ≡ reading.begins_quote text.now }
{
    matches!(text.as_bytes(), [b'"' | b'\'', ..])
}

// The quote and the inside of the value that stands first between two quotes, and what stands behind it.
fn quoted_at(text: &str) -> Option<(u8, &str, &str)>
    ensures some { IfSome result (λ x. written_at text.now ≡ Ok (Quoted x.0 x.1.now, x.2.now)) }
    ensures none { IfNone result ((quote : ℕ) (inside behind : List ℕ) → written_at text.now ≡ Ok (Quoted quote inside, behind) → ⊥) }
{
    let (value, behind) = value_at(text)?;
    match value {
        Written::Quoted(quote, inside) => Some((quote, inside, behind)),
        Written::Plain(_) => None,
    }
}

/// The word that is written so.
pub fn word(alloc: Global, term: Term<'_>) -> Result<Text, AllocError>
    requires { IsTerm (seen_term term) }
    ensures { IfOk result (λ word. word ≡ written_word (seen_term term.entry)) }
{
    match term {
        Term::Value(written) => value(alloc, written),
        Term::Keyed { key, quote, inside } => {
            let value = value(alloc, Written::Quoted(quote, inside))?;
            joined(alloc, key, value.as_str())
        }
    }
}

// `key=value`.
fn joined(alloc: Global, key: &str, value: &str) -> Result<Text, AllocError>
    ensures { IfOk result (λ word. word ≡ key.now ++ 61 ∷ value.now) }
{
    let mut word = String::new(alloc);
    word.push_str(key)?;
    word.push_str("=")?;
    word.push_str(value)?;
    Ok(Text::from_string(word))
}
