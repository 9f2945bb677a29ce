//! Keys of attributes.

ghost use Rattle.std.specs.Prelude.{◌≡◌, ◌↔◌, ◌++◌, ◌∷◌, List, ℕ, IsTrue, IfSome, IfNone, MatchOption};
ghost use Rattle.ips_line.specs.Line.{IsRunOfBytes, in_key};
ghost use Rattle.ips_line.specs.Reading as reading;

use ips_line::{Class, run};

/// Whether the word is a key: one or more characters other than blank, tab, `=`, `"` and `'`.
pub fn is_key(word: &str) -> bool
    ensures { IsTrue result ↔ IsRunOfBytes in_key word.now }
{
    has_key_bytes(word)
}

// The same, as a test.
fn has_key_bytes(word: &str) -> bool
    ensures { result ≡ reading.is_key word.now }
{
    let (key, rest) = run(Class::Key, word);
    !key.is_empty() && rest.is_empty()
}

/// The key at the front of the text, and what stands behind the `=` that follows it; None where no key with an `=` stands there.
pub fn key_at(text: &str) -> Option<(&str, &str)>
    ensures some { IfSome result (λ x. IsRunOfBytes in_key x.0.now × (text.now ≡ x.0.now ++ 61 ∷ x.1.now)) }
    ensures none { IfNone result ((key rest : List ℕ) → IsRunOfBytes in_key key → text.now ≡ key ++ 61 ∷ rest → ⊥) }
{
    let (key, rest) = run(Class::Key, text);
    let behind = behind_equals(rest)?;
    if key.is_empty() {
        None
    } else {
        Some((key, behind))
    }
}

// What stands behind the `=` that comes first.
fn behind_equals(text: &str) -> Option<&str>
    ensures { MatchOption result ((rest : List ℕ) → text.now ≡ 61 ∷ rest → ⊥) (λ rest. text.now ≡ 61 ∷ rest.now) }
{
    text.strip_prefix('=')
}
