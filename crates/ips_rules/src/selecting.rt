//! What the words up to `->` ask for.

ghost use Rattle.std.specs.Prelude.{◌≡◌, ◌++◌, ◌∷◌, List, ℕ, IfOk, IfSome, IfNone};
ghost use Rattle.ips_rule.specs.declared.selector.Selector as declared;
ghost use Rattle.ips_rule.specs.Rules.{selector_word, IsSelector};
ghost use Rattle.ips_rules.specs.Next.{Asks};

use crate::keys::key_at;
use crate::terms::{next_term, word};
use ips_action::ActionKind;
use ips_rule::Selector;
use ips_text::Text;
use std::alloc::{AllocError, Global};

/// What the words up to `->` ask for, and what stands behind it; None where there is no `->`, or a word before it asks for nothing.
pub fn selectors(alloc: Global, text: &str) -> Result<Option<(Vec<Selector>, &str)>, AllocError>
    ensures some { IfOk result (λ found. IfSome found (λ x. Asks x.0.items text.now x.1.now)) }
    ensures none { IfOk result (λ found. IfNone found ((list : List declared.Selector) (behind : List ℕ) → Asks list text.now behind → ⊥)) }
{
    let mut list = Vec::new(alloc);
    let mut rest = text;
    while let Some((term, after)) = next_term(rest) {
        let word = word(alloc, term)?;
        if word.as_str() == "->" {
            return Ok(Some((list, after)));
        }
        let Some(selector) = read_selector(alloc, word.as_str())? else {
            return Ok(None);
        };
        list.push(selector)?;
        rest = after;
    }
    Ok(None)
}

// What a word asks for.
fn read_selector(alloc: Global, word: &str) -> Result<Option<Selector>, AllocError>
    ensures some { IfOk result (λ found. IfSome found (λ s. (selector_word s ≡ word.now) × IsSelector s)) }
    ensures none { IfOk result (λ found. IfNone found ((s : declared.Selector) → IsSelector s → selector_word s ≡ word.now → ⊥)) }
{
    if let Some(kind) = ActionKind::named(word) {
        return Ok(Some(Selector::Kind(kind)));
    }
    match key_at(word) {
        Some((key, pattern)) => Ok(Some(Selector::Criterion {
            key: Text::new(alloc, key)?,
            pattern: Text::new(alloc, pattern)?,
        })),
        None => Ok(None),
    }
}
