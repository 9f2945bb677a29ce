//! The words behind `->`.

ghost use Rattle.std.specs.Prelude.{◌≡◌, ◌∷◌, [], IfOk, IfSome, IfNone};
ghost use Rattle.ips_line.specs.Line.{IsRunOfBytes, in_key};
ghost use Rattle.ips_rule.specs.declared.operation.Operation as declared;
ghost use Rattle.ips_rule.specs.Rules.{operation_words, IsOperation};

use crate::keys::is_key;
use ips_rule::Operation;
use ips_text::Text;
use std::alloc::{AllocError, Global};

/// What the words behind `->` do, or None where they are no operation.
pub fn read_operation(alloc: Global, words: &[Text]) -> Result<Option<Operation>, AllocError>
    ensures some { IfOk result (λ found. IfSome found (λ o. (operation_words o ≡ words.now) × IsOperation o)) }
    ensures none { IfOk result (λ found. IfNone found ((o : declared.Operation) → IsOperation o → operation_words o ≡ words.now → ⊥)) }
{
    match words {
        [verb] if verb.as_str() == "drop" => Ok(Some(Operation::Drop)),
        [verb, key, value] if is_key(key.as_str()) => with_one(alloc, verb.as_str(), key, value),
        [verb, key, pattern, template] if verb.as_str() == "edit" && is_key(key.as_str()) => {
            Ok(Some(Operation::Edit {
                key: key.copy(alloc)?,
                pattern: pattern.copy(alloc)?,
                template: template.copy(alloc)?,
            }))
        }
        _ => Ok(None),
    }
}

// The operation of this name with a key and one word more.
fn with_one(
    alloc: Global,
    verb: &str,
    key: &Text,
    word: &Text,
) -> Result<Option<Operation>, AllocError>
    requires { IsRunOfBytes in_key key.now }
    ensures some { IfOk result (λ found. IfSome found (λ o. (operation_words o ≡ verb.now ∷ key.now ∷ word.now ∷ []) × IsOperation o)) }
    ensures none { IfOk result (λ found. IfNone found ((o : declared.Operation) → operation_words o ≡ verb.now ∷ key.now ∷ word.now ∷ [] → ⊥)) }
{
    let key = key.copy(alloc)?;
    let word = word.copy(alloc)?;
    Ok(match verb {
        "add" => Some(Operation::Add { key, value: word }),
        "default" => Some(Operation::Default { key, value: word }),
        "set" => Some(Operation::Set { key, value: word }),
        "delete" => Some(Operation::Delete { key, pattern: word }),
        _ => None,
    })
}
