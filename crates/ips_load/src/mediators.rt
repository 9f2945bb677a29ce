//! What is set of a mediator: a line of three fields.

ghost use Rattle.std.specs.Prelude.{◌≡◌, IfOk, IfNone, IfSome};
ghost use Rattle.ips_records.specs.Listed.{Sole};
ghost use Rattle.ips_mediate.specs.declared.set.SetMediator as declared;
ghost use Rattle.ips_state.specs.Form.{IsSetting};
ghost use Rattle.ips_state.specs.Text.{mediator_line};

use ips_mediate::SetMediator;
use ips_records::{cut, if_version, if_word, word};
use std::alloc::{AllocError, Global};

/// What the line sets of a mediator, where it does.
pub fn setting(alloc: Global, bytes: &[u8]) -> Result<Option<SetMediator>, AllocError>
    ensures sole { IfOk result (λ found. IfSome found (Sole mediator_line IsSetting)) }
    ensures of_bytes { IfOk result (λ found. IfSome found (λ m. mediator_line m ≡ bytes.now)) }
    ensures none { IfOk result (λ found. IfNone found ((m : declared.SetMediator) → IsSetting m → mediator_line m ≡ bytes.now → ⊥)) }
{
    let Some((first, behind)) = cut(b' ', bytes) else {
        return Ok(None);
    };
    let Some((second, third)) = cut(b' ', behind) else {
        return Ok(None);
    };
    let Some(name) = word(alloc, first)? else {
        return Ok(None);
    };
    let Some(version) = if_version(alloc, second)? else {
        return Ok(None);
    };
    let Some(implementation) = if_word(alloc, third)? else {
        return Ok(None);
    };
    Ok(Some(SetMediator {
        name,
        version,
        implementation,
    }))
}
