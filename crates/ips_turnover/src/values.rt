//! What actions say.

ghost use Rattle.std.specs.Prelude.{◌≡◌};
ghost use Rattle.ips_conflict.specs.Key as key_spec;
ghost use Rattle.ips_turnover.specs.Turnover as spec;

use ips_action::Action;
use ips_books::number_in;

/// The value of an attribute; an action that lacks it has the empty one.
pub fn value_of<'a>(action: &'a Action, key: &str) -> &'a str
    ensures { result.now ≡ key_spec.value_of key.now action.now }
{
    given_or(action, key, "")
}

/// The value of an attribute, or what stands for it where it isn't given.
pub fn given_or<'a>(action: &'a Action, key: &str, other: &'a str) -> &'a str
    ensures { result.now ≡ spec.given_or other.now key.now action.now }
{
    match action.get(key) {
        Some(value) => value,
        None => other,
    }
}

/// The number that an attribute gives.
pub fn number_given(action: &Action, key: &str) -> Option<u32>
    ensures { result ≡ spec.number_given key.now action.now }
{
    match action.get(key) {
        Some(value) => number_in(value.as_bytes()),
        None => None,
    }
}

/// Whether the action is of this kind.
pub fn is_a(action: &Action, kind: &str) -> bool
    ensures { result ≡ spec.is_a kind.now action.now }
{
    action.kind.name() == kind
}
