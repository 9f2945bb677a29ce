//! What an action says of an owner.

ghost use Rattle.std.specs.Prelude.{◌≡◌};
ghost use Rattle.ips_action.specs.Action.{IsAction};
ghost use Rattle.ips_conflict.specs.Key.{value_of};

use ips_action::Action;

/// The first value of an attribute, or nothing where it doesn't stand.
pub fn value<'a>(action: &'a Action, key: &str) -> &'a str
    ensures value { result.now ≡ value_of key.now action.now }
    ensures action { IsAction action.now }
{
    match action.get(key) {
        Some(value) => value,
        None => "",
    }
}
