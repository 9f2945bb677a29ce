//! Users and groups among actions.

ghost use Rattle.std.specs.Prelude.{◌≡◌};
ghost use Rattle.std.specs.List.{list_any};
ghost use Rattle.ips_account_files.specs.Around as spec;

use ips_action::Action;

/// Whether a user or a group is among the old actions or the new ones.
pub(crate) fn has_accounts(old: &[Action], new: &[Action]) -> bool
    ensures { result ≡ spec.has_accounts old.now new.now }
{
    has_account(old) || has_account(new)
}

// Whether a user or a group is among these actions.
fn has_account(actions: &[Action]) -> bool
    ensures { result ≡ list_any spec.is_account actions.now }
{
    actions.iter().any(is_account)
}

// Whether the action is a user or a group.
fn is_account(action: &Action) -> bool
    ensures { result ≡ spec.is_account action.now }
{
    let kind = action.kind.name();
    kind == "user" || kind == "group"
}
