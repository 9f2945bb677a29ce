//! The users and groups that packages deliver.

ghost use Rattle.std.specs.Prelude.{◌≡◌, ◌++◌, ◌∷◌, [], IfOk, OnOk, filter, map};
ghost use Rattle.ips_action.specs.Action.{Fields};
ghost use Rattle.ips_account_files.specs.Around.{is_account};
ghost use Rattle.ips_plan.specs.image_plan.Accounts.{AreAccounts};

use ips_action::{Action, ActionKind};
use ips_conflict::Placed;
use ips_delivered::delivered::admitted;
use ips_state::State;
use std::alloc::{AllocError, Global};

/// The users and groups among the admitted actions of the state's packages.
pub(crate) fn accounts_of(alloc: Global, state: &State) -> Result<Vec<Action>, AllocError>
    ensures { IfOk result (λ actions. AreAccounts state.now actions.items) }
{
    let admitted = admitted(alloc, &state.installed, &state.settings)?;
    let mut accounts = Vec::new(alloc);
    add_accounts(alloc, &admitted, &mut accounts)?;
    Ok(accounts)
}

// Adds the users and groups of these actions.
fn add_accounts(
    alloc: Global,
    admitted: &[Placed<'_>],
    accounts: &mut Vec<Action>,
) -> Result<(), AllocError>
    requires { accounts.old.items ≡ [] }
    ensures { OnOk result (accounts.new.items ≡ filter is_account (map (λ p. p.action) admitted.now)) }
{
    for item in admitted {
        add_account(alloc, item, accounts)?;
    }
    Ok(())
}

// Adds the action, if it is a user or a group.
fn add_account(
    alloc: Global,
    item: &Placed<'_>,
    accounts: &mut Vec<Action>,
) -> Result<(), AllocError>
    ensures { OnOk result (accounts.new.items ≡ accounts.old.items ++ filter is_account (item.now.action ∷ [])) }
{
    if !is_account_kind(item.kind()) {
        return Ok(());
    }
    accounts.push(item.action().copy(alloc)?)?;
    Ok(())
}

// Whether the kind is that of a user or a group.
pub(crate) fn is_account_kind(kind: ActionKind) -> bool
    ensures { (a : Fields) → a.kind ≡ kind → result ≡ is_account a }
{
    matches!(kind, ActionKind::User | ActionKind::Group)
}
