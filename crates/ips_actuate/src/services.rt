//! The services that a change is about.

ghost use Rattle.std.specs.Prelude.{◌≡◌, IfOk, OnOk, codes};
ghost use Rattle.ips_actuate.specs.Actuators.{HasLine, IsDisabled, IsAskedFor};
ghost use Rattle.ips_actuate.specs.Gathering.{IsSetOf, IsGrown, HasKey, Disables, Asks, Gives, AreFound};

use crate::sets::{add_but, keys, lacks_key, lacks_line, lines};
use ips_action::Action;
use ips_text::Text;
use std::alloc::{AllocError, Global};
use std::collections::BTreeSet;

// The services that a change is about, by what is done to them.
#[derive(Drop)]
pub(crate) struct Services {
    // Those that are disabled.
    pub(crate) disabled: BTreeSet<Text>,
    // Those that are suspended, and enabled behind the change.
    pub(crate) suspended: BTreeSet<Text>,
    // Those that read their settings again.
    pub(crate) refreshed: BTreeSet<Text>,
    // Those that are started again.
    pub(crate) restarted: BTreeSet<Text>,
}

// What stands before and after the change: lines, and the new kinds and names.
#[derive(Drop)]
pub(crate) struct Standing {
    old_lines: BTreeSet<Text>,
    new_lines: BTreeSet<Text>,
    new_keys: BTreeSet<Text>,
}

// The services that a change from the old actions to the new ones is about.
pub(crate) fn services_of(
    alloc: Global,
    old: &[Action],
    new: &[Action],
) -> Result<Services, AllocError>
    ensures { IfOk result (λ services. AreFound old.now new.now services) }
{
    let standing = standing_of(alloc, old, new)?;
    find(alloc, old, new, &standing)
}

fn standing_of(alloc: Global, old: &[Action], new: &[Action]) -> Result<Standing, AllocError>
    ensures old_lines { IfOk result (λ s. IsSetOf (HasLine old.now) s.old_lines) }
    ensures new_lines { IfOk result (λ s. IsSetOf (HasLine new.now) s.new_lines) }
    ensures new_keys { IfOk result (λ s. IsSetOf (HasKey new.now) s.new_keys) }
{
    let old_lines = lines(alloc, old)?;
    let new_lines = lines(alloc, new)?;
    let new_keys = keys(alloc, new)?;
    Ok(Standing {
        old_lines,
        new_lines,
        new_keys,
    })
}

fn find(
    alloc: Global,
    old: &[Action],
    new: &[Action],
    standing: &Standing,
) -> Result<Services, AllocError>
    requires old_lines { IsSetOf (HasLine old.now) standing.now.old_lines }
    requires new_lines { IsSetOf (HasLine new.now) standing.now.new_lines }
    requires new_keys { IsSetOf (HasKey new.now) standing.now.new_keys }
    ensures { IfOk result (λ services. AreFound old.now new.now services) }
{
    let disabled = disabled(alloc, old, standing)?;
    let suspended = asked_for(alloc, "suspend_fmri", old, new, standing, &disabled)?;
    let refreshed = asked_for(alloc, "refresh_fmri", old, new, standing, &disabled)?;
    let restarted = asked_for(alloc, "restart_fmri", old, new, standing, &disabled)?;
    Ok(Services {
        disabled,
        suspended,
        refreshed,
        restarted,
    })
}

// The services that old actions disable.
fn disabled(
    alloc: Global,
    old: &[Action],
    standing: &Standing,
) -> Result<BTreeSet<Text>, AllocError>
    ensures { IfOk result (λ set. IsSetOf (Gives (Disables standing.now.new_lines standing.now.new_keys) old.now) set) }
{
    let mut set = BTreeSet::new(alloc);
    for action in old {
        add_disabled(alloc, &mut set, action, standing)?;
    }
    Ok(set)
}

// Adds the services that an old action disables.
fn add_disabled(
    alloc: Global,
    set: &mut BTreeSet<Text>,
    action: &Action,
    standing: &Standing,
) -> Result<(), AllocError>
    ensures { OnOk result (IsGrown (Disables standing.now.new_lines standing.now.new_keys action.now) set.old set.new) }
{
    if !lacks_line(alloc, &standing.new_lines, action)? {
        return Ok(());
    }
    if !lacks_key(alloc, &standing.new_keys, action)? {
        return Ok(());
    }
    let none = BTreeSet::new(alloc);
    add_but(alloc, set, action.attrs.values("disable_fmri"), &none)
}

// The services that actions that go or come ask for by an attribute.
fn asked_for(
    alloc: Global,
    key: &str,
    old: &[Action],
    new: &[Action],
    standing: &Standing,
    disabled: &BTreeSet<Text>,
) -> Result<BTreeSet<Text>, AllocError>
    requires old_lines { IsSetOf (HasLine old.now) standing.now.old_lines }
    requires new_lines { IsSetOf (HasLine new.now) standing.now.new_lines }
    requires disabled { IsSetOf (IsDisabled old.now new.now) disabled.now }
    ensures { IfOk result (λ set. IsSetOf (IsAskedFor key.now old.now new.now) set) }
{
    let mut set = BTreeSet::new(alloc);
    add_asked(alloc, &mut set, key, old, &standing.new_lines, disabled)?;
    add_asked(alloc, &mut set, key, new, &standing.old_lines, disabled)?;
    Ok(set)
}

// Adds the services that actions without one of these lines ask for.
fn add_asked(
    alloc: Global,
    set: &mut BTreeSet<Text>,
    key: &str,
    actions: &[Action],
    lines: &BTreeSet<Text>,
    disabled: &BTreeSet<Text>,
) -> Result<(), AllocError>
    ensures { OnOk result (IsGrown (Gives (Asks key.now lines.now disabled.now) actions.now) set.old set.new) }
{
    for action in actions {
        add_asked_by(alloc, set, key, action, lines, disabled)?;
    }
    Ok(())
}

// Adds the services that the action asks for, where its line isn't one of these.
fn add_asked_by(
    alloc: Global,
    set: &mut BTreeSet<Text>,
    key: &str,
    action: &Action,
    lines: &BTreeSet<Text>,
    disabled: &BTreeSet<Text>,
) -> Result<(), AllocError>
    ensures { OnOk result (IsGrown (Asks key.now lines.now disabled.now action.now) set.old set.new) }
{
    if !lacks_line(alloc, lines, action)? {
        return Ok(());
    }
    add_but(alloc, set, action.attrs.values(key), disabled)
}
