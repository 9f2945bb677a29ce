//! Which owner is unknown.

ghost use Rattle.std.specs.Prelude.{◌≡◌, true, false, IfSome, IfNone, option_map};
ghost use Rattle.ips_books.specs.Accounts.{resolved};
ghost use Rattle.ips_conflict.specs.Alike.{has_mode};
ghost use Rattle.ips_text.specs.Path.{IsPath};
ghost use Rattle.ips_delivered.specs.delivered.Delivering as spec;
ghost use Rattle.ips_delivered.specs.delivered.Delivering.{group_name, lesser_unknown, missing_name, owned_path, owner_name};
ghost use Rattle.ips_delivered.specs.delivered.Kept.{missing_told};

use crate::delivered::attribute::value;
use ips_action::ActionKind;
use ips_books::Unknown;
use ips_conflict::Placed;
use ips_passwd::Owners;
use ips_text::{RelPath, Text};

/// The owner or the group of a path, whose name no one has.
#[derive(Drop)]
pub struct UnknownOwner {
    /// The path of the directory or file.
    pub path: RelPath,
    /// The name of the user or the group.
    pub name: Text,
}

/// The same, lent.
#[derive(Clone, Copy, Drop)]
pub struct Missing<'a> {
    pub path: &'a str,
    pub name: &'a str,
}

/// The unknown name at the least path, where one is unknown; of several there the first.
pub fn first_unknown<'a>(accounts: &Owners, admitted: &[Placed<'a>]) -> Option<Missing<'a>>
    ensures found { option_map missing_told result ≡ spec.first_unknown accounts.now admitted.now }
    ensures proper { IfSome result (λ m. IsPath m.path.now) }
{
    let mut least = None;
    for item in admitted {
        least = lesser(least, unknown_of(accounts, item));
    }
    least
}

// The path of a directory or file, with the unknown name of its owner or group, where one is unknown.
fn unknown_of<'a>(accounts: &Owners, item: &Placed<'a>) -> Option<Missing<'a>>
    ensures found { option_map missing_told result ≡ spec.unknown_of accounts.now item.now }
    ensures proper { IfSome result (λ m. IsPath m.path.now) }
{
    let Some(path) = owned_path(item) else {
        return None;
    };
    match missing_name(accounts, item) {
        Some(name) => Some(Missing { path, name }),
        None => None,
    }
}

// The unknown name of an owner or a group.
fn missing_name<'a>(accounts: &Owners, item: &Placed<'a>) -> Option<&'a str>
    ensures { option_map (λ name. name.now) result ≡ missing_name (resolved accounts.now (owner_name item.now) (group_name item.now)) item.now }
{
    let owner = value(item.action(), "owner");
    let group = value(item.action(), "group");
    match accounts.resolve(owner, group) {
        Ok(_) => None,
        Err(Unknown::Owner) => Some(owner),
        Err(Unknown::Group) => Some(group),
    }
}

/// The path at which an action names an owner: that of a directory or a file.
pub fn owned_path<'a>(item: &Placed<'a>) -> Option<&'a str>
    ensures some { IfSome result (λ path. (has_mode item.now.action ≡ true) × (path.now ≡ owned_path item.now) × IsPath path.now) }
    ensures none { IfNone result (has_mode item.now.action ≡ false) }
{
    match item.kind() {
        ActionKind::Dir | ActionKind::File => Some(value(item.action(), "path")),
        _ => None,
    }
}

// Of two the one with the lesser path, else the first.
fn lesser<'a>(found: Option<Missing<'a>>, other: Option<Missing<'a>>) -> Option<Missing<'a>>
    ensures told { option_map missing_told result ≡ lesser_unknown (option_map missing_told found.entry) (option_map missing_told other.entry) }
    ensures proper { IfSome found.entry (λ m. IsPath m.path.now) → IfSome other.entry (λ m. IsPath m.path.now) → IfSome result (λ m. IsPath m.path.now) }
{
    match (found, other) {
        (Some(a), Some(b)) if a.path > b.path => Some(b),
        (Some(a), _) => Some(a),
        (None, b) => b,
    }
}
