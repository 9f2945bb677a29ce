//! The owner of each path.

ghost use Rattle.std.specs.Prelude.{◌≡◌, ◌&&◌, not, ℕ, List, true, None, Ok, IfOk, IfSome, OnOk};
ghost use Rattle.ips_books.specs.Accounts.{resolved};
ghost use Rattle.ips_conflict.specs.Alike as alike;
ghost use Rattle.ips_text.specs.Path.{IsPath};
ghost use Rattle.ips_delivered.specs.delivered.Delivering.{AreOwnerRows, first_unknown, group_name, owner_name, owns};
ghost use Rattle.ips_delivered.specs.delivered.Kept.{AreOwners, owner_at, owner_with};

use crate::delivered::attribute::value;
use crate::delivered::unknown::owned_path;
use ips_conflict::Placed;
use ips_metafiles::OwnerRow;
use ips_passwd::Owners;
use ips_text::{Or, RelPath, Text};
use std::alloc::{AllocError, Global};
use std::collections::BTreeMap;

/// The owners of the paths of directories and files, in the order of the paths' bytes, each path once.
pub fn owner_rows<'a>(
    alloc: Global,
    accounts: &Owners,
    admitted: &[Placed<'a>],
) -> Result<Vec<OwnerRow>, AllocError>
    requires none { first_unknown accounts.now admitted.now ≡ None }
    ensures { IfOk result (λ rows. AreOwnerRows accounts.now admitted.now rows.items) }
{
    let owners = owners(alloc, admitted)?;
    let mut rows = Vec::with_capacity(alloc, owners.len())?;
    for (path, item) in owners.iter() {
        rows.push(row(alloc, accounts, path, item)?)?;
    }
    Ok(rows)
}

// The row of a path at which an action names an owner.
fn row<'a>(
    alloc: Global,
    accounts: &Owners,
    path: &[u8],
    item: &Placed<'a>,
) -> Result<OwnerRow, AllocError>
    requires path { IsPath path.now }
    requires numbers { (n : ℕ × ℕ) × (resolved accounts.now (owner_name item.now) (group_name item.now) ≡ Ok n) }
    ensures path { IfOk result (λ row. row.path.bytes ≡ path.now) }
    ensures owner { IfOk result (λ row. row.owner ≡ owner_name item.now) }
    ensures group { IfOk result (λ row. row.group ≡ group_name item.now) }
    ensures numbers { IfOk result (λ row. resolved accounts.now row.owner row.group ≡ Ok (row.uid, row.gid)) }
{
    let owner = value(item.action(), "owner");
    let group = value(item.action(), "group");
    match accounts.resolve(owner, group) {
        Ok((uid, gid)) => Ok(OwnerRow {
            path: parsed(alloc, path)?,
            owner: Text::new(alloc, owner)?,
            group: Text::new(alloc, group)?,
            uid,
            gid,
        }),
        Err(_) => unreachable!(),
    }
}

/// The path that these bytes are.
pub fn parsed(alloc: Global, bytes: &[u8]) -> Result<RelPath, AllocError>
    requires { IsPath bytes.now }
    ensures { IfOk result (λ path. path.bytes ≡ bytes.now) }
{
    match RelPath::parse(alloc, bytes) {
        Ok(path) => Ok(path),
        Err(Or::Bad(_)) => unreachable!(),
        Err(Or::OutOfMemory) => Err(AllocError),
    }
}

// The actions that tell the owners of paths, by these paths.
fn owners<'a>(
    alloc: Global,
    admitted: &[Placed<'a>],
) -> Result<BTreeMap<Vec<u8>, Placed<'a>>, AllocError>
    ensures owners { IfOk result (λ owners. AreOwners admitted.now owners) }
    ensures proper { IfOk result (λ owners. (path : List ℕ) → IfSome (owner_at owners path) (λ p. (alike.has_mode p.action ≡ true) × IsPath path)) }
{
    let mut owners = BTreeMap::new(alloc);
    for item in admitted {
        add(alloc, &mut owners, item)?;
    }
    Ok(owners)
}

// Keeps an action at the path whose owner it tells, if it does.
fn add<'a>(
    alloc: Global,
    owners: &mut BTreeMap<Vec<u8>, Placed<'a>>,
    item: &Placed<'a>,
) -> Result<(), AllocError>
    ensures owners { OnOk result ((q : List ℕ) → owner_at owners.new q ≡ owner_with q (owner_at owners.old q) item.now) }
    ensures proper { OnOk result ((q : List ℕ) → IfSome (owner_at owners.old q) (λ p. (alike.has_mode p.action ≡ true) × IsPath q) → IfSome (owner_at owners.new q) (λ p. (alike.has_mode p.action ≡ true) × IsPath q)) }
{
    let Some(path) = owned_path(item) else {
        return Ok(());
    };
    put(alloc, owners, path.as_bytes(), item)?;
    Ok(())
}

// Keeps an action at its path, where it tells the owner rather than the one that is kept there.
fn put<'a>(
    alloc: Global,
    owners: &mut BTreeMap<Vec<u8>, Placed<'a>>,
    path: &[u8],
    item: &Placed<'a>,
) -> Result<(), AllocError>
    requires path { owns path.now item.now ≡ true }
    ensures { OnOk result ((q : List ℕ) → owner_at owners.new q ≡ owner_with q (owner_at owners.old q) item.now) }
{
    if let Some(first) = owners.get(path) {
        if !comes_first(item, first) {
            return Ok(());
        }
    }
    let key = Vec::from_slice(alloc, path)?;
    owners.insert(key, item.copy())?;
    Ok(())
}

// Whether an action tells the owner rather than one before it.
fn comes_first(item: &Placed<'_>, first: &Placed<'_>) -> bool
    ensures { result ≡ (alike.takes_place item.now.action && not (alike.takes_place first.now.action)) }
{
    takes_place(item) && !takes_place(first)
}

// Whether a file takes the place of others.
fn takes_place(item: &Placed<'_>) -> bool
    ensures { result ≡ alike.takes_place item.now.action }
{
    match item.action().get("overlay") {
        Some(value) => value == "true",
        None => false,
    }
}
