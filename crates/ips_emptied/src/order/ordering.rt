//! The order of a plan.

ghost use Rattle.std.specs.Prelude.{◌≡◌, ◌++◌, ◌&&◌, ◌<◌, [], ℕ, List, IfOk, OnOk, length, map};
ghost use Rattle.std.specs.List.{AllByRecursion};
ghost use Rattle.std.specs.List.Sorted.{IsStrictlySortedBy};
ghost use Rattle.std.specs.Ordering.{nat_cmp};
ghost use Rattle.std.specs.Cmp.Lexicographic.{slice_cmp};
ghost use Rattle.ips_outside.specs.Image.{Image};
ghost use Rattle.ips_after.specs.After as after;
ghost use Rattle.ips_after.specs.Planned as planned;
ghost use Rattle.ips_after.specs.Request.{IsRequest, Request};
ghost use Rattle.ips_change.specs.Told.{naming};
ghost use Rattle.ips_change.specs.survey.Marks.{IsMarkOf, row_paths};
ghost use Rattle.ips_change.specs.survey.Said.{says_laid};
ghost use Rattle.ips_change.specs.survey.Tables.{IsTable};
ghost use Rattle.ips_emptied.specs.order.Chosen.{path_in, turned_places};
ghost use Rattle.ips_emptied.specs.declared.order.group.Group.TheVariants as group;
ghost use Rattle.ips_emptied.specs.order.Marking.{AreAsLong, AreMarks, ordered_places, places_in};
ghost use Rattle.ips_emptied.specs.order.Groups.{group_at};

use crate::order::choosing::{add, add_back};
use crate::order::group::{Facts, Group, is_in};
use ips_change::survey::{Said, Table, marked_below};
use std::alloc::{AllocError, Global};

// A table, with marks beside its rows.
#[derive(Drop)]
struct Marked<'a> {
    table: &'a Table<'a>,
    // The paths at which a directory is made for what is made below.
    supports: &'a [bool],
    // Those of account files.
    accounts: &'a [bool],
    // Those above account files that are laid.
    above: &'a [bool],
}

/// The rows of the table in the order of a plan, by their places, each that may have a step once. `supports` marks the paths at which a directory is made
/// for what is made below, and `accounts` those of account files.
pub fn order(
    alloc: Global,
    table: &Table<'_>,
    supports: &[bool],
    accounts: &[bool],
) -> Result<Vec<usize>, AllocError>
    requires order { IsStrictlySortedBy (slice_cmp nat_cmp) (row_paths table.now.rows.items) }
    requires said { length table.now.said.items ≡ length table.now.rows.items }
    requires supports { length supports.now ≡ length table.now.rows.items }
    requires accounts { length accounts.now ≡ length table.now.rows.items }
    ensures within { IfOk result (λ order. AllByRecursion (λ i. i < length table.now.rows.items) order.items) }
    ensures ordered { IfOk result (λ order. (r : Request) (t : Image) → IsRequest r → IsTable r table.now.rows.items table.now.said.items
        → supports.now ≡ map (after.is_support (naming r) t) (row_paths table.now.rows.items) → accounts.now ≡ map r.over.is_account (row_paths table.now.rows.items)
        → map (path_in (row_paths table.now.rows.items)) order.items ≡ planned.plan_order (naming r) t) }
{
    let laid = account_marks(alloc, table, accounts)?;
    let above = marked_below(alloc, &table.rows, &laid)?;
    let mut order = Vec::with_capacity(alloc, table.rows.len())?;
    let marked = Marked {
        table,
        supports,
        accounts,
        above: &above,
    };
    match add_all(alloc, &marked, &mut order) {
        Ok(()) => Ok(order),
        Err(fault) => Err(fault),
    }
}

// Adds the rows of all groups to none.
fn add_all(alloc: Global, marked: &Marked<'_>, order: &mut Vec<usize>) -> Result<(), AllocError>
    requires long { AreAsLong marked.now }
    requires none { order.old.items ≡ [] }
    ensures within { OnOk result (AllByRecursion (λ i. i < length marked.now.table.now.rows.items) order.new.items) }
    ensures ordered { OnOk result ((r : Request) (t : Image) → AreMarks r t marked.now → order.new.items ≡ ordered_places r t (row_paths marked.now.table.now.rows.items)) }
{
    add_gone(alloc, marked, order)?;
    add_group(alloc, marked, Group::OldDirs, order)?;
    add_group(alloc, marked, Group::OldOthers, order)?;
    add_group(alloc, marked, Group::NewDirs, order)?;
    add_group(alloc, marked, Group::NewOthers, order)?;
    add_group(alloc, marked, Group::Accounts, order)?;
    add_group(alloc, marked, Group::Hards, order)?;
    add_group(alloc, marked, Group::Records, order)
}

// Adds the rows of what is only old, from the last on.
fn add_gone(alloc: Global, marked: &Marked<'_>, order: &mut Vec<usize>) -> Result<(), AllocError>
    requires long { AreAsLong marked.now }
    requires within { AllByRecursion (λ i. i < length marked.now.table.now.rows.items) order.old.items }
    ensures within { OnOk result (AllByRecursion (λ i. i < length marked.now.table.now.rows.items) order.new.items) }
    ensures added { OnOk result ((r : Request) (t : Image) → AreMarks r t marked.now → order.new.items ≡ order.old.items ++ turned_places (places_in r t (row_paths marked.now.table.now.rows.items) group.Gone)) }
{
    let marks = group_marks(alloc, marked, Group::Gone)?;
    add_back(&marks, order)
}

// Adds the rows of a group.
fn add_group(
    alloc: Global,
    marked: &Marked<'_>,
    group: Group,
    order: &mut Vec<usize>,
) -> Result<(), AllocError>
    requires long { AreAsLong marked.now }
    requires within { AllByRecursion (λ i. i < length marked.now.table.now.rows.items) order.old.items }
    ensures within { OnOk result (AllByRecursion (λ i. i < length marked.now.table.now.rows.items) order.new.items) }
    ensures added { OnOk result ((r : Request) (t : Image) → AreMarks r t marked.now → order.new.items ≡ order.old.items ++ places_in r t (row_paths marked.now.table.now.rows.items) group) }
{
    let marks = group_marks(alloc, marked, group)?;
    add(&marks, order)
}

// At each row whether its path is in the group.
fn group_marks(alloc: Global, marked: &Marked<'_>, group: Group) -> Result<Vec<bool>, AllocError>
    requires long { AreAsLong marked.now }
    ensures long { IfOk result (λ marks. length marks.items ≡ length marked.now.table.now.rows.items) }
    ensures marks { IfOk result (λ marks. (r : Request) (t : Image) → AreMarks r t marked.now → marks.items ≡ map (group_at r t group) (row_paths marked.now.table.now.rows.items)) }
{
    let mut marks = Vec::with_capacity(alloc, marked.table.rows.len())?;
    for i in 0..marked.table.rows.len() {
        let row = &marked.table.rows[i];
        let facts = Facts {
            old: row.old,
            new: row.new,
            said: marked.table.said[i],
            support: marked.supports[i],
            account: marked.accounts[i],
            above: marked.above[i],
        };
        marks.push(is_in(group, &facts))?;
    }
    Ok(marks)
}

// The marks of the account files that are laid.
fn account_marks(
    alloc: Global,
    table: &Table<'_>,
    accounts: &[bool],
) -> Result<Vec<bool>, AllocError>
    requires said { length table.now.said.items ≡ length table.now.rows.items }
    requires accounts { length accounts.now ≡ length table.now.rows.items }
    ensures long { IfOk result (λ marks. length marks.items ≡ length table.now.rows.items) }
    ensures marks { IfOk result (λ marks. (r : Request) → IsTable r table.now.rows.items table.now.said.items → accounts.now ≡ map r.over.is_account (row_paths table.now.rows.items)
        → IsMarkOf (planned.lays_account r) (row_paths table.now.rows.items) marks.items) }
{
    let mut marks = Vec::with_capacity(alloc, table.rows.len())?;
    for i in 0..table.rows.len() {
        marks.push(is_laid(accounts[i], table.said[i]))?;
    }
    Ok(marks)
}

// Whether an account file is laid, where the path is one's or not.
fn is_laid(account: bool, said: Option<Said>) -> bool
    ensures { result ≡ (account && says_laid said) }
{
    account && matches!(said, Some(Said::Lays))
}
