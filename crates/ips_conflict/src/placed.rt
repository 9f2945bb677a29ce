//! Actions in their places, and their keys.

ghost use Rattle.std.specs.Prelude.{◌≡◌, ◌<◌, ◌↔◌, IfOk, IsTrue, length, string_bytes};
ghost use Rattle.ips_action.specs.Action.{IsAction};
ghost use Rattle.ips_conflict.specs.Key as spec;
ghost use Rattle.ips_conflict.specs.Order.{place_cmp};

use ips_action::{Action, ActionKind};
use ips_text::Text;
use std::alloc::{AllocError, Global};
use std::cmp::Ordering;
use std::marker::Model;

/// An action in its place: the package that delivers it, and its line there. Stem and action are lent.
#[derive(Drop)]
pub struct Placed<'a> {
    stem: &'a Text,
    line: u64,
    action: &'a Action,
}

impl<'a> Model for Placed<'a> {
    ghost use Rattle.ips_conflict.specs.Delivered.{Delivered};

    ghost Value = { Delivered };

    ghost view = { λ p. record { stem = p.stem.now; line = p.line; action = p.action.now } };
}

impl<'a> Placed<'a> {
    /// The action of a line, by its number, of the package of this stem.
    pub fn new(stem: &'a Text, line: u64, action: &'a Action) -> Placed<'a>
        ensures { result ≡ record { stem = stem.now; line = line; action = action.now } }
    {
        Placed { stem, line, action }
    }

    /// The same action in its place.
    pub fn copy(&self) -> Placed<'a>
        ensures { result ≡ self.now }
    {
        Placed {
            stem: self.stem,
            line: self.line,
            action: self.action,
        }
    }

    /// The package's stem.
    pub fn stem(&self) -> &'a Text
        ensures { result.now ≡ self.now.stem }
    {
        self.stem
    }

    /// The number of the action's line in the package's manifest.
    pub fn line(&self) -> u64
        ensures { result ≡ self.now.line }
    {
        self.line
    }

    /// The action.
    pub fn action(&self) -> &'a Action
        ensures { result.now ≡ self.now.action }
    {
        self.action
    }

    /// The action's kind.
    pub fn kind(&self) -> ActionKind
        ensures { result ≡ self.now.action.kind }
    {
        let action = self.action;
        action.kind
    }
}

/// What an action may clash over. Keys of one text go by the order of their sorts.
#[derive(Clone, Copy, Debug, PartialEq, Eq, Drop)]
pub enum Sort {
    /// The path of a directory, file or link.
    Path,
    /// The name of a user.
    User,
    /// The name of a group of users.
    Group,
    /// The name of a driver.
    Driver,
    /// The name of a legacy package.
    Legacy,
    /// A package and the name of its license.
    License,
}

impl Sort {
    /// The sort of this rank.
    pub(crate) fn ranked(rank: u8) -> Sort
        requires { rank < 6 }
        ensures { spec.sort_rank result ≡ rank }
    {
        match rank {
            0 => Sort::Path,
            1 => Sort::User,
            2 => Sort::Group,
            3 => Sort::Driver,
            4 => Sort::Legacy,
            _ => Sort::License,
        }
    }

    /// The rank of the sort.
    pub(crate) fn rank(self) -> u8
        ensures { result ≡ spec.sort_rank self }
    {
        match self {
            Sort::Path => 0,
            Sort::User => 1,
            Sort::Group => 2,
            Sort::Driver => 3,
            Sort::Legacy => 4,
            Sort::License => 5,
        }
    }
}

/// The sort of an action's key, where it has one.
pub(crate) fn sort_of(item: &Placed<'_>) -> Option<Sort>
    ensures { result ≡ spec.sort_of item.now.action.kind }
{
    match item.kind() {
        ActionKind::Dir | ActionKind::File | ActionKind::Link | ActionKind::Hardlink => {
            Some(Sort::Path)
        }
        ActionKind::User => Some(Sort::User),
        ActionKind::Group => Some(Sort::Group),
        ActionKind::Driver => Some(Sort::Driver),
        ActionKind::License => Some(Sort::License),
        ActionKind::Legacy => Some(Sort::Legacy),
        ActionKind::Set | ActionKind::Depend | ActionKind::Signature => None,
    }
}

/// The text of an action's key of this sort.
pub(crate) fn key_text(alloc: Global, sort: Sort, placed: &Placed<'_>) -> Result<String, AllocError>
    ensures { IfOk result (λ text. string_bytes text ≡ spec.text_of sort placed.now) }
{
    match sort {
        Sort::Path => Ok(String::from_str(alloc, value(placed.action(), "path"))?),
        Sort::User => Ok(String::from_str(alloc, value(placed.action(), "username"))?),
        Sort::Group => Ok(String::from_str(alloc, value(placed.action(), "groupname"))?),
        Sort::Driver => Ok(String::from_str(alloc, value(placed.action(), "name"))?),
        Sort::Legacy => Ok(String::from_str(alloc, value(placed.action(), "pkg"))?),
        Sort::License => license_text(alloc, placed),
    }
}

fn license_text(alloc: Global, placed: &Placed<'_>) -> Result<String, AllocError>
    ensures { IfOk result (λ text. string_bytes text ≡ spec.text_of Sort.License placed.now) }
{
    let mut text = String::from_str(alloc, placed.stem().as_str())?;
    text.push_str(" ")?;
    text.push_str(value(placed.action(), "license"))?;
    Ok(text)
}

/// The first value of an attribute, or nothing where it doesn't stand.
pub(crate) fn value<'a>(action: &'a Action, key: &str) -> &'a str
    ensures value { result.now ≡ spec.value_of key.now action.now }
    ensures action { IsAction action.now }
{
    match action.get(key) {
        Some(value) => value,
        None => "",
    }
}

/// Whether the kind is that of a directory.
pub(crate) fn is_dir(kind: ActionKind) -> bool
    ensures { result ≡ spec.is_dir kind }
{
    matches!(kind, ActionKind::Dir)
}

/// Whether the action delivers a file.
pub(crate) fn is_file(item: &Placed<'_>) -> bool
    ensures { IsTrue result ↔ (item.now.action.kind ≡ ActionKind.File) }
{
    matches!(item.kind(), ActionKind::File)
}

/// Whether the kind is that of a link, symbolic or hard.
pub(crate) fn is_link(kind: ActionKind) -> bool
    ensures { result ≡ spec.is_link kind }
{
    matches!(kind, ActionKind::Link | ActionKind::Hardlink)
}

/// Whether the kind is that of a legacy package's entry.
pub(crate) fn is_legacy(kind: ActionKind) -> bool
    ensures { result ≡ spec.is_legacy kind }
{
    matches!(kind, ActionKind::Legacy)
}

/// Whether the action at one place stands before that at another: by stem, then by line, then by place.
pub(crate) fn is_earlier(placed: &[Placed<'_>], i: usize, j: usize) -> bool
    requires i { i < length placed.now }
    requires j { j < length placed.now }
    ensures { IsTrue result ↔ (place_cmp placed.now i j ≡ Ordering.Less) }
{
    place_order(placed, i, j) == Ordering::Less
}

fn place_order(placed: &[Placed<'_>], i: usize, j: usize) -> Ordering
    requires i { i < length placed.now }
    requires j { j < length placed.now }
    ensures { result ≡ place_cmp placed.now i j }
{
    let a = &placed[i];
    let b = &placed[j];
    a.stem()
        .cmp(b.stem())
        .then(a.line().cmp(&b.line()))
        .then(i.cmp(&j))
}
