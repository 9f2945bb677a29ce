//! When two actions of one key say the same.

ghost use Rattle.std.specs.Prelude.{◌≡◌, ◌∷◌, [], true, IfOk, Some, MatchOption, codes};
ghost use Rattle.std.specs.Option.{option_eq};
ghost use Rattle.std.specs.Cmp.Lexicographic.{pointwise};
ghost use Rattle.ips_digest.specs.Name.{spelling};
ghost use Rattle.ips_action.specs.Attrs.{is_same};
ghost use Rattle.ips_action.specs.Action.{IfName, payload_word};
ghost use Rattle.ips_conflict.specs.Key.{first_value};
ghost use Rattle.ips_conflict.specs.Alike as spec;
ghost use Rattle.ips_conflict.specs.Alike.{led_to, mode_of, same_attr, untagged};

use crate::placed::value;
use ips_action::{Action, ActionKind, Attr, AttrList, Values, leads_to};
use ips_digest::PayloadName;
use ips_text::{RelPath, octal};
use std::alloc::{AllocError, Global};

/// The place of a kind among those that have keys, and 9 for any other.
pub fn kind_place(kind: ActionKind) -> u8
    ensures { result ≡ spec.kind_place kind }
{
    match kind {
        ActionKind::Dir => 0,
        ActionKind::File => 1,
        ActionKind::Link => 2,
        ActionKind::Hardlink => 3,
        ActionKind::User => 4,
        ActionKind::Group => 5,
        ActionKind::Driver => 6,
        ActionKind::Legacy => 7,
        ActionKind::License => 8,
        ActionKind::Set | ActionKind::Depend | ActionKind::Signature => 9,
    }
}

/// Whether two actions are of one kind and say the same. Two files never do: they go by what they say of overlays.
pub fn alike(alloc: Global, a: &Action, b: &Action) -> Result<bool, AllocError>
    ensures { IfOk result (λ answer. answer ≡ spec.alike a.now b.now) }
{
    if kind_place(a.kind) != kind_place(b.kind) {
        return Ok(false);
    }
    match a.kind {
        ActionKind::Dir => Ok(same_access(a, b)),
        ActionKind::Link => Ok(value(a, "target") == value(b, "target")),
        ActionKind::Hardlink => same_end(alloc, a, b),
        ActionKind::User | ActionKind::Group | ActionKind::Driver | ActionKind::Legacy => {
            Ok(same_line(a.attrs.list(), b.attrs.list()))
        }
        ActionKind::License => Ok(same_payload(&a.payload, &b.payload)),
        ActionKind::Set | ActionKind::Depend | ActionKind::File | ActionKind::Signature => {
            Ok(false)
        }
    }
}

/// Whether two actions are files of which one takes the other's place, with its mode, owner and group.
pub fn overlaid(a: &Action, b: &Action) -> bool
    ensures { result ≡ spec.overlaid a.now b.now }
{
    if !are_files(a, b) {
        return false;
    }
    if !takes_over(a, b) {
        return false;
    }
    same_access(a, b)
}

fn are_files(a: &Action, b: &Action) -> bool
    ensures { result ≡ spec.are_files a.now b.now }
{
    kind_place(a.kind) == 1 && kind_place(b.kind) == 1
}

// Whether one of two files takes the place that the other gives.
fn takes_over(a: &Action, b: &Action) -> bool
    ensures { result ≡ spec.takes_over a.now b.now }
{
    if takes_place(a) && gives_place(b) {
        return true;
    }
    takes_place(b) && gives_place(a)
}

/// Whether a file takes the place of others.
pub fn takes_place(file: &Action) -> bool
    ensures { result ≡ spec.takes_place file.now }
{
    has(file, "overlay", "true")
}

// Whether a file gives its place to another: it allows an overlay, and is kept where it was changed.
fn gives_place(file: &Action) -> bool
    ensures { result ≡ spec.gives_place file.now }
{
    has(file, "overlay", "allow") && stands(file, "preserve")
}

/// Whether the value of an attribute is this one.
pub fn has(action: &Action, key: &str, wanted: &str) -> bool
    ensures { result ≡ spec.has key.now wanted.now action.now }
{
    match action.get(key) {
        Some(value) => value == wanted,
        None => false,
    }
}

fn stands(action: &Action, key: &str) -> bool
    ensures { result ≡ spec.stands key.now action.now }
{
    action.get(key).is_some()
}

/// Whether two links have one mediator, or neither has one.
pub fn same_mediator(a: &Action, b: &Action) -> bool
    ensures { result ≡ option_eq is_same (first_value (codes "mediator") a.now) (first_value (codes "mediator") b.now) }
{
    match (a.get("mediator"), b.get("mediator")) {
        (Some(x), Some(y)) => x == y,
        (None, None) => true,
        _ => false,
    }
}

// Whether two directories, or two files, have the same mode, owner and group.
fn same_access(a: &Action, b: &Action) -> bool
    requires a { spec.has_mode a.now ≡ true }
    requires b { spec.has_mode b.now ≡ true }
    ensures { result ≡ spec.same_access a.now b.now }
{
    if mode(a) != mode(b) {
        return false;
    }
    if value(a, "owner") != value(b, "owner") {
        return false;
    }
    value(a, "group") == value(b, "group")
}

/// The mode of a directory or a file.
pub fn mode(action: &Action) -> u16
    requires { spec.has_mode action.now ≡ true }
    ensures { result ≡ mode_of action.now }
{
    match octal(value(action, "mode").as_bytes()) {
        Some(mode) => mode,
        None => unreachable!(),
    }
}

// Whether two hardlinks lead to one path.
fn same_end(alloc: Global, a: &Action, b: &Action) -> Result<bool, AllocError>
    requires a { a.now.kind ≡ ActionKind.Hardlink }
    requires b { b.now.kind ≡ ActionKind.Hardlink }
    ensures { IfOk result (λ answer. answer ≡ option_eq is_same (led_to a.now) (led_to b.now)) }
{
    let x = end_of(alloc, a)?;
    let y = end_of(alloc, b)?;
    Ok(x.bytes() == y.bytes())
}

/// Where a hardlink leads.
pub fn end_of(alloc: Global, action: &Action) -> Result<RelPath, AllocError>
    requires { action.now.kind ≡ ActionKind.Hardlink }
    ensures { IfOk result (λ path. led_to action.now ≡ Some path.bytes) }
{
    let path = value(action, "path").as_bytes();
    let target = value(action, "target").as_bytes();
    match leads_to(alloc, path, target)? {
        Some(end) => Ok(end),
        None => unreachable!(),
    }
}

fn same_payload(a: &Option<PayloadName>, b: &Option<PayloadName>) -> bool
    requires a { IfName a.now }
    requires b { IfName b.now }
    ensures { result ≡ option_eq is_same (payload_word a.now) (payload_word b.now) }
{
    match (a, b) {
        (Some(x), Some(y)) => same_name(x, y),
        (None, None) => true,
        _ => false,
    }
}

// Whether two names have the same digits.
fn same_name(a: &PayloadName, b: &PayloadName) -> bool
    ensures { result ≡ is_same (spelling a.now) (spelling b.now) }
{
    let mut first = [0; 64];
    let mut second = [0; 64];
    let m = a.print(&mut first);
    let n = b.print(&mut second);
    first[..m] == second[..n]
}

// Whether two lists of attributes are the same but for tags.
fn same_line(a: AttrList<'_>, b: AttrList<'_>) -> bool
    ensures { result ≡ pointwise same_attr (untagged a.entry) (untagged b.entry) }
{
    let mut left = a;
    let mut right = b;
    loop {
        match (next_untagged(left), next_untagged(right)) {
            (None, None) => return true,
            (Some((x, more)), Some((y, others))) => {
                if !same_attr(&x, &y) {
                    return false;
                }
                left = more;
                right = others;
            }
            _ => return false,
        }
    }
}

// The first attribute that is no tag, and those behind it.
fn next_untagged<'a>(attrs: AttrList<'a>) -> Option<(Attr<'a>, AttrList<'a>)>
    ensures { MatchOption result (untagged attrs.entry ≡ []) (λ x. untagged attrs.entry ≡ x.0 ∷ untagged x.1) }
{
    let mut left = attrs;
    while let Some((attr, rest)) = left.split_first() {
        if !is_tag(attr.key()) {
            return Some((attr, rest));
        }
        left = rest;
    }
    None
}

fn same_attr(a: &Attr<'_>, b: &Attr<'_>) -> bool
    ensures { result ≡ spec.same_attr a.now b.now }
{
    a.key() == b.key() && same_values(a.values(), b.values())
}

fn same_values(a: Values<'_>, b: Values<'_>) -> bool
    ensures { result ≡ pointwise is_same a.entry b.entry }
{
    let mut left = a;
    let mut right = b;
    loop {
        match (left.split_first(), right.split_first()) {
            (None, None) => return true,
            (Some((x, more)), Some((y, others))) => {
                if x != y {
                    return false;
                }
                left = more;
                right = others;
            }
            _ => return false,
        }
    }
}

fn is_tag(key: &str) -> bool
    ensures { result ≡ spec.is_tag key.now }
{
    key.starts_with("variant.") || key.starts_with("facet.")
}
