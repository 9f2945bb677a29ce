//! What an action says.

ghost use Rattle.std.specs.Prelude.{◌≡◌, ◌<◌, IfOk, IfSome, Some, option_map, true, codes};
ghost use Rattle.ips_text.specs.Path.{IsPath};
ghost use Rattle.ips_action.specs.Action.{IsAction};
ghost use Rattle.ips_action.specs.Check.{IsLinkTarget};
ghost use Rattle.ips_mediate.specs.Mediation.{link_value};
ghost use Rattle.ips_conflict.specs.Key.{value_of, sort_of};
ghost use Rattle.ips_conflict.specs.Alike.{has_mode, led_to, mode_of};
ghost use Rattle.ips_conflict.specs.Alike as alike;
ghost use Rattle.ips_conflict.specs.declared.placed.Sort as sorts;
ghost use Rattle.ips_meaning.specs.Places.{given_path};
ghost use Rattle.ips_meaning.specs.Want.{MeansEntry};
ghost use Rattle.ips_meaning.specs.Together.{HasProperParts};

use crate::entry::Entry;
use ips_action::{Action, ActionKind, leads_to};
use ips_conflict::{Placed, Sort};
use ips_text::{Or, RelPath, Text, octal};
use std::alloc::{AllocError, Global};

/// The first value of an attribute, or nothing where it doesn't stand.
pub fn value<'a>(action: &'a Action, key: &str) -> &'a str
    ensures value { result.now ≡ value_of key.now action.now }
    ensures action { IsAction action.now }
{
    match action.get(key) {
        Some(value) => value,
        None => "",
    }
}

/// The mediator of a link, symbolic or hard, where it has one.
pub fn mediator(action: &Action) -> Option<&str>
    ensures { option_map (λ text. text.now) result ≡ link_value (codes "mediator") action.now }
{
    match action.kind {
        ActionKind::Link | ActionKind::Hardlink => action.get("mediator"),
        _ => None,
    }
}

/// The path that an action gives, where it gives one.
pub fn path_of<'a>(item: &Placed<'a>) -> Option<&'a str>
    ensures path { option_map (λ text. text.now) result ≡ given_path item.now }
    ensures proper { IfSome result (λ text. IsPath text.now) }
{
    match item.kind() {
        ActionKind::Dir | ActionKind::File | ActionKind::Link | ActionKind::Hardlink => {
            Some(value(item.action(), "path"))
        }
        _ => None,
    }
}

/// The path that these bytes are.
pub fn parsed(alloc: Global, bytes: &[u8]) -> Result<RelPath, AllocError>
    requires { IsPath bytes.now }
    ensures { IfOk result (λ path. path.bytes ≡ bytes.now) }
{
    match RelPath::parse(alloc, bytes) {
        Ok(path) => Ok(path),
        Err(Or::Bad(_)) => unreachable!(),
        Err(Or::OutOfMemory) => Err(AllocError),
    }
}

/// Whether a file takes the place of others.
pub fn takes_place(file: &Action) -> bool
    ensures { result ≡ alike.takes_place file.now }
{
    match file.get("overlay") {
        Some(value) => value == "true",
        None => false,
    }
}

/// What an action that gives a path wants there.
pub fn entry_of(alloc: Global, action: &Action) -> Result<Entry, AllocError>
    requires { sort_of action.now.kind ≡ Some Sort.Path }
    ensures means { IfOk result (λ entry. MeansEntry action.now entry) }
    ensures proper { IfOk result (λ entry. HasProperParts entry) }
{
    match action.kind {
        ActionKind::Dir => Ok(Entry::Dir {
            mode: Some(mode(action)),
        }),
        ActionKind::File => Ok(file_of(action)),
        ActionKind::Link => Ok(Entry::Link {
            target: target(alloc, action)?,
        }),
        ActionKind::Hardlink => Ok(Entry::Hard {
            to: end_of(alloc, action)?,
        }),
        _ => unreachable!(),
    }
}

// What a symbolic link says.
fn target(alloc: Global, action: &Action) -> Result<Text, AllocError>
    requires { action.now.kind ≡ ActionKind.Link }
    ensures value { IfOk result (λ text. text ≡ value_of (codes "target") action.now) }
    ensures proper { IfOk result (λ text. IsLinkTarget text) }
{
    Text::new(alloc, value(action, "target"))
}

fn file_of(action: &Action) -> Entry
    requires { action.now.kind ≡ ActionKind.File }
    ensures means { MeansEntry action.now result }
    ensures proper { HasProperParts result }
{
    let mode = mode(action);
    match action.payload {
        Some(payload) => Entry::File {
            payload,
            mode,
            preserve: action.preserve(),
        },
        None => unreachable!(),
    }
}

// The mode of a directory or a file.
fn mode(action: &Action) -> u16
    requires { has_mode action.now ≡ true }
    ensures mode { result ≡ mode_of action.now }
    ensures small { result < 4096 }
    ensures action { IsAction action.now }
{
    match octal(value(action, "mode").as_bytes()) {
        Some(mode) => mode,
        None => unreachable!(),
    }
}

// Where a hardlink leads.
fn end_of(alloc: Global, action: &Action) -> Result<RelPath, AllocError>
    requires { action.now.kind ≡ ActionKind.Hardlink }
    ensures led { IfOk result (λ path. led_to action.now ≡ Some path.bytes) }
    ensures proper { IfOk result (λ path. IsPath path.bytes) }
{
    let path = value(action, "path").as_bytes();
    let target = value(action, "target").as_bytes();
    match leads_to(alloc, path, target)? {
        Some(end) => Ok(end),
        None => unreachable!(),
    }
}
