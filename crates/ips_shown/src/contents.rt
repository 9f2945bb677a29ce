//! The paths that a package delivers, as text.

ghost use Rattle.std.specs.Prelude.{◌≡◌, ◌++◌, ◌↔◌, [], ℕ, List, Some, None, IfOk, IfNone, IfSome, OnOk, Contains, option_map, string_bytes};
ghost use Rattle.std.specs.List.{flat_map};
ghost use Rattle.ips_text.specs.Path.{IsPath};
ghost use Rattle.ips_text.specs.Quote.{shown};
ghost use Rattle.ips_action.specs.Action.{IsAction};
ghost use Rattle.ips_conflict.specs.Key.{value_of};
ghost use Rattle.ips_records.specs.Lines.{ended};
ghost use Rattle.ips_state.specs.State.{Ascend};
ghost use Rattle.ips_shown.specs.Shown.{ArePaths, Delivers, Gives, IsContentsText, path_given};

use ips_action::{Action, ActionKind};
use ips_filter::Settings;
use ips_manifest::{Line, Package};
use ips_text::{Or, RelPath, Text, show_path};
use std::alloc::{AllocError, Global};

/// The text of `contents`: the paths of the package's admitted actions as they are shown, one a line, by their bytes, each once
/// (pkg(1), "contents").
pub fn contents_text(alloc: Global, held: &Package, settings: &Settings) -> Result<Text, AllocError>
    ensures { IfOk result (IsContentsText settings.now held.now.manifest.lines.items) }
{
    let paths = in_order(gathered(alloc, &held.manifest.lines, settings)?)?;
    let mut out = String::new(alloc);
    push_paths(alloc, &mut out, &paths)?;
    Ok(Text::from_string(out))
}

// The path of each admitted action that gives one.
fn gathered(alloc: Global, lines: &[Line], settings: &Settings) -> Result<Vec<Text>, AllocError>
    ensures each { IfOk result (λ paths. (path : List ℕ) → Contains paths.items path ↔ Delivers settings.now lines.now path) }
    ensures proper { IfOk result (λ paths. ArePaths paths.items) }
{
    let mut paths = Vec::new(alloc);
    for line in lines {
        if let Some(path) = path_of(settings, &line.action) {
            paths.push(Text::new(alloc, path)?)?;
        }
    }
    Ok(paths)
}

// The path that an action gives, where it is admitted.
fn path_of<'a>(settings: &Settings, action: &'a Action) -> Option<&'a str>
    ensures gives { IfSome result (λ text. Gives settings.now action.now text.now) }
    ensures proper { IfSome result (λ text. IsPath text.now) }
    ensures none { IfNone result ((path : List ℕ) → Gives settings.now action.now path → ⊥) }
{
    if settings.admits(action) {
        path_in(action)
    } else {
        None
    }
}

// The path that an action gives.
fn path_in(action: &Action) -> Option<&str>
    ensures path { option_map (λ text. text.now) result ≡ path_given action.now }
    ensures proper { IfSome result (λ text. IsPath text.now) }
{
    match action.kind {
        ActionKind::Dir | ActionKind::File | ActionKind::Link | ActionKind::Hardlink => {
            Some(value(action, "path"))
        }
        _ => None,
    }
}

// The first value of an attribute, or nothing where it doesn't stand.
fn value<'a>(action: &'a Action, key: &str) -> &'a str
    ensures value { result.now ≡ value_of key.now action.now }
    ensures action { IsAction action.now }
{
    match action.get(key) {
        Some(value) => value,
        None => "",
    }
}

// The paths by their bytes, each once.
fn in_order(paths: Vec<Text>) -> Result<Vec<Text>, AllocError>
    ensures order { IfOk result (λ sorted. Ascend sorted.items) }
    ensures each { IfOk result (λ sorted. (path : List ℕ) → Contains sorted.items path ↔ Contains paths.items path) }
{
    let mut sorted = paths;
    sorted.sort()?;
    sorted.dedup();
    Ok(sorted)
}

// Writes the line of each path.
fn push_paths(alloc: Global, out: &mut String, paths: &[Text]) -> Result<(), AllocError>
    requires { ArePaths paths.now }
    ensures { OnOk result (string_bytes out.new ≡ string_bytes out.old ++ flat_map (λ path. ended (shown path)) paths.now) }
{
    for path in paths {
        push_path(alloc, out, path)?;
    }
    Ok(())
}

// Writes the line of a path.
fn push_path(alloc: Global, out: &mut String, path: &Text) -> Result<(), AllocError>
    requires { IsPath path.now }
    ensures { OnOk result (string_bytes out.new ≡ string_bytes out.old ++ ended (shown path.now)) }
{
    let path = parsed(alloc, path.as_str())?;
    let text = show_path(alloc, &path)?;
    out.push_str(text.as_str())?;
    out.push_str("\n")
}

// The path that a text is.
fn parsed(alloc: Global, text: &str) -> Result<RelPath, AllocError>
    requires { IsPath text.now }
    ensures { IfOk result (λ path. path.bytes ≡ text.now) }
{
    match RelPath::parse(alloc, text.as_bytes()) {
        Ok(path) => Ok(path),
        Err(Or::Bad(_)) => unreachable!(),
        Err(Or::OutOfMemory) => Err(AllocError),
    }
}
