//! How an action holds the `key=value` of a line.

ghost use Rattle.std.specs.Prelude.{◌≡◌, ◌≢◌, ◌∷◌, ◌&&◌, List, ℕ, IfOk, MatchOption, map};
ghost use Rattle.std.specs.List.{list_any};
ghost use Rattle.ips_text.specs.Path as paths;
ghost use Rattle.ips_action.specs.Table.{AttributeRow as DefinedRow, row_seen};
ghost use Rattle.ips_action.specs.Attrs.{is_same};
ghost use Rattle.ips_action.specs.Meaning as meaning;

use crate::kind::ActionKind;
use crate::table::{Row, rows};
use ips_line::Pair;
use ips_text::Text;
use std::alloc::{AllocError, Global};

/// The `key=value` of a line as an action of this kind holds them: a path without the `/` before it. No other value is copied.
pub fn hold(alloc: Global, kind: ActionKind, pairs: Vec<Pair>) -> Result<Vec<Pair>, AllocError>
    ensures { IfOk result (λ held. held.items ≡ map (meaning.held kind) pairs.items) }
{
    let mut held = Vec::with_capacity(alloc, pairs.len())?;
    for pair in pairs {
        held.push(hold_one(alloc, kind, pair)?)?;
    }
    Ok(held)
}

fn hold_one(alloc: Global, kind: ActionKind, pair: Pair) -> Result<Pair, AllocError>
    ensures { IfOk result (λ held. held ≡ meaning.held kind pair) }
{
    if !is_path_key(kind, pair.key.as_str()) {
        return Ok(pair);
    }
    let Pair { key, value } = pair;
    let value = bare(alloc, value)?;
    Ok(Pair { key, value })
}

// Whether the key is that of a path in an action of this kind.
fn is_path_key(kind: ActionKind, key: &str) -> bool
    ensures { result ≡ meaning.is_path_key kind key.now }
{
    has_path_row(rows(kind), key)
}

fn has_path_row(rows: &[Row<'_>], key: &str) -> bool
    ensures { result ≡ list_any (λ (row : DefinedRow). meaning.is_path row.check && is_same row.name key.now) (map row_seen rows.now) }
{
    rows.iter()
        .any(|row| row.check.is_path() && row.name == key)
}

// The path without the `/` before it.
fn bare(alloc: Global, path: Text) -> Result<Text, AllocError>
    ensures { IfOk result (λ bare. bare ≡ meaning.without_slashes path) }
{
    if !begins_at_root(path.as_str()) {
        return Ok(path);
    }
    Text::new(alloc, without_slashes(path.as_str()))
}

fn begins_at_root(path: &str) -> bool
    ensures { result ≡ paths.begins_at_root path.now }
{
    matches!(path.as_bytes(), [b'/', ..])
}

fn without_slashes(path: &str) -> &str
    ensures { result.now ≡ meaning.without_slashes path.now }
{
    let mut rest = path;
    while let Some(more) = behind_slash(rest) {
        rest = more;
    }
    rest
}

// What stands behind the `/` with which the path begins.
fn behind_slash(path: &str) -> Option<&str>
    ensures { MatchOption result ((rest : List ℕ) → path.now ≢ 47 ∷ rest) (λ rest. path.now ≡ 47 ∷ rest.now) }
{
    path.strip_prefix('/')
}
