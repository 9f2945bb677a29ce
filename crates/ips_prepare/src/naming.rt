//! The line that tells the name of the package.

ghost use Rattle.std.specs.Prelude.{◌≡◌, ◌++◌, false, IfOk};
ghost use Rattle.std.specs.List.{list_any, AllByRecursion};
ghost use Rattle.ips_action.specs.Attrs.{is_same};
ghost use Rattle.ips_fmri.specs.Name.{IsPublisher, IsStem};
ghost use Rattle.ips_fmri.specs.Version.{IsVersion};
ghost use Rattle.ips_manifest.specs.Manifest.{StandsOnLine};
ghost use Rattle.ips_sends.specs.Published as spec;
ghost use Rattle.ips_sends.specs.Published.{fmri_text, name_action, named_actions};
ghost use Rattle.ips_prepare.specs.Prepared.{actions_of, actions_filled};

use ips_action::{Action, ActionKind, Attrs, Values};
use ips_filling::Filled;
use ips_fmri::Version;
use ips_line::Pair;
use ips_manifest::Line;
use ips_text::Text;
use std::alloc::{AllocError, Global};

/// The lines that are put before the others: one that tells the name, where none of the others does.
pub(crate) fn first_lines(
    alloc: Global,
    publisher: &str,
    stem: &str,
    version: &Version,
    filled: &[Filled],
) -> Result<Vec<Line>, AllocError>
    requires publisher { IsPublisher publisher.now }
    requires stem { IsStem false stem.now }
    requires version { IsVersion version.now }
    ensures named { IfOk result (λ lines. actions_of lines.items ++ actions_filled filled.now ≡ named_actions (fmri_text publisher.now stem.now version.now) (actions_filled filled.now)) }
    ensures stand { IfOk result (λ lines. AllByRecursion StandsOnLine lines.items) }
{
    if tell_name(filled) {
        return Ok(Vec::new(alloc));
    }
    let line = name_line(alloc, publisher, stem, version)?;
    let lines = vec![in alloc; line]?;
    Ok(lines)
}

// Whether one of the lines tells the name of its package.
fn tell_name(filled: &[Filled]) -> bool
    ensures { result ≡ list_any (λ f. spec.tells_name f.line.action) filled.now }
{
    filled.iter().any(|one| tells_name(&one.line.action))
}

// Whether the action tells the name of its package.
fn tells_name(action: &Action) -> bool
    ensures { result ≡ spec.tells_name action.now }
{
    matches!(action.kind, ActionKind::Set) && has_value(action.attrs.values("name"), "pkg.fmri")
}

// Whether one of the values is this one.
fn has_value(values: Values<'_>, value: &str) -> bool
    ensures { result ≡ list_any (is_same value.now) values.entry }
{
    let mut left = values;
    while let Some((text, rest)) = left.split_first() {
        if value == text {
            return true;
        }
        left = rest;
    }
    false
}

// The line that tells the name.
fn name_line(
    alloc: Global,
    publisher: &str,
    stem: &str,
    version: &Version,
) -> Result<Line, AllocError>
    requires publisher { IsPublisher publisher.now }
    requires stem { IsStem false stem.now }
    requires version { IsVersion version.now }
    ensures action { IfOk result (λ line. line.action ≡ name_action (fmri_text publisher.now stem.now version.now)) }
    ensures stands { IfOk result StandsOnLine }
{
    let fmri = name_of(alloc, publisher, stem, version)?;
    let attrs = name_attrs(alloc, fmri)?;
    let action = Action {
        kind: ActionKind::Set,
        payload: None,
        attrs,
    };
    Ok(Line { number: 1, action })
}

// The attributes of that line.
fn name_attrs(alloc: Global, fmri: Text) -> Result<Attrs, AllocError>
    ensures { IfOk result (λ attrs. attrs ≡ (name_action fmri).attrs) }
{
    let name = pair(alloc, "name", "pkg.fmri")?;
    let value = Pair {
        key: Text::new(alloc, "value")?,
        value: fmri,
    };
    Attrs::gather(alloc, vec![in alloc; name, value]?)
}

// A `key=value`.
fn pair(alloc: Global, key: &str, value: &str) -> Result<Pair, AllocError>
    ensures { IfOk result (λ pair. pair ≡ record { key = key.now; value = value.now }) }
{
    Ok(Pair {
        key: Text::new(alloc, key)?,
        value: Text::new(alloc, value)?,
    })
}

/// The name of the package: its publisher, its stem and its version.
pub fn name_of(
    alloc: Global,
    publisher: &str,
    stem: &str,
    version: &Version,
) -> Result<Text, AllocError>
    ensures { IfOk result (λ text. text ≡ fmri_text publisher.now stem.now version.now) }
{
    let version = version.print(alloc)?;
    let mut name = String::from_str(alloc, "pkg://")?;
    name.push_str(publisher)?;
    name.push_str("/")?;
    name.push_str(stem)?;
    name.push_str("@")?;
    name.push_str(version.as_str())?;
    Ok(Text::from_string(name))
}
