//! Actions that were transformed, as lines of a manifest.

ghost use Rattle.std.specs.Prelude.{◌≡◌, ◌==◌, not, IfOk, IfSome, IfNone};
ghost use Rattle.std.specs.List.{AllByRecursion, list_all};
ghost use Rattle.ips_text.specs.Reading.{IfBad};
ghost use Rattle.ips_action.specs.Action.{Fields, line_text};
ghost use Rattle.ips_action.specs.Meaning.{Means};
ghost use Rattle.ips_transform.specs.Output.{AreSoundParts, Yields, IsNoAction, Become, IsFirstBadResult};

use crate::parts::Parts;
use ips_action::{Action, Attrs, parse_line, print_line, print_parts};
use ips_manifest::Line;
use ips_text::Or;
use std::alloc::{AllocError, Global};

/// The lines of the manifest that the parts make up. A fault is the number of the first whose canonical line isn't read as an
/// action of just these parts.
pub fn lines_of(alloc: Global, lines: Vec<Parts>) -> Result<Vec<Line>, Or<u64>>
    requires { AllByRecursion AreSoundParts lines.items }
    ensures found { IfOk result (λ results. Become lines.items results.items) }
    ensures bad { IfBad result (λ number. IsFirstBadResult lines.items number) }
{
    let mut results = Vec::with_capacity(alloc, lines.len())?;
    for parts in lines {
        let number = parts.number;
        match action_of(alloc, parts)? {
            Some(action) => results.push(Line { number, action })?,
            None => return Err(Or::Bad(number)),
        }
    }
    Ok(results)
}

// The action of just these parts, where their canonical line is read as one.
fn action_of(alloc: Global, parts: Parts) -> Result<Option<Action>, AllocError>
    requires { AreSoundParts parts }
    ensures some { IfOk result (λ found. IfSome found (λ action. Yields parts action)) }
    ensures none { IfOk result (λ found. IfNone found (IsNoAction parts)) }
{
    let Parts {
        kind,
        payload,
        pairs,
        ..
    } = parts;
    let attrs = Attrs::gather(alloc, pairs)?;
    let text = print_parts(alloc, kind, &payload, &attrs)?;
    if !is_single(text.as_str()) {
        return Ok(None);
    }
    read_back(alloc, text.as_str())
}

// Whether the text is one line: it has no newline.
fn is_single(text: &str) -> bool
    ensures { result ≡ list_all (λ b. not (b == 10)) text.now }
{
    text.as_bytes().iter().all(|byte| *byte != b'\n')
}

// The action that the text means, where it is its canonical line.
fn read_back(alloc: Global, text: &str) -> Result<Option<Action>, AllocError>
    ensures some { IfOk result (λ found. IfSome found (λ action. Means text.now action × (line_text action ≡ text.now))) }
    ensures none { IfOk result (λ found. IfNone found ((a : Fields) → Means text.now a → line_text a ≡ text.now → ⊥)) }
{
    match parse_line(alloc, text) {
        Ok(action) => {
            let again = print_line(alloc, &action)?;
            if again.as_str() == text {
                Ok(Some(action))
            } else {
                Ok(None)
            }
        }
        Err(Or::Bad(_)) => Ok(None),
        Err(Or::OutOfMemory) => Err(AllocError),
    }
}
