//! The lines of a manifest.

ghost use Rattle.std.specs.Prelude.{◌≡◌, ◌++◌, false, Ok, Some, IfOk, OnOk};
ghost use Rattle.ips_text.specs.Reading.{Gives, IfBad};
ghost use Rattle.ips_action.specs.Action.{Fields};
ghost use Rattle.ips_action.specs.Meaning.{Means};
ghost use Rattle.ips_manifest.specs.Logical as spec;
ghost use Rattle.ips_manifest.specs.Manifest.{IsActionFault};
ghost use Rattle.ips_manifest.specs.Seen.{TextGives, lines_for};

use crate::fault::{LineFault, ManifestFault};
use crate::logical::is_skipped;
use ips_action::{Action, parse_line};
use ips_text::Or;
use std::alloc::{AllocError, Global};

/// An action of a manifest, and where it stands.
#[derive(Drop)]
pub struct Line {
    /// The number of the first physical line on which it stands, from 1.
    pub number: u64,
    /// The action.
    pub action: Action,
}

/// The action that a logical line of this number means, and none where the line is skipped.
pub fn read_action(
    alloc: Global,
    number: u64,
    text: &str,
) -> Result<Option<Action>, Or<ManifestFault>>
    ensures found { IfOk result (λ action. TextGives text.now action) }
    ensures only { (action : Fields) → spec.is_skipped text.now ≡ false → Means text.now action → Gives (λ a. a) result (Ok (Some action)) }
    ensures bad { IfBad result (λ f. (spec.is_skipped text.now ≡ false) × (f.line ≡ number) × IsActionFault text.now f.fault) }
{
    if is_skipped(text) {
        return Ok(None);
    }
    match parse_line(alloc, text) {
        Ok(action) => Ok(Some(action)),
        Err(Or::Bad(fault)) => Err(Or::Bad(ManifestFault {
            line: number,
            fault: LineFault::Action(fault),
        })),
        Err(Or::OutOfMemory) => Err(Or::OutOfMemory),
    }
}

/// Adds an action, where there is one, as a line of this number.
pub fn add(lines: &mut Vec<Line>, number: u64, action: Option<Action>) -> Result<(), AllocError>
    ensures { OnOk result (lines.new.items ≡ lines.old.items ++ lines_for number action) }
{
    if let Some(action) = action {
        lines.push(Line { number, action })?;
    }
    Ok(())
}
