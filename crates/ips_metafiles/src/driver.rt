//! Drivers.

ghost use Rattle.std.specs.Prelude.{◌≡◌, ◌⊎◌, ◌↔◌, ◌++◌, ◌∷◌, [], ℕ, List, IfOk, OnOk, Contains, string_bytes};
ghost use Rattle.std.specs.List.Sorted.{IsStrictlySortedBy};
ghost use Rattle.std.specs.Ordering.{nat_cmp};
ghost use Rattle.std.specs.Cmp.Lexicographic.{slice_cmp};
ghost use Rattle.ips_metafiles.specs.Records.{IsDrivers, IsDriverLine, lines_text};

use ips_action::{Action, ActionKind, print_line};
use ips_text::Text;
use std::alloc::{AllocError, Global};
use std::collections::BTreeSet;

/// The record of drivers, `var/pkg/drivers`: the canonical lines of the driver actions, by bytes, each once.
pub fn drivers(alloc: Global, actions: &[Action]) -> Result<Vec<u8>, AllocError>
    ensures { IfOk result (λ bytes. IsDrivers actions.now bytes.items) }
{
    let lines = driver_lines(alloc, actions)?;
    print_lines(alloc, &lines)
}

// The canonical lines of the driver actions.
fn driver_lines(alloc: Global, actions: &[Action]) -> Result<BTreeSet<Text>, AllocError>
    ensures { IfOk result (λ lines. (line : List ℕ) → Contains lines.keys line ↔ IsDriverLine actions.now line) }
{
    let mut lines = BTreeSet::new(alloc);
    for action in actions {
        add_driver(alloc, &mut lines, action)?;
    }
    Ok(lines)
}

// Adds the canonical line of the action, where it is a driver.
fn add_driver(alloc: Global, lines: &mut BTreeSet<Text>, action: &Action) -> Result<(), AllocError>
    ensures { OnOk result ((line : List ℕ) → Contains lines.new.keys line ↔ (Contains lines.old.keys line ⊎ IsDriverLine (action.now ∷ []) line)) }
{
    match action.kind {
        ActionKind::Driver => add_line(lines, print_line(alloc, action)?),
        _ => Ok(()),
    }
}

fn add_line(lines: &mut BTreeSet<Text>, line: Text) -> Result<(), AllocError>
    ensures { OnOk result ((other : List ℕ) → Contains lines.new.keys other ↔ (Contains lines.old.keys other ⊎ (other ≡ line))) }
{
    lines.insert(line)?;
    Ok(())
}

// The lines, each with a newline.
fn print_lines(alloc: Global, lines: &BTreeSet<Text>) -> Result<Vec<u8>, AllocError>
    ensures bytes { IfOk result (λ bytes. bytes.items ≡ lines_text lines.now.keys) }
    ensures order { IsStrictlySortedBy (slice_cmp nat_cmp) lines.now.keys }
{
    let mut out = String::new(alloc);
    for line in lines {
        push_line(&mut out, line)?;
    }
    Ok(out.into_bytes())
}

fn push_line(out: &mut String, line: &Text) -> Result<(), AllocError>
    ensures { OnOk result (string_bytes out.new ≡ string_bytes out.old ++ (line.now ++ 10 ∷ [])) }
{
    out.push_str(line.as_str())?;
    out.push_str("\n")?;
    Ok(())
}
