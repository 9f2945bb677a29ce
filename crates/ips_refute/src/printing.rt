//! The one spelling of each refutation.

ghost use Rattle.std.specs.Prelude.{◌≡◌, ◌≤◌, ◌++◌, ◌∷◌, [], OnOk, IfOk, map, string_bytes};
ghost use Rattle.std.specs.List.{flat_map, join_with_byte};
ghost use Rattle.ips_refute.specs.Text.{entries, entry_of, entry_text, pair_text, reason_text, run_text, runs_behind, runs_of, runs_text, set_text, refutation_text};

use crate::nogoods::{Nogood, Pair, Reason};
use crate::runs::{MOST, Run, is_same};
use ips_text::Text;
use std::alloc::{AllocError, Global};

/// The text of these nogoods.
pub fn print_refutation(alloc: Global, nogoods: &[Nogood]) -> Result<Text, AllocError>
    ensures { IfOk result (λ text. text ≡ refutation_text (entries nogoods.now)) }
{
    let mut out = String::new(alloc);
    out.push_str("refutation 2\n")?;
    push_nogoods(&mut out, nogoods)?;
    Ok(Text::from_string(out))
}

// Writes a line for each nogood.
fn push_nogoods(out: &mut String, nogoods: &[Nogood]) -> Result<(), AllocError>
    ensures { OnOk result (string_bytes out.new ≡ string_bytes out.old ++ flat_map (λ g. entry_text (entry_of g)) nogoods.now) }
{
    for nogood in nogoods {
        push_nogood(out, nogood)?;
    }
    Ok(())
}

// Writes the line of a nogood.
fn push_nogood(out: &mut String, nogood: &Nogood) -> Result<(), AllocError>
    ensures { OnOk result (string_bytes out.new ≡ string_bytes out.old ++ entry_text (entry_of nogood.now)) }
{
    push_set(out, &nogood.set)?;
    out.push_str(" | ")?;
    write!(out, "{}", nogood.stem)?;
    out.push_str(" | ")?;
    push_reasons(out, &nogood.reasons)?;
    out.push_str("\n")?;
    Ok(())
}

// Writes a set.
fn push_set(out: &mut String, set: &[Pair]) -> Result<(), AllocError>
    ensures { OnOk result (string_bytes out.new ≡ string_bytes out.old ++ set_text set.now) }
{
    let Some((first, others)) = set.split_first() else {
        out.push_str("-")?;
        return Ok(());
    };
    push_pair(out, *first)?;
    push_more_pairs(out, others)?;
    Ok(())
}

// Writes each pair behind a comma.
fn push_more_pairs(out: &mut String, set: &[Pair]) -> Result<(), AllocError>
    ensures { OnOk result (string_bytes out.new ≡ string_bytes out.old ++ flat_map (λ q. 44 ∷ pair_text q) set.now) }
{
    for pair in set {
        out.push_str(",")?;
        push_pair(out, *pair)?;
    }
    Ok(())
}

// Writes a pair.
fn push_pair(out: &mut String, pair: Pair) -> Result<(), AllocError>
    ensures { OnOk result (string_bytes out.new ≡ string_bytes out.old ++ pair_text pair) }
{
    let Pair { stem, candidate } = pair;
    write!(out, "{stem}")?;
    out.push_str(".")?;
    write!(out, "{candidate}")?;
    Ok(())
}

// Writes reasons.
fn push_reasons(out: &mut String, reasons: &[Reason]) -> Result<(), AllocError>
    ensures { OnOk result (string_bytes out.new ≡ string_bytes out.old ++ runs_text (runs_of reasons.now)) }
{
    let Some((first, others)) = reasons.split_first() else {
        out.push_str("-")?;
        return Ok(());
    };
    push_runs(out, *first, others)
}

// Writes the runs of the reasons.
fn push_runs(out: &mut String, first: Reason, others: &[Reason]) -> Result<(), AllocError>
    ensures { OnOk result (string_bytes out.new ≡ string_bytes out.old ++ join_with_byte 32 (map run_text (runs_behind first 1 others.now))) }
{
    let mut run = Run {
        reason: first,
        count: 1,
    };
    for reason in others {
        if is_same(run.reason, *reason) && run.count < MOST {
            run.count += 1;
        } else {
            push_run(out, run)?;
            out.push_str(" ")?;
            run = Run {
                reason: *reason,
                count: 1,
            };
        }
    }
    push_run(out, run)
}

// Writes a run.
fn push_run(out: &mut String, run: Run) -> Result<(), AllocError>
    ensures { OnOk result (string_bytes out.new ≡ string_bytes out.old ++ run_text run) }
{
    push_reason(out, run.reason)?;
    if run.count != 1 {
        out.push_str("*")?;
        write!(out, "{}", run.count)?;
    }
    Ok(())
}

// Writes a reason.
fn push_reason(out: &mut String, reason: Reason) -> Result<(), AllocError>
    ensures { OnOk result (string_bytes out.new ≡ string_bytes out.old ++ reason_text reason) }
{
    match reason {
        Reason::Test(test) => {
            out.push_str("t")?;
            write!(out, "{test}")?;
            Ok(())
        }
        Reason::Earlier(nogood) => {
            out.push_str("n")?;
            write!(out, "{nogood}")?;
            Ok(())
        }
    }
}
