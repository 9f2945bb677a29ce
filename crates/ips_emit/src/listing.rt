//! Whether a journal can list steps.

ghost use Rattle.std.specs.Prelude.{◌≡◌, ◌<◌, ◌≤◌, ◌↔◌, ◌∷◌, [], IsTrue, map};
ghost use Rattle.ips_text.specs.Quote.{AreBytes};
ghost use Rattle.ips_steps.specs.Journal.{IsJournal, numbered};
ghost use Rattle.ips_steps.specs.View.{step_of};
ghost use Rattle.ips_journal.specs.Holding.{IsSafe};
ghost use Rattle.ips_journal.specs.Reading.{puts_in};

use crate::names::{is_private, may_name};
use ips_steps::Step;

/// Whether a journal can list the steps: each has a mode of permission bits and may name its paths, and the contents are numbered from 0.
pub fn is_journal(steps: &[Step]) -> bool
    ensures { IsTrue result ↔ IsJournal (map step_of steps.now) }
{
    let mut puts = 0;
    for step in steps {
        if !may_be_listed(step, puts) {
            return false;
        }
        puts += puts_of(step);
    }
    true
}

/// How many contents the steps put.
pub fn count_puts(steps: &[Step]) -> u64
    ensures { result ≡ puts_in (map step_of steps.now) }
{
    let mut count = 0;
    for step in steps {
        count += puts_of(step);
    }
    count
}

// Whether a journal can list the step behind those that put so many contents.
fn may_be_listed(step: &Step, puts: u64) -> bool
    ensures { IsTrue result ↔ (IsSafe (step_of step.now) × IsTrue (numbered puts (step_of step.now ∷ []))) }
{
    match step {
        Step::Gone { path } => may_name(path.bytes()),
        Step::Fresh { path, mode } => may_name(path.bytes()) && is_mode(*mode),
        Step::Mode { path, mode } => !is_private(path.bytes()) && is_mode(*mode),
        Step::Put { path, mode, stage } => {
            may_name(path.bytes()) && is_mode(*mode) && *stage == puts
        }
        Step::Link { path, target } => {
            are_bytes(target.bytes());
            may_name(path.bytes())
        }
        Step::Hard { path, to } => may_name(path.bytes()) && may_name(to.bytes()),
    }
}

// Whether the mode is one of permission bits.
fn is_mode(mode: u16) -> bool
    ensures { IsTrue result ↔ (mode < 4096) }
{
    mode < 0o10000
}

// Bytes are such, as their type says.
fn are_bytes(bytes: &[u8])
    ensures { AreBytes bytes.now }
{}

// How many contents the step puts.
fn puts_of(step: &Step) -> u64
    ensures puts { result ≡ puts_in (step_of step.now ∷ []) }
    ensures one { result ≤ 1 }
{
    match step {
        Step::Put { .. } => 1,
        _ => 0,
    }
}
