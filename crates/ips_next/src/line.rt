//! The line of a command in the history.

ghost use Rattle.std.specs.Prelude.{◌≡◌, ℕ, ◌<◌, List, IfOk, OnOk};
ghost use Rattle.std.specs.List.{AllByRecursion};
ghost use Rattle.ips_records.specs.Form.{IsRequestLine};
ghost use Rattle.ips_state.specs.Records.{kept, with_line};
ghost use Rattle.ips_asked.specs.Formed.{CanBeKept};
ghost use Rattle.ips_next.specs.Next.{IsLineOf};

use ips_moment::moment_text;
use ips_text::Text;
use std::alloc::{AllocError, Global};

/// How many lines the history keeps.
const LINES: usize = 1000;

/// Puts the line of a command behind the history, of which the last lines are kept.
pub fn add_line(
    alloc: Global,
    moment: u64,
    words: &Text,
    history: &mut Vec<Text>,
) -> Result<(), AllocError>
    requires { moment < 253370764800 }
    ensures line { OnOk result ((line : List ℕ) × IsLineOf moment words.now line × (history.new.items ≡ with_line history.old.items line)) }
    ensures lawful { OnOk result (CanBeKept words.now → AllByRecursion IsRequestLine history.old.items → AllByRecursion IsRequestLine history.new.items) }
{
    let line = line_of(alloc, moment, words)?;
    history.push(line)?;
    keep_last(history);
    Ok(())
}

// The line of a command.
fn line_of(alloc: Global, moment: u64, words: &Text) -> Result<Text, AllocError>
    requires { moment < 253370764800 }
    ensures { IfOk result (IsLineOf moment words.now) }
{
    let text = moment_text(alloc, moment)?;
    let mut out = String::new(alloc);
    out.push_str(text.as_str())?;
    out.push_str(" ")?;
    out.push_str(words.as_str())?;
    Ok(Text::from_string(out))
}

// Keeps the last lines.
fn keep_last(history: &mut Vec<Text>)
    ensures { history.new.items ≡ kept history.old.items }
{
    let excess = history.len().saturating_sub(LINES);
    history.rotate_left(excess);
    history.truncate(LINES);
}
