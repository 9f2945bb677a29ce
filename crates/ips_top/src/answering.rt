//! What is answered with nothing done.

ghost use Rattle.std.specs.Prelude.{◌≡◌, IfOk, IsTrue};
ghost use Rattle.ips_records.specs.Lines.{ended};
ghost use Rattle.ips_report.specs.declared.outcome.Outcome.TheVariants.{Shown};
ghost use Rattle.ips_words.specs.Help.{version_text};
ghost use Rattle.ips_top.specs.Runs.{IsAnswered, is_answered};

use ips_report::Outcome;
use ips_text::Text;
use ips_words::{What, help, version};
use std::alloc::{AllocError, Global};

/// The help, or the version; for no other command.
pub(crate) fn answered(alloc: Global, what: &What) -> Outcome
    requires { IsTrue (is_answered what.now) }
    ensures { IsAnswered what.now result }
{
    match text_of(alloc, what) {
        Ok(text) => Outcome::Shown { text },
        Err(_) => Outcome::OutOfMemory,
    }
}

// The text of the help, or of the version.
fn text_of(alloc: Global, what: &What) -> Result<Text, AllocError>
    requires { IsTrue (is_answered what.now) }
    ensures { IfOk result (λ text. IsAnswered what.now (Shown text)) }
{
    match what {
        What::Help { command } => help(alloc, *command),
        What::Version => version_line(alloc),
        _ => unreachable!(),
    }
}

// The line of the version.
fn version_line(alloc: Global) -> Result<Text, AllocError>
    ensures { IfOk result (λ text. text ≡ ended version_text) }
{
    let mut line = String::new(alloc);
    line.push_str(version())?;
    line.push_str("\n")?;
    Ok(Text::from_string(line))
}
