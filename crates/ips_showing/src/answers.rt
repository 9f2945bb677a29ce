//! Texts and names as they are answered.

ghost use Rattle.std.specs.Prelude.{◌≡◌};
ghost use Rattle.ips_showing.specs.Answers.{text_told, unnamed_told};

use ips_report::Outcome;
use ips_run::{DecideFault, Decision};
use ips_shown::NamingFault;
use ips_text::{Or, Text};
use std::alloc::AllocError;

// The text is shown.
pub(crate) fn text_shown(
    text: Result<Text, AllocError>,
) -> Result<Decision<Outcome>, Or<DecideFault>>
    ensures { result ≡ text_told text }
{
    match text {
        Ok(text) => Ok(Decision::Shown(Outcome::Shown { text })),
        Err(AllocError) => Err(Or::OutOfMemory),
    }
}

// The pattern names no package.
pub(crate) fn unnamed(fault: NamingFault) -> Decision<Outcome>
    ensures { result ≡ unnamed_told fault }
{
    match fault {
        NamingFault::NoMatch { pattern } => Decision::Refused(Outcome::NoMatch { pattern }),
        NamingFault::Ambiguous { pattern, stems } => {
            Decision::Refused(Outcome::Ambiguous { pattern, stems })
        }
    }
}
