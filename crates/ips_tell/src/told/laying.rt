//! The change that steps alone make.

ghost use Rattle.std.specs.Prelude.{◌≡◌, map};
ghost use Rattle.ips_steps.specs.View.{step_of};
ghost use Rattle.ips_report.specs.declared.outcome.Outcome.TheVariants.{Done};
ghost use Rattle.ips_tell.specs.told.Laying.{IsChangeOfSteps, no_counts, sorts_among};

use crate::told::naming::payloads_are_named;
use ips_counts::{Counts, Sorts};
use ips_emit::Emitted;
use ips_report::Outcome;
use ips_run::Change;
use ips_steps::Step;
use ips_text::Text;
use std::alloc::Global;

/// The change of these steps, with payloads of this publisher: no package is installed, updated or removed, and no actuator is run.
pub fn change_of_steps(alloc: Global, publisher: Text, emitted: Emitted) -> Change<Outcome>
    ensures { IsChangeOfSteps publisher emitted result }
{
    payloads_are_named(&emitted.staged);
    let told = done(&emitted.steps, Vec::new(alloc));
    Change {
        publisher,
        steps: emitted.steps,
        staged: emitted.staged,
        before: Vec::new(alloc),
        after: Vec::new(alloc),
        told,
    }
}

// What is told of these steps where they are laid, with these licenses.
fn done(steps: &[Step], licenses: Vec<Text>) -> Outcome
    ensures { result ≡ Done no_counts (sorts_among (map step_of steps.now)) licenses }
{
    let counts = Counts {
        installs: 0,
        updates: 0,
        removes: 0,
    };
    Outcome::Done {
        counts,
        steps: Sorts::of(steps),
        licenses,
    }
}
