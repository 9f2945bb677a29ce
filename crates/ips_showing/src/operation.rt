//! Showing as an operation.

ghost use Rattle.std.specs.Prelude.{◌≡◌};
ghost use Rattle.ips_history.specs.declared.effect.Effect.TheVariants as effects;
ghost use Rattle.ips_tell.specs.told.Told.{IsToldAs};
ghost use Rattle.ips_showing.specs.Asked.{asked};
ghost use Rattle.ips_showing.specs.Shows.{Shows};

use crate::searching::searched;
use crate::showing::Showing;
use crate::stated::loaded;
use ips_folder::Folder;
use ips_history::Effect;
use ips_outside::Source;
use ips_report::Outcome;
use ips_run::{DecideFault, Decision, Operation};
use ips_text::Or;
use std::alloc::Global;

impl<'a> Operation<Outcome> for Showing<'a> {
    ghost effect = { λ s. effects.Shows };

    ghost decides = { λ s tells repository t d. Shows t (asked s) d };

    ghost means = { λ s tells repository t u. u ≡ t };

    ghost says = { λ s d. IsToldAs d };

    fn effect(&self) -> Effect {
        Effect::Shows
    }

    fn decide<S: Source, F: Folder>(
        &self,
        alloc: Global,
        source: &mut S,
        folder: &mut F,
    ) -> Result<Decision<Outcome>, Or<DecideFault>> {
        match self {
            Showing::Search { pattern } => searched(alloc, pattern, folder),
            _ => loaded(alloc, self, folder),
        }
    }
}
