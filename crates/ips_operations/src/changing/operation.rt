//! Changing as an operation.

ghost use Rattle.std.specs.Prelude.{◌≡◌};
ghost use Rattle.ips_history.specs.declared.effect.Effect.TheVariants as effects;
ghost use Rattle.ips_tell.specs.told.Told.{IsToldAs};
ghost use Rattle.ips_operations.specs.changing.Decides.{Decides, asked_of};
ghost use Rattle.ips_operations.specs.changing.Leads.{LeadsWhere};

use crate::changing::changing::Changing;
use crate::changing::deciding::loaded;
use ips_folder::Folder;
use ips_history::Effect;
use ips_outside::Source;
use ips_report::Outcome;
use ips_run::{DecideFault, Decision, Operation};
use ips_text::Or;
use std::alloc::Global;

impl<'a> Operation<Outcome> for Changing<'a> {
    ghost effect = { λ s. effects.Changes };

    ghost decides = { λ s tells repository t d. Decides (asked_of s.command s.moment tells repository t) d };

    ghost means = { λ s tells repository before after. LeadsWhere s.command s.moment tells repository before after };

    ghost says = { λ s d. IsToldAs d };

    fn effect(&self) -> Effect {
        Effect::Changes
    }

    fn decide<S: Source, F: Folder>(
        &self,
        alloc: Global,
        source: &mut S,
        folder: &mut F,
    ) -> Result<Decision<Outcome>, Or<DecideFault>> {
        loaded(alloc, self.command, self.moment, source, folder)
    }
}
