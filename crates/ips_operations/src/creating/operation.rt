//! Making an image as an operation.

ghost use Rattle.std.specs.Prelude.{◌≡◌};
ghost use Rattle.ips_history.specs.declared.effect.Effect.TheVariants as effects;
ghost use Rattle.ips_tell.specs.told.Told.{IsToldAs};
ghost use Rattle.ips_operations.specs.creating.Decides.{Decides, makes_of};

use crate::creating::creation::Creating;
use crate::creating::deciding::decided;
use ips_folder::Folder;
use ips_history::Effect;
use ips_outside::Source;
use ips_report::Outcome;
use ips_run::{DecideFault, Decision, Operation};
use ips_text::Or;
use std::alloc::Global;

impl<'a> Operation<Outcome> for Creating<'a> {
    ghost effect = { λ s. effects.Creates };

    ghost decides = { λ s tells repository t d. Decides s t d };

    ghost means = { λ s tells repository before after. makes_of s tells repository before after };

    ghost says = { λ s d. IsToldAs d };

    fn effect(&self) -> Effect {
        Effect::Creates
    }

    fn decide<S: Source, F: Folder>(
        &self,
        alloc: Global,
        source: &mut S,
        folder: &mut F,
    ) -> Result<Decision<Outcome>, Or<DecideFault>> {
        decided(alloc, self.command, self.moment, folder)
    }
}
