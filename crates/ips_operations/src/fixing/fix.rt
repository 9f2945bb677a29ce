//! The command that repairs an image.

ghost use Rattle.std.specs.Prelude.{◌≡◌, ◌<◌};
ghost use Rattle.ips_asked.specs.Formed.{IsFormedCommand};
ghost use Rattle.ips_operations.specs.fixing.Fixes as fixes;
ghost use Rattle.ips_operations.specs.fixing.Fixes.{fixing_at};

use ips_words::{Command, What};
use std::marker::Model;

/// A command that repairs an image, which is lent, and the moment at which it is carried out.
#[derive(Drop)]
pub struct Fixing<'a> {
    pub(crate) command: &'a Command,
    pub(crate) moment: u64,
}

impl<'a> Model for Fixing<'a> {
    ghost use Rattle.ips_operations.specs.fixing.Fixes.{CanBeCarriedOut, Repairing};

    ghost Value = { Repairing };

    ghost view = { λ c. record { command = c.command.now; moment = c.moment } };

    ghost invariant = { λ c. CanBeCarriedOut (record { command = c.command.now; moment = c.moment }) };
}

impl<'a> Fixing<'a> {
    /// The command at this moment, so many seconds after the first of January 1970; None where it repairs no image.
    pub fn of(command: &'a Command, moment: u64) -> Option<Fixing<'a>>
        requires moment { moment < 253370764800 }
        requires formed { IsFormedCommand command.now }
        ensures { result ≡ fixing_at command.now moment }
    {
        if !repairs(&command.what) {
            return None;
        }
        Some(Fixing { command, moment })
    }
}

// Whether the command repairs an image.
fn repairs(what: &What) -> bool
    ensures { result ≡ fixes.repairs what.now }
{
    matches!(what, What::Fix)
}
