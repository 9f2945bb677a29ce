//! The command that makes an image.

ghost use Rattle.std.specs.Prelude.{◌≡◌, ◌<◌};
ghost use Rattle.ips_asked.specs.Formed.{IsFormedCommand};
ghost use Rattle.ips_operations.specs.creating.Creations as creations;
ghost use Rattle.ips_operations.specs.creating.Creations.{creating_at};

use ips_words::{Command, What};
use std::marker::Model;

/// A command that makes an image, which is lent, and the moment at which it is carried out.
#[derive(Drop)]
pub struct Creating<'a> {
    pub(crate) command: &'a Command,
    pub(crate) moment: u64,
}

impl<'a> Model for Creating<'a> {
    ghost use Rattle.ips_operations.specs.creating.Creations.{CanBeCarriedOut, Creation};

    ghost Value = { Creation };

    ghost view = { λ c. record { command = c.command.now; moment = c.moment } };

    ghost invariant = { λ c. CanBeCarriedOut (record { command = c.command.now; moment = c.moment }) };
}

impl<'a> Creating<'a> {
    /// The command at this moment, so many seconds after the first of January 1970; None where it makes no image.
    pub fn of(command: &'a Command, moment: u64) -> Option<Creating<'a>>
        requires moment { moment < 253370764800 }
        requires formed { IsFormedCommand command.now }
        ensures { result ≡ creating_at command.now moment }
    {
        if !makes_image(&command.what) {
            return None;
        }
        Some(Creating { command, moment })
    }
}

// Whether the command makes an image.
fn makes_image(what: &What) -> bool
    ensures { result ≡ creations.makes_image what.now }
{
    matches!(what, What::ImageCreate { .. })
}
