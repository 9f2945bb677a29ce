//! The commands that change an image.

ghost use Rattle.std.specs.Prelude.{◌≡◌, ◌<◌};
ghost use Rattle.ips_asked.specs.Formed.{IsFormedCommand};
ghost use Rattle.ips_operations.specs.changing.Commands as commands;
ghost use Rattle.ips_operations.specs.changing.Commands.{changing_at};

use ips_words::{Command, What};
use std::marker::Model;

/// A command that leads an image from one state to another, which is lent, and the moment at which it is carried out.
#[derive(Drop)]
pub struct Changing<'a> {
    pub(crate) command: &'a Command,
    pub(crate) moment: u64,
}

impl<'a> Model for Changing<'a> {
    ghost use Rattle.ips_operations.specs.changing.Commands.{CanBeCarriedOut, CommandAt};

    ghost Value = { CommandAt };

    ghost view = { λ c. record { command = c.command.now; moment = c.moment } };

    ghost invariant = { λ c. CanBeCarriedOut (record { command = c.command.now; moment = c.moment }) };
}

impl<'a> Changing<'a> {
    /// The command at this moment, so many seconds after the first of January 1970; None where it doesn't lead from one state to
    /// another.
    pub fn of(command: &'a Command, moment: u64) -> Option<Changing<'a>>
        requires moment { moment < 253370764800 }
        requires formed { IsFormedCommand command.now }
        ensures { result ≡ changing_at command.now moment }
    {
        if !is_changing(&command.what) {
            return None;
        }
        Some(Changing { command, moment })
    }
}

// Whether the command leads from one state to another.
fn is_changing(what: &What) -> bool
    ensures { result ≡ commands.is_changing what.now }
{
    match what {
        What::ImageCreate { .. }
        | What::Fix
        | What::Verify
        | What::List
        | What::History
        | What::Contents { .. }
        | What::Search { .. }
        | What::Gen { .. }
        | What::Help { .. }
        | What::Version => false,
        _ => true,
    }
}

// Whether the words accept newly delivered licenses.
pub(crate) fn accepts(what: &What) -> bool
    ensures { result ≡ commands.accepts what.now }
{
    match what {
        What::Install { accept, .. }
        | What::Update { accept, .. }
        | What::ChangeFacet { accept, .. }
        | What::ChangeVariant { accept, .. } => *accept,
        _ => false,
    }
}
