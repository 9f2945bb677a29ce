//! The commands.

ghost use Rattle.std.specs.Prelude.{IfSome};
ghost use Rattle.ips_asked.specs.Formed.{IsFormedCommand};

use ips_asked::commands_are_formed;
use ips_words::Command;
use std::alloc::{AllocError, Global};

/// The command that these words are, which blanks divide. None where they are no command, and for want of memory.
pub fn command_of(alloc: Global, line: &str) -> Option<Command>
    ensures { IfSome result IsFormedCommand }
{
    commands_are_formed();
    let words = words_of(alloc, line).ok()?;
    Command::read(alloc, &words).ok()
}

// The words of a line, which blanks divide.
fn words_of(alloc: Global, line: &str) -> Result<Vec<String>, AllocError> {
    let mut words = Vec::new(alloc);
    for word in line.split(' ') {
        words.push(String::from_str(alloc, word)?)?;
    }
    Ok(words)
}
