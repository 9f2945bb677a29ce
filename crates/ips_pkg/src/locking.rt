//! Which lock on the image's folder a line of words wants.

ghost use Rattle.std.specs.Prelude.{◌≡◌, IfOk, map, string_bytes};
ghost use Rattle.ips_syntax.specs.Reading.{line_of_words};
ghost use Rattle.ips_pkg.specs.Locking as locking;

use ips_host::Lock;
use ips_syntax::{Line, Verb, read_line};
use ips_text::Or;
use std::alloc::{AllocError, Global};

/// The lock that the words want: that of their command, and none where they ask for help or the version, or are no command.
pub fn lock_for(alloc: Global, words: &[String]) -> Result<Lock, AllocError>
    ensures { IfOk result (λ lock. lock ≡ locking.lock_for (line_of_words (map string_bytes words.now))) }
{
    let mut given = Vec::new(alloc);
    match read_line(alloc, words, &mut given) {
        Ok(Line::Does(verb)) => Ok(lock_of(verb)),
        Err(Or::OutOfMemory) => Err(AllocError),
        _ => Ok(Lock::Free),
    }
}

// The lock that a command takes.
fn lock_of(verb: Verb) -> Lock
    ensures { result ≡ locking.lock_of verb }
{
    match verb {
        Verb::Gen => Lock::Free,
        Verb::Verify | Verb::List | Verb::Contents | Verb::History | Verb::Search => Lock::Shared,
        _ => Lock::Exclusive,
    }
}
