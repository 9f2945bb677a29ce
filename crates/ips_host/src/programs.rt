//! Programs of the host.

ghost use Rattle.std.specs.Prelude.{◌≡◌, IfOk};
ghost use Rattle.ips_commands.specs.Ended.{IsEnd};

use crate::fault::{Refused, or_refused};
use ips_commands::{actuator_command, ended, sync_command, told_by};
use ips_text::Text;
use std::alloc::{AllocError, Allocator};
use std::process::{Command, ExitStatus};
use std::rt::Processes;

/// Makes safe from a crash what was written to the file system on which the path stands, and answers how the program for it ended:
/// with status 0.
pub fn sync_file_system<P: Processes, A: Allocator + Clone>(
    processes: &P,
    alloc: A,
    path: &str,
) -> Result<ExitStatus, Refused>
    ensures { IfOk result (λ status. IsEnd status 0) }
{
    match run(processes, sync_command(alloc, path)) {
        Ok(status) => Ok(told_by(status)?),
        Err(Refused::System(number)) => Err(Refused::Sync(number)),
        Err(e) => Err(e),
    }
}

/// Runs the program that the first word names with all the words, waits until it has ended, and answers its status. A
/// program that a signal ended has none, which is an error.
pub fn run_program<P: Processes, A: Allocator + Clone>(
    processes: &P,
    alloc: A,
    words: &[Text],
) -> Result<u8, Refused> {
    let Some((program, arguments)) = words.split_first() else {
        return Err(Refused::Unfit);
    };
    match run(processes, actuator_command(alloc, program, arguments)) {
        Ok(status) => Ok(ended(status)?),
        Err(e) => Err(e),
    }
}

// Runs the command, where one could be made, and answers how the program ended.
fn run<P: Processes, A: Allocator + Clone>(
    processes: &P,
    command: Result<Command<A>, AllocError>,
) -> Result<ExitStatus, Refused> {
    match command {
        Ok(mut command) => {
            let status = or_refused(command.status(processes));
            drop(command);
            status
        }
        Err(_) => Err(Refused::Memory),
    }
}
