//! The commands, each a program with its arguments.

ghost use Rattle.std.specs.Prelude.{◌≡◌, ◌∷◌, ◌++◌, [], ℕ, List, IfOk, OnOk, codes, map};
ghost use Rattle.std.specs.Process.{command_program, command_args, SameProgramAndArgs};

use ips_text::Text;
use std::alloc::{AllocError, Allocator};
use std::process::{Command, Stdio};

/// The program that makes safe what was written to the file system on which the path stands, and its arguments. It reads nothing,
/// and what it writes is lost.
pub fn sync_command<A: Allocator + Clone>(alloc: A, path: &str) -> Result<Command<A>, AllocError>
    ensures program { IfOk result (λ command. command_program command ≡ codes "/bin/sync") }
    ensures words { IfOk result (λ command. command_args command ≡ codes "-f" ∷ codes "--" ∷ path.now ∷ []) }
{
    command_of(alloc, "/bin/sync", &["-f", "--", path], true)
}

/// This program with these arguments. It reads nothing, and what it writes to standard output is lost, so that the report stands
/// there alone.
pub fn actuator_command<A: Allocator + Clone>(
    alloc: A,
    program: &Text,
    arguments: &[Text],
) -> Result<Command<A>, AllocError>
    ensures program { IfOk result (λ command. command_program command ≡ program.now) }
    ensures words { IfOk result (λ command. command_args command ≡ arguments.now) }
{
    command_of(alloc, program.as_str(), arguments, false)
}

/// A word for a program.
trait Word {
    ghost word: { Self → List ℕ };

    fn text(&self) -> &str
        ensures { result.now ≡ word self.now };
}

impl Word for &str {
    ghost word = { λ text. text.now };

    fn text(&self) -> &str {
        *self
    }
}

impl Word for Text {
    ghost word = { λ text. text };

    fn text(&self) -> &str {
        self.as_str()
    }
}

// The command of a program with these arguments, which reads nothing and writes no standard output.
fn command_of<A: Allocator + Clone, W: Word>(
    alloc: A,
    program: &str,
    arguments: &[W],
    is_quiet: bool,
) -> Result<Command<A>, AllocError>
    ensures program { IfOk result (λ command. command_program command ≡ program.now) }
    ensures words { IfOk result (λ command. command_args command ≡ map W.word arguments.now) }
{
    let mut command = Command::new(alloc, program)?;
    match add_arguments(&mut command, arguments) {
        Ok(()) => {
            silence(&mut command, is_quiet);
            Ok(command)
        }
        Err(e) => Err(e),
    }
}

fn add_arguments<A: Allocator + Clone, W: Word>(
    command: &mut Command<A>,
    arguments: &[W],
) -> Result<(), AllocError>
    ensures program { OnOk result (command_program command.new ≡ command_program command.old) }
    ensures words { OnOk result (command_args command.new ≡ command_args command.old ++ map W.word arguments.now) }
{
    for argument in arguments {
        command.arg(argument.text())?;
    }
    Ok(())
}

// Where it is to be quiet, what it writes to standard error is lost too.
fn silence<A: Allocator + Clone>(command: &mut Command<A>, is_quiet: bool)
    ensures { SameProgramAndArgs command.old command.new }
{
    command.stdin(Stdio::null()).stdout(Stdio::null());
    if is_quiet {
        command.stderr(Stdio::null());
    }
}
