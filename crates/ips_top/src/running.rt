//! The top call.

ghost use Rattle.std.specs.Prelude.{◌≡◌, ◌<◌, ℕ, List, IsTrue, map, string_bytes};
ghost use Rattle.ips_steps.specs.declared.step.Sort.{Sort};
ghost use Rattle.ips_kinds.specs.Tallies.{seen_by, taken};
ghost use Rattle.ips_report.specs.Report.{report_text};
ghost use Rattle.ips_asked.specs.Formed.{IsFormedCommand};
ghost use Rattle.ips_files.specs.Telling.{Tells};
ghost use Rattle.ips_top.specs.Runs.{Does, HasNumber, Runs};

use crate::answering::answered;
use crate::trying::generated;
use ips_asked::commands_are_formed;
use ips_folder::Folder;
use ips_kinds::Kind;
use ips_operations::changing::Changing;
use ips_operations::creating::Creating;
use ips_operations::fixing::Fixing;
use ips_outside::{Sink, Source, Spawner};
use ips_report::{Outcome, Status};
use ips_showing::Showing;
use ips_tell::performing::performed;
use ips_tell::telling::finish;
use ips_text::Or;
use ips_words::{Command, Usage, What};
use std::alloc::Global;

/// Does what the words ask for at a moment, so many seconds after the first of January 1970, with the repository, the folder of the image and the spawner that are handed
/// in, and writes its report to the sink. The words are those of the command line without the program's name. Each sort of step has to have a kind that takes it.
pub fn run<S: Source, F: Folder, P: Spawner, O: Sink>(
    alloc: Global,
    words: &[String],
    moment: u64,
    repo: &mut S,
    image: &mut F,
    spawner: &mut P,
    kinds: &mut Vec<Box<dyn Kind>>,
    out: &mut O,
) -> Status
    requires moment { moment < 253370764800 }
    requires takers { (s : Sort) → IsTrue (taken (seen_by sorts finished kinds.old.items) s) }
    // What is done, and told: what it claims of the image at every moment, under which cause it comes, and whose fault it is.
    ensures runs { Runs F.outside S.outside P.running (map string_bytes words.now) moment
        (record { folder = image.old; source = repo.old; spawner = spawner.old; counted = seen_by sorts finished kinds.old.items })
        (record { folder = image.new; source = repo.new; spawner = spawner.new; counted = seen_by sorts finished kinds.new.items }) result.outcome }
    // The sink took the report, whole where that is answered.
    ensures told { Tells O.taking (report_text result.outcome) out.old out.new result.told }
{
    commands_are_formed();
    match Command::read(alloc, words) {
        Ok(command) => perform(alloc, &command, moment, repo, image, spawner, kinds, out),
        Err(Or::Bad(Usage { place, why })) => finish(alloc, Outcome::Usage { place, why }, out),
        Err(Or::OutOfMemory) => finish(alloc, Outcome::OutOfMemory, out),
    }
}

/// The same for a command, which has to be one that `Command::read` answers for some words.
pub fn perform<S: Source, F: Folder, P: Spawner, O: Sink>(
    alloc: Global,
    command: &Command,
    moment: u64,
    repo: &mut S,
    image: &mut F,
    spawner: &mut P,
    kinds: &mut Vec<Box<dyn Kind>>,
    out: &mut O,
) -> Status
    requires moment { moment < 253370764800 }
    requires formed { IsFormedCommand command.now }
    requires number { HasNumber command.now.what }
    requires takers { (s : Sort) → IsTrue (taken (seen_by sorts finished kinds.old.items) s) }
    ensures does { Does F.outside S.outside P.running command.now moment
        (record { folder = image.old; source = repo.old; spawner = spawner.old; counted = seen_by sorts finished kinds.old.items })
        (record { folder = image.new; source = repo.new; spawner = spawner.new; counted = seen_by sorts finished kinds.new.items }) result.outcome }
    ensures told { Tells O.taking (report_text result.outcome) out.old out.new result.told }
{
    if let Some(showing) = Showing::of(&command.what) {
        return performed(alloc, &showing, repo, image, spawner, kinds, out);
    }
    if let Some(changing) = Changing::of(command, moment) {
        return performed(alloc, &changing, repo, image, spawner, kinds, out);
    }
    if let Some(creating) = Creating::of(command, moment) {
        return performed(alloc, &creating, repo, image, spawner, kinds, out);
    }
    if let Some(fixing) = Fixing::of(command, moment) {
        return performed(alloc, &fixing, repo, image, spawner, kinds, out);
    }
    match &command.what {
        What::Gen { number } => finish(alloc, generated(alloc, *number, kinds), out),
        what => finish(alloc, answered(alloc, what), out),
    }
}
