//! The top call.

ghost use Rattle.std.specs.Prelude.{◌≡◌, ◌<◌, ℕ, List, IsTrue, map, string_bytes};
ghost use Rattle.ips_steps.specs.declared.step.Sort.{Sort};
ghost use Rattle.ips_kinds.specs.Tallies.{seen_by, taken};
ghost use Rattle.ips_files.specs.Telling.{Tells};
ghost use Rattle.ips_send_report.specs.Report.{send_text};
ghost use Rattle.ips_send_words.specs.Words.{Asks};
ghost use Rattle.ips_publish.specs.Sent.{IsFit, IsSent};
ghost use Rattle.ips_publish.specs.Told as spec;

use crate::requests::fulfilled;
use crate::telling::finish;
use ips_commit::CommitFault;
use ips_folder::Folder;
use ips_kinds::Kind;
use ips_outside::{Sink, Source};
use ips_put::settle;
use ips_send_report::{SendOutcome, SendStatus};
use ips_send_words::{Request, read_request};
use ips_text::Or;
use ips_words::Usage;
use std::alloc::Global;

/// Does what the words of `send` ask for at a moment, so many seconds after the first of January 1970, with the folder of what is published and the target that are handed in,
/// and writes its report to the sink. The words are those of the command line without the program's name. Each sort of step has to have a kind that takes it.
pub fn send<S: Source, F: Folder, O: Sink>(
    alloc: Global,
    words: &[String],
    moment: u64,
    proto: &mut S,
    target: &mut F,
    kinds: &mut Vec<Box<dyn Kind>>,
    out: &mut O,
) -> SendStatus
    requires moment { moment < 253370764800 }
    requires takers { (s : Sort) → IsTrue (taken (seen_by sorts finished kinds.old.items) s) }
    // Under which cause the outcome comes, what holds wherever the run is stopped, and whose fault it is.
    ensures sent { IsSent S.outside F.outside (map string_bytes words.now) moment proto.old proto.new target.old target.new (seen_by sorts finished kinds.old.items) (seen_by sorts finished kinds.new.items) result.outcome }
    // The sink took the report, whole where that is answered.
    ensures told { Tells O.taking (send_text (spec.named_publisher (map string_bytes words.now)) result.outcome) out.old out.new result.told }
{
    let outcome = sent(alloc, words, moment, proto, target, kinds);
    finish(alloc, named_publisher(words), outcome, out)
}

// What the words come to.
fn sent<S: Source, F: Folder>(
    alloc: Global,
    words: &[String],
    moment: u64,
    proto: &mut S,
    target: &mut F,
    kinds: &mut Vec<Box<dyn Kind>>,
) -> SendOutcome
    requires moment { moment < 253370764800 }
    requires takers { (s : Sort) → IsTrue (taken (seen_by sorts finished kinds.old.items) s) }
    ensures { IsSent S.outside F.outside (map string_bytes words.now) moment proto.old proto.new target.old target.new (seen_by sorts finished kinds.old.items) (seen_by sorts finished kinds.new.items) result }
{
    match read_request(alloc, words, moment) {
        Ok(request) => settled(alloc, request, proto, target, kinds),
        Err(Or::Bad(Usage { place, why })) => SendOutcome::Usage { place, why },
        Err(Or::OutOfMemory) => SendOutcome::OutOfMemory,
    }
}

// What a request comes to, on a target that is settled first.
fn settled<S: Source, F: Folder>(
    alloc: Global,
    request: Request,
    proto: &mut S,
    target: &mut F,
    kinds: &mut Vec<Box<dyn Kind>>,
) -> SendOutcome
    requires fit { IsFit request }
    requires takers { (s : Sort) → IsTrue (taken (seen_by sorts finished kinds.old.items) s) }
    ensures { (words : List (List ℕ)) (moment : ℕ) → Asks moment words request
        → IsSent S.outside F.outside words moment proto.old proto.new target.old target.new (seen_by sorts finished kinds.old.items) (seen_by sorts finished kinds.new.items) result }
{
    match settle(alloc, target, kinds) {
        Ok(()) => fulfilled(alloc, request, proto, target, kinds),
        Err(why) => unsettled(why),
    }
}

// Why what was stopped isn't brought to its end.
fn unsettled(why: Or<CommitFault>) -> SendOutcome
    ensures { result ≡ spec.unsettled_as why }
{
    match why {
        Or::Bad(CommitFault::Unchanged) => SendOutcome::FolderFault { unfinished: false },
        Or::Bad(CommitFault::Unfinished) => SendOutcome::FolderFault { unfinished: true },
        Or::Bad(CommitFault::BadJournal { line }) => SendOutcome::BadJournal { line },
        Or::OutOfMemory => SendOutcome::OutOfMemory,
    }
}

// The publisher that the words of `create` name.
fn named_publisher(words: &[String]) -> &str
    ensures { result.now ≡ spec.named_publisher (map string_bytes words.now) }
{
    match words.get(6) {
        Some(word) => word.as_str(),
        None => "",
    }
}
