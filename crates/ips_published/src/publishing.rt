//! Publishing.

ghost use Rattle.std.specs.Prelude.{◌≡◌, ◌≤◌, Err, None, IsTrue};
ghost use Rattle.ips_text.specs.Reading.{IfBad};
ghost use Rattle.ips_text.specs.declared.refusal.Or.TheVariants.{Bad};
ghost use Rattle.ips_outside.specs.State.{IsSettled};
ghost use Rattle.ips_outside.specs.Outside.{HasCause, Reads};
ghost use Rattle.ips_steps.specs.Private.{gate_name};
ghost use Rattle.ips_steps.specs.declared.step.Sort.{Sort};
ghost use Rattle.ips_kinds.specs.Tallies.{seen_by, taken};
ghost use Rattle.ips_judged.specs.Answers.{IsAsked};
ghost use Rattle.ips_published.specs.Answers.{Ends};
ghost use Rattle.ips_published.specs.Ending.{IsFolderFault, IsRefusal, unjudged_as};
ghost use Rattle.ips_published.specs.declared.fault.PublishFault.TheVariants as fault;

use crate::carrying::put_judged;
use crate::fault::PublishFault;
use ips_folder::Folder;
use ips_judged::{Asked, JudgeFault, judged};
use ips_kinds::Kind;
use ips_outside::Source;
use ips_text::Or;
use std::alloc::Global;

/// Publishes what is asked, by what both folders hold, where nothing in the repository is touched and nothing stands at the gate.
///
/// # Errors
///
/// It is refused for the first of the causes of `Refusal`, and nothing is written; a content was lost meanwhile; or a call on a folder failed.
pub fn publish<S: Source, F: Folder>(
    alloc: Global,
    asked: &Asked,
    proto: &mut S,
    target: &mut F,
    kinds: &mut Vec<Box<dyn Kind>>,
) -> Result<(), Or<PublishFault>>
    requires asked { IsAsked asked.now }
    requires safe { IsTrue (F.outside.tells target.old) → IsSettled (F.outside.state target.old) }
    requires shut { IsTrue (F.outside.tells target.old) → (F.outside.state target.old).held.look gate_name ≡ None }
    requires takers { (s : Sort) → IsTrue (taken (seen_by sorts finished kinds.old.items) s) }
    ensures ends { IsTrue (S.outside.tells proto.old) → IsTrue (F.outside.tells target.old) → (is : IsAsked asked.now)
        → Ends F.outside (S.outside.state proto.old).held asked.now is target.old target.new result }
    ensures refused { IfBad result (λ why. IsRefusal why → F.outside.changes target.new ≡ F.outside.changes target.old) }
    ensures reads_proto { Reads S.outside proto.old proto.new (result ≡ Err (Bad fault.SourceFault)) }
    ensures cause { HasCause (F.outside.faults target.old) (F.outside.faults target.new) (IsFolderFault result) }
    ensures same_kind { F.outside.tells target.new ≡ F.outside.tells target.old }
    ensures changes { F.outside.changes target.old ≤ F.outside.changes target.new }
{
    match judged(alloc, proto, target, asked) {
        Ok(publication) => put_judged(alloc, asked, publication, proto, target, kinds),
        Err(fault) => Err(unjudged(fault)),
    }
}

// Why it isn't judged that this can be published.
fn unjudged(fault: Or<JudgeFault>) -> Or<PublishFault>
    ensures { result ≡ unjudged_as fault }
{
    match fault {
        Or::Bad(JudgeFault::Refused { refusal }) => Or::Bad(PublishFault::Refused { refusal }),
        Or::Bad(JudgeFault::SourceFault) => Or::Bad(PublishFault::SourceFault),
        Or::Bad(JudgeFault::FolderFault) => {
            Or::Bad(PublishFault::FolderFault { unfinished: false })
        }
        Or::OutOfMemory => Or::OutOfMemory,
    }
}
