//! What was judged carried out.

ghost use Rattle.std.specs.Prelude.{◌≡◌, ◌≤◌, Err, List, None, Ok, IsTrue, IfOk, map};
ghost use Rattle.std.specs.List.{AllByRecursion, flat_map};
ghost use Rattle.std.specs.Str.{IsUtf8};
ghost use Rattle.ips_text.specs.Reading.{IfBad};
ghost use Rattle.ips_text.specs.declared.refusal.Or.TheVariants.{Bad};
ghost use Rattle.ips_outside.specs.Children.{path_bytes};
ghost use Rattle.ips_outside.specs.State.{IsSettled};
ghost use Rattle.ips_outside.specs.Outside.{HasCause, Reads};
ghost use Rattle.ips_steps.specs.Private.{gate_name};
ghost use Rattle.ips_steps.specs.View.{step_of};
ghost use Rattle.ips_steps.specs.declared.step.Sort.{Sort};
ghost use Rattle.ips_kinds.specs.Tallies.{seen_by, taken};
ghost use Rattle.ips_catalog.specs.Listed.{Listed};
ghost use Rattle.ips_manifest.specs.Manifest.{StandsOnLine};
ghost use Rattle.ips_repo.specs.Opening.{IsOffered, opening};
ghost use Rattle.ips_ways.specs.Ways.{IsFree};
ghost use Rattle.ips_lay.specs.Lists as lay;
ghost use Rattle.ips_sends.specs.Whole.{content_of};
ghost use Rattle.ips_sends.specs.Judged as spec;
ghost use Rattle.ips_sends.specs.Judged.{Judges, Publish, Put};
ghost use Rattle.ips_prepare.specs.Prepared.{HasName, IsSourced, names_of};
ghost use Rattle.ips_judged.specs.Answers.{IsAsked, asked_of, put_of};
ghost use Rattle.ips_published.specs.Answers.{Ends};
ghost use Rattle.ips_published.specs.Ending.{IsFolderFault, IsUnrefused};
ghost use Rattle.ips_ready.specs.Plans.{IsPlan, IsPlanned};
ghost use Rattle.ips_beside.specs.Writing.{AreThere};
ghost use Rattle.ips_published.specs.Writing.{CanWrite, Goes, IsLost, unwritten_as};
ghost use Rattle.ips_published.specs.declared.fault.PublishFault.TheVariants as fault;

use crate::fault::PublishFault;
use crate::putting::put_texts;
use ips_beside::{BesideFault, write_beside};
use ips_folder::Folder;
use ips_judged::{Asked, Publication};
use ips_kinds::Kind;
use ips_lay::make_records;
use ips_manifest::manifests_read_back;
use ips_outside::Source;
use ips_ready::{Plan, plan_of};
use ips_text::Or;
use std::alloc::{AllocError, Global};

/// Puts what was judged that it can be published.
pub(crate) fn put_judged<S: Source, F: Folder>(
    alloc: Global,
    asked: &Asked,
    publication: Publication,
    proto: &mut S,
    target: &mut F,
    kinds: &mut Vec<Box<dyn Kind>>,
) -> Result<(), Or<PublishFault>>
    requires asked { IsAsked asked.now }
    requires stand { AllByRecursion StandsOnLine publication.prepared.manifest.lines.items }
    requires contents { names_of publication.prepared.contents.items ≡ flat_map content_of (put_of publication).actions }
    requires names { AllByRecursion HasName publication.prepared.contents.items }
    requires ways { path_bytes publication.ways.items ≡ spec.ways asked.now.publisher asked.now.stem (names_of publication.prepared.contents.items) }
    requires utf8 { IsUtf8 publication.texts.catalog.items }
    requires free { IsTrue (F.outside.tells target.old) → IsFree (F.outside.state target.old).held (path_bytes publication.ways.items) }
    requires offered { IsTrue (F.outside.tells target.old) → (catalog : List Listed) → opening asked.now.publisher (F.outside.state target.old).held ≡ Ok catalog → IsOffered catalog }
    requires safe { IsTrue (F.outside.tells target.old) → IsSettled (F.outside.state target.old) }
    requires shut { IsTrue (F.outside.tells target.old) → (F.outside.state target.old).held.look gate_name ≡ None }
    requires takers { (s : Sort) → IsTrue (taken (seen_by sorts finished kinds.old.items) s) }
    ensures ends { IsTrue (S.outside.tells proto.old) → IsTrue (F.outside.tells target.old) → (is : IsAsked asked.now)
        → Judges (S.outside.state proto.old).held (F.outside.state target.old).held (asked_of asked.now) (Publish (put_of publication))
        → AllByRecursion (IsSourced (S.outside.state proto.old).held) publication.prepared.contents.items
        → Ends F.outside (S.outside.state proto.old).held asked.now is target.old target.new result }
    ensures unrefused { IfBad result IsUnrefused }
    ensures reads_proto { Reads S.outside proto.old proto.new (result ≡ Err (Bad fault.SourceFault)) }
    ensures cause { HasCause (F.outside.faults target.old) (F.outside.faults target.new) (IsFolderFault result) }
    ensures same_kind { F.outside.tells target.new ≡ F.outside.tells target.old }
    ensures changes { F.outside.changes target.old ≤ F.outside.changes target.new }
{
    match plan_of(alloc, asked, publication) {
        Ok(plan) => carry_out(alloc, asked, &plan, proto, target, kinds),
        Err(AllocError) => Err(Or::OutOfMemory),
    }
}

// Carries out what is ready: the directories of the records first.
fn carry_out<S: Source, F: Folder>(
    alloc: Global,
    asked: &Asked,
    plan: &Plan,
    proto: &mut S,
    target: &mut F,
    kinds: &mut Vec<Box<dyn Kind>>,
) -> Result<(), Or<PublishFault>>
    requires asked { IsAsked asked.now }
    requires plan { IsPlanned asked.now plan.now }
    requires free { IsTrue (F.outside.tells target.old) → IsFree (F.outside.state target.old).held (path_bytes plan.now.ways.items) }
    requires offered { IsTrue (F.outside.tells target.old) → (catalog : List Listed) → opening asked.now.publisher (F.outside.state target.old).held ≡ Ok catalog → IsOffered catalog }
    requires safe { IsTrue (F.outside.tells target.old) → IsSettled (F.outside.state target.old) }
    requires shut { IsTrue (F.outside.tells target.old) → (F.outside.state target.old).held.look gate_name ≡ None }
    requires takers { (s : Sort) → IsTrue (taken (seen_by sorts finished kinds.old.items) s) }
    ensures ends { IsTrue (S.outside.tells proto.old) → IsTrue (F.outside.tells target.old) → (is : IsAsked asked.now) (put : Put) → IsPlan asked.now put plan.now
        → Judges (S.outside.state proto.old).held (F.outside.state target.old).held (asked_of asked.now) (Publish put)
        → AreThere (S.outside.state proto.old).held plan.now.contents.items
        → Ends F.outside (S.outside.state proto.old).held asked.now is target.old target.new result }
    ensures unrefused { IfBad result IsUnrefused }
    ensures reads_proto { Reads S.outside proto.old proto.new (result ≡ Err (Bad fault.SourceFault)) }
    ensures cause { HasCause (F.outside.faults target.old) (F.outside.faults target.new) (IsFolderFault result) }
    ensures same_kind { F.outside.tells target.new ≡ F.outside.tells target.old }
    ensures changes { F.outside.changes target.old ≤ F.outside.changes target.new }
{
    manifests_read_back();
    match make_records(alloc, target) {
        Ok(_) => write_and_put(alloc, asked, plan, proto, target, kinds),
        Err(Or::Bad(_)) => Err(Or::Bad(PublishFault::FolderFault { unfinished: false })),
        Err(Or::OutOfMemory) => Err(Or::OutOfMemory),
    }
}

// The rest, where the directories of the records stand.
fn write_and_put<S: Source, F: Folder>(
    alloc: Global,
    asked: &Asked,
    plan: &Plan,
    proto: &mut S,
    target: &mut F,
    kinds: &mut Vec<Box<dyn Kind>>,
) -> Result<(), Or<PublishFault>>
    requires asked { IsAsked asked.now }
    requires plan { IsPlanned asked.now plan.now }
    requires can { IsTrue (F.outside.tells target.old) → CanWrite plan.now (F.outside.state target.old).held }
    requires shut { IsTrue (F.outside.tells target.old) → (F.outside.state target.old).held.look gate_name ≡ None }
    requires takers { (s : Sort) → IsTrue (taken (seen_by sorts finished kinds.old.items) s) }
    ensures goes { IsTrue (F.outside.tells target.old) → (IsLost result → ⊥)
        → Goes F.outside asked.now.publisher (path_bytes plan.now.ways.items) (lay.names_of plan.now.contents.items) (map step_of plan.now.steps.items) plan.now.staged.items target.old target.new result }
    ensures kept { IsTrue (S.outside.tells proto.old) → AreThere (S.outside.state proto.old).held plan.now.contents.items → IsLost result → ⊥ }
    ensures unrefused { IfBad result IsUnrefused }
    ensures reads_proto { Reads S.outside proto.old proto.new (result ≡ Err (Bad fault.SourceFault)) }
    ensures cause { HasCause (F.outside.faults target.old) (F.outside.faults target.new) (IsFolderFault result) }
    ensures same_kind { F.outside.tells target.new ≡ F.outside.tells target.old }
    ensures changes { F.outside.changes target.old ≤ F.outside.changes target.new }
{
    let written = write_beside(
        alloc,
        asked.publisher.as_str(),
        plan.ways.as_slice(),
        plan.contents.as_slice(),
        proto,
        target,
    );
    match written {
        Ok(()) => put_texts(alloc, plan, target, kinds),
        Err(fault) => Err(unwritten(fault)),
    }
}

// Why not all is written beside.
fn unwritten(fault: Or<BesideFault>) -> Or<PublishFault>
    ensures { result ≡ unwritten_as fault }
{
    match fault {
        Or::Bad(BesideFault::Lost { text }) => Or::Bad(PublishFault::Lost { text }),
        Or::Bad(BesideFault::SourceFault) => Or::Bad(PublishFault::SourceFault),
        Or::Bad(BesideFault::FolderFault) => {
            Or::Bad(PublishFault::FolderFault { unfinished: false })
        }
        Or::OutOfMemory => Or::OutOfMemory,
    }
}
