//! What is asked for, on a settled target.

ghost use Rattle.std.specs.Prelude.{◌≡◌, None, IsTrue, Result};
ghost use Rattle.ips_outside.specs.State.{IsSettled};
ghost use Rattle.ips_outside.specs.Outside.{HasCause, Reads};
ghost use Rattle.ips_steps.specs.Private.{gate_name};
ghost use Rattle.ips_fmri.specs.Name.{IsPublisher};
ghost use Rattle.ips_send_words.specs.declared.request.Request.TheVariants as request;
ghost use Rattle.ips_send_report.specs.declared.outcome.SendOutcome.TheVariants as outcome;
ghost use Rattle.ips_judged.specs.Answers.{IsAsked};
ghost use Rattle.ips_text.specs.declared.refusal.Or as refusal;
ghost use Rattle.ips_create.specs.declared.fault.CreateFault as fault;
ghost use Rattle.ips_publish.specs.Comes.{Does, EndsMaking};
ghost use Rattle.ips_publish.specs.Sent.{IsFit};
ghost use Rattle.ips_publish.specs.Told as spec;
ghost use Rattle.ips_publish.specs.Told.{BlamesFolder};

use crate::takers::all_taken;
use ips_create::{CreateFault, create};
use ips_folder::Folder;
use ips_judged::{Asked, Refusal};
use ips_kinds::Kind;
use ips_outside::Source;
use ips_prepare::name_of;
use ips_published::{PublishFault, publish};
use ips_repo::RepoFault;
use ips_send_report::SendOutcome;
use ips_send_words::Request;
use ips_text::Or;
use std::alloc::Global;

/// Makes a repository, or publishes a package in it, in a target in which nothing is touched and nothing stands at the gate.
pub(crate) fn fulfilled<S: Source, F: Folder>(
    alloc: Global,
    request: Request,
    proto: &mut S,
    target: &mut F,
    kinds: &mut Vec<Box<dyn Kind>>,
) -> SendOutcome
    requires fit { IsFit request }
    requires safe { IsTrue (F.outside.tells target.old) → IsSettled (F.outside.state target.old) }
    requires shut { IsTrue (F.outside.tells target.old) → (F.outside.state target.old).held.look gate_name ≡ None }
    ensures does { Does S.outside F.outside proto.old target.old target.new request result }
    ensures source { Reads S.outside proto.old proto.new (result ≡ outcome.SourceFault) }
    ensures folder { HasCause (F.outside.faults target.old) (F.outside.faults target.new) (BlamesFolder result) }
    ensures same_kind { F.outside.tells target.new ≡ F.outside.tells target.old }
{
    match request {
        Request::Create { publisher } => created(alloc, publisher.as_str(), target),
        Request::Publish {
            publisher,
            stem,
            version,
            path,
        } => {
            let asked = Asked {
                publisher,
                stem,
                version,
                path,
            };
            published(alloc, &asked, proto, target, kinds)
        }
    }
}

// Makes a repository of the publisher.
fn created<F: Folder>(alloc: Global, publisher: &str, target: &mut F) -> SendOutcome
    requires publisher { IsPublisher publisher.now }
    requires safe { IsTrue (F.outside.tells target.old) → IsSettled (F.outside.state target.old) }
    requires shut { IsTrue (F.outside.tells target.old) → (F.outside.state target.old).held.look gate_name ≡ None }
    ensures ends { (x : Result (Unit {0}) (refusal.Or fault.CreateFault)) × (result ≡ spec.created_as x) × (IsTrue (F.outside.tells target.old) → EndsMaking F.outside publisher.now target.old target.new x) }
    ensures folder { HasCause (F.outside.faults target.old) (F.outside.faults target.new) (BlamesFolder result) }
    ensures same_kind { F.outside.tells target.new ≡ F.outside.tells target.old }
{
    match create(alloc, publisher, target) {
        Ok(()) => SendOutcome::Created,
        Err(why) => uncreated(why),
    }
}

// Why no repository is made.
fn uncreated(why: Or<CreateFault>) -> SendOutcome
    ensures { result ≡ spec.uncreated_as why }
{
    match why {
        Or::Bad(CreateFault::Exists) => SendOutcome::Exists,
        Or::Bad(CreateFault::Blocked { path }) => SendOutcome::Blocked { path },
        Or::Bad(CreateFault::FolderFault { unfinished }) => SendOutcome::FolderFault { unfinished },
        Or::OutOfMemory => SendOutcome::OutOfMemory,
    }
}

// Publishes what is asked. Kinds never change which sorts they take; were a sort without one, no memory would be told before anything is changed.
fn published<S: Source, F: Folder>(
    alloc: Global,
    asked: &Asked,
    proto: &mut S,
    target: &mut F,
    kinds: &mut Vec<Box<dyn Kind>>,
) -> SendOutcome
    requires asked { IsAsked asked.now }
    requires safe { IsTrue (F.outside.tells target.old) → IsSettled (F.outside.state target.old) }
    requires shut { IsTrue (F.outside.tells target.old) → (F.outside.state target.old).held.look gate_name ≡ None }
    ensures does { Does S.outside F.outside proto.old target.old target.new (request.Publish asked.now.publisher asked.now.stem asked.now.version asked.now.path) result }
    ensures source { Reads S.outside proto.old proto.new (result ≡ outcome.SourceFault) }
    ensures folder { HasCause (F.outside.faults target.old) (F.outside.faults target.new) (BlamesFolder result) }
    ensures same_kind { F.outside.tells target.new ≡ F.outside.tells target.old }
{
    let fmri = match name_of(
        alloc,
        asked.publisher.as_str(),
        asked.stem.as_str(),
        &asked.version,
    ) {
        Ok(fmri) => fmri,
        Err(_) => return SendOutcome::OutOfMemory,
    };
    if !all_taken(alloc, kinds) {
        return SendOutcome::OutOfMemory;
    }
    match publish(alloc, asked, proto, target, kinds) {
        Ok(()) => SendOutcome::Published { fmri },
        Err(why) => unpublished(why),
    }
}

// Why nothing is published.
fn unpublished(why: Or<PublishFault>) -> SendOutcome
    ensures { result ≡ spec.unpublished_as why }
{
    match why {
        Or::Bad(PublishFault::Refused { refusal }) => refused(refusal),
        Or::Bad(PublishFault::Lost { text }) => SendOutcome::ContentMissing { path: text },
        Or::Bad(PublishFault::SourceFault) => SendOutcome::SourceFault,
        Or::Bad(PublishFault::FolderFault { unfinished }) => SendOutcome::FolderFault {
            unfinished,
        },
        Or::Bad(PublishFault::BadJournal { line }) => SendOutcome::BadJournal { line },
        Or::OutOfMemory => SendOutcome::OutOfMemory,
    }
}

// Why a publication is refused.
fn refused(why: Refusal) -> SendOutcome
    ensures { result ≡ spec.refused_as why }
{
    match why {
        Refusal::Unopened { fault } => unopened(fault),
        Refusal::ManifestMissing => SendOutcome::ManifestMissing,
        Refusal::BadManifest { fault } => SendOutcome::BadManifest { fault },
        Refusal::ContentMissing { text } => SendOutcome::ContentMissing { path: text },
        Refusal::Exists => SendOutcome::Exists,
        Refusal::Blocked { path } => SendOutcome::Blocked { path },
        Refusal::TooLarge { which, count } => SendOutcome::TooLarge { which, count },
    }
}

// Why the repository isn't opened.
fn unopened(fault: RepoFault) -> SendOutcome
    ensures { result ≡ spec.unopened_as fault }
{
    match fault {
        RepoFault::BadCatalog(fault) => SendOutcome::BadCatalog { fault },
        RepoFault::TooLarge { which, count } => SendOutcome::TooLarge { which, count },
        RepoFault::NoRepository
        | RepoFault::ManifestMissing
        | RepoFault::BadManifest(_)
        | RepoFault::PayloadMissing
        | RepoFault::PayloadDamaged { .. }
        | RepoFault::Compressed { .. }
        | RepoFault::SourceFault => SendOutcome::NoRepository,
    }
}
