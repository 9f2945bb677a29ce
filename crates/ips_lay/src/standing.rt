//! Contents that stand already.

ghost use Rattle.std.specs.Prelude.{◌≡◌, ◌<◌, ◌↔◌, IsTrue, IfOk, IsErr, OnOk, length};
ghost use Rattle.ips_outside.specs.Outside.{Reads};
ghost use Rattle.ips_lay.specs.Records.{HasFailed};
ghost use Rattle.ips_repo.specs.Payload.{HasIntact, IsFrontOf};

use ips_digest::PayloadName;
use ips_outside::{Failed, Source};
use ips_repo::{Payload, RepoFault};
use ips_text::Or;
use std::alloc::Global;

/// Whether the payload of this name is intact in the repository.
pub(crate) fn is_intact<S: Source>(
    alloc: Global,
    publisher: &str,
    name: &PayloadName,
    repository: &mut S,
    buffer: &mut [u8],
) -> Result<bool, Or<Failed>>
    requires { 0 < length buffer.old }
    ensures found { IsTrue (S.outside.tells repository.old) → IfOk result (λ intact. IsTrue intact ↔ HasIntact publisher.now (S.outside.state repository.old).held name.now) }
    ensures reads { Reads S.outside repository.old repository.new (HasFailed result) }
{
    let mut payload = match Payload::open(alloc, repository, publisher, name) {
        Ok(payload) => payload,
        Err(Or::Bad(RepoFault::SourceFault)) => return Err(Or::Bad(Failed)),
        Err(Or::Bad(_)) => return Ok(false),
        Err(Or::OutOfMemory) => return Err(Or::OutOfMemory),
    };
    match read_all(&mut payload, repository, buffer) {
        Ok(()) => Ok(payload.finish().is_ok()),
        Err(Failed) => Err(Or::Bad(Failed)),
    }
}

// Reads the payload to its end.
fn read_all<S: Source>(
    payload: &mut Payload,
    source: &mut S,
    buffer: &mut [u8],
) -> Result<(), Failed>
    requires { 0 < length buffer.old }
    ensures ended { OnOk result (IsTrue payload.new.ended) }
    ensures named { payload.new.name ≡ payload.old.name }
    ensures placed { payload.new.place ≡ payload.old.place }
    ensures sized { payload.new.size ≡ payload.old.size }
    ensures front { IsTrue (S.outside.tells source.old) → IsFrontOf (S.outside.state source.old).held payload.old → IsFrontOf (S.outside.state source.old).held payload.new }
    ensures reads { Reads S.outside source.old source.new (IsErr result) }
{
    loop {
        let Ok(count) = payload.next(source, buffer) else {
            return Err(Failed);
        };
        if count == 0 {
            return Ok(());
        }
    }
}
