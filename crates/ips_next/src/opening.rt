//! The repository that a command looks at.

ghost use Rattle.std.specs.Prelude.{◌≡◌, IsTrue, IfOk, Err, true, is_some};
ghost use Rattle.ips_text.specs.Reading.{IfBad};
ghost use Rattle.ips_text.specs.declared.refusal.Or.TheVariants.{Bad};
ghost use Rattle.ips_outside.specs.Image.{Image};
ghost use Rattle.ips_outside.specs.Outside.{Reads};
ghost use Rattle.ips_repo.specs.Answer.{IsMeantFault};
ghost use Rattle.ips_repo.specs.Opening as repository;
ghost use Rattle.ips_repo.specs.Opening.{IsOpeningFault};
ghost use Rattle.ips_repo.specs.declared.fault.RepoFault.TheVariants as repo_fault;
ghost use Rattle.ips_state.specs.State.{Recorded};
ghost use Rattle.ips_problem.specs.Asked.{tells_where};
ghost use Rattle.ips_asked.specs.Requested.{kind_asked};
ghost use Rattle.ips_next.specs.Decided as decided;
ghost use Rattle.ips_next.specs.Decided.{IsLookedAt, IsUndecided, MayCome};
ghost use Rattle.ips_next.specs.declared.fault.NextFault.TheVariants as fault;

use crate::fault::NextFault;
use ips_outside::Source;
use ips_repo::{Repo, RepoFault};
use ips_text::{Or, Text};
use ips_words::What;
use std::alloc::Global;

/// The publisher's repository, where the command looks for versions.
pub fn open<S: Source>(
    alloc: Global,
    what: &What,
    publisher: &Text,
    source: &mut S,
) -> Result<Option<Repo>, Or<NextFault>>
    ensures some { IfOk result (λ repo. is_some repo ≡ decided.looks (kind_asked what.now)) }
    ensures looked_at { IsTrue (tells_where (decided.looks (kind_asked what.now)) (S.outside.tells source.old)) → IfOk result (IsLookedAt (decided.looks (kind_asked what.now)) publisher.now (S.outside.state source.old).held) }
    ensures refused { IsTrue (tells_where (decided.looks (kind_asked what.now)) (S.outside.tells source.old)) → (old asked : Recorded) → old.publisher ≡ publisher.now → IfBad result (IsUndecided what.now old asked (S.outside.state source.old).held) }
    ensures early { IfBad result (MayCome (kind_asked what.now)) }
    ensures reads { Reads S.outside source.old source.new (result ≡ Err (Bad fault.SourceFault)) }
{
    if !looks(what) {
        return Ok(None);
    }
    match Repo::open(alloc, source, publisher.as_str()) {
        Ok(repo) => Ok(Some(repo)),
        Err(Or::Bad(fault)) => Err(Or::Bad(not_opened(what, fault))),
        Err(Or::OutOfMemory) => Err(Or::OutOfMemory),
    }
}

// Whether the command looks for versions.
fn looks(what: &What) -> bool
    ensures { result ≡ decided.looks (kind_asked what.now) }
{
    matches!(what, What::Install { .. } | What::Update { .. })
}

// What is answered where the repository doesn't open.
fn not_opened(what: &What, why: RepoFault) -> NextFault
    requires opening { IsOpeningFault why }
    requires looking { decided.looks (kind_asked what.now) ≡ true }
    ensures told { (old asked : Recorded) (held : Image) → IsMeantFault why (repository.opening old.publisher held) → IsUndecided what.now old asked held result }
    ensures early { MayCome (kind_asked what.now) result }
    ensures failed { why ≡ repo_fault.SourceFault → result ≡ fault.SourceFault }
    ensures steady { result ≡ fault.SourceFault → why ≡ repo_fault.SourceFault }
{
    match why {
        RepoFault::NoRepository => NextFault::NoRepository,
        RepoFault::BadCatalog(fault) => NextFault::BadCatalog { fault },
        RepoFault::TooLarge { which, count } => NextFault::TooLarge { which, count },
        RepoFault::SourceFault => NextFault::SourceFault,
        _ => unreachable!(),
    }
}
