//! The puzzle of a command.

ghost use Rattle.std.specs.Prelude.{◌≡◌, IsTrue, IfOk, Err, is_some, option_map};
ghost use Rattle.ips_text.specs.Reading.{IfBad};
ghost use Rattle.ips_text.specs.declared.refusal.Or.TheVariants.{Bad};
ghost use Rattle.ips_outside.specs.Outside.{Reads};
ghost use Rattle.ips_state.specs.Lawful.{IsLawful};
ghost use Rattle.ips_state.specs.State.{recorded};
ghost use Rattle.ips_request.specs.Request.{looks_at_repository};
ghost use Rattle.ips_request.specs.declared.fault.ProblemFault as problem;
ghost use Rattle.ips_problem.specs.Asked.{IsAsked, IsProblemFault, tells_where};
ghost use Rattle.ips_problem.specs.Held.{posed_of};
ghost use Rattle.ips_problem.specs.Recordable.{IsRecordable};
ghost use Rattle.ips_next.specs.Decided as decided;
ghost use Rattle.ips_next.specs.Decided.{MayCome};
ghost use Rattle.ips_request.specs.declared.kind.Kind.{Kind};
ghost use Rattle.ips_next.specs.declared.fault.NextFault.TheVariants as fault;

use crate::fault::NextFault;
use ips_outside::Source;
use ips_problem::{Problem, ProblemFault, Request};
use ips_repo::Repo;
use ips_state::State;
use ips_text::Or;
use std::alloc::Global;

/// The puzzle of a request over these records.
pub fn pose<S: Source>(
    alloc: Global,
    state: &State,
    request: &Request,
    repo: Option<&Repo>,
    source: &mut S,
) -> Result<Problem, Or<NextFault>>
    requires lawful { IsLawful (recorded state.now) }
    requires repository { is_some repo ≡ looks_at_repository request.now }
    ensures posed { IsTrue (tells_where (is_some repo.entry) (S.outside.tells source.old)) → IfOk result (λ p. IsAsked request.now (recorded state.now) (option_map (λ r. r.now) repo.entry) (S.outside.state source.old).held (posed_of p)) }
    ensures recordable { IfOk result (λ p. IsRecordable (posed_of p)) }
    ensures refused { IsTrue (tells_where (is_some repo.entry) (S.outside.tells source.old)) → IfBad result (λ why. (f : problem.ProblemFault) × (why ≡ decided.unposed f) × IsProblemFault request.now (recorded state.now) (option_map (λ r. r.now) repo.entry) (S.outside.state source.old).held f) }
    ensures early { (k : Kind) → decided.looks k ≡ is_some repo.entry → IfBad result (MayCome k) }
    ensures reads { Reads S.outside source.old source.new (result ≡ Err (Bad fault.SourceFault)) }
{
    match Problem::build(alloc, state, request, repo, source) {
        Ok(problem) => Ok(problem),
        Err(Or::Bad(why)) => Err(Or::Bad(unposed(why))),
        Err(Or::OutOfMemory) => Err(Or::OutOfMemory),
    }
}

// What is answered where no puzzle is posed.
fn unposed(why: ProblemFault) -> NextFault
    ensures { result ≡ decided.unposed why }
{
    match why {
        ProblemFault::NoMatch { pattern } => NextFault::NoMatch { pattern },
        ProblemFault::Ambiguous { pattern, stems } => NextFault::Ambiguous { pattern, stems },
        ProblemFault::ManifestMissing { fmri } => NextFault::ManifestMissing { fmri },
        ProblemFault::BadManifest { fmri, fault } => NextFault::BadManifest { fmri, fault },
        ProblemFault::BadDepend { fmri, line } => NextFault::BadDepend { fmri, line },
        ProblemFault::TooLarge { which, count } => NextFault::TooLarge { which, count },
        ProblemFault::SourceFault => NextFault::SourceFault,
    }
}
