//! The problem of a request.

ghost use Rattle.std.specs.Prelude.{◌≡◌, Err, IsTrue, IfOk, is_some, option_map};
ghost use Rattle.ips_text.specs.Reading.{IfBad};
ghost use Rattle.ips_text.specs.declared.refusal.Or.TheVariants.{Bad};
ghost use Rattle.ips_outside.specs.Outside.{Reads};
ghost use Rattle.ips_state.specs.Lawful.{IsLawful};
ghost use Rattle.ips_state.specs.State.{IsOrdered, recorded};
ghost use Rattle.ips_request.specs.Request.{looks_at_repository};
ghost use Rattle.ips_request.specs.declared.fault.ProblemFault.TheVariants as fault;
ghost use Rattle.ips_problem.specs.Asked.{IsAsked, IsProblemFault, tells_where};
ghost use Rattle.ips_problem.specs.Held.{posed_of};
ghost use Rattle.ips_problem.specs.Recordable.{IsRecordable};

use crate::growing::posed_by;
use crate::problem::Problem;
use ips_outside::Source;
use ips_repo::Repo;
use ips_request::{ProblemFault, Request, subject_of};
use ips_state::State;
use ips_text::Or;
use std::alloc::Global;

impl Problem {
    /// The problem of a request on an image of this state. A repository is given exactly for an install and an update. To keep
    /// the selection under other settings, freezes or mediators, the state is the one with these.
    ///
    /// NoMatch and Ambiguous come of the first pattern that names nothing, or one of several; what the request rejects comes
    /// behind its other patterns. ManifestMissing, BadManifest, BadDepend and TooLarge come where the first needed manifest in the
    /// order of reach is so, and SourceFault only where a call on the source failed.
    ///
    /// Over a state that can be recorded, whatever the problem's choices select and avoid can be recorded, also where the source tells nothing. Without a
    /// repository nothing is read of it, and it needn't tell.
    pub fn build<S: Source>(
        alloc: Global,
        state: &State,
        request: &Request,
        repo: Option<&Repo>,
        source: &mut S,
    ) -> Result<Problem, Or<ProblemFault>>
        requires lawful { IsOrdered (recorded state.now) }
        requires repository { is_some repo ≡ looks_at_repository request.now }
        ensures asked { IsTrue (tells_where (is_some repo.entry) (S.outside.tells source.old)) → IfOk result (λ p. IsAsked request.now (recorded state.now) (option_map (λ r. r.now) repo.entry) (S.outside.state source.old).held (posed_of p)) }
        ensures recordable { IfOk result (λ p. IsLawful (recorded state.now) → IsRecordable (posed_of p)) }
        ensures bad { IsTrue (tells_where (is_some repo.entry) (S.outside.tells source.old)) → IfBad result (IsProblemFault request.now (recorded state.now) (option_map (λ r. r.now) repo.entry) (S.outside.state source.old).held) }
        ensures reads { Reads S.outside source.old source.new (result ≡ Err (Bad fault.SourceFault)) }
        ensures asks { result ≡ Err (Bad fault.SourceFault) → IsTrue (is_some repo.entry) }
    {
        match subject_of(alloc, state, request, repo) {
            Ok(subject) => posed_by(alloc, &subject, source),
            Err(why) => Err(why),
        }
    }
}
