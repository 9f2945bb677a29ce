//! From what is asked of an image to the packages that are chosen.

ghost use Rattle.std.specs.Prelude.{◌≡◌, ℕ, List, IsTrue, IfOk, Err, is_some, map, option_map};
ghost use Rattle.ips_text.specs.Reading.{IfBad};
ghost use Rattle.ips_text.specs.declared.refusal.Or.TheVariants.{Bad};
ghost use Rattle.ips_outside.specs.Outside.{Reads};
ghost use Rattle.ips_state.specs.Lawful.{AreStems, IsLawful};
ghost use Rattle.ips_state.specs.State.{Recorded, installed, recorded};
ghost use Rattle.ips_request.specs.Request.{looks_at_repository};
ghost use Rattle.ips_problem.specs.Asked.{IsAsked, tells_where};
ghost use Rattle.ips_problem.specs.Avoided.{AreAvoided};
ghost use Rattle.ips_problem.specs.Held.{posed_of};
ghost use Rattle.ips_problem.specs.Posed.{Posed};
ghost use Rattle.ips_problem.specs.Recordable.{IsRecordable};
ghost use Rattle.ips_problem.specs.Taken.{IsChoice};
ghost use Rattle.ips_asked.specs.Asked.{IsAskedBy};
ghost use Rattle.ips_asked.specs.Requested.{IsRequestOf, kind_asked};
ghost use Rattle.ips_next.specs.Choosing.{CanBeDecided, IsLawfulChoice};
ghost use Rattle.ips_next.specs.Decided as decided;
ghost use Rattle.ips_next.specs.Decided.{IsDecided, IsLookedAt, IsPosed, IsUndecided, MayCome};
ghost use Rattle.ips_next.specs.declared.fault.NextFault.TheVariants as fault;

use crate::choosing::{choose, is_choice};
use crate::fault::NextFault;
use crate::opening::open;
use crate::posing::pose;
use ips_asked::request_of;
use ips_manifest::Package;
use ips_outside::Source;
use ips_problem::{Problem, Request};
use ips_repo::Repo;
use ips_state::State;
use ips_text::{Or, Text};
use ips_words::What;
use std::alloc::{AllocError, Global};

/// The limit of a search where the words give none.
const LIMIT: u64 = 1_000_000;

/// What is chosen.
#[derive(Drop)]
pub struct Chosen {
    /// The packages, by the bytes of their stems.
    pub packages: Vec<Package>,
    /// The stems that are avoided from then on, by their bytes.
    pub avoid: Vec<Text>,
}

/// The packages that are chosen for what a command asks of an image.
pub fn decided<S: Source>(
    alloc: Global,
    what: &What,
    old: &State,
    asked: &State,
    source: &mut S,
) -> Result<Chosen, Or<NextFault>>
    requires { CanBeDecided what.now (recorded old.now) (recorded asked.now) }
    ensures decided { IsTrue (tells_where (decided.looks (kind_asked what.now)) (S.outside.tells source.old)) → IfOk result (λ d. IsDecided what.now (recorded old.now) (recorded asked.now) (S.outside.state source.old).held (map installed d.packages.items) d.avoid.items) }
    ensures lawful { IfOk result IsLawfulChoice }
    ensures refused { IsTrue (tells_where (decided.looks (kind_asked what.now)) (S.outside.tells source.old)) → IfBad result (IsUndecided what.now (recorded old.now) (recorded asked.now) (S.outside.state source.old).held) }
    ensures early { IfBad result (MayCome (kind_asked what.now)) }
    ensures reads { Reads S.outside source.old source.new (result ≡ Err (Bad fault.SourceFault)) }
{
    let request = request_of(alloc, what)?;
    match open(alloc, what, &old.publisher, source) {
        Ok(repo) => decided_over(alloc, what, old, asked, &request, repo.as_ref(), source),
        Err(Or::Bad(why)) => Err(Or::Bad(why)),
        Err(Or::OutOfMemory) => Err(Or::OutOfMemory),
    }
}

// The packages that are chosen over a repository that is open, where one is looked at.
fn decided_over<S: Source>(
    alloc: Global,
    what: &What,
    old: &State,
    asked: &State,
    request: &Request,
    repo: Option<&Repo>,
    source: &mut S,
) -> Result<Chosen, Or<NextFault>>
    requires can { CanBeDecided what.now (recorded old.now) (recorded asked.now) }
    requires request { IsRequestOf what.now request.now }
    requires repository { is_some repo ≡ decided.looks (kind_asked what.now) }
    ensures decided { IsTrue (tells_where (decided.looks (kind_asked what.now)) (S.outside.tells source.old)) → IsLookedAt (decided.looks (kind_asked what.now)) (recorded old.now).publisher (S.outside.state source.old).held (option_map (λ r. r.now) repo.entry)
        → IfOk result (λ d. IsDecided what.now (recorded old.now) (recorded asked.now) (S.outside.state source.old).held (map installed d.packages.items) d.avoid.items) }
    ensures lawful { IfOk result IsLawfulChoice }
    ensures refused { IsTrue (tells_where (decided.looks (kind_asked what.now)) (S.outside.tells source.old)) → IsLookedAt (decided.looks (kind_asked what.now)) (recorded old.now).publisher (S.outside.state source.old).held (option_map (λ r. r.now) repo.entry)
        → IfBad result (IsUndecided what.now (recorded old.now) (recorded asked.now) (S.outside.state source.old).held) }
    ensures early { IfBad result (MayCome (kind_asked what.now)) }
    ensures reads { Reads S.outside source.old source.new (result ≡ Err (Bad fault.SourceFault)) }
{
    let over = chosen_over(what, old, asked);
    match pose(alloc, over, request, repo, source) {
        Ok(problem) => decided_in(alloc, what, asked, request, repo, &problem, source),
        Err(Or::Bad(why)) => Err(Or::Bad(why)),
        Err(Or::OutOfMemory) => Err(Or::OutOfMemory),
    }
}

// The records over which packages are chosen.
fn chosen_over<'a>(what: &What, old: &'a State, asked: &'a State) -> &'a State
    ensures { recorded result.now ≡ decided.chosen_over what.now (recorded old.now) (recorded asked.now) }
{
    match what {
        What::Avoid { .. } | What::Unavoid { .. } => old,
        _ => asked,
    }
}

// The packages that are chosen in a puzzle.
fn decided_in<S: Source>(
    alloc: Global,
    what: &What,
    asked: &State,
    request: &Request,
    repo: Option<&Repo>,
    problem: &Problem,
    source: &mut S,
) -> Result<Chosen, Or<NextFault>>
    requires recordable { IsRecordable (posed_of problem.now) }
    requires asked { IsLawful (recorded asked.now) }
    requires repository { is_some repo ≡ looks_at_repository request.now }
    requires kind { is_some repo ≡ decided.looks (kind_asked what.now) }
    ensures decided { IsTrue (tells_where (is_some repo.entry) (S.outside.tells source.old)) → (old : Recorded) → IsPosed what.now old (recorded asked.now) (S.outside.state source.old).held request.now (option_map (λ r. r.now) repo.entry) (posed_of problem.now)
        → IfOk result (λ d. IsDecided what.now old (recorded asked.now) (S.outside.state source.old).held (map installed d.packages.items) d.avoid.items) }
    ensures lawful { IfOk result IsLawfulChoice }
    ensures refused { IsTrue (tells_where (is_some repo.entry) (S.outside.tells source.old)) → (old : Recorded) → IsAskedBy what.now old (recorded asked.now)
        → IsPosed what.now old (recorded asked.now) (S.outside.state source.old).held request.now (option_map (λ r. r.now) repo.entry) (posed_of problem.now)
        → IfBad result (IsUndecided what.now old (recorded asked.now) (S.outside.state source.old).held) }
    ensures early { IfBad result (MayCome (kind_asked what.now)) }
    ensures reads { Reads S.outside source.old source.new (result ≡ Err (Bad fault.SourceFault)) }
{
    let choice = choose(alloc, problem, limit_asked(what))?;
    let avoid = avoided(alloc, what, asked, request, repo, problem, &choice, source)?;
    let packages = problem.take(alloc, &choice)?;
    Ok(Chosen { packages, avoid })
}

// The limit of the search.
fn limit_asked(what: &What) -> u64
    ensures { result ≡ decided.limit_asked what.now }
{
    match what {
        What::Install { limit, .. } => *limit,
        What::Update { limit, .. } => *limit,
        What::Uninstall { limit, .. } => *limit,
        _ => LIMIT,
    }
}

// The stems that are avoided from a choice on.
fn avoided<S: Source>(
    alloc: Global,
    what: &What,
    asked: &State,
    request: &Request,
    repo: Option<&Repo>,
    problem: &Problem,
    choice: &[u32],
    source: &mut S,
) -> Result<Vec<Text>, Or<NextFault>>
    requires recordable { IsRecordable (posed_of problem.now) }
    requires asked { IsLawful (recorded asked.now) }
    requires repository { is_some repo ≡ looks_at_repository request.now }
    requires kind { is_some repo ≡ decided.looks (kind_asked what.now) }
    requires choice { IsChoice (posed_of problem.now) choice.now }
    ensures avoided { IsTrue (tells_where (is_some repo.entry) (S.outside.tells source.old)) → (old : Recorded) → IsPosed what.now old (recorded asked.now) (S.outside.state source.old).held request.now (option_map (λ r. r.now) repo.entry) (posed_of problem.now)
        → IfOk result (λ avoid. (kept : Posed) × IsAsked request.now (recorded asked.now) (option_map (λ r. r.now) repo.entry) (S.outside.state source.old).held kept × AreAvoided kept choice.now avoid.items) }
    ensures stems { IfOk result (λ avoid. AreStems avoid.items) }
    ensures refused { IsTrue (tells_where (is_some repo.entry) (S.outside.tells source.old)) → (old : Recorded) → IsAskedBy what.now old (recorded asked.now)
        → IsPosed what.now old (recorded asked.now) (S.outside.state source.old).held request.now (option_map (λ r. r.now) repo.entry) (posed_of problem.now)
        → IfBad result (IsUndecided what.now old (recorded asked.now) (S.outside.state source.old).held) }
    ensures early { IfBad result (MayCome (kind_asked what.now)) }
    ensures reads { Reads S.outside source.old source.new (result ≡ Err (Bad fault.SourceFault)) }
{
    match what {
        What::Avoid { .. } | What::Unavoid { .. } => match pose(
            alloc, asked, request, repo, source,
        ) {
            Ok(kept) => avoided_from(alloc, &kept, choice),
            Err(Or::Bad(why)) => Err(Or::Bad(why)),
            Err(Or::OutOfMemory) => Err(Or::OutOfMemory),
        },
        _ => match problem.avoid(alloc, choice) {
            Ok(avoid) => Ok(avoid),
            Err(_) => Err(Or::OutOfMemory),
        },
    }
}

// The stems that are avoided from a choice on, in a puzzle over other avoided stems, of which it is a choice too.
fn avoided_from(alloc: Global, kept: &Problem, choice: &[u32]) -> Result<Vec<Text>, Or<NextFault>>
    requires { IsRecordable (posed_of kept.now) }
    ensures avoided { IfOk result (λ avoid. AreAvoided (posed_of kept.now) choice.now avoid.items) }
    ensures stems { IfOk result (λ avoid. AreStems avoid.items) }
    ensures never { IfBad result (λ why. ⊥) }
{
    if !is_choice(kept, choice) {
        return Err(Or::OutOfMemory);
    }
    match kept.avoid(alloc, choice) {
        Ok(avoid) => Ok(avoid),
        Err(_) => Err(Or::OutOfMemory),
    }
}
