//! What a request asks of an image, put together.

ghost use Rattle.std.specs.Prelude.{◌≡◌, ℕ, Err, IfOk, List, map, option_map};
ghost use Rattle.std.specs.List.{flat_map};
ghost use Rattle.ips_text.specs.Reading.{IfBad};
ghost use Rattle.ips_fmri.specs.declared.fmri.Fmri as declared;
ghost use Rattle.ips_state.specs.State.{IsOrdered, Ascend, Installed, installed, recorded};
ghost use Rattle.ips_request.specs.Request as asked;
ghost use Rattle.ips_request.specs.Request.{IsPatternFault, IsSubjectOf};
ghost use Rattle.ips_request.specs.Listing.{listing_of};
ghost use Rattle.ips_request.specs.Named.{AreNamed, IsFirstUnnamed, with_limits};
ghost use Rattle.ips_request.specs.Stems.{stems_of, firsts};
ghost use Rattle.ips_request.specs.Subject.{catalog_of, seen_naming};
ghost use Rattle.ips_request.specs.declared.asking.Naming as naming;
ghost use Rattle.ips_request.specs.declared.fault.ProblemFault.TheVariants as fault;

use crate::asking::{Naming, Subject};
use crate::fault::ProblemFault;
use crate::kind::Kind;
use crate::known::known_stems;
use crate::naming::{named_by, named_one};
use crate::request::Request;
use crate::stems::{add_fmris, add_packages, add_texts};
use indexmap::IndexSet;
use ips_catalog::Catalog;
use ips_fmri::{Fmri, Pattern, Version};
use ips_manifest::Package;
use ips_repo::Repo;
use ips_state::State;
use ips_text::{Or, Text};
use std::alloc::{AllocError, Global};

/// What the request asks of an image of this state: what its patterns name, what it rejects, and all that is looked up by stems.
///
/// NoMatch and Ambiguous come of the first pattern that names nothing, or one of several; what the request rejects comes behind its
/// other patterns.
pub fn subject_of<'a>(
    alloc: Global,
    state: &'a State,
    request: &Request,
    repo: Option<&'a Repo>,
) -> Result<Subject<'a>, Or<ProblemFault>>
    requires { IsOrdered (recorded state.now) }
    ensures subject { IfOk result (λ s. IsSubjectOf request.now (recorded state.now) (option_map (λ r. r.now) repo.entry) s) }
    ensures bad { IfBad result (λ why. IsPatternFault request.now (recorded state.now) (catalog_of (option_map (λ r. r.now) repo.entry)) why × (why ≡ fault.SourceFault → ⊥)) }
{
    let all = known_stems(alloc, catalog(repo), &state.installed)?;
    let known = known_stems(alloc, matched(request, catalog(repo)), &state.installed)?;
    let publisher = state.publisher.as_str();
    let named = match namings(alloc, publisher, known.as_slice(), patterns(request)) {
        Ok(named) => named,
        Err(why) => return Err(why),
    };
    let rejects = match named_by(alloc, publisher, all.as_slice(), rejects(request)) {
        Ok(rejects) => rejects,
        Err(why) => return Err(why),
    };
    let rejected = each_once(alloc, rejects.as_slice())?;
    Ok(made(alloc, kind(request), named, rejected, state, repo)?)
}

// The subject of these parts.
fn made<'a>(
    alloc: Global,
    kind: Kind,
    named: Vec<Naming>,
    rejected: IndexSet<String>,
    state: &'a State,
    repo: Option<&'a Repo>,
) -> Result<Subject<'a>, AllocError>
    requires { IsOrdered (recorded state.now) }
    ensures kind { IfOk result (λ s. s.kind ≡ kind) }
    ensures named { IfOk result (λ s. s.named ≡ named) }
    ensures rejected { IfOk result (λ s. s.rejected ≡ rejected) }
    ensures state { IfOk result (λ s. s.state.now ≡ state.now) }
    ensures repo { IfOk result (λ s. option_map (λ r. r.now) s.repo ≡ option_map (λ r. r.now) repo.entry) }
{
    let packages = package_index(alloc, &state.installed)?;
    let avoided = text_index(alloc, &state.avoid)?;
    let frozen = freeze_index(alloc, &state.freeze)?;
    Ok(Subject {
        kind,
        named,
        rejected,
        state,
        repo,
        packages,
        avoided,
        frozen,
    })
}

// The stems of the packages, in their order.
fn package_index(alloc: Global, packages: &[Package]) -> Result<IndexSet<String>, AllocError>
    requires { Ascend (map (λ (p : Installed). p.stem) (map installed packages.now)) }
    ensures { IfOk result (λ set. stems_of set.keys ≡ map (λ (p : Installed). p.stem) (map installed packages.now)) }
{
    let mut stems = IndexSet::new(alloc);
    add_packages(alloc, &mut stems, packages)?;
    Ok(stems)
}

// The stems, in their order.
fn text_index(alloc: Global, texts: &[Text]) -> Result<IndexSet<String>, AllocError>
    requires { Ascend texts.now }
    ensures { IfOk result (λ set. stems_of set.keys ≡ texts.now) }
{
    let mut stems = IndexSet::new(alloc);
    add_texts(alloc, &mut stems, texts)?;
    Ok(stems)
}

// The stems of the freezes, in their order.
fn freeze_index(alloc: Global, freezes: &[Fmri]) -> Result<IndexSet<String>, AllocError>
    requires { Ascend (map (λ (f : declared.Fmri). f.stem) freezes.now) }
    ensures { IfOk result (λ set. stems_of set.keys ≡ map (λ (f : declared.Fmri). f.stem) freezes.now) }
{
    let mut stems = IndexSet::new(alloc);
    add_fmris(alloc, &mut stems, freezes)?;
    Ok(stems)
}

// Each of the stems in these lists once, at its first place.
fn each_once(alloc: Global, lists: &[Vec<Text>]) -> Result<IndexSet<String>, AllocError>
    ensures { IfOk result (λ set. stems_of set.keys ≡ firsts (flat_map (λ (stems : List (List ℕ)). stems) (map (λ v. v.items) lists.now))) }
{
    let mut stems = IndexSet::new(alloc);
    for list in lists {
        add_texts(alloc, &mut stems, list)?;
    }
    Ok(stems)
}

// What each of the patterns names among the known stems, at the versions that it admits, or the fault of the first that names none.
fn namings(
    alloc: Global,
    publisher: &str,
    known: &[Text],
    patterns: &[Pattern],
) -> Result<Vec<Naming>, Or<ProblemFault>>
    ensures named { IfOk result (λ namings. AreNamed publisher.now known.now patterns.now (map (λ (n : naming.Naming). n.stems.items) namings.items)) }
    ensures limited { IfOk result (λ namings. map seen_naming namings.items ≡ with_limits patterns.now (map (λ (n : naming.Naming). n.stems.items) namings.items)) }
    ensures unnamed { IfBad result (λ why. IsFirstUnnamed publisher.now known.now patterns.now why) }
{
    let mut namings = Vec::new(alloc);
    for pattern in patterns {
        let stems = match named_one(alloc, publisher, known, pattern) {
            Ok(stems) => stems,
            Err(why) => return Err(why),
        };
        let naming = with_index(alloc, stems, pattern)?;
        namings.push(naming)?;
    }
    Ok(namings)
}

// What the pattern names, to be looked up.
fn with_index(alloc: Global, stems: Vec<Text>, pattern: &Pattern) -> Result<Naming, AllocError>
    ensures stems { IfOk result (λ n. n.stems ≡ stems) }
    ensures limit { IfOk result (λ n. n.limit ≡ pattern.now.version) }
{
    let mut index = IndexSet::new(alloc);
    add_texts(alloc, &mut index, &stems)?;
    let limit = copy_of(alloc, &pattern.version)?;
    Ok(Naming {
        stems,
        index,
        limit,
    })
}

// The same version, where there is one.
fn copy_of(alloc: Global, version: &Option<Version>) -> Result<Option<Version>, AllocError>
    ensures { IfOk result (λ copy. copy ≡ version.now) }
{
    match version {
        Some(version) => Ok(Some(version.copy(alloc)?)),
        None => Ok(None),
    }
}

// The repository's catalog.
fn catalog(repo: Option<&Repo>) -> Option<&Catalog>
    ensures { listing_of (option_map (λ c. c.now) result) ≡ catalog_of (option_map (λ r. r.now) repo.entry) }
{
    match repo {
        Some(repo) => Some(repo.catalog()),
        None => None,
    }
}

// The catalog that patterns are matched against.
fn matched<'a>(request: &Request, catalog: Option<&'a Catalog>) -> Option<&'a Catalog>
    ensures { listing_of (option_map (λ c. c.now) result) ≡ asked.matched_against (asked.kind_of request.now) (listing_of (option_map (λ c. c.now) catalog.entry)) }
{
    match request {
        Request::Install { .. } => catalog,
        _ => None,
    }
}

fn kind(request: &Request) -> Kind
    ensures { result ≡ asked.kind_of request.now }
{
    match request {
        Request::Install { .. } => Kind::Install,
        Request::Update { .. } => Kind::Update,
        Request::Uninstall { .. } => Kind::Uninstall,
        Request::Keep => Kind::Keep,
    }
}

fn patterns(request: &Request) -> &[Pattern]
    ensures { result.now ≡ asked.patterns_of request.now }
{
    match request {
        Request::Install { patterns, .. } => patterns.as_slice(),
        Request::Update { patterns, .. } => patterns.as_slice(),
        Request::Uninstall { patterns } => patterns.as_slice(),
        Request::Keep => &[],
    }
}

fn rejects(request: &Request) -> &[Pattern]
    ensures { result.now ≡ asked.rejects_of request.now }
{
    match request {
        Request::Install { reject, .. } => reject.as_slice(),
        Request::Update { reject, .. } => reject.as_slice(),
        Request::Uninstall { .. } => &[],
        Request::Keep => &[],
    }
}
