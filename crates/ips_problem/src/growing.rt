//! The stems in reach, gone through one by one.

ghost use Rattle.std.specs.Prelude.{◌≡◌, ◌∷◌, ◌++◌, ◌<◌, ◌≤◌, ◌^◌, [], ℕ, false, Err, IsTrue, IfOk, List, OnOk, Option, Some, is_some, length, map, nat_eq, option_map, slice_get, vec_len};
ghost use Rattle.std.specs.List.{flat_map};
ghost use Rattle.ips_text.specs.Reading.{IfBad};
ghost use Rattle.ips_text.specs.declared.refusal.Or.TheVariants.{Bad};
ghost use Rattle.ips_fmri.specs.Name.{IsStem};
ghost use Rattle.ips_fmri.specs.Version.{Parts};
ghost use Rattle.ips_outside.specs.Outside.{Reads};
ghost use Rattle.ips_depend.specs.Dependency as depend;
ghost use Rattle.ips_request.specs.Case as case;
ghost use Rattle.ips_request.specs.Case.{IsReading, ManifestReading};
ghost use Rattle.ips_request.specs.Manifests.{all_manifests_limit};
ghost use Rattle.ips_request.specs.Stems.{stems_of, put_all};
ghost use Rattle.ips_request.specs.Subject.{case_in, case_of, seen_naming};
ghost use Rattle.ips_request.specs.declared.fault.ProblemFault.TheVariants as fault;
ghost use Rattle.ips_problem.specs.Fault.{IsFirstFault};
ghost use Rattle.ips_problem.specs.Asked.{tells_where};
ghost use Rattle.ips_problem.specs.Gathered as gathered_of;
ghost use Rattle.ips_problem.specs.Gathered.{IsGathered, IsPosedBy, asked_at, tests_asked};
ghost use Rattle.ips_problem.specs.Held.{posed_of};
ghost use Rattle.ips_problem.specs.Posed as posed;
ghost use Rattle.ips_problem.specs.Reach.{stems_wanted};
ghost use Rattle.ips_problem.specs.Recordable.{IsOverSound, IsRecordable, IsSoundlyGathered};
ghost use Rattle.ips_problem.specs.Seen.{seen_test};

use crate::forms::stem_of;
use crate::gathered::Gathered;
use crate::gathering::row_of;
use crate::problem::Problem;
use crate::rows::{Numbered, Row};
use indexmap::IndexSet;
use ips_depend::Test;
use ips_fmri::Fmri;
use ips_outside::Source;
use ips_request::{Naming, ProblemFault, Read, Subject, add_fmris, add_packages, add_texts};
use ips_text::{Or, Text};
use std::alloc::{AllocError, Global};

/// The puzzle of what a request asks of an image.
pub fn posed_by<S: Source>(
    alloc: Global,
    subject: &Subject<'_>,
    source: &mut S,
) -> Result<Problem, Or<ProblemFault>>
    ensures posed { IsTrue (tells_where (is_some subject.now.repo) (S.outside.tells source.old)) → IfOk result (λ p. (r : ManifestReading) → IsReading subject.now.state.now.settings r
        → IsPosedBy (case_in subject.now (S.outside.state source.old).held r) (posed_of p)) }
    ensures recordable { IfOk result (λ p. IsOverSound subject.now → IsRecordable (posed_of p)) }
    ensures bad { IsTrue (tells_where (is_some subject.now.repo) (S.outside.tells source.old)) → IfBad result (λ why. (r : ManifestReading) → IsReading subject.now.state.now.settings r
        → IsFirstFault subject.now.state.now.settings (case_in subject.now (S.outside.state source.old).held r) why) }
    ensures reads { Reads S.outside source.old source.new (result ≡ Err (Bad fault.SourceFault)) }
    ensures asks { result ≡ Err (Bad fault.SourceFault) → IsTrue (is_some subject.now.repo) }
{
    let mut gathered = begun(alloc, subject)?;
    for _turn in 0..usize::MAX {
        if is_whole(&gathered) {
            return Ok(whole(alloc, subject, gathered)?);
        }
        gathered = match next(alloc, subject, source, gathered) {
            Ok(gathered) => gathered,
            Err(why) => return Err(why),
        };
    }
    Err(Or::OutOfMemory)
}

// Where the list of stems begins, before any of them was gone through.
fn begun(alloc: Global, subject: &Subject<'_>) -> Result<Gathered, AllocError>
    ensures sound { IfOk result IsSoundlyGathered }
    ensures gathered { IfOk result (λ g. (file : List ℕ → Parts → Option (List ℕ)) (r : ManifestReading) → IsGathered (case_of subject.now file r) g) }
{
    let mut stems = IndexSet::new(alloc);
    add_named(alloc, &mut stems, &subject.named)?;
    add_packages(alloc, &mut stems, &subject.state.installed)?;
    Ok(Gathered {
        stems,
        rows: Vec::new(alloc),
        tests: Vec::new(alloc),
        total: 0,
    })
}

// Puts the named stems last, unless they are there.
fn add_named(
    alloc: Global,
    stems: &mut IndexSet<String>,
    named: &[Naming],
) -> Result<(), AllocError>
    ensures { OnOk result (stems_of stems.new.keys ≡ put_all (stems_of stems.old.keys) (flat_map (λ (n : case.Naming). n.stems) (map seen_naming named.now))) }
{
    for naming in named {
        add_texts(alloc, stems, &naming.stems)?;
    }
    Ok(())
}

// Goes through the next stem.
fn next<S: Source>(
    alloc: Global,
    subject: &Subject<'_>,
    source: &mut S,
    gathered: Gathered,
) -> Result<Gathered, Or<ProblemFault>>
    requires { length gathered.rows.items < length gathered.stems.keys }
    ensures gathered { IsTrue (tells_where (is_some subject.now.repo) (S.outside.tells source.old)) → IfOk result (λ g. (r : ManifestReading) → IsReading subject.now.state.now.settings r
        → IsGathered (case_in subject.now (S.outside.state source.old).held r) gathered → IsGathered (case_in subject.now (S.outside.state source.old).held r) g) }
    ensures sound { IfOk result (λ g. IsOverSound subject.now → IsSoundlyGathered gathered → IsSoundlyGathered g) }
    ensures bad { IsTrue (tells_where (is_some subject.now.repo) (S.outside.tells source.old)) → IfBad result (λ why. (r : ManifestReading) → IsReading subject.now.state.now.settings r
        → IsGathered (case_in subject.now (S.outside.state source.old).held r) gathered
        → IsFirstFault subject.now.state.now.settings (case_in subject.now (S.outside.state source.old).held r) why) }
    ensures reads { Reads S.outside source.old source.new (result ≡ Err (Bad fault.SourceFault)) }
    ensures asks { result ≡ Err (Bad fault.SourceFault) → IsTrue (is_some subject.now.repo) }
{
    let turn = turn_of(&gathered);
    let mut total = gathered.total;
    let stem = stem_at(alloc, &gathered.stems, turn)?;
    let row = match row_of(alloc, subject, source, stem.as_str(), &mut total) {
        Ok(row) => row,
        Err(why) => return Err(why),
    };
    Ok(with_row(alloc, gathered, row, total)?)
}

// How many stems were gone through.
fn turn_of(gathered: &Gathered) -> usize
    ensures { result ≡ length gathered.now.rows.items }
{
    gathered.rows.len()
}

// Whether all stems on the list were gone through.
fn is_whole(gathered: &Gathered) -> bool
    ensures { result ≡ nat_eq (length gathered.now.rows.items) (length gathered.now.stems.keys) }
{
    gathered.rows.len() == gathered.stems.len()
}

// The stem with this number.
fn stem_at(alloc: Global, stems: &IndexSet<String>, number: usize) -> Result<Text, AllocError>
    requires { number < length stems.now.keys }
    ensures there { IfOk result (λ stem. slice_get (stems_of stems.now.keys) number ≡ Some stem) }
    ensures stem { IfOk result (IsStem false) }
{
    match stems.get_index(number) {
        Some(stem) => stem_of(alloc, stem.as_str()),
        None => Err(AllocError),
    }
}

// What was gathered, with what is known of the next stem.
fn with_row(alloc: Global, gathered: Gathered, row: Row, total: u64) -> Result<Gathered, AllocError>
    requires within { length gathered.rows.items < length gathered.stems.keys }
    requires few { total ≤ all_manifests_limit }
    requires few_candidates { vec_len row.candidates < 2 ^ 32 }
    ensures rows { IfOk result (λ g. g.rows.items ≡ gathered.rows.items ++ row ∷ []) }
    ensures total { IfOk result (λ g. g.total ≡ total) }
    ensures tests { IfOk result (λ g. map seen_test g.tests.items ≡ map seen_test gathered.tests.items ++ tests_asked (length gathered.rows.items) 0 row.reads.items row.candidates.items) }
    ensures stems { IfOk result (λ g. stems_of g.stems.keys ≡ put_all (stems_of gathered.stems.keys) (flat_map (λ o. stems_wanted (asked_at row.reads.items o)) row.candidates.items)) }
{
    let Gathered {
        mut stems,
        mut rows,
        mut tests,
        ..
    } = gathered;
    let turn = rows.len();
    if turn > u32::MAX as usize {
        return Err(AllocError);
    }
    add_row(alloc, &mut stems, &mut tests, turn as u32, &row)?;
    rows.push(row)?;
    Ok(Gathered {
        stems,
        rows,
        tests,
        total,
    })
}

// Adds the tests of the candidates of the stem with this number, and the stems that they want.
fn add_row(
    alloc: Global,
    stems: &mut IndexSet<String>,
    tests: &mut Vec<Numbered>,
    number: u32,
    row: &Row,
) -> Result<(), AllocError>
    requires { vec_len row.now.candidates < 2 ^ 32 }
    ensures tests { OnOk result (map seen_test tests.new.items ≡ map seen_test tests.old.items ++ tests_asked number 0 row.now.reads.items row.now.candidates.items) }
    ensures stems { OnOk result (stems_of stems.new.keys ≡ put_all (stems_of stems.old.keys) (flat_map (λ o. stems_wanted (asked_at row.now.reads.items o)) row.now.candidates.items)) }
{
    for (candidate, version) in row.candidates.iter().enumerate() {
        add_all(
            alloc,
            stems,
            tests,
            number,
            candidate as u32,
            asked(row, *version),
        )?;
    }
    Ok(())
}

// What a candidate asks for.
fn asked(row: &Row, version: Option<usize>) -> &[Test]
    ensures { result.now ≡ asked_at row.now.reads.items version }
{
    match version {
        Some(number) => asked_of(row.reads.get(number)),
        None => &[],
    }
}

// What a version that was read asks for.
fn asked_of(read: Option<&Read>) -> &[Test]
    ensures { result.now ≡ gathered_of.asked (option_map (λ r. r.now) read.entry) }
{
    match read {
        Some(read) => read.tests.as_slice(),
        None => &[],
    }
}

// Adds the dependencies of a candidate as tests, and the stems that they want.
fn add_all(
    alloc: Global,
    stems: &mut IndexSet<String>,
    tests: &mut Vec<Numbered>,
    number: u32,
    candidate: u32,
    dependencies: &[Test],
) -> Result<(), AllocError>
    ensures tests { OnOk result (map seen_test tests.new.items ≡ map seen_test tests.old.items ++ posed.numbered number candidate dependencies.now) }
    ensures stems { OnOk result (stems_of stems.new.keys ≡ put_all (stems_of stems.old.keys) (stems_wanted dependencies.now)) }
{
    for dependency in dependencies {
        let test: Test = dependency.copy(alloc)?;
        tests.push(Numbered {
            stem: number,
            candidate,
            test,
        })?;
        add_fmris(alloc, stems, wanted(dependency))?;
    }
    Ok(())
}

// What a dependency wants.
fn wanted(dependency: &Test) -> &[Fmri]
    ensures { result.now ≡ depend.wanted dependency.now }
{
    let mentions = dependency.mentions();
    let others = mentions.len() - dependency.wants();
    &mentions[others..]
}

// The puzzle of all that was gathered.
fn whole(alloc: Global, subject: &Subject<'_>, gathered: Gathered) -> Result<Problem, AllocError>
    requires { length gathered.rows.items ≡ length gathered.stems.keys }
    ensures recordable { IfOk result (λ p. IsOverSound subject.now → IsSoundlyGathered gathered → IsRecordable (posed_of p)) }
    ensures posed { IfOk result (λ p. (file : List ℕ → Parts → Option (List ℕ)) (r : ManifestReading)
        → IsGathered (case_of subject.now file r) gathered → IsPosedBy (case_of subject.now file r) (posed_of p)) }
{
    let avoid = still_avoided(alloc, subject)?;
    let Gathered {
        stems,
        rows,
        tests,
        ..
    } = gathered;
    Problem::new(alloc, stems, rows, tests, avoid)
}

// The avoided stems that the request doesn't ask for.
fn still_avoided(alloc: Global, subject: &Subject<'_>) -> Result<Vec<Text>, AllocError>
    ensures { IfOk result (λ avoid. (file : List ℕ → Parts → Option (List ℕ)) (r : ManifestReading) → avoid.items ≡ posed.still_avoided (case_of subject.now file r)) }
{
    let mut avoid = Vec::new(alloc);
    for stem in &subject.state.avoid {
        if subject.keeps_avoiding(stem.as_str()) {
            avoid.push(stem.copy(alloc)?)?;
        }
    }
    Ok(avoid)
}
