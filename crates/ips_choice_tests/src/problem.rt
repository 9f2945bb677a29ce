//! What is told of problems, in words.

ghost use Rattle.std.specs.Prelude.{◌≡◌, IfOk, IsTrue, is_some, map};
ghost use Rattle.std.specs.List.{AllByRecursion};
ghost use Rattle.ips_fmri.specs.declared.fmri.Fmri as declared;
ghost use Rattle.ips_state.specs.State.{Ascend, IsOrdered, recorded};
ghost use Rattle.ips_request.specs.Request.{looks_at_repository};

use crate::rows::{bytes_of, column};
use ips_filter::Settings;
use ips_fmri::{Fmri, Pattern, Version};
use ips_manifest::{Manifest, Package};
use ips_outside::{MemSource, Tree};
use ips_problem::{Problem, ProblemFault, Request};
use ips_refute::Puzzle;
use ips_repo::Repo;
use ips_search::{Found, solve};
use ips_state::State;
use ips_text::{Or, RelPath, Text};
use std::alloc::{AllocError, Global};
use std::process::Abort;

// Adds a directory; one that stands already is left.
fn add_dir(rt: &impl Abort, alloc: Global, tree: &mut Tree, place: &[u8]) {
    let path = RelPath::parse(alloc, place)
        .ok()
        .expect(rt, "a number or a path");
    let _ = tree.dir(alloc, &path, 0o755);
}

fn add_file(rt: &impl Abort, alloc: Global, tree: &mut Tree, place: &[u8], bytes: &[u8]) {
    let path = RelPath::parse(alloc, place)
        .ok()
        .expect(rt, "a number or a path");
    tree.file(alloc, &path, 0o644, bytes)
        .ok()
        .expect(rt, "an answer");
}

// Adds a directory for each part but the last, and a file.
fn add(rt: &impl Abort, alloc: Global, tree: &mut Tree, place: &str, bytes: &[u8]) {
    let place = place.as_bytes();
    for (i, b) in place.iter().enumerate() {
        if *b == b'/' {
            add_dir(rt, alloc, tree, &place[..i]);
        }
    }
    add_file(rt, alloc, tree, place, bytes)
}

// A repository of the publisher `test` with this catalog and these manifests: a line has the stem and the version of each, and
// its bytes as they are spelled.
fn repository(rt: &impl Abort, alloc: Global, catalog: &str, manifests: &str) -> Tree {
    let mut tree = Tree::new(alloc);
    add(rt, alloc, &mut tree, "pkg5.repository", b"version=4\n");
    let place = "publisher/test/catalog/catalog.base.C";
    add(rt, alloc, &mut tree, place, catalog.as_bytes());
    for line in manifests.lines() {
        let stem = column(line, 0);
        let version = column(line, 1);
        if !stem.is_empty() {
            let place = format!(in alloc; "publisher/test/pkg/{stem}/{version}").expect(
                rt, "memory",
            );
            add(
                rt,
                alloc,
                &mut tree,
                place.as_str(),
                &bytes_of(rt, alloc, column(line, 2)),
            );
        }
    }
    tree
}

fn package(rt: &impl Abort, alloc: Global, stem: &str, version: &str, manifest: &str) -> Package {
    Package {
        stem: Text::new(alloc, stem).expect(rt, "memory"),
        version: Version::parse(alloc, version)
            .ok()
            .expect(rt, "a number or a path"),
        manifest: Manifest::read(alloc, manifest.as_bytes())
            .ok()
            .expect(rt, "an answer"),
    }
}

// The freeze that is spelled so, none where nothing is spelled. The error is also that it has no version.
fn freezes(alloc: Global, text: &str) -> Result<Vec<Fmri>, AllocError>
    ensures order { IfOk result (λ v. Ascend (map (λ (f : declared.Fmri). f.stem) v.items)) }
    ensures frozen { IfOk result (λ v. AllByRecursion (λ (f : declared.Fmri). IsTrue (is_some f.version)) v.items) }
{
    let mut freezes = Vec::new(alloc);
    if text.is_empty() {
        return Ok(freezes);
    }
    let freeze = Fmri::parse(alloc, text).ok().ok_or(AllocError)?;
    if freeze.version.is_none() {
        return Err(AllocError);
    }
    freezes.push(freeze)?;
    Ok(freezes)
}

// Up to two stems, which a blank divides, by their bytes. The error is also that they don't stand so.
fn stems_of(alloc: Global, words: &str) -> Result<Vec<Text>, AllocError>
    ensures { IfOk result (λ v. Ascend v.items) }
{
    let mut stems = Vec::new(alloc);
    if words.is_empty() {
        return Ok(stems);
    }
    let Some((first, second)) = words.split_once(' ') else {
        stems.push(Text::new(alloc, words)?)?;
        return Ok(stems);
    };
    let first = Text::new(alloc, first)?;
    let second = Text::new(alloc, second)?;
    if !first.cmp(&second).is_lt() {
        return Err(AllocError);
    }
    stems.push(first)?;
    stems.push(second)?;
    Ok(stems)
}

// An image of the publisher `test` with two packages, by the bytes of their stems, a freeze, where one is spelled, and the stems
// that are avoided. The error is also that the packages don't stand so.
fn image(
    alloc: Global,
    first: Package,
    second: Package,
    freeze: &str,
    avoid: &str,
) -> Result<State, AllocError>
    ensures { IfOk result (λ s. IsOrdered (recorded s)) }
{
    if !first.stem.cmp(&second.stem).is_lt() {
        return Err(AllocError);
    }
    let freeze = freezes(alloc, freeze)?;
    let avoid = stems_of(alloc, avoid)?;
    let mut installed = Vec::new(alloc);
    installed.push(first)?;
    installed.push(second)?;
    Ok(State {
        format: 2,
        publisher: Text::new(alloc, "test")?,
        origins: Vec::new(alloc),
        actuator: None,
        settings: Settings::new(alloc),
        installed,
        avoid,
        freeze,
        mediators: Vec::new(alloc),
        history: Vec::new(alloc),
        index: None,
    })
}

// The patterns that are spelled so, divided by blanks.
fn patterns_of(rt: &impl Abort, alloc: Global, words: &str) -> Vec<Pattern> {
    let mut patterns = Vec::new(alloc);
    for word in words.split_whitespace() {
        patterns
            .push(
                Pattern::parse(alloc, word)
                    .ok()
                    .expect(rt, "a number or a path"),
            )
            .expect(rt, "memory");
    }
    patterns
}

// A request of a kind; only an install and an update reject anything.
fn request(rt: &impl Abort, alloc: Global, kind: &str, named: &str, rejected: &str) -> Request {
    let patterns = patterns_of(rt, alloc, named);
    let reject = patterns_of(rt, alloc, rejected);
    if kind == "install" {
        Request::Install { patterns, reject }
    } else if kind == "update" {
        Request::Update { patterns, reject }
    } else if kind == "uninstall" {
        Request::Uninstall { patterns }
    } else if kind == "keep" {
        Request::Keep
    } else {
        panic!(rt; "no kind")
    }
}

// The repository, where the request looks at one.
fn looked_at<'a>(request: &Request, repo: &'a Repo) -> Option<&'a Repo>
    ensures { is_some result ≡ looks_at_repository request.now }
{
    match request {
        Request::Install { .. } => Some(repo),
        Request::Update { .. } => Some(repo),
        Request::Uninstall { .. } => None,
        Request::Keep => None,
    }
}

// The stems in reach, each with its candidates in order.
fn stems_told(rt: &impl Abort, alloc: Global, problem: &Problem) -> String {
    let mut out = String::new(alloc);
    for stem in 0..problem.stems() {
        if stem > 0 {
            out.push_str("; ").expect(rt, "memory");
        }
        out.push_str(problem.stem(stem)).expect(rt, "memory");
        for candidate in 0..problem.candidates(stem) {
            match problem.version(stem, candidate) {
                Some(version) => {
                    let version = version.print(alloc).expect(rt, "memory");
                    write!(out, " {}", version.as_str()).expect(rt, "memory");
                }
                None => out.push_str(" -").expect(rt, "memory"),
            }
        }
    }
    out
}

// The stems in reach of a request over the repository in a tree, of which the listed call fails, or the choice, or the fault.
fn answer(
    rt: &impl Abort,
    alloc: Global,
    state: &State,
    request: &Request,
    tree: Tree,
    fails: u64,
    shows_choice: bool,
) -> String
    requires { IsOrdered (recorded state.now) }
{
    let mut source = MemSource::new(tree, vec![in alloc; fails].expect(rt, "memory"));
    let repo = Repo::open(alloc, &mut source, "test")
        .ok()
        .expect(rt, "an answer");
    let looked_at = looked_at(request, &repo);
    let built = Problem::build(alloc, state, request, looked_at, &mut source);
    built_told(rt, alloc, &built, shows_choice)
}

fn built_told(
    rt: &impl Abort,
    alloc: Global,
    built: &Result<Problem, Or<ProblemFault>>,
    shows_choice: bool,
) -> String {
    match built {
        Ok(problem) => {
            if shows_choice {
                chosen_told(rt, alloc, problem)
            } else {
                stems_told(rt, alloc, problem)
            }
        }
        Err(Or::Bad(fault)) => format!(in alloc; "{fault:?}").expect(rt, "memory"),
        Err(Or::OutOfMemory) => String::from_str(alloc, "out of memory").expect(rt, "memory"),
    }
}

// An image with `a`, which has this manifest, and `b`, both at a version.
fn with_a_and_b(
    rt: &impl Abort,
    alloc: Global,
    version: &str,
    manifest: &str,
    freeze: &str,
) -> State
    ensures { IsOrdered (recorded result) }
{
    let first = package(rt, alloc, "a", version, manifest);
    let second = package(rt, alloc, "b", version, "");
    image(alloc, first, second, freeze, "").expect(rt, "an image")
}

// `a` and `b` are installed at 2.1, and `a` requires `c`. The catalog doesn't have these versions. Those at 3 and 5 of `a` and
// `b`, and that at 2 of `c`, are obsolete.
const OFFERED: &str = r#"{"test": {
    "a": [{"version": "1"}, {"version": "3"}, {"version": "4"}, {"version": "5"}, {"version": "6"}],
    "b": [{"version": "1"}, {"version": "3"}, {"version": "4"}, {"version": "5"}, {"version": "6"}],
    "c": [{"version": "1"}, {"version": "2"}, {"version": "3"}]}}"#;

const OFFERED_MANIFESTS: &str = "
a | 1 |
a | 3 | set name=pkg.obsolete value=true%0a
a | 4 |
a | 5 | set name=pkg.obsolete value=true%0a
a | 6 |
b | 1 |
b | 3 | set name=pkg.obsolete value=true%0a
b | 4 |
b | 5 | set name=pkg.obsolete value=true%0a
b | 6 |
c | 1 |
c | 2 | set name=pkg.obsolete value=true%0a
c | 3 |";

// A request over these, where a freeze is set.
pub fn offers_told(
    rt: &impl Abort,
    alloc: Global,
    kind: &str,
    named: &str,
    rejected: &str,
    freeze: &str,
) -> String {
    let state = with_a_and_b(rt, alloc, "2.1", "depend fmri=c type=require\n", freeze);
    let request = request(rt, alloc, kind, named, rejected);
    let tree = repository(rt, alloc, OFFERED, OFFERED_MANIFESTS);
    answer(rt, alloc, &state, &request, tree, 0, false)
}

// What the best choice selects, and what is avoided from it on.
fn chosen_told(rt: &impl Abort, alloc: Global, problem: &Problem) -> String {
    let choice = match solve(alloc, problem, 100).ok().expect(rt, "an answer") {
        Found::Chosen(choice) => choice,
        Found::Refuted(_) => return String::from_str(alloc, "refuted").expect(rt, "memory"),
        Found::Spent => return String::from_str(alloc, "spent").expect(rt, "memory"),
    };
    let packages = problem.take(alloc, &choice).ok().expect(rt, "an answer");
    let stems = problem.avoid(alloc, &choice).ok().expect(rt, "an answer");
    selection_told(rt, alloc, &packages, &stems)
}

fn selection_told(rt: &impl Abort, alloc: Global, packages: &[Package], stems: &[Text]) -> String {
    let mut out = String::new(alloc);
    for package in packages {
        let version = package.version.print(alloc).expect(rt, "memory");
        write!(out, "{}@{} ", package.stem.as_str(), version.as_str()).expect(rt, "memory");
    }
    out.push_str("avoids").expect(rt, "memory");
    for stem in stems {
        write!(out, " {}", stem.as_str()).expect(rt, "memory");
    }
    out
}

// `g`, which has a group dependency on `x`, and `x` are installed; a later version of `x` is obsolete.
pub fn obsolete_told(rt: &impl Abort, alloc: Global, shows_choice: bool) -> String {
    let first = package(rt, alloc, "g", "1", "depend fmri=x type=group\n");
    let second = package(rt, alloc, "x", "1", "");
    let state = image(alloc, first, second, "", "").expect(rt, "an image");
    let request = request(rt, alloc, "update", "", "");
    let catalog = r#"{"test": {"x": [{"version": "2"}]}}"#;
    let tree = repository(
        rt,
        alloc,
        catalog,
        "x | 2 | set name=pkg.obsolete value=true%0a",
    );
    answer(rt, alloc, &state, &request, tree, 0, shows_choice)
}

// `new` asks how new `base` was before, `g` and `h` each for one of two packages. `k` asks for `x`. `x` and `y` are obsolete at 2.
const DRAWN: &str = r#"{"test": {
    "a": [{"version": "1"}],
    "b": [{"version": "1"}],
    "base": [{"version": "5"}],
    "g": [{"version": "1"}],
    "h": [{"version": "1"}],
    "k": [{"version": "1"}],
    "new": [{"version": "2"}],
    "x": [{"version": "1"}, {"version": "2"}],
    "y": [{"version": "1"}, {"version": "2"}]}}"#;

const DRAWN_MANIFESTS: &str = "
a | 1 |
b | 1 |
base | 5 |
g | 1 | depend fmri=a fmri=b type=group-any%0a
h | 1 | depend fmri=x@2 fmri=y type=group-any%0a
k | 1 | depend fmri=x type=require%0a
new | 2 | depend fmri=base@5 type=origin%0a
x | 1 |
x | 2 | set name=pkg.obsolete value=true%0a
y | 1 |
y | 2 | set name=pkg.obsolete value=true%0a";

// An install from these over an image with a package and `z`, where stems are avoided.
pub fn drawn_told(
    rt: &impl Abort,
    alloc: Global,
    installed: &str,
    avoided: &str,
    named: &str,
) -> String {
    let (stem, version) = installed.split_once('@').expect(rt, "a version");
    let first = package(rt, alloc, stem, version, "");
    let second = package(rt, alloc, "z", "1", "");
    let state = image(alloc, first, second, "", avoided).expect(rt, "an image");
    let request = request(rt, alloc, "install", named, "");
    let tree = repository(rt, alloc, DRAWN, DRAWN_MANIFESTS);
    answer(rt, alloc, &state, &request, tree, 0, true)
}

const FAULTY: &str = r#"{"test": {
    "d": [{"version": "1"}],
    "f": [{"version": "1"}],
    "large": [{"version": "1"}],
    "m": [{"version": "1"}],
    "x/e": [{"version": "1"}],
    "y/e": [{"version": "1"}]}}"#;

const FAULTY_MANIFESTS: &str = "
d | 1 | %0afrob a=b%0a
f | 1 | depend fmri=x type=no%0a";

// A request over these, and over a manifest that is one byte beyond the limit where it names `large`.
pub fn faults_told(
    rt: &impl Abort,
    alloc: Global,
    kind: &str,
    named: &str,
    rejected: &str,
) -> String {
    let state = with_a_and_b(rt, alloc, "1", "", "");
    let request = request(rt, alloc, kind, named, rejected);
    let mut tree = repository(rt, alloc, FAULTY, FAULTY_MANIFESTS);
    if named == "large" {
        let text = vec![in alloc; b'#'; 16_777_217].expect(rt, "memory");
        add(rt, alloc, &mut tree, "publisher/test/pkg/large/1", &text);
    }
    answer(rt, alloc, &state, &request, tree, 0, false)
}

// An install of `c`, where the listed call fails.
pub fn failing_told(rt: &impl Abort, alloc: Global, fails: u64) -> String {
    let state = with_a_and_b(rt, alloc, "1", "", "");
    let request = request(rt, alloc, "install", "c", "");
    let catalog = r#"{"test": {"c": [{"version": "1"}]}}"#;
    let tree = repository(rt, alloc, catalog, "c | 1 | set name=a value=b%0a");
    answer(rt, alloc, &state, &request, tree, fails, false)
}
