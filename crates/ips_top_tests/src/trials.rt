//! Trials in memory: their summaries, how far the tallies of the kinds rise, and the commands of one over a generated repository, stopped too.

use ips_folder::{Choice, Folder, MemFolder, Stop};
use ips_generate::generate;
use ips_kinds::{FreshKind, GoneKind, HardKind, Kind, LinkKind, ModeKind, PutKind};
use ips_outside::{Look, MemSink, MemSource, MemSpawner, Sink, Source, Spawner, SureSource, Tree};
use ips_text::RelPath;
use ips_top::run;
use std::alloc::{AllocError, Global};
use std::process::Abort;

// The number that a run ends with, and how many steps the kinds have finished together, one kind for each sort of step.
fn finished_by<S: Source, F: Folder, P: Spawner, O: Sink>(
    alloc: Global,
    words: &[String],
    repo: &mut S,
    image: &mut F,
    spawner: &mut P,
    out: &mut O,
) -> Result<(u8, u64), AllocError> {
    let mut kinds: Vec<Box<dyn Kind>> = Vec::new(alloc);
    kinds.push(Box::new(alloc, GoneKind::new())?)?;
    kinds.push(Box::new(alloc, FreshKind::new())?)?;
    kinds.push(Box::new(alloc, ModeKind::new())?)?;
    kinds.push(Box::new(alloc, PutKind::new())?)?;
    kinds.push(Box::new(alloc, LinkKind::new())?)?;
    kinds.push(Box::new(alloc, HardKind::new())?)?;
    let status = run(alloc, words, 0, repo, image, spawner, &mut kinds, out);
    Ok((status.number(), together(&kinds)))
}

// How many steps these have finished together.
fn together(kinds: &[Box<dyn Kind>]) -> u64 {
    let mut steps = 0u64;
    for kind in kinds {
        steps = steps.saturating_add(kind.tally());
    }
    steps
}

// The words of a line, which blanks divide.
fn words_of(rt: &impl Abort, alloc: Global, line: &str) -> Vec<String> {
    let mut words = Vec::new(alloc);
    for word in line.split(' ') {
        words
            .push(String::from_str(alloc, word).expect(rt, "memory"))
            .expect(rt, "memory");
    }
    words
}

// A list of the first call.
fn first(rt: &impl Abort, alloc: Global) -> Vec<u64> {
    vec![in alloc; 1].expect(rt, "memory")
}

// How the run of a line ends over these objects: its number, how many steps the kinds have finished, and its report.
fn told_over<S: Source, F: Folder, P: Spawner>(
    rt: &impl Abort,
    alloc: Global,
    line: &str,
    repo: &mut S,
    image: &mut F,
    spawner: &mut P,
) -> String {
    let mut out = MemSink::new(alloc, 200, Vec::new(alloc)).expect(rt, "memory");
    let words = words_of(rt, alloc, line);
    let (number, steps) = finished_by(alloc, &words, repo, image, spawner, &mut out).expect(
        rt, "memory",
    );
    let taken = String::from_utf8_lossy(alloc, out.taken()).expect(rt, "memory");
    let taken = taken.as_str();
    format!(in alloc; "{number} {steps} {taken:?}").expect(rt, "memory")
}

// The same with a repository, a folder and a spawner of which the first call would fail.
fn run_told(rt: &impl Abort, alloc: Global, line: &str) -> String {
    let mut repo = MemSource::new(Tree::new(alloc), first(rt, alloc));
    let mut image = MemFolder::new(alloc, Tree::new(alloc), first(rt, alloc), None).expect(
        rt, "memory",
    );
    let mut spawner = MemSpawner::new(alloc, 0, Vec::new(alloc), first(rt, alloc)).expect(
        rt, "memory",
    );
    told_over(rt, alloc, line, &mut repo, &mut image, &mut spawner)
}

// Lines, and what is told of them. A trial asks nothing of what it is lent.
const TRIALS: [(&str, &str); 7] = [
    (
        "-R i -s r gen 1",
        r#"0 17 "gen 1: packages 2, steps 7, findings 0\n""#,
    ),
    (
        "-R i -s r gen 2",
        r#"0 20 "gen 2: packages 3, steps 10, findings 0\n""#,
    ),
    (
        "-R i -s r gen 100",
        r#"0 314 "gen 100: packages 101, steps 304, findings 0\n""#,
    ),
    ("-R i -s r gen 0", r#"2 0 "usage: word 5: bad value\n""#),
    ("-R i -s r gen 2001", r#"2 0 "usage: word 5: bad value\n""#),
    ("gen 1", r#"2 0 "usage: word 1: unknown\n""#),
    ("-R i -s r verify", r#"1 0 "folder fault: unchanged\n""#),
];

#[test]
fn a_trial_counts_its_steps_and_asks_nothing(rt: HostRuntime) {
    let alloc = rt.alloc();
    for (line, want) in TRIALS {
        let told = run_told(&rt, alloc, line);
        assert!(rt; told.as_str() == want, "{line}: {told}, and not {want}");
    }
}

// The commands of a trial.
const CREATE: &str = "-R i -s r image-create -p gen";

const INSTALL: &str = "-R i -s r install all";

const VERIFY: &str = "-R i -s r verify";

// What is told of them over a repository that is generated.
const CREATED: &str =
    r#"0 10 "install 0, update 0, remove 0\nsteps: gone 0, fresh 3, mode 0, put 7, link 0, hard 0\ndone\n""#;

const INSTALLED: &str =
    r#"0 3004 "install 1001, update 0, remove 0\nsteps: gone 0, fresh 1001, mode 0, put 2003, link 0, hard 0\ndone\n""#;

const VERIFIED: &str = r#"0 0 "ok\n""#;

// The same over a repository that is generated, with a spawner that has no room.
fn trial_told(
    rt: &impl Abort,
    alloc: Global,
    line: &str,
    repo: &mut SureSource,
    image: &mut MemFolder,
) -> String {
    let mut spawner = MemSpawner::new(alloc, 0, Vec::new(alloc), Vec::new(alloc)).expect(
        rt, "memory",
    );
    told_over(rt, alloc, line, repo, image, &mut spawner)
}

// A folder of which no call fails before it is stopped.
fn folder_of(rt: &impl Abort, alloc: Global, tree: Tree, stop: Option<Stop>) -> MemFolder {
    MemFolder::new(alloc, tree, Vec::new(alloc), stop).expect(rt, "memory")
}

#[test]
fn a_generated_repository_is_installed(rt: HostRuntime) {
    let alloc = rt.alloc();
    let mut repo = generate(alloc, 1000).expect(&rt, "memory");
    let mut image = folder_of(&rt, alloc, Tree::new(alloc), None);
    let told = trial_told(&rt, alloc, CREATE, &mut repo, &mut image);
    assert!(rt; told.as_str() == CREATED, "{told}");
    let told = trial_told(&rt, alloc, INSTALL, &mut repo, &mut image);
    assert!(rt; told.as_str() == INSTALLED, "{told}");
    let told = trial_told(&rt, alloc, VERIFY, &mut repo, &mut image);
    assert!(rt; told.as_str() == VERIFIED, "{told}");
}

// What is told of the installation that is stopped at the first call that changes the path of step 2,301, and of the fix behind it.
const STOPPED: &str = r#"1 2300 "folder fault: unfinished\n""#;

const FIXED: &str = r#"0 1004 "recovered: new image\n""#;

// Whether something stands at a path.
fn stands(rt: &impl Abort, alloc: Global, tree: &Tree, path: &str) -> bool {
    let path = RelPath::parse(alloc, path.as_bytes())
        .ok()
        .expect(rt, "a path");
    !matches!(tree.look(&path), Look::Absent)
}

// What the stopped installation leaves, where two marks stand.
fn stopped(rt: &impl Abort, alloc: Global, repo: &mut SureSource, tree: Tree) -> Tree {
    let stop = Stop {
        call: 16991,
        choice: Choice::Before,
    };
    let mut image = folder_of(rt, alloc, tree, Some(stop));
    let told = trial_told(rt, alloc, INSTALL, repo, &mut image);
    assert!(rt; told.as_str() == STOPPED, "{told}");
    let left = image.crashed(alloc).ok().expect(rt, "memory");
    assert!(rt; stands(rt, alloc, &left, "var/pkg/done.2"));
    assert!(rt; !stands(rt, alloc, &left, "var/pkg/done.3"));
    left
}

#[test]
fn a_fix_goes_on_behind_the_marks_of_files(rt: HostRuntime) {
    let alloc = rt.alloc();
    let mut repo = generate(alloc, 1000).expect(&rt, "memory");
    let mut image = folder_of(&rt, alloc, Tree::new(alloc), None);
    let _ = trial_told(&rt, alloc, CREATE, &mut repo, &mut image);
    let tree = image.tree().copy(alloc).expect(&rt, "memory");
    let left = stopped(&rt, alloc, &mut repo, tree);
    let mut image = folder_of(&rt, alloc, left, None);
    let told = trial_told(&rt, alloc, "-R i -s r fix", &mut repo, &mut image);
    assert!(rt; told.as_str() == FIXED, "{told}");
    let told = trial_told(&rt, alloc, VERIFY, &mut repo, &mut image);
    assert!(rt; told.as_str() == VERIFIED, "{told}");
}
