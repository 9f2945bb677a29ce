//! A repository and an image, and runs over them.

ghost use Rattle.std.specs.Prelude.{◌<◌};

use crate::outcomes::ending_of;
use crate::packages::{add, bare, offer, publish, set};
use crate::rows::bytes_of;
use ips_folder::{Folder, MemFolder, Stop};
use ips_kinds::{FreshKind, GoneKind, HardKind, Kind, LinkKind, ModeKind, PutKind};
use ips_outside::{Look, MemSink, MemSource, MemSpawner, Sink, Source, Spawner, Tree};
use ips_report::Status;
use ips_text::{RelPath, octal};
use ips_top::run;
use std::alloc::{AllocError, Global};
use std::process::Abort;

/// The moment of each run: 20240102T030405Z.
pub const MOMENT: u64 = 1704164645;

/// What a repository and an image hold, how the next actuator ends, what the last run ran and how many steps it laid, and in which ways the runs ended: bit by bit, by
/// the numbers of `outcomes`.
#[derive(Drop)]
pub struct World {
    repo: Tree,
    image: Tree,
    status: u8,
    ran: String,
    laid: u64,
    ended: u64,
}

impl World {
    /// A repository that holds this, and an image that holds nothing.
    pub fn new(alloc: Global, repo: Tree) -> World {
        World {
            repo,
            image: Tree::new(alloc),
            status: 0,
            ran: String::new(alloc),
            laid: 0,
            ended: 0,
        }
    }

    /// Whether a run ended in the way of this number.
    pub fn has_ended(&self, ending: u32) -> bool {
        self.ended & bit_of(ending) != 0
    }

    /// How many steps the last run laid.
    pub fn laid(&self) -> u64 {
        self.laid
    }
}

// The bit of a number.
fn bit_of(number: u32) -> u64 {
    1u64.checked_shl(number).unwrap_or(0)
}

/// What happens to a run: a call on the repository, on the image, on the sink or on the spawner fails, or the run is stopped.
#[derive(Clone, Copy, Drop)]
pub struct Mishap {
    pub source: u64,
    pub folder: u64,
    pub spawner: u64,
    pub sink: u64,
    pub stop: Option<Stop>,
}

/// Nothing happens to a run.
pub const NONE: Mishap = Mishap {
    source: 0,
    folder: 0,
    spawner: 0,
    sink: 0,
    stop: None,
};

/// How a run ended, and what the sink took.
#[derive(Drop)]
pub struct Run {
    pub number: u8,
    pub is_told: bool,
    pub taken: String,
}

/// The words of a line, which blanks divide; `<empty>` is the word of no letters.
pub fn words_of(rt: &impl Abort, alloc: Global, line: &str) -> Vec<String> {
    let mut words = Vec::new(alloc);
    if line.is_empty() {
        return words;
    }
    for word in line.split(' ') {
        let word = if word == "<empty>" { "" } else { word };
        words
            .push(String::from_str(alloc, word).expect(rt, "memory"))
            .expect(rt, "memory");
    }
    words
}

// The list of one call.
fn one(rt: &impl Abort, alloc: Global, call: u64) -> Vec<u64> {
    vec![in alloc; call].expect(rt, "memory")
}

// How the top call ends, with one kind for each sort of step, and how many steps these laid.
fn status_of<S: Source, F: Folder, P: Spawner, O: Sink>(
    alloc: Global,
    words: &[String],
    moment: u64,
    repo: &mut S,
    image: &mut F,
    spawner: &mut P,
    out: &mut O,
) -> Result<(Status, u64), AllocError>
    requires moment { moment < 253370764800 }
{
    let mut kinds: Vec<Box<dyn Kind>> = Vec::new(alloc);
    kinds.push(Box::new(alloc, GoneKind::new())?)?;
    kinds.push(Box::new(alloc, FreshKind::new())?)?;
    kinds.push(Box::new(alloc, ModeKind::new())?)?;
    kinds.push(Box::new(alloc, PutKind::new())?)?;
    kinds.push(Box::new(alloc, LinkKind::new())?)?;
    kinds.push(Box::new(alloc, HardKind::new())?)?;
    let status = run(alloc, words, moment, repo, image, spawner, &mut kinds, out);
    let laid = laid_by(&kinds);
    Ok((status, laid))
}

// How many steps were laid by these kinds.
fn laid_by(kinds: &[Box<dyn Kind>]) -> u64 {
    let mut laid = 0u64;
    for kind in kinds {
        laid = laid.saturating_add(kind.tally());
    }
    laid
}

// Runs the words over a folder.
fn run_over(
    rt: &impl Abort,
    alloc: Global,
    world: &mut World,
    words: &[String],
    mishap: Mishap,
    folder: &mut MemFolder,
) -> Run {
    let tree = world.repo.copy(alloc).expect(rt, "memory");
    let mut source = MemSource::new(tree, one(rt, alloc, mishap.source));
    let statuses = vec![in alloc; world.status].expect(rt, "memory");
    let mut spawner = MemSpawner::new(alloc, 1000, statuses, one(rt, alloc, mishap.spawner)).expect(
        rt, "memory",
    );
    let mut out = MemSink::new(alloc, 5000, one(rt, alloc, mishap.sink)).expect(rt, "memory");
    let (status, laid) = status_of(
        alloc,
        words,
        MOMENT,
        &mut source,
        folder,
        &mut spawner,
        &mut out,
    )
    .expect(rt, "memory");
    world.laid = laid;
    world.ended |= bit_of(ending_of(&status.outcome));
    world.ran = String::from_utf8_lossy(alloc, spawner.ran()).expect(rt, "memory");
    Run {
        number: status.number(),
        is_told: status.told,
        taken: String::from_utf8_lossy(alloc, out.taken()).expect(rt, "memory"),
    }
}

/// Runs the words of a line, to which this happens. What it leaves is the image, or, where it was stopped, what a crash leaves of that.
pub fn run_line(
    rt: &impl Abort,
    alloc: Global,
    world: &mut World,
    line: &str,
    mishap: Mishap,
) -> Run {
    let words = words_of(rt, alloc, line);
    let tree = world.image.copy(alloc).expect(rt, "memory");
    let fails = one(rt, alloc, mishap.folder);
    let mut folder = MemFolder::new(alloc, tree, fails, mishap.stop).expect(rt, "memory");
    let ended = run_over(rt, alloc, world, &words, mishap, &mut folder);
    world.image = match mishap.stop {
        Some(_) => folder.crashed(alloc).ok().expect(rt, "memory"),
        None => folder.tree().copy(alloc).expect(rt, "memory"),
    };
    ended
}

/// Runs the words of two lines over one folder, to which this happens. What a stop leaves of that is the image. Answers the number of the first and the report of the second.
pub fn run_both(
    rt: &impl Abort,
    alloc: Global,
    world: &mut World,
    first: &str,
    second: &str,
    mishap: Mishap,
) -> (u8, String) {
    let tree = world.image.copy(alloc).expect(rt, "memory");
    let fails = one(rt, alloc, mishap.folder);
    let mut folder = MemFolder::new(alloc, tree, fails, mishap.stop).expect(rt, "memory");
    let words = words_of(rt, alloc, first);
    let number = run_over(rt, alloc, world, &words, mishap, &mut folder).number;
    let words = words_of(rt, alloc, second);
    let last = run_over(rt, alloc, world, &words, mishap, &mut folder);
    world.image = folder.crashed(alloc).ok().expect(rt, "memory");
    (number, last.taken)
}

fn path_of(rt: &impl Abort, alloc: Global, path: &str) -> RelPath {
    RelPath::parse(alloc, path.as_bytes())
        .ok()
        .expect(rt, "a path")
}

/// What stands at a path of the image: the mode is in octal, and a file has its bytes behind it, a link its target.
pub fn look_told(rt: &impl Abort, alloc: Global, world: &World, path: &str) -> String {
    let path = path_of(rt, alloc, path);
    match world.image.look(&path) {
        Look::Absent => String::from_str(alloc, "absent").expect(rt, "memory"),
        Look::Dir { mode } => format!(in alloc; "dir {mode:o}").expect(rt, "memory"),
        Look::File { mode, .. } => file_told(rt, alloc, &world.image, &path, mode),
        Look::Link => link_told(rt, alloc, &world.image, &path),
        Look::Other => String::from_str(alloc, "other").expect(rt, "memory"),
    }
}

fn file_told(rt: &impl Abort, alloc: Global, tree: &Tree, path: &RelPath, mode: u16) -> String {
    let bytes = tree.bytes(path).unwrap_or(b"none");
    let text = String::from_utf8_lossy(alloc, bytes).expect(rt, "memory");
    format!(in alloc; "file {mode:o} {text:?}").expect(rt, "memory")
}

fn link_told(rt: &impl Abort, alloc: Global, tree: &Tree, path: &RelPath) -> String {
    let target = tree.target(path).unwrap_or(b"none");
    let text = String::from_utf8_lossy(alloc, target).expect(rt, "memory");
    format!(in alloc; "link {text:?}").expect(rt, "memory")
}

/// Whether two names of the image are one file.
pub fn same_told(rt: &impl Abort, alloc: Global, world: &World, path: &str, other: &str) -> String {
    let is_same = world
        .image
        .same(&path_of(rt, alloc, path), &path_of(rt, alloc, other));
    format!(in alloc; "{is_same}").expect(rt, "memory")
}

/// What the last run ran.
pub fn ran_told(rt: &impl Abort, alloc: Global, world: &World) -> String {
    let ran = world.ran.as_str();
    format!(in alloc; "{ran:?}").expect(rt, "memory")
}

/// Puts a file into the image, with the directories above it, in the place of what stands there.
pub fn put(rt: &impl Abort, alloc: Global, world: &mut World, path: &str, bytes: &str) {
    world.image.remove(&path_of(rt, alloc, path));
    let bytes = bytes_of(rt, alloc, bytes);
    add(rt, alloc, &mut world.image, path, &bytes);
}

/// Begins anew: an image that holds nothing, and a repository that offers nothing.
pub fn begin(rt: &impl Abort, alloc: Global, world: &mut World) {
    world.repo = bare(rt, alloc);
    world.image = Tree::new(alloc);
}

/// Adds a symbolic link, in the place of what stands there.
pub fn put_link(rt: &impl Abort, alloc: Global, world: &mut World, path: &str, target: &str) {
    let path = path_of(rt, alloc, path);
    world.image.remove(&path);
    world
        .image
        .link(alloc, &path, target.as_bytes())
        .ok()
        .expect(rt, "a link");
}

/// Adds what is neither a directory nor a file nor a link.
pub fn put_other(rt: &impl Abort, alloc: Global, world: &mut World, path: &str) {
    let path = path_of(rt, alloc, path);
    world.image.other(alloc, &path).ok().expect(rt, "no fault");
}

/// Adds a directory, in the place of what stands there.
pub fn put_dir(rt: &impl Abort, alloc: Global, world: &mut World, path: &str) {
    let path = path_of(rt, alloc, path);
    world.image.remove(&path);
    world
        .image
        .dir(alloc, &path, 0o755)
        .ok()
        .expect(rt, "a directory");
}

/// Adds a further name of a file, in the place of what stands there.
pub fn put_hard(rt: &impl Abort, alloc: Global, world: &mut World, path: &str, to: &str) {
    let path = path_of(rt, alloc, path);
    world.image.remove(&path);
    let to = path_of(rt, alloc, to);
    world
        .image
        .hard(alloc, &path, &to)
        .ok()
        .expect(rt, "a file");
}

/// Sets the mode of what stands at a path: its digits are octal.
pub fn put_mode(rt: &impl Abort, alloc: Global, world: &mut World, path: &str, digits: &str) {
    let mode = octal(digits.as_bytes()).expect(rt, "a mode") % 4096;
    world.image.set_mode(&path_of(rt, alloc, path), mode);
}

/// Marks a directory as one that holds names that are no paths.
pub fn mark(rt: &impl Abort, alloc: Global, world: &mut World, path: &str) {
    let is_dir = world.image.mark_foreign(&path_of(rt, alloc, path));
    assert!(rt; is_dir, "{path} is no directory");
}

/// Puts a file into the repository, in the place of what stands there.
pub fn stock(rt: &impl Abort, alloc: Global, world: &mut World, place: &str, bytes: &str) {
    let bytes = bytes_of(rt, alloc, bytes);
    set(rt, alloc, &mut world.repo, place, &bytes);
}

/// Puts a file of so many bytes into the repository, in the place of what stands there.
pub fn swell(rt: &impl Abort, alloc: Global, world: &mut World, place: &str, count: u64) {
    let count = usize::try_from(count).ok().expect(rt, "a size");
    let bytes = vec![in alloc; b'#'; count].expect(rt, "memory");
    set(rt, alloc, &mut world.repo, place, &bytes);
}

/// Takes a file out of the repository.
pub fn lose(rt: &impl Abort, alloc: Global, world: &mut World, place: &str) {
    world.repo.remove(&path_of(rt, alloc, place));
}

/// Adds the manifest of a package to the repository.
pub fn put_package(rt: &impl Abort, alloc: Global, world: &mut World, named: &str, lines: &str) {
    publish(rt, alloc, &mut world.repo, named, lines);
}

/// Adds the manifest of a package of a directory and so many in it.
pub fn put_many(rt: &impl Abort, alloc: Global, world: &mut World, named: &str, count: u64) {
    let mut lines = String::from_str(alloc, "dir path=d $dir").expect(rt, "memory");
    for number in 0..count {
        write!(lines, "; dir path=d/{number} $dir").expect(rt, "memory");
    }
    publish(rt, alloc, &mut world.repo, named, lines.as_str());
}

/// Has the catalog of the repository offer these.
pub fn put_catalog(rt: &impl Abort, alloc: Global, world: &mut World, offered: &str) {
    offer(rt, alloc, &mut world.repo, offered);
}

/// Has the catalog of the repository offer so many stems.
pub fn crowd(rt: &impl Abort, alloc: Global, world: &mut World, count: u64) {
    let mut offered = String::from_str(alloc, "s 1").expect(rt, "memory");
    for number in 1..count {
        write!(offered, "; s{number} 1").expect(rt, "memory");
    }
    put_catalog(rt, alloc, world, offered.as_str());
}

/// Takes away what stands in the image at a path.
pub fn remove(rt: &impl Abort, alloc: Global, world: &mut World, path: &str) {
    world.image.remove(&path_of(rt, alloc, path));
}

/// Has the next actuator end with this status.
pub fn set_status(world: &mut World, status: u8) {
    world.status = status;
}

/// The image holds what this one holds.
pub fn restore(rt: &impl Abort, alloc: Global, world: &mut World, image: &Tree) {
    world.image = image.copy(alloc).expect(rt, "memory");
}

/// What the image holds.
pub fn held(rt: &impl Abort, alloc: Global, world: &World) -> Tree {
    world.image.copy(alloc).expect(rt, "memory")
}
