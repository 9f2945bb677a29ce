//! A folder of what is published, a repository and an image, and runs over them.

ghost use Rattle.std.specs.Prelude.{◌<◌};

use ips_folder::{Folder, MemFolder, Stop};
use ips_kinds::{FreshKind, GoneKind, HardKind, Kind, LinkKind, ModeKind, PutKind};
use ips_outside::{Look, MemSink, MemSource, MemSpawner, Sink, Source, Tree};
use ips_publish::send;
use ips_text::RelPath;
use ips_top::run;
use std::alloc::{AllocError, Global};
use std::process::Abort;

/// The moment of each run: 20240102T030405Z.
const MOMENT: u64 = 1704164645;

/// What the folder of what is published holds, and the repository, and the image.
#[derive(Drop)]
pub struct World {
    pub proto: Tree,
    pub repo: Tree,
    pub image: Tree,
}

impl World {
    /// Nothing is held.
    pub fn new(alloc: Global) -> World {
        World {
            proto: Tree::new(alloc),
            repo: Tree::new(alloc),
            image: Tree::new(alloc),
        }
    }
}

/// What happens to a run: a call on what is published, on the repository or on the sink fails, or the run is stopped.
#[derive(Clone, Copy, Drop)]
pub struct Mishap {
    pub source: u64,
    pub folder: u64,
    pub sink: u64,
    pub stop: Option<Stop>,
}

/// Nothing happens to a run.
pub const NONE: Mishap = Mishap {
    source: 0,
    folder: 0,
    sink: 0,
    stop: None,
};

/// How a run ended, and what the sink took.
#[derive(Drop)]
pub struct Run {
    pub number: u8,
    pub is_told: bool,
    pub taken: String,
}

// Which top call is made: that which publishes, or that of the program.
#[derive(Clone, Copy)]
enum Call {
    Send,
    Run,
}

// The words of a line, which blanks divide; `<empty>` is the word of no letters.
fn words_of(rt: &impl Abort, alloc: Global, line: &str) -> Vec<String> {
    let mut words = Vec::new(alloc);
    if line.is_empty() {
        return words;
    }
    for word in line.split(' ') {
        let word = if word == "<empty>" { "" } else { word };
        words
            .push(String::from_str(alloc, word).expect(rt, "memory"))
            .expect(rt, "memory");
    }
    words
}

// The list of one call.
fn one(rt: &impl Abort, alloc: Global, call: u64) -> Vec<u64> {
    vec![in alloc; call].expect(rt, "memory")
}

// How the top call ends, with one kind for each sort of step: the number of its status, and whether all was told.
fn ended<S: Source, F: Folder, O: Sink>(
    alloc: Global,
    call: Call,
    words: &[String],
    moment: u64,
    source: &mut S,
    folder: &mut F,
    out: &mut O,
) -> Result<(u8, bool), AllocError>
    requires moment { moment < 253370764800 }
{
    let mut kinds: Vec<Box<dyn Kind>> = Vec::new(alloc);
    kinds.push(Box::new(alloc, GoneKind::new())?)?;
    kinds.push(Box::new(alloc, FreshKind::new())?)?;
    kinds.push(Box::new(alloc, ModeKind::new())?)?;
    kinds.push(Box::new(alloc, PutKind::new())?)?;
    kinds.push(Box::new(alloc, LinkKind::new())?)?;
    kinds.push(Box::new(alloc, HardKind::new())?)?;
    match call {
        Call::Send => {
            let status = send(alloc, words, moment, source, folder, &mut kinds, out);
            Ok((status.number(), status.told))
        }
        Call::Run => {
            let mut spawner = MemSpawner::new(alloc, 0, Vec::new(alloc), Vec::new(alloc))?;
            let status = run(
                alloc,
                words,
                moment,
                source,
                folder,
                &mut spawner,
                &mut kinds,
                out,
            );
            Ok((status.number(), status.told))
        }
    }
}

// A top call on the words of a line, over a source of this and a folder.
fn ran(
    rt: &impl Abort,
    alloc: Global,
    call: Call,
    line: &str,
    from: &Tree,
    folder: &mut MemFolder,
    mishap: Mishap,
) -> Run {
    let words = words_of(rt, alloc, line);
    let tree = from.copy(alloc).expect(rt, "memory");
    let mut source = MemSource::new(tree, one(rt, alloc, mishap.source));
    let mut out = MemSink::new(alloc, 5000, one(rt, alloc, mishap.sink)).expect(rt, "memory");
    let (number, is_told) = ended(
        alloc,
        call,
        &words,
        MOMENT,
        &mut source,
        folder,
        &mut out,
    ).expect(rt, "memory");
    Run {
        number,
        is_told,
        taken: String::from_utf8_lossy(alloc, out.taken()).expect(rt, "memory"),
    }
}

// A folder in memory that holds this, to which this happens.
fn folder_of(rt: &impl Abort, alloc: Global, tree: &Tree, mishap: Mishap) -> MemFolder {
    let tree = tree.copy(alloc).expect(rt, "memory");
    let fails = one(rt, alloc, mishap.folder);
    MemFolder::new(alloc, tree, fails, mishap.stop).expect(rt, "memory")
}

/// Sends the words of a line, to which this happens. What it leaves is the repository, or, where it was stopped, what a crash leaves of that.
pub fn send_line(
    rt: &impl Abort,
    alloc: Global,
    world: &mut World,
    line: &str,
    mishap: Mishap,
) -> Run {
    let mut folder = folder_of(rt, alloc, &world.repo, mishap);
    let ended = ran(
        rt,
        alloc,
        Call::Send,
        line,
        &world.proto,
        &mut folder,
        mishap,
    );
    world.repo = match mishap.stop {
        Some(_) => folder.crashed(alloc).ok().expect(rt, "memory"),
        None => folder.tree().copy(alloc).expect(rt, "memory"),
    };
    ended
}

/// Runs the words of a line on the image, from the repository.
pub fn run_line(rt: &impl Abort, alloc: Global, world: &mut World, line: &str) -> Run {
    let mut folder = folder_of(rt, alloc, &world.image, NONE);
    let ended = ran(rt, alloc, Call::Run, line, &world.repo, &mut folder, NONE);
    world.image = folder.tree().copy(alloc).expect(rt, "memory");
    ended
}

fn path_of(rt: &impl Abort, alloc: Global, path: &str) -> RelPath {
    RelPath::parse(alloc, path.as_bytes())
        .ok()
        .expect(rt, "a path")
}

/// What stands at a path: the mode is in octal, and a file has its bytes behind it.
pub fn look_told(rt: &impl Abort, alloc: Global, tree: &Tree, path: &str) -> String {
    let path = path_of(rt, alloc, path);
    match tree.look(&path) {
        Look::Absent => String::from_str(alloc, "absent").expect(rt, "memory"),
        Look::Dir { mode } => format!(in alloc; "dir {mode:o}").expect(rt, "memory"),
        Look::File { mode, .. } => {
            let bytes = tree.bytes(&path).unwrap_or(b"none");
            let text = String::from_utf8_lossy(alloc, bytes).expect(rt, "memory");
            format!(in alloc; "file {mode:o} {text:?}").expect(rt, "memory")
        }
        Look::Link => String::from_str(alloc, "link").expect(rt, "memory"),
        Look::Other => String::from_str(alloc, "other").expect(rt, "memory"),
    }
}

/// What stands at a path, whatever its mode: what a stop left of it may have another.
pub fn held_told(rt: &impl Abort, alloc: Global, tree: &Tree, path: &str) -> String {
    let path = path_of(rt, alloc, path);
    match tree.look(&path) {
        Look::Dir { .. } => String::from_str(alloc, "dir").expect(rt, "memory"),
        Look::File { .. } => {
            let bytes = tree.bytes(&path).unwrap_or(b"none");
            let text = String::from_utf8_lossy(alloc, bytes).expect(rt, "memory");
            format!(in alloc; "file {text:?}").expect(rt, "memory")
        }
        _ => String::from_str(alloc, "neither").expect(rt, "memory"),
    }
}

/// Puts a file into a tree, with the directories above it, in the place of what stands there.
pub fn put(rt: &impl Abort, alloc: Global, tree: &mut Tree, place: &str, bytes: &[u8]) {
    tree.remove(&path_of(rt, alloc, place));
    for (at, byte) in place.as_bytes().iter().enumerate() {
        if *byte == b'/' {
            let above = RelPath::parse(alloc, &place.as_bytes()[..at])
                .ok()
                .expect(rt, "a path");
            let _ = tree.dir(alloc, &above, 0o755);
        }
    }
    tree.file(alloc, &path_of(rt, alloc, place), 0o644, bytes)
        .ok()
        .expect(rt, "no fault");
}

/// Puts a symbolic link into a tree, in the place of what stands there.
pub fn put_link(rt: &impl Abort, alloc: Global, tree: &mut Tree, place: &str) {
    let path = path_of(rt, alloc, place);
    tree.remove(&path);
    tree.link(alloc, &path, b"elsewhere")
        .ok()
        .expect(rt, "a link");
}

/// Takes away what stands at a path.
pub fn remove(rt: &impl Abort, alloc: Global, tree: &mut Tree, place: &str) {
    tree.remove(&path_of(rt, alloc, place));
}

/// Another tree of the same.
pub fn copied(rt: &impl Abort, alloc: Global, tree: &Tree) -> Tree {
    tree.copy(alloc).expect(rt, "memory")
}
