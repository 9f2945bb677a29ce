//! Trees, sources, sinks and spawners in memory.

use crate::script::{
    Player, agree, bytes, look_told, number, number_told, path, paths_told, play, told, words,
};
use ips_outside::{
    Failed, Look, MemSink, MemSource, MemSpawner, Sink, Source, Spawner, SureSource, Tree,
    TreeFault,
};
use ips_text::{Or, RelPath, Text, octal};
use std::alloc::Global;
use std::mem;
use std::process::Abort;

// How a maker of a tree answered.
fn fault_shown(made: Result<(), Or<TreeFault>>) -> &'static str {
    match made {
        Ok(()) => "ok",
        Err(Or::Bad(TreeFault::NoParent)) => "no parent",
        Err(Or::Bad(TreeFault::Taken)) => "taken",
        Err(Or::Bad(TreeFault::NoFile)) => "no file",
        Err(Or::OutOfMemory) => "out of memory",
    }
}

// Makes something at a path: `dir PATH MODE`, `file PATH MODE BYTES`, `link PATH TARGET`, `other PATH` or `hard PATH TO`.
fn make(
    rt: &impl Abort,
    alloc: Global,
    tree: &mut Tree,
    at: &RelPath,
    call: [&str; 4],
) -> &'static str {
    let [name, _, second, third] = call;
    let mode = octal(second.as_bytes()).unwrap_or(0);
    fault_shown(match name {
        "dir" => tree.dir(alloc, at, mode),
        "file" => tree.file(alloc, at, mode, &bytes(rt, alloc, third)),
        "link" => tree.link(alloc, at, &bytes(rt, alloc, second)),
        "other" => tree.other(alloc, at),
        _ => tree.hard(alloc, at, &path(rt, alloc, second)),
    })
}

// Makes a file and appends to it.
fn append(alloc: Global, tree: &mut Tree, at: &RelPath, first: &str, behind: &str) -> &'static str {
    let Ok(()) = tree.file(alloc, at, 0o600, first.as_bytes()) else {
        return "no file";
    };
    match tree.append(at, behind.as_bytes()) {
        Ok(()) => "ok",
        Err(_) => "out of memory",
    }
}

// Changes a tree by a call that no fault is told of, as `mark PATH`, `mode PATH MODE` or `remove PATH`, or makes something.
fn change(
    rt: &impl Abort,
    alloc: Global,
    tree: &mut Tree,
    at: &RelPath,
    call: [&str; 4],
) -> &'static str {
    match call[0] {
        "mark" => {
            if !tree.mark_foreign(at) {
                return "no directory";
            }
        }
        "mode" => tree.set_mode(at, octal(call[2].as_bytes()).unwrap_or(0)),
        "remove" => tree.remove(at),
        "append" => return append(alloc, tree, at, call[2], call[3]),
        _ => return make(rt, alloc, tree, at, call),
    }
    "ok"
}

// What a tree tells of a path: `bytes PATH`, `target PATH`, `same PATH OTHER` or `foreign PATH`; none of another call.
fn seen<'a>(
    rt: &impl Abort,
    alloc: Global,
    tree: &'a Tree,
    at: &RelPath,
    call: [&str; 4],
) -> Option<&'a [u8]> {
    let is_so = match call[0] {
        "bytes" => return Some(tree.bytes(at).unwrap_or(b"none")),
        "target" => return Some(tree.target(at).unwrap_or(b"none")),
        "same" => tree.same(at, &path(rt, alloc, call[2])),
        "foreign" => tree.is_foreign(at),
        _ => return None,
    };
    Some(if is_so { b"yes" } else { b"no" })
}

// What a call answers of the tree at a path. The paths right below a directory are told behind the word `below`.
fn answer_at(
    rt: &impl Abort,
    alloc: Global,
    tree: &mut Tree,
    at: &RelPath,
    call: [&str; 4],
) -> Vec<u8> {
    match call[0] {
        "look" => return look_told(rt, alloc, tree.look(at)),
        "children" => {
            let paths = tree.children(alloc, at).ok().expect(rt, "memory");
            return paths_told(rt, alloc, b"below", &paths);
        }
        _ => {}
    }
    if let Some(seen) = seen(rt, alloc, tree, at, call) {
        return told(rt, alloc, seen);
    }
    told(rt, alloc, change(rt, alloc, tree, at, call).as_bytes())
}

impl Player for Tree {
    fn answer<R: Abort>(&mut self, rt: &R, alloc: Global, call: &str) -> Vec<u8> {
        let call = words(call);
        answer_at(rt, alloc, self, &path(rt, alloc, call[1]), call)
    }
}

/// The tree that comes of these calls, one a line, none of which is refused.
pub fn tree_of(rt: &impl Abort, alloc: Global, calls: &str) -> Tree {
    let mut tree = Tree::new(alloc);
    for call in calls.lines() {
        agree(rt, alloc, call, tree.answer(rt, alloc, call), "ok");
    }
    tree
}

// Two trees: calls are on the first. Behind `copy` that is a copy of it, and `back` exchanges both.
#[derive(Drop)]
struct Trees {
    tree: Tree,
    other: Tree,
}

impl Player for Trees {
    fn answer<R: Abort>(&mut self, rt: &R, alloc: Global, call: &str) -> Vec<u8> {
        match call {
            "copy" => {
                self.other = self.tree.copy(alloc).expect(rt, "memory");
                mem::swap(&mut self.tree, &mut self.other);
            }
            "back" => mem::swap(&mut self.tree, &mut self.other),
            _ => return self.tree.answer(rt, alloc, call),
        }
        told(rt, alloc, b"ok")
    }
}

const MAKERS_REFUSE_IN_ORDER: &str = "
dir etc 755 -> ok
file etc/motd 644 hi -> ok
link etc/now motd -> ok
other etc/pipe -> ok
# its parent isn't there
dir usr/bin 700 -> no parent
file usr/bin 600 nothing -> no parent
link usr/bin x -> no parent
other usr/bin -> no parent
hard usr/bin etc/motd -> no parent
hard usr/bin usr/bin -> no parent
# its parent is a file, a link, and neither
dir etc/motd/x 700 -> no parent
file etc/motd/x 600 nothing -> no parent
link etc/motd/x x -> no parent
other etc/motd/x -> no parent
hard etc/motd/x etc/motd -> no parent
hard etc/motd/x etc/motd/x -> no parent
dir etc/now/x 700 -> no parent
file etc/now/x 600 nothing -> no parent
link etc/now/x x -> no parent
other etc/now/x -> no parent
hard etc/now/x etc/motd -> no parent
hard etc/now/x etc/now/x -> no parent
dir etc/pipe/x 700 -> no parent
file etc/pipe/x 600 nothing -> no parent
link etc/pipe/x x -> no parent
other etc/pipe/x -> no parent
hard etc/pipe/x etc/motd -> no parent
hard etc/pipe/x etc/pipe/x -> no parent
dir etc 700 -> taken
file etc 600 nothing -> taken
link etc x -> taken
other etc -> taken
hard etc etc/motd -> taken
hard etc etc -> taken
dir etc/motd 700 -> taken
file etc/motd 600 nothing -> taken
link etc/motd x -> taken
other etc/motd -> taken
hard etc/motd etc/motd -> taken
hard etc/motd etc/motd -> taken
dir etc/now 700 -> taken
file etc/now 600 nothing -> taken
link etc/now x -> taken
other etc/now -> taken
hard etc/now etc/motd -> taken
hard etc/now etc/now -> taken
dir etc/pipe 700 -> taken
file etc/pipe 600 nothing -> taken
link etc/pipe x -> taken
other etc/pipe -> taken
hard etc/pipe etc/motd -> taken
hard etc/pipe etc/pipe -> taken
# a hard link to what is no file
hard etc/new etc -> no file
look etc/new -> absent
hard etc/new etc/now -> no file
look etc/new -> absent
hard etc/new etc/pipe -> no file
look etc/new -> absent
hard etc/new etc/new -> no file
look etc/new -> absent
hard etc/new usr -> no file
look etc/new -> absent
";

const HARD_LINKS_SHOW_ONE_FILE: &str = "
file first 644 one -> ok
hard second first -> ok
file third 644 one -> ok
mode second 4711 -> ok
same first second -> yes
same second first -> yes
same first first -> yes
same first third -> no
same third second -> no
# the other name stays, with the mode that both had
remove first -> ok
look first -> absent
look second -> file 4711 3
same first second -> no
same first first -> no
";

const LINKS_AND_MARKS: &str = "
dir etc 755 -> ok
file etc/motd 644 hello -> ok
# a target may be any bytes
link etc/now ../%ff/%00 -> ok
other etc/pipe -> ok
look etc/now -> link
look etc/pipe -> other
target etc/now -> ../%ff/%00
bytes etc/now -> none
target etc/pipe -> none
target etc/motd -> none
# directories alone are marked, and what stands there stays
look etc -> dir 755
mark etc -> ok
look etc -> dir 755
look etc/motd -> file 644 5
mark etc/motd -> no directory
look etc/motd -> file 644 5
mark etc/now -> no directory
look etc/now -> link
mark etc/pipe -> no directory
look etc/pipe -> other
look usr -> absent
mark usr -> no directory
look usr -> absent
";

const REMOVES_A_SUBTREE: &str = "
dir a 755 -> ok
dir a-b 755 -> ok
dir a/b 755 -> ok
dir a/b/c 755 -> ok
dir a0 755 -> ok
dir b 755 -> ok
file a/b/c/file 600 x -> ok
hard b/kept a/b/c/file -> ok
link a/link ../b -> ok
remove a -> ok
# nothing stands there
remove a/b -> ok
remove c -> ok
look a -> absent
look a-b -> dir 755
look a/b -> absent
look a/b/c -> absent
look a/b/c/file -> absent
look a/link -> absent
look a0 -> dir 755
look b -> dir 755
bytes b/kept -> x
dir a 700 -> ok
";

const LOOKS: &str = "
dir etc 755 -> ok
file etc/motd 644 hi -> ok
mode etc 1777 -> ok
copy -> ok
back -> ok
mode etc/motd 4755 -> ok
look etc -> dir 1777
look etc/motd -> file 4755 2
look etc/mot -> absent
look etc/motd/x -> absent
bytes etc -> none
# the copy has the old mode
back -> ok
look etc -> dir 1777
look etc/motd -> file 644 2
look etc/mot -> absent
look etc/motd/x -> absent
bytes etc/motd -> hi
";

const LISTS_CHILDREN_BY_BYTES: &str = "
dir d 755 -> ok
dir d0 755 -> ok
dir d- 755 -> ok
dir d/a0 755 -> ok
dir d/a 755 -> ok
dir d/a/z 755 -> ok
dir d/a/z/y 755 -> ok
dir d/a-b 755 -> ok
dir d/a-b/c 755 -> ok
dir d/a/b 755 -> ok
dir d/é 755 -> ok
file d/a! 644 nothing -> ok
link d/a/now z -> ok
mark d/a -> ok
children d -> below d/a d/a! d/a-b d/a0 d/é
foreign d -> no
children d/a -> below d/a/b d/a/now d/a/z
foreign d/a -> yes
children d/a/b -> below
foreign d/a/b -> no
children d0 -> below
foreign d0 -> no
# no directories
children d/a! -> below
foreign d/a! -> no
children d/a/now -> below
foreign d/a/now -> no
children e -> below
foreign e -> no
# the copy has the mark too, and a mode leaves it
copy -> ok
mode d/a 700 -> ok
foreign d/a -> yes
remove d/a -> ok
children d -> below d/a! d/a-b d/a0 d/é
";

// The text that is appended begins with a blank.
const APPENDS: &str = "
append log one  two -> ok
bytes log -> one two
look log -> file 600 7
";

// Plays a script on an empty tree.
fn play_on_tree(rt: &impl Abort, alloc: Global, script: &str, count: u64) {
    let (tree, other) = (Tree::new(alloc), Tree::new(alloc));
    play(rt, alloc, &mut Trees { tree, other }, script, count);
}

#[test]
fn trees_answer_as_they_are_to(rt: HostRuntime) {
    let alloc = rt.alloc();
    play_on_tree(&rt, alloc, MAKERS_REFUSE_IN_ORDER, 62);
    play_on_tree(&rt, alloc, HARD_LINKS_SHOW_ONE_FILE, 14);
    play_on_tree(&rt, alloc, LINKS_AND_MARKS, 23);
    play_on_tree(&rt, alloc, REMOVES_A_SUBTREE, 22);
    play_on_tree(&rt, alloc, LOOKS, 17);
    play_on_tree(&rt, alloc, LISTS_CHILDREN_BY_BYTES, 33);
    play_on_tree(&rt, alloc, APPENDS, 3);
}

// A directory with a file of five bytes.
const SAMPLE: &str = "dir etc 755
file etc/motd 644 hello";

// What is read of a path from a place on, into four bytes.
fn read<'a, S: Source>(
    source: &mut S,
    at: &RelPath,
    place: u64,
    buffer: &'a mut [u8; 4],
) -> Option<&'a [u8]> {
    let count = source.read(at, place, buffer).ok()?;
    buffer.get(..count)
}

// The size of the file at the path, and 0 where there is none.
fn size<S: Source>(source: &mut S, at: &RelPath) -> Result<u64, Failed> {
    match source.look(at)? {
        Look::File { size, .. } => Ok(size),
        _ => Ok(0),
    }
}

#[derive(Drop)]
struct Sources<S> {
    source: S,
}

impl<S: Source> Player for Sources<S> {
    fn answer<R: Abort>(&mut self, rt: &R, alloc: Global, call: &str) -> Vec<u8> {
        let [name, at, place, _] = words(call);
        let at = path(rt, alloc, at);
        if name == "size" {
            return number_told(rt, alloc, size(&mut self.source, &at));
        }
        let mut buffer = [0; 4];
        let read = read(&mut self.source, &at, number(rt, place), &mut buffer);
        told(rt, alloc, read.unwrap_or(b"failed"))
    }
}

const READS: &str = "
read etc/motd 0 -> hell
read etc/motd 3 -> lo
# the end, and places past it
read etc/motd 5 -> nothing
read etc/motd 18446744073709551615 -> nothing
# no files
read etc 0 -> nothing
read usr 0 -> nothing
size etc/motd -> 5
";

#[test]
fn sources_read(rt: HostRuntime) {
    let alloc = rt.alloc();
    let source = SureSource::new(tree_of(&rt, alloc, SAMPLE));
    play(&rt, alloc, &mut Sources { source }, READS, 7);
}

// The second, third and fifth call are listed.
const LISTED: &str = "
size etc/motd -> 5
size etc/motd -> failed
size etc/motd -> failed
size etc/motd -> 5
size etc/motd -> failed
size etc/motd -> 5
";

#[test]
fn listed_calls_fail(rt: HostRuntime) {
    let alloc = rt.alloc();
    let fails = Vec::from_slice(alloc, &[2, 3, 5]).expect(&rt, "memory");
    let source = MemSource::new(tree_of(&rt, alloc, SAMPLE), fails);
    play(&rt, alloc, &mut Sources { source }, LISTED, 6);
}

// What a sink with room for five bytes takes of each text, where its second call fails, and all that it took.
const WRITES: &str = "
write abc -> 3
# listed
write x -> failed
# room for two
write defg -> 2
write nothing -> 0
# full
write h -> failed
taken -> abcde
";

impl Player for MemSink {
    fn answer<R: Abort>(&mut self, rt: &R, alloc: Global, call: &str) -> Vec<u8> {
        if call == "taken" {
            return told(rt, alloc, self.taken());
        }
        let text = bytes(rt, alloc, words(call)[1]);
        number_told(rt, alloc, self.write(&text))
    }
}

#[test]
fn a_sink_fills(rt: HostRuntime) {
    let alloc = rt.alloc();
    let fails = Vec::from_slice(alloc, &[2]).expect(&rt, "memory");
    let mut sink = MemSink::new(alloc, 5, fails).expect(&rt, "memory");
    play(&rt, alloc, &mut sink, WRITES, 6);
}

// Words that are run one after another, and the status of each run or that it failed: the first call ends with status 3, the
// third fails, and there is room for 34 bytes. At last, all that ran.
const RUNS: &str = "
zfs snapshot rpool@a -> 3
# past the list of statuses
sync -> 0
# listed
sync -> failed
# six bytes are left, and these words take seven
zpool -> failed
# as many as are left
sync -> 0
x -> failed
ran -> zfs%00snapshot%00rpool@a%00%0async%00%0async%00%0a
";

// The words of a call.
fn texts(rt: &impl Abort, alloc: Global, call: &str) -> Vec<Text> {
    let mut words = Vec::new(alloc);
    for word in call.split_whitespace() {
        let word = Text::new(alloc, word).expect(rt, "memory");
        words.push(word).expect(rt, "memory");
    }
    words
}

impl Player for MemSpawner {
    fn answer<R: Abort>(&mut self, rt: &R, alloc: Global, call: &str) -> Vec<u8> {
        if call == "ran" {
            return told(rt, alloc, self.ran());
        }
        number_told(rt, alloc, self.run(&texts(rt, alloc, call)))
    }
}

#[test]
fn runs_are_kept(rt: HostRuntime) {
    let alloc = rt.alloc();
    let three = vec![in alloc; 3].expect(&rt, "memory");
    let third = vec![in alloc; 3].expect(&rt, "memory");
    let mut spawner = MemSpawner::new(alloc, 34, three, third).expect(&rt, "memory");
    play(&rt, alloc, &mut spawner, RUNS, 7);
}
