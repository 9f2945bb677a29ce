//! Calls on a folder in memory: which of them fail, what stands after each, and what a crash leaves, by each choice.

ghost use Rattle.std.specs.Prelude.{◌≡◌, IsTrue, IfOk};
ghost use Rattle.ips_folder.specs.Calls.{CanMake, IsSole};
ghost use Rattle.ips_folder.specs.Memory.{mem_folder};

use crate::outside::tree_of;
use crate::script::{
    Player, agree, first, look_told, number, path, paths_told, play, play_failing, told, words,
};
use ips_folder::{Choice, Folder, MemFolder, Stop};
use ips_outside::{Failed, Look, Source, Tree, TreeFault};
use ips_text::{Or, RelPath, octal};
use std::alloc::Global;
use std::process::Abort;

// A folder that holds the tree and at last a file; the listed call fails, and each from the stop on.
fn folder(
    alloc: Global,
    mut tree: Tree,
    file: &RelPath,
    content: &[u8],
    listed: u64,
    stop: Option<Stop>,
) -> Result<MemFolder, Or<TreeFault>>
    ensures { IfOk result (λ f. IsSole (mem_folder.state f).held file.now.bytes) }
{
    tree.file(alloc, file, 0o644, content)?;
    let fails = Vec::from_slice(alloc, &[listed])?;
    Ok(MemFolder::new(alloc, tree, fails, stop)?)
}

// Whether something can be made at the path.
fn is_free(alloc: Global, folder: &MemFolder, path: &RelPath) -> bool
    ensures { IsTrue result → CanMake (mem_folder.state folder.now).held path.now.bytes }
{
    match folder.tree().copy(alloc) {
        Ok(mut tree) => tree.dir(alloc, path, 0).is_ok(),
        Err(_) => false,
    }
}

// How a call that writes ended.
fn ended(answer: Result<(), Failed>) -> &'static str {
    match answer {
        Ok(()) => "ok",
        Err(Failed) => "failed",
    }
}

// Makes something at a path: `make_dir PATH MODE`, `make_file PATH`, `make_link PATH TARGET` or `make_hard PATH TO`.
fn make(
    rt: &impl Abort,
    alloc: Global,
    folder: &mut MemFolder,
    at: &RelPath,
    call: [&str; 4],
) -> &'static str {
    if !is_free(alloc, folder, at) {
        return "not free";
    }
    ended(match call[0] {
        "make_dir" => folder.make_dir(at, octal(call[2].as_bytes()).unwrap_or(0)),
        "make_file" => folder.make_file(at),
        "make_link" => folder.make_link(at, call[2].as_bytes()),
        _ => {
            let to = path(rt, alloc, call[2]);
            if !matches!(folder.tree().look(&to), Look::File { .. }) {
                return "no file";
            }
            folder.make_hard(at, &to)
        }
    })
}

// Changes something: `remove PATH`, `set_mode PATH MODE` or `sync`, or makes something.
fn change(
    rt: &impl Abort,
    alloc: Global,
    folder: &mut MemFolder,
    at: &RelPath,
    call: [&str; 4],
) -> &'static str {
    ended(match call[0] {
        "remove" => folder.remove(at),
        "set_mode" => {
            if !matches!(folder.tree().look(at), Look::Dir { .. } | Look::File { .. }) {
                return "no mode";
            }
            folder.set_mode(at, octal(call[2].as_bytes()).unwrap_or(0))
        }
        "sync" => folder.sync(),
        _ => return make(rt, alloc, folder, at, call),
    })
}

// The names in a directory, and whether there are foreign ones.
fn list(rt: &impl Abort, alloc: Global, folder: &mut MemFolder, at: &RelPath) -> Vec<u8> {
    if !matches!(folder.tree().look(at), Look::Dir { .. }) {
        return told(rt, alloc, b"no directory");
    }
    match folder.list(alloc, at) {
        Ok(listing) => {
            let word: &[u8] = if listing.foreign {
                b"foreign"
            } else {
                b"plain"
            };
            paths_told(rt, alloc, word, listing.names.as_slice())
        }
        Err(_) => told(rt, alloc, b"failed"),
    }
}

fn target(rt: &impl Abort, alloc: Global, folder: &mut MemFolder, at: &RelPath) -> Vec<u8> {
    if !matches!(folder.tree().look(at), Look::Link) {
        return told(rt, alloc, b"no link");
    }
    match folder.target(alloc, at) {
        Ok(target) => target,
        Err(_) => told(rt, alloc, b"failed"),
    }
}

// Whether both files are one.
fn same(folder: &mut MemFolder, a: &RelPath, b: &RelPath) -> &'static str {
    if !matches!(folder.tree().look(a), Look::File { .. })
        || !matches!(folder.tree().look(b), Look::File { .. })
    {
        return "no files";
    }
    match folder.same(a, b) {
        Ok(true) => "yes",
        Ok(false) => "no",
        Err(Failed) => "failed",
    }
}

// How many of four bytes are read from the place, and all four.
fn read(
    rt: &impl Abort,
    alloc: Global,
    folder: &mut MemFolder,
    at: &RelPath,
    place: u64,
) -> Vec<u8> {
    let mut buffer = [0; 4];
    let Ok(count) = folder.read(at, place, &mut buffer) else {
        return told(rt, alloc, b"failed");
    };
    let mut shown = format!(in alloc; "{count} ")
        .expect(rt, "memory")
        .into_bytes();
    shown.extend_from_slice(&buffer).expect(rt, "memory");
    shown
}

// What stands at one path, in words.
fn look(rt: &impl Abort, alloc: Global, folder: &mut MemFolder, at: &RelPath) -> Vec<u8> {
    match folder.look(at) {
        Ok(look) => look_told(rt, alloc, look),
        Err(Failed) => told(rt, alloc, b"failed"),
    }
}

// What a call on the folder answers: a question first, then a call that writes. What stands is asked of all below `usr`, held
// or left by a crash, or of one path.
fn answer_at(
    rt: &impl Abort,
    alloc: Global,
    folder: &mut MemFolder,
    at: &RelPath,
    call: [&str; 4],
) -> Vec<u8> {
    let answer = match call[0] {
        "held" => return show(rt, alloc, folder.tree()),
        "crashed" => return show(rt, alloc, &crashed(rt, alloc, folder)),
        "stands" => return look_told(rt, alloc, folder.tree().look(at)),
        "list" => return list(rt, alloc, folder, at),
        "target" => return target(rt, alloc, folder, at),
        "read" => return read(rt, alloc, folder, at, number(rt, call[2])),
        "look" => return look(rt, alloc, folder, at),
        "same" => same(folder, at, &path(rt, alloc, call[2])),
        _ => change(rt, alloc, folder, at, call),
    };
    told(rt, alloc, answer.as_bytes())
}

// What a crash leaves.
fn crashed(rt: &impl Abort, alloc: Global, folder: &MemFolder) -> Tree {
    folder.crashed(alloc).ok().expect(rt, "no fault")
}

// No call may want memory.
impl Player for MemFolder {
    fn answer<R: Abort>(&mut self, rt: &R, alloc: Global, call: &str) -> Vec<u8> {
        let call = words(call);
        let at = path(rt, alloc, if call[1].is_empty() { "usr" } else { call[1] });
        let answer = answer_at(rt, alloc, self, &at, call);
        assert!(rt; self.starved() == 0);
        answer
    }
}

// All names that are used below `usr`.
const NAMES: &str =
    "usr/a usr/a/junk usr/a/y usr/b usr/b/c usr/d usr/d/junk usr/d/x usr/l usr/l- usr/l-/x usr/m usr/n \
    usr/n/junk usr/n/y usr/n/y/junk";

// What is said behind a path: ` 755/` of a directory, ` 644=` of a file, `>` of a link.
fn mark(rt: &impl Abort, alloc: Global, look: Look) -> String {
    match look {
        Look::Dir { mode } => format!(in alloc; " {mode:o}/"),
        Look::File { mode, .. } => format!(in alloc; " {mode:o}="),
        Look::Link => String::from_str(alloc, ">"),
        Look::Absent | Look::Other => String::from_str(alloc, "?"),
    }
    .expect(rt, "memory")
}

// What stands at a path: `usr 755/`, `usr/a 644=bytes` or `usr/l>target`.
fn show_one(rt: &impl Abort, alloc: Global, tree: &Tree, path: &RelPath, shown: &mut Vec<u8>) {
    let look = tree.look(path);
    let behind: &[u8] = match look {
        Look::File { .. } => tree.bytes(path).unwrap_or(b"?"),
        Look::Link => tree.target(path).unwrap_or(b"?"),
        _ => b"",
    };
    shown.extend_from_slice(path.bytes()).expect(rt, "memory");
    shown
        .extend_from_slice(mark(rt, alloc, look).as_bytes())
        .expect(rt, "memory");
    shown.extend_from_slice(behind).expect(rt, "memory");
}

// All that stands below `usr`.
fn show(rt: &impl Abort, alloc: Global, tree: &Tree) -> Vec<u8> {
    let mut shown = Vec::new(alloc);
    for name in NAMES.split_whitespace() {
        let path = path(rt, alloc, name);
        if tree.look(&path) != Look::Absent {
            if !shown.is_empty() {
                shown.push(b' ').expect(rt, "memory");
            }
            show_one(rt, alloc, tree, &path, &mut shown);
        }
    }
    shown
}

// The trees of the tests, but for the file that is made last.
const ONE_FILE: &str = "dir usr 755";

const TWO_FILES: &str = "dir usr 755
dir usr/d 700
file usr/d/x 640 xyz";

const LINKS: &str = "dir usr 755
link usr/l to%ff
dir usr/l- 755
dir usr/l-/x 755
mark usr";

// A stop at a call.
fn stop_of(rt: &impl Abort, call: u64, choice: &str) -> Stop {
    let choice = match choice {
        "before" => Choice::Before,
        "after" => Choice::After,
        "gone" => Choice::Gone,
        "junk" => Choice::Junk,
        "torn" => Choice::Torn,
        _ => panic!(rt; "no such choice"),
    };
    Stop { call, choice }
}

// A folder with the file `usr/a`, to which bytes are appended by the first call, where there are some; that ends as it has to.
fn with_file(
    rt: &impl Abort,
    alloc: Global,
    [tree, content, appended, wanted]: [&str; 4],
    listed: u64,
    stop: Option<Stop>,
) -> MemFolder {
    let file = path(rt, alloc, "usr/a");
    let tree = tree_of(rt, alloc, tree);
    let mut folder = folder(alloc, tree, &file, content.as_bytes(), listed, stop)
        .ok()
        .expect(rt, "no fault");
    if !appended.is_empty() {
        let ended = ended(folder.append(&file, appended.as_bytes()));
        assert!(rt; ended == wanted, "{ended}");
    }
    folder
}

// The choice, the call at which the folder stops, and what a crash then leaves.
const FIVE_CHOICES: &str = "
before make_dir usr/n 750 -> usr/a 644=abcd usr/d 700/ usr/d/x 640=xyz
after make_dir usr/n 750 -> usr/a 644=abcd usr/d 700/ usr/d/x 640=xyz usr/n 750/
gone make_dir usr/n 750 -> usr/a 644=abcd usr/d 700/ usr/d/x 640=xyz
junk make_dir usr/n 750 -> usr/a 644=abcd usr/d 700/ usr/d/x 640=xyz usr/n 700/ usr/n/junk 600=
torn make_dir usr/n 750 -> usr/a 644=abcd usr/d 700/ usr/d/x 640=xyz usr/n 750/

before make_file usr/n -> usr/a 644=abcd usr/d 700/ usr/d/x 640=xyz
after make_file usr/n -> usr/a 644=abcd usr/d 700/ usr/d/x 640=xyz usr/n 600=
gone make_file usr/n -> usr/a 644=abcd usr/d 700/ usr/d/x 640=xyz
junk make_file usr/n -> usr/a 644=abcd usr/d 700/ usr/d/x 640=xyz usr/n 700/ usr/n/junk 600=
torn make_file usr/n -> usr/a 644=abcd usr/d 700/ usr/d/x 640=xyz usr/n 600=

before append ef -> usr/a 644=abcd usr/d 700/ usr/d/x 640=xyz
after append ef -> usr/a 644=abcdef usr/d 700/ usr/d/x 640=xyz
gone append ef -> usr/d 700/ usr/d/x 640=xyz
junk append ef -> usr/a 700/ usr/a/junk 600= usr/d 700/ usr/d/x 640=xyz
torn append ef -> usr/a 644=abc usr/d 700/ usr/d/x 640=xyz

before make_link usr/n t -> usr/a 644=abcd usr/d 700/ usr/d/x 640=xyz
after make_link usr/n t -> usr/a 644=abcd usr/d 700/ usr/d/x 640=xyz usr/n>t
gone make_link usr/n t -> usr/a 644=abcd usr/d 700/ usr/d/x 640=xyz
junk make_link usr/n t -> usr/a 644=abcd usr/d 700/ usr/d/x 640=xyz usr/n 700/ usr/n/junk 600=
torn make_link usr/n t -> usr/a 644=abcd usr/d 700/ usr/d/x 640=xyz usr/n>t

before make_hard usr/n usr/a -> usr/a 644=abcd usr/d 700/ usr/d/x 640=xyz
after make_hard usr/n usr/a -> usr/a 644=abcd usr/d 700/ usr/d/x 640=xyz usr/n 644=abcd
gone make_hard usr/n usr/a -> usr/a 644=abcd usr/d 700/ usr/d/x 640=xyz
junk make_hard usr/n usr/a -> usr/a 644=abcd usr/d 700/ usr/d/x 640=xyz usr/n 700/ usr/n/junk 600=
# the file that has another name, which wasn't touched, isn't cut
torn make_hard usr/n usr/a -> usr/a 644=abcd usr/d 700/ usr/d/x 640=xyz usr/n 644=abcd

before remove usr/d -> usr/a 644=abcd usr/d 700/ usr/d/x 640=xyz
after remove usr/d -> usr/a 644=abcd
gone remove usr/d -> usr/a 644=abcd
junk remove usr/d -> usr/a 644=abcd usr/d 700/ usr/d/junk 600=
torn remove usr/d -> usr/a 644=abcd

before set_mode usr/a 600 -> usr/a 644=abcd usr/d 700/ usr/d/x 640=xyz
after set_mode usr/a 600 -> usr/a 600=abcd usr/d 700/ usr/d/x 640=xyz
gone set_mode usr/a 600 -> usr/a 0=abcd usr/d 700/ usr/d/x 640=xyz
junk set_mode usr/a 600 -> usr/a 0=abcd usr/d 700/ usr/d/x 640=xyz
torn set_mode usr/a 600 -> usr/a 0=abcd usr/d 700/ usr/d/x 640=xyz

# nothing is touched
before sync -> usr/a 644=abcd usr/d 700/ usr/d/x 640=xyz
after sync -> usr/a 644=abcd usr/d 700/ usr/d/x 640=xyz
gone sync -> usr/a 644=abcd usr/d 700/ usr/d/x 640=xyz
junk sync -> usr/a 644=abcd usr/d 700/ usr/d/x 640=xyz
torn sync -> usr/a 644=abcd usr/d 700/ usr/d/x 640=xyz
";

// Folders that stop within the first call. A call is a choice and that call, which has to fail, and is answered by what a
// crash leaves.
#[derive(Drop)]
struct Stopped;

impl Player for Stopped {
    fn answer<R: Abort>(&mut self, rt: &R, alloc: Global, case: &str) -> Vec<u8> {
        let (choice, call) = first(case);
        let stop = stop_of(rt, 1, choice);
        let appended = call.strip_prefix("append ").unwrap_or("");
        let file = [TWO_FILES, "abcd", appended, "failed"];
        let mut folder = with_file(rt, alloc, file, 0, Some(stop));
        if appended.is_empty() {
            agree(rt, alloc, case, folder.answer(rt, alloc, call), "failed");
        }
        folder.answer(rt, alloc, "crashed")
    }
}

#[test]
fn five_choices_after_each_call(rt: HostRuntime) {
    play(&rt, rt.alloc(), &mut Stopped, FIVE_CHOICES, 40);
}

// The calls behind an append, and what stands after each, whether it failed or not.
const CALLS: &str = "
held -> usr/a 644=abc
set_mode usr/a 4555 -> ok
held -> usr/a 4555=abc
make_dir usr/b 750 -> ok
held -> usr/a 4555=abc usr/b 750/
make_file usr/b/c -> ok
held -> usr/a 4555=abc usr/b 750/ usr/b/c 600=
sync -> ok
look usr/b -> dir 750
read usr/a 1 -> 2 bc%00%00
held -> usr/a 4555=abc usr/b 750/ usr/b/c 600=
";

// The listed call, and its line in the script: none of no call and of the append.
const LISTED: [(u64, u64); 8] = [
    (0, 0),
    (1, 0),
    (2, 2),
    (3, 4),
    (4, 6),
    (5, 8),
    (6, 9),
    (7, 10),
];

#[test]
fn a_call_fails_exactly_where_it_is_listed(rt: HostRuntime) {
    let alloc = rt.alloc();
    for (listed, line) in LISTED {
        let appended = if listed == 1 { "failed" } else { "ok" };
        let mut folder = with_file(&rt, alloc, [ONE_FILE, "ab", "c", appended], listed, None);
        play_failing(&rt, alloc, &mut folder, CALLS, 11, line);
    }
}

// A file with one name more, both of which were touched if the first is taken away.
const CUT_WHERE_ALL_NAMES_ARE_TOUCHED: &str = "
make_hard usr/m usr/a -> ok
crashed -> usr/a 644=abcd usr/d 700/ usr/d/x 640=xyz usr/m 644=abcd
make_hard usr/n usr/a -> ok
crashed -> usr/a 644=abcd usr/d 700/ usr/d/x 640=xyz usr/m 644=abcd usr/n 644=abcd
remove usr/a -> ok
same usr/m usr/n -> yes
crashed -> usr/d 700/ usr/d/x 640=xyz usr/m 644=ab usr/n 644=ab
# once it is safe, no name is touched
sync -> ok
crashed -> usr/d 700/ usr/d/x 640=xyz usr/m 644=abcd usr/n 644=abcd
";

// A name that was touched before its parent was made, and one whose parent is a file.
const JUNK_BELOW_DIRECTORIES: &str = "
remove usr/n/y -> ok
remove usr/a/y -> ok
make_dir usr/n 755 -> ok
crashed -> usr/a 644=abcd usr/d 700/ usr/d/x 640=xyz usr/n 700/ usr/n/junk 600= usr/n/y 700/ usr/n/y/junk 600=
";

// What was safe comes back; a call after the stop, which is the fourth call, changes nothing, and each fails.
const A_STOP_ENDS_ALL: &str = "
remove usr/d -> ok
sync -> ok
remove usr/a -> ok
look usr/a -> failed
set_mode usr 0 -> failed
sync -> failed
held -> nothing
stands usr -> dir 755
crashed -> usr/a 644=abcd
";

// Plays a script on a folder that stops at a call.
fn play_stopped(rt: &impl Abort, alloc: Global, call: u64, choice: &str, script: &str, count: u64) {
    let stop = stop_of(rt, call, choice);
    let mut folder = with_file(rt, alloc, [TWO_FILES, "abcd", "", ""], 0, Some(stop));
    play(rt, alloc, &mut folder, script, count);
}

#[test]
fn crashes_leave_what_the_choice_says(rt: HostRuntime) {
    let alloc = rt.alloc();
    play_stopped(&rt, alloc, 9, "torn", CUT_WHERE_ALL_NAMES_ARE_TOUCHED, 9);
    play_stopped(&rt, alloc, 9, "junk", JUNK_BELOW_DIRECTORIES, 4);
    play_stopped(&rt, alloc, 4, "before", A_STOP_ENDS_ALL, 9);
}

// The names in a directory, a foreign one among them.
const LISTS_AND_TARGETS: &str = "
list usr -> foreign usr/l usr/l-
target usr/l -> to%ff
make_file usr/n -> failed
list usr -> failed
";

// What junk leaves in a directory.
const LISTS_JUNK: &str = "
look usr/n -> dir 700
list usr/n -> plain usr/n/junk
";

// A folder that holds the tree and stops nowhere or at a call.
fn holding(rt: &impl Abort, alloc: Global, tree: Tree, stop: Option<Stop>) -> MemFolder {
    MemFolder::new(alloc, tree, Vec::new(alloc), stop).expect(rt, "memory")
}

#[test]
fn lists_and_targets(rt: HostRuntime) {
    let alloc = rt.alloc();
    let stop = stop_of(&rt, 3, "junk");
    let mut folder = holding(&rt, alloc, tree_of(&rt, alloc, LINKS), Some(stop));
    play(&rt, alloc, &mut folder, LISTS_AND_TARGETS, 4);
    let mut left = holding(&rt, alloc, crashed(&rt, alloc, &folder), None);
    play(&rt, alloc, &mut left, LISTS_JUNK, 2);
}
