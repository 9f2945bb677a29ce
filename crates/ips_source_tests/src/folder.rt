use crate::script::{call_of, path, set_up, words};
use crate::source::told;
use ips_folder::Folder;
use ips_host::{HostFolder, HostSource};
use ips_outside::{Failed, Look, Source};
use ips_text::{RelPath, Text, octal};
use std::alloc::Global;
use std::fs;
use std::process::{Abort, Command};

type Files = HostFolder<HostRuntime>;

// How a call ended that makes or changes something at a path.
fn change(
    rt: &impl Abort,
    alloc: Global,
    folder: &mut Files,
    name: &str,
    at: &RelPath,
    rest: &str,
) -> &'static str {
    let mode = octal(rest.as_bytes()).unwrap_or(0);
    let answer = match name {
        "make_dir" => folder.make_dir(at, mode),
        "make_file" => folder.make_file(at),
        "append" => folder.append(at, rest.as_bytes()),
        "set_mode" => folder.set_mode(at, mode),
        "make_link" => folder.make_link(at, rest.as_bytes()),
        "make_hard" => folder.make_hard(at, &path(rt, alloc, rest)),
        "remove" => folder.remove(at),
        "sync" => folder.sync(),
        _ => panic!(rt; "no such call"),
    };
    if answer.is_ok() { "ok" } else { "failed" }
}

// Whether both paths are names of one file.
fn same(folder: &mut Files, a: &RelPath, b: &RelPath) -> &'static str {
    match folder.same(a, b) {
        Ok(true) => "yes",
        Ok(false) => "no",
        Err(Failed) => "failed",
    }
}

// The names in a directory, and whether there are foreign ones.
fn list(rt: &impl Abort, alloc: Global, folder: &mut Files, at: &RelPath) -> Vec<u8> {
    let Ok(listing) = folder.list(alloc, at) else {
        return Vec::from_slice(alloc, b"failed").expect(rt, "memory");
    };
    let mut shown = Vec::from_slice(
        alloc,
        if listing.foreign { b"foreign" } else { b"all" },
    ).expect(rt, "memory");
    for name in listing.names.as_slice() {
        shown.push(b' ').expect(rt, "memory");
        shown.extend_from_slice(name.bytes()).expect(rt, "memory");
    }
    shown
}

// What a call on the folder answers.
fn answer(rt: &impl Abort, alloc: Global, folder: &mut Files, call: [&str; 3]) -> Vec<u8> {
    let [name, at, rest] = call;
    let at = path(rt, alloc, if at.is_empty() { "-" } else { at });
    let answer = match name {
        "list" => return list(rt, alloc, folder, &at),
        "look" => return told(rt, alloc, folder, &at, 0).into_bytes(),
        "same" => same(folder, &at, &path(rt, alloc, rest)),
        _ => change(rt, alloc, folder, name, &at, rest),
    };
    Vec::from_slice(alloc, answer.as_bytes()).expect(rt, "memory")
}

// Plays a script of so many calls.
fn play(rt: &impl Abort, alloc: Global, folder: &mut Files, script: &str, count: u64) {
    let mut played = 0u64;
    for line in script.lines() {
        let Some((call, wanted)) = call_of(line) else {
            continue;
        };
        let answer = answer(rt, alloc, folder, words(call));
        assert!(rt; answer.as_slice() == wanted.as_bytes(), "{line} {answer:?}");
        played = played.saturating_add(1);
    }
    assert_eq!(rt; played, count);
}

const MADE: &str = "
make_dir usr 1777 -> ok
make_file usr/f -> ok
append usr/f abc -> ok
append usr/f def -> ok
set_mode usr/f 4751 -> ok
sync -> ok
";

#[test]
fn makes_what_a_source_reads_back(rt: HostRuntime) {
    let alloc = rt.alloc();
    set_up(&rt, "made", "dir made").expect(&rt, "files");
    let mut folder = HostFolder::new(
        rt.clone().expect(&rt, "memory"),
        Text::new(alloc, "made").expect(&rt, "memory"),
    );
    play(&rt, alloc, &mut folder, MADE, 6);

    let mut source = HostSource::new(
        rt.clone().expect(&rt, "memory"),
        Text::new(alloc, "made/").expect(&rt, "memory"),
    );
    assert!(rt; source.look(&path(&rt, alloc, "usr")) == Ok(Look::Dir { mode: 0o1777 }));
    let file = path(&rt, alloc, "usr/f");
    let (mode, size) = (0o4751, 6);
    assert!(rt; source.look(&file) == Ok(Look::File { mode, size }));
    let mut buf = [0; 6];
    assert!(rt; source.read(&file, 0, &mut buf) == Ok(6));
    assert!(rt; buf.as_slice() == b"abcdef".as_slice());
    fs::remove_dir_all(&rt, "made").ok().expect(&rt, "no fault");
}

// Links to what stands outside the image and to nothing, and a named pipe.
const TRAPS: &str = "dir traps
dir traps/image
dir traps/outside
file traps/outside/f old
link traps/image/dir ../outside
link traps/image/file ../outside/f
link traps/image/new ../outside/new
pipe traps/image/pipe";

// Calls that fail at each of the paths; `@` stands for the path.
const TRAPPED: &str = "dir dir/f dir/new file new pipe none/f";

const FAILING: &str = "make_dir @ 755
make_file @
append @ x
set_mode @ 777
make_link @ f
make_hard @ @
same @ @
list @";

// What a call says behind its path: that path, where it says `@`.
fn rest_at<'a>(rest: &'a str, at: &'a str) -> &'a str {
    if rest == "@" { at } else { rest }
}

// How many calls were made at the path; each has to fail.
fn failing_at(rt: &impl Abort, alloc: Global, folder: &mut Files, at: &str) -> u64 {
    let mut failed = 0u64;
    for call in FAILING.lines() {
        let [name, _, rest] = words(call);
        let answer = answer(rt, alloc, folder, [name, at, rest_at(rest, at)]);
        assert!(rt; answer.as_slice() == b"failed".as_slice(), "{call} {at}");
        failed = failed.saturating_add(1);
    }
    failed
}

#[test]
fn fails_at_each_trap_and_writes_through_no_link(rt: HostRuntime) {
    let alloc = rt.alloc();
    set_up(&rt, "traps", TRAPS).expect(&rt, "files");
    let mut folder = HostFolder::new(
        rt.clone().expect(&rt, "memory"),
        Text::new(alloc, "traps/image").expect(&rt, "memory"),
    );
    let mut failed = 0u64;
    for at in TRAPPED.split_whitespace() {
        failed = failed.saturating_add(failing_at(&rt, alloc, &mut folder, at));
    }
    assert_eq!(rt; failed, 56);
    assert!(rt;
        fs::read_to_string(&rt, "traps/outside/f")
            .ok()
            .expect(&rt, "no fault")
            .as_str()
            == "old"
    );
    assert!(rt;
        !fs::exists(&rt, "traps/outside/new")
            .ok()
            .expect(&rt, "no fault")
    );

    let mut nowhere = HostFolder::new(
        rt.clone().expect(&rt, "memory"),
        Text::new(alloc, "nowhere").expect(&rt, "memory"),
    );
    play(&rt, alloc, &mut nowhere, "sync -> failed", 1);
    fs::remove_dir_all(&rt, "traps")
        .ok()
        .expect(&rt, "no fault");
}

const NAMED: &str = "
make_dir d 700 -> ok
make_file d/f -> ok
append d/f ab -> ok
make_hard d/f- d/f -> ok
make_file d/o -> ok
same d/f d/f- -> yes
same d/f d/o -> no
append d/f- c -> ok
look d/f -> file 600 3, 3 `abc`
";

// A link's target needs no text, and a listing tells of a name that is none.
#[test]
fn makes_links_and_names_and_lists_them(rt: HostRuntime) {
    let alloc = rt.alloc();
    set_up(&rt, "named", "dir named").expect(&rt, "files");
    let mut folder = HostFolder::new(
        rt.clone().expect(&rt, "memory"),
        Text::new(alloc, "named").expect(&rt, "memory"),
    );
    play(&rt, alloc, &mut folder, NAMED, 9);
    let link = path(&rt, alloc, "d/l");
    assert!(rt; folder.make_link(&link, b"to\xff/x") == Ok(()));
    assert!(rt;
        folder
            .target(alloc, &link)
            .ok()
            .expect(&rt, "no fault")
            .as_slice()
            == b"to\xff/x".as_slice()
    );
    play(
        &rt,
        alloc,
        &mut folder,
        "look d/l -> link, 0 ``\nlist d -> all d/f d/f- d/l d/o",
        2,
    );

    // the host's `touch` takes the bytes of a name through its shell
    let words = "touch named/d/$(printf 'z\\377')";
    let mut command = Command::new(alloc, "/bin/sh").expect(&rt, "memory");
    assert!(rt;
        command
            .arg("-c")
            .ok()
            .expect(&rt, "no fault")
            .arg(words)
            .ok()
            .expect(&rt, "no fault")
            .status(&rt)
            .ok()
            .expect(&rt, "no fault")
            .success()
    );
    play(
        &rt,
        alloc,
        &mut folder,
        "list d -> foreign d/f d/f- d/l d/o\nsync -> ok",
        2,
    );
    fs::remove_dir_all(&rt, "named")
        .ok()
        .expect(&rt, "no fault");
}

const CLEARED: &str = "dir cleared
dir cleared/image
dir cleared/image/d
dir cleared/image/d/e
dir cleared/out
file cleared/out/f kept
file cleared/image/d/junk
link cleared/image/d/dir ../../out
link cleared/image/d/e/file ../../../out/f
link cleared/image/link ../out";

const REMOVED: &str = "
set_mode d 700 -> ok
remove d -> ok
remove link/f -> ok
remove link -> ok
remove link -> ok
remove none/x -> ok
look d -> absent, 0 ``
look link -> absent, 0 ``
";

// What is removed goes with all below it, and what its links lead to stays.
#[test]
fn removes_a_subtree_and_follows_no_link(rt: HostRuntime) {
    let alloc = rt.alloc();
    set_up(&rt, "cleared", CLEARED).expect(&rt, "files");
    let mut folder = HostFolder::new(
        rt.clone().expect(&rt, "memory"),
        Text::new(alloc, "cleared/image").expect(&rt, "memory"),
    );
    play(&rt, alloc, &mut folder, REMOVED, 8);
    assert!(rt;
        fs::read_to_string(&rt, "cleared/out/f")
            .ok()
            .expect(&rt, "no fault")
            .as_str()
            == "kept"
    );
    fs::remove_dir_all(&rt, "cleared")
        .ok()
        .expect(&rt, "no fault");
}

// What was seen or made is known, until something else is made or taken away there.
const KNOWN: &str = "
# nothing stood there, and then something does
look n -> absent, 0 ``
make_file n -> ok
look n -> file 600 0, 0 ``
look p/f -> absent, 0 ``
make_dir p 755 -> ok
make_file p/f -> ok
look p/f -> file 600 0, 0 ``
# in a directory that was just made nothing stands, until something is made
make_dir d 755 -> ok
look d/f -> absent, 0 ``
remove d/f -> ok
make_file d/f -> ok
remove d/f -> ok
look d/f -> absent, 0 ``
make_link d/f g -> ok
remove d/f -> ok
make_hard d/f n -> ok
look d/f -> file 600 0, 0 ``
# a directory that is gone isn't known, nor what stood below it
make_dir d/e 755 -> ok
remove d -> ok
remove d -> ok
make_file d/f -> failed
make_file d -> ok
look d/f -> absent, 0 ``
make_dir d/e 755 -> failed
remove d -> ok
make_dir d 755 -> ok
make_file d/f -> ok
# a file that was seen is known under its own path alone
look d/f -> file 600 0, 0 ``
remove d/f -> ok
make_hard d/g d/f -> failed
make_hard d/g d -> failed
make_link d/f ../n -> ok
make_hard d/g d/f -> failed
set_mode d/f 644 -> failed
look n -> file 600 0, 0 ``
remove n -> ok
look n -> absent, 0 ``
";

// A mode that was kept once is kept again in the same directory, while that has its own.
const KEPT: &str = "
make_dir a 755 -> ok
make_dir b 755 -> ok
make_dir c 777 -> ok
make_dir e 777 -> ok
look b -> dir 755, 0 ``
look e -> dir 777, 0 ``
make_file a/f -> ok
make_file a/g -> ok
set_mode a/f 644 -> ok
set_mode a/g 644 -> ok
set_mode a/f 4755 -> ok
look a/f -> file 4755 0, 0 ``
look a/g -> file 644 0, 0 ``
make_dir a/b 755 -> ok
set_mode a 2755 -> ok
make_dir a/c 755 -> ok
look a/c -> dir 755, 0 ``
make_dir a/d 2755 -> ok
make_dir a/e 755 -> ok
look a/d -> dir 2755, 0 ``
look a/e -> dir 755, 0 ``
";

#[test]
fn knows_what_it_saw_and_made(rt: HostRuntime) {
    let alloc = rt.alloc();
    for (script, count) in [(KNOWN, 37), (KEPT, 21)] {
        set_up(&rt, "known", "dir known").expect(&rt, "files");
        let mut folder = HostFolder::new(
            rt.clone().expect(&rt, "memory"),
            Text::new(alloc, "known").expect(&rt, "memory"),
        );
        play(&rt, alloc, &mut folder, script, count);
        fs::remove_dir_all(&rt, "known")
            .ok()
            .expect(&rt, "no fault");
    }
}
