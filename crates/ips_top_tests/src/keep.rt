//! What becomes of a file that may be edited: one table for each event, by how it is preserved and by what stands there.

use crate::packages::bare;
use crate::rows::{column, row_of};
use crate::world::*;
use ips_outside::Tree;
use std::alloc::Global;
use std::process::Abort;

// In each table a row has the file of the package's first version, which is `old` of mode 644, and that of its second, of mode 600, each with
// how it is preserved; `-` where there is none. Then follows what stands behind the event: where nothing stood at the path, where the
// bytes stood that aren't edited (at an installation those that are installed), where `mine` stood, of mode 640 as they, and where a directory stood.

// The package is installed.
const INSTALLED: &str = r#"
- | $new -> 600 "new"; 600 "new"; 600 "new", salvaged 640 "mine"; 600 "new", salvaged dir
- | $new true -> 600 "new"; 600 "new"; 600 "mine"; 600 "new", salvaged dir
- | $new renameold -> 600 "new"; 600 "new"; 600 "new", old 640 "mine"; 600 "new", salvaged dir
- | $new renamenew -> 600 "new"; 600 "new"; 600 "mine", new 600 "new"; 600 "new", salvaged dir
- | $new legacy -> absent; 600 "new"; 600 "mine"; dir
- | $new abandon -> absent; 600 "new"; 600 "mine"; dir
- | $new install-only -> 600 "new"; 600 "new"; 600 "mine"; dir"#;

// It is updated to another content.
const UPDATED: &str = r#"
$old | $new -> 600 "new"; 600 "new"; 600 "new"; 600 "new", salvaged dir
$old true | $new true -> 600 "new"; 600 "new"; 600 "mine"; 600 "new", salvaged dir
$old renameold | $new renameold -> 600 "new"; 600 "new"; 600 "new", old 640 "mine"; 600 "new", salvaged dir
$old renamenew | $new renamenew -> 600 "new"; 600 "new"; 600 "mine", new 600 "new"; 600 "new", salvaged dir
$old legacy | $new legacy -> 600 "new"; 600 "new", legacy 640 "old"; 600 "new", legacy 640 "mine"; 600 "new", salvaged dir
$old abandon | $new abandon -> absent; 600 "old"; 600 "mine"; dir
$old install-only | $new install-only -> absent; 600 "old"; 600 "mine"; dir
# how the new version preserves it decides
$old | $new true -> 600 "new"; 600 "new"; 600 "mine"; 600 "new", salvaged dir
$old | $new renameold -> 600 "new"; 600 "new"; 600 "new", old 640 "mine"; 600 "new", salvaged dir
$old | $new renamenew -> 600 "new"; 600 "new"; 600 "mine", new 600 "new"; 600 "new", salvaged dir
$old | $new legacy -> 600 "new"; 600 "new", legacy 640 "old"; 600 "new", legacy 640 "mine"; 600 "new", salvaged dir
$old | $new abandon -> absent; 600 "old"; 600 "mine"; dir
$old | $new install-only -> absent; 600 "old"; 600 "mine"; dir
# an edit that the old version protected isn't lost
$old true | $new -> 600 "new"; 600 "new"; 600 "new", salvaged 640 "mine"; 600 "new", salvaged dir
$old renameold | $new -> 600 "new"; 600 "new"; 600 "new", salvaged 640 "mine"; 600 "new", salvaged dir
$old renamenew | $new -> 600 "new"; 600 "new"; 600 "new", salvaged 640 "mine"; 600 "new", salvaged dir
$old legacy | $new -> 600 "new"; 600 "new"; 600 "new", salvaged 640 "mine"; 600 "new", salvaged dir
$old abandon | $new -> 600 "new"; 600 "new", salvaged 640 "old"; 600 "new", salvaged 640 "mine"; 600 "new", salvaged dir
$old install-only | $new -> 600 "new"; 600 "new", salvaged 640 "old"; 600 "new", salvaged 640 "mine"; 600 "new", salvaged dir"#;

// It is updated, and its content stays.
const UNCHANGED: &str = r#"
$old | $old -> absent; 600 "old"; 600 "mine"; dir
$old true | $old true -> absent; 600 "old"; 600 "mine"; dir
$old renameold | $old renameold -> absent; 600 "old"; 600 "mine"; dir
$old renamenew | $old renamenew -> absent; 600 "old"; 600 "mine"; dir
$old legacy | $old legacy -> absent; 600 "old"; 600 "mine"; dir
$old abandon | $old abandon -> absent; 600 "old"; 600 "mine"; dir
$old install-only | $old install-only -> absent; 600 "old"; 600 "mine"; dir
# nothing decides but the content, whatever preserved it
$old abandon | $old -> absent; 600 "old"; 600 "mine"; dir"#;

// It is uninstalled.
const REMOVED: &str = r#"
$old | - -> absent; absent; absent; dir
$old true | - -> absent; absent; absent, salvaged 640 "mine"; dir
$old renameold | - -> absent; absent; absent, salvaged 640 "mine"; dir
$old renamenew | - -> absent; absent; absent, salvaged 640 "mine"; dir
$old legacy | - -> absent; absent; absent, salvaged 640 "mine"; dir
$old abandon | - -> absent; 640 "old"; 640 "mine"; dir
$old install-only | - -> absent; 640 "old"; 640 "mine"; dir"#;

// The line of the file at `f`, by its payload and how it is preserved.
fn line_of(rt: &impl Abort, alloc: Global, file: &str, mode: &str) -> String {
    if file == "-" {
        return String::from_str(alloc, "set name=info.none value=true").expect(rt, "memory");
    }
    let (payload, preserve) = file.split_once(' ').unwrap_or((file, ""));
    let mut line = format!(in alloc;
        "file {payload} path=f mode={mode} owner=root group=bin"
    ).expect(rt, "memory");
    if !preserve.is_empty() {
        write!(line, " preserve={preserve}").expect(rt, "memory");
    }
    line
}

// An image before the event, with a repository that has both versions.
fn before(rt: &impl Abort, alloc: Global, first: &str, second: &str) -> World {
    let mut world = World::new(alloc, bare(rt, alloc));
    put_catalog(rt, alloc, &mut world, "k 1 2");
    let old = line_of(rt, alloc, first, "0644");
    put_package(rt, alloc, &mut world, "k@1", old.as_str());
    let new = line_of(rt, alloc, second, "0600");
    put_package(rt, alloc, &mut world, "k@2", new.as_str());
    done(rt, alloc, &mut world, "-R i -s r image-create -p test");
    if first != "-" {
        done(rt, alloc, &mut world, "-R i -s r install k@1");
    }
    world
}

// Runs the words of a line, which lead to the end.
fn done(rt: &impl Abort, alloc: Global, world: &mut World, line: &str) {
    let ended = run_line(rt, alloc, world, line, NONE);
    let taken = ended.taken.as_str();
    assert!(rt; ended.number == 0, "{line}: {taken}");
}

// Puts at the path what is to stand there before the event.
fn stand(rt: &impl Abort, alloc: Global, world: &mut World, standing: &str, same: &str) {
    match standing {
        "absent" => remove(rt, alloc, world, "f"),
        "directory" => {
            remove(rt, alloc, world, "f");
            put(rt, alloc, world, "f/in", "in");
        }
        _ => {
            let bytes = if standing == "same" { same } else { "mine" };
            put(rt, alloc, world, "f", bytes);
            put_mode(rt, alloc, world, "f", "640");
        }
    }
}

// Where the file may be found behind the event.
const PLACES: [(&str, &str); 5] = [
    ("", "f"),
    (", old ", "f.old"),
    (", new ", "f.new"),
    (", legacy ", "f.legacy"),
    (", salvaged ", "var/pkg/lost+found/20240102T030405Z/f"),
];

// Writes what stands at each of these places.
fn write_seen(rt: &impl Abort, alloc: Global, out: &mut String, world: &World) {
    for (name, place) in PLACES {
        write_at(rt, alloc, out, world, name, place);
    }
}

// Writes what stands at a place, where something does; at the file's own also that nothing does.
fn write_at(
    rt: &impl Abort,
    alloc: Global,
    out: &mut String,
    world: &World,
    name: &str,
    place: &str,
) {
    let look = look_told(rt, alloc, world, place);
    let seen = seen_in(look.as_str());
    if name == "" || seen != "absent" {
        out.push_str(name).expect(rt, "memory");
        out.push_str(seen).expect(rt, "memory");
    }
}

// What is seen in what is told of a look: modes of directories, and that a file is one, are left out.
fn seen_in(look: &str) -> &str {
    if look == "dir 755" {
        return "dir";
    }
    look.strip_prefix("file ").unwrap_or(look)
}

// What is told of a row: what stands behind the event, for each of what stood before it.
fn kept_told(rt: &impl Abort, alloc: Global, first: &str, second: &str) -> String {
    let (event, same) = match (first, second) {
        ("-", _) => ("-R i -s r install k@2", "new"),
        (_, "-") => ("-R i -s r uninstall k", "old"),
        _ => ("-R i -s r update", "old"),
    };
    let mut world = before(rt, alloc, first, second);
    let image: Tree = held(rt, alloc, &world);
    let mut told = String::new(alloc);
    for (number, standing) in ["absent", "same", "different", "directory"]
        .into_iter()
        .enumerate()
    {
        restore(rt, alloc, &mut world, &image);
        stand(rt, alloc, &mut world, standing, same);
        done(rt, alloc, &mut world, event);
        if number > 0 {
            told.push_str("; ").expect(rt, "memory");
        }
        write_seen(rt, alloc, &mut told, &world);
    }
    told
}

// How many rows a table has, each of which is told as it says.
fn rows_kept(rt: &impl Abort, alloc: Global, table: &str) -> u32 {
    let mut rows = 0u32;
    for line in table.lines() {
        if let Some((row, want)) = row_of(line) {
            let told = kept_told(rt, alloc, column(row, 0), column(row, 1));
            assert!(rt; told.as_str() == want, "{row}: {told}, and not {want}");
            rows = rows.saturating_add(1);
        }
    }
    rows
}

#[test]
fn edits_are_kept_where_content_comes(rt: HostRuntime) {
    let alloc = rt.alloc();
    for (count, table) in [(7u32, INSTALLED), (19u32, UPDATED)] {
        let rows = rows_kept(&rt, alloc, table);
        assert!(rt; rows == count, "{rows} rows in place of {count}");
    }
}

#[test]
fn edits_are_kept_where_none_comes(rt: HostRuntime) {
    let alloc = rt.alloc();
    for (count, table) in [(8u32, UNCHANGED), (7u32, REMOVED)] {
        let rows = rows_kept(&rt, alloc, table);
        assert!(rt; rows == count, "{rows} rows in place of {count}");
    }
}
