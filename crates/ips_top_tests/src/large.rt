//! A large image: four hundred packages that are installed and updated together.

use crate::packages::bare;
use crate::runs::rows_told;
use crate::world::*;
use std::alloc::Global;
use std::process::Abort;

// The lines of a part of this number: a directory and three files; four have a license that must be accepted, three a user, and one has the
// file of all users.
fn part(rt: &impl Abort, alloc: Global, number: u64, payload: &str) -> String {
    let mut lines = format!(in alloc; "dir path=r{number} $dir").expect(rt, "memory");
    for name in ["a", "b", "c"] {
        write!(lines, "; file {payload} path=r{number}/{name} $file").expect(rt, "memory");
    }
    match number {
        0..=3 => write!(lines, "; license {payload} license=L must-accept=true"),
        4..=6 => write!(lines, "; user username=u{number} group=bin"),
        7 => write!(lines, "; file $none path=etc/passwd $file preserve=true"),
        _ => Ok(()),
    }
    .expect(rt, "memory");
    lines
}

// The lines of the package that wants all parts, or of the one that has them at this version.
fn of_all(rt: &impl Abort, alloc: Global, parts: u64, behind: &str) -> String {
    let mut lines = String::from_str(alloc, "set name=info value=x").expect(rt, "memory");
    for number in 0..parts {
        write!(lines, "; depend fmri=r/p{number}{behind}").expect(rt, "memory");
    }
    lines
}

// A repository of so many parts in two versions, and an image that holds nothing.
pub fn fleet(rt: &impl Abort, alloc: Global, parts: u64) -> World {
    let mut world = World::new(alloc, bare(rt, alloc));
    let mut offered = String::from_str(alloc, "entire 1; r/inc 1 2").expect(rt, "memory");
    for number in 0..parts {
        write!(offered, "; r/p{number} 1 2").expect(rt, "memory");
        for (version, payload) in [(1u64, "$old"), (2u64, "$new")] {
            let named = format!(in alloc; "r/p{number}@{version}").expect(rt, "memory");
            let lines = part(rt, alloc, number, payload);
            put_package(rt, alloc, &mut world, named.as_str(), lines.as_str());
        }
    }
    put_catalog(rt, alloc, &mut world, offered.as_str());
    for (named, behind) in [
        ("entire@1", " type=require"),
        ("r/inc@1", "@1 type=incorporate"),
        ("r/inc@2", "@2 type=incorporate"),
    ] {
        let lines = of_all(rt, alloc, parts, behind);
        put_package(rt, alloc, &mut world, named, lines.as_str());
    }
    world
}

const UPDATED: &str = r#"
does | image-create -p test -> 0 done
does | install entire@1 r/inc@1 -> 6 license needed: r/p3 L
run | -R i -s r install --accept entire@1 r/inc@1 -> 0 "install 402, update 0, remove 0\nsteps: gone 0, fresh 405, mode 0, put 1610, link 0, hard 0\ndone\n"
look | r399/c -> file 644 "old"
run | -R i -s r update --accept -> 0 "install 0, update 401, remove 0\nsteps: gone 0, fresh 0, mode 0, put 1606, link 0, hard 0\ndone\n"
look | r399/c -> file 644 "new"
look | var/pkg/license/r%2Fp0/L -> file 644 "new"
does | verify -> 0 ok
"#;

#[test]
fn a_large_image_is_installed_and_updated(rt: HostRuntime) {
    let alloc = rt.alloc();
    let mut world = fleet(&rt, alloc, 400);
    let rows = rows_told(&rt, alloc, &mut world, UPDATED);
    assert!(rt; rows == 8, "{rows} rows");
}
