//! A kind of steps of the test's own, which stands in the list before the kind of files.

ghost use Rattle.ips_steps.specs.declared.step.Sort.TheVariants as of_sort;
ghost use Rattle.ips_kinds.specs.Acts.{same_sort};

use crate::packages::repository;
use crate::world::*;
use ips_folder::{Folder, MemFolder};
use ips_kinds::{Act, FreshKind, GoneKind, HardKind, Kind, LinkKind, ModeKind, PutKind};
use ips_outside::{MemSink, MemSource, MemSpawner, Sink, Source, Spawner};
use ips_steps::Step;
use ips_top::run;
use std::alloc::{AllocError, Global};
use std::process::Abort;

// Takes the sort that the kind of files takes, and does the same.
#[derive(Drop)]
struct OwnKind {
    tally: u64,
}

impl Kind for OwnKind {
    ghost sorts = { λ k. same_sort of_sort.Put };

    ghost finished = { λ k. k.tally };

    fn takes(&self, step: &Step) -> bool {
        matches!(step, Step::Put { .. })
    }

    fn next(&mut self, _step: &Step, turn: u8) -> Act {
        match turn {
            0 => Act::Clear,
            1 => Act::MakeHard,
            _ => {
                self.tally = self.tally.saturating_add(1);
                Act::Finished
            }
        }
    }

    fn tally(&self) -> u64 {
        self.tally
    }
}

// How many steps the kind at a place has finished.
fn tally_at(kinds: &[Box<dyn Kind>], place: usize) -> u64 {
    match kinds.get(place) {
        Some(kind) => kind.tally(),
        None => 0,
    }
}

// The number that a run ends with, and how many steps the test's own kind and that of files have finished.
fn finished_by<S: Source, F: Folder, P: Spawner, O: Sink>(
    alloc: Global,
    words: &[String],
    repo: &mut S,
    image: &mut F,
    spawner: &mut P,
    out: &mut O,
) -> Result<(u8, u64, u64), AllocError> {
    let mut kinds: Vec<Box<dyn Kind>> = Vec::new(alloc);
    kinds.push(Box::new(alloc, GoneKind::new())?)?;
    kinds.push(Box::new(alloc, FreshKind::new())?)?;
    kinds.push(Box::new(alloc, ModeKind::new())?)?;
    kinds.push(Box::new(alloc, OwnKind { tally: 0 })?)?;
    kinds.push(Box::new(alloc, LinkKind::new())?)?;
    kinds.push(Box::new(alloc, HardKind::new())?)?;
    kinds.push(Box::new(alloc, PutKind::new())?)?;
    let status = run(alloc, words, MOMENT, repo, image, spawner, &mut kinds, out);
    Ok((status.number(), tally_at(&kinds, 3), tally_at(&kinds, 6)))
}

// What is told of a run of a line by these kinds, which leaves its image in the world.
fn own_told(rt: &impl Abort, alloc: Global, world: &mut World, line: &str) -> String {
    let tree = held(rt, alloc, world);
    let mut image = MemFolder::new(alloc, tree, Vec::new(alloc), None).expect(rt, "memory");
    let mut repo = MemSource::new(repository(rt, alloc), Vec::new(alloc));
    let mut spawner = MemSpawner::new(alloc, 0, Vec::new(alloc), Vec::new(alloc)).expect(
        rt, "memory",
    );
    let mut out = MemSink::new(alloc, 1000, Vec::new(alloc)).expect(rt, "memory");
    let words = words_of(rt, alloc, line);
    let (number, own, puts) = finished_by(
        alloc,
        &words,
        &mut repo,
        &mut image,
        &mut spawner,
        &mut out,
    ).expect(rt, "memory");
    restore(rt, alloc, world, image.tree());
    format!(in alloc; "{number} {own} {puts}").expect(rt, "memory")
}

// Commands, and what the test's own kind tells of them: it lays each file, and the kind behind it none.
const COMMANDS: [(&str, &str); 3] = [
    ("-R i -s r image-create -p test", "0 7 0"),
    ("-R i -s r install hello", "0 4 0"),
    ("-R i -s r uninstall hello", "0 2 0"),
];

// What stands behind each of them, whoever lays it.
const PATHS: [&str; 9] = [
    "usr",
    "usr/share",
    "usr/share/hello",
    "var/pkg/image",
    "var/pkg/history",
    "var/pkg/owners",
    "var/pkg/packages/hello",
    "var/pkg/stage",
    "var/pkg/gate",
];

#[test]
fn the_first_kind_that_takes_a_step_lays_it(rt: HostRuntime) {
    let alloc = rt.alloc();
    let mut own = World::new(alloc, repository(&rt, alloc));
    let mut world = World::new(alloc, repository(&rt, alloc));
    for (line, want) in COMMANDS {
        let told = own_told(&rt, alloc, &mut own, line);
        assert!(rt; told.as_str() == want, "{line}: {told}, and not {want}");
        let _ = run_line(&rt, alloc, &mut world, line, NONE);
        for path in PATHS {
            let told = look_told(&rt, alloc, &own, path);
            let want = look_told(&rt, alloc, &world, path);
            assert!(rt; told.as_str() == want.as_str(), "{line}: {path}: {told}");
        }
    }
}
