//! What the program does for a line of words, and its exit status.

ghost use Rattle.std.specs.Prelude.{◌≡◌, ◌<◌, IfOk, OnErr, map, string_bytes};
ghost use Rattle.std.specs.Duration.{as_nanos};
ghost use Rattle.std.specs.Process.{exit_status};
ghost use Rattle.ips_host.specs.Roots.{image_root, repository_root};
ghost use Rattle.ips_host.specs.Telling.{IsToldOf};
ghost use Rattle.ips_syntax.specs.Reading.{line_of_words};
ghost use Rattle.ips_pkg.specs.Clock.{moment_at};
ghost use Rattle.ips_pkg.specs.Ended.{EndsWith};
ghost use Rattle.ips_pkg.specs.Ends.{EndsOrStarves, EndsLocked, EndsFound, Ends, number_unlocked};
ghost use Rattle.ips_pkg.specs.Locking as locking;
ghost use Rattle.ips_pkg.specs.Named.{IsImageOf};

use crate::locking::lock_for;
use crate::objects::{Objects, objects_of, roots_of};
use ips_folder::Folder;
use ips_host::{
    Held, HostFolder, HostSink, HostSource, HostSpawner, Told, Unlocked, take_lock, tell_faults,
};
use ips_kinds::{FreshKind, GoneKind, HardKind, Kind, LinkKind, ModeKind, PutKind};
use ips_outside::{Sink, Source, Spawner};
use ips_top::run;
use std::alloc::{AllocError, Global};
use std::process::ExitCode;
use std::time::Duration;

/// The number of a run for which no memory is left.
pub const OUT_OF_MEMORY: u8 = 99;

/// The number of a program that does nothing, since another one is at work on the image.
const BUSY: u8 = 7;

/// The number of a program that does nothing, since the image's folder can't be locked.
const NOT_LOCKED: u8 = 1;

/// The last second of the year 9998, counted from the first of January 1970.
const LAST_SECOND: u64 = 253370764799;

/// Does what the words ask for, at a time so long after the first of January 1970, and answers the exit status. Where
/// another program has the lock on the image, and where that can't be asked for, nothing is done, and standard error says
/// why.
pub fn answer(rt: HostRuntime, words: &[String], since: Duration) -> ExitCode
    ensures { Ends (⟦<HostFolder<HostRuntime> as Source>⟧.outside) (⟦<HostSource<HostRuntime> as Source>⟧.outside) (⟦<HostSpawner<HostRuntime> as Spawner>⟧.running) (⟦<HostSink<HostRuntime> as Sink>⟧.taking) image_root repository_root (map string_bytes words.now) (moment_at (as_nanos since)) (exit_status result) }
{
    ExitCode::from(number_for(rt, words, since))
}

// The number of that exit status.
fn number_for(rt: HostRuntime, words: &[String], since: Duration) -> u8
    ensures { Ends (⟦<HostFolder<HostRuntime> as Source>⟧.outside) (⟦<HostSource<HostRuntime> as Source>⟧.outside) (⟦<HostSpawner<HostRuntime> as Spawner>⟧.running) (⟦<HostSink<HostRuntime> as Sink>⟧.taking) image_root repository_root (map string_bytes words.now) (moment_at (as_nanos since)) result }
{
    let Ok(lock) = lock_for(rt.alloc(), words) else {
        return OUT_OF_MEMORY;
    };
    let (image, _) = roots_of(words);
    let found = take_lock(&rt, image, lock);
    number_found(rt, words, since, image, found)
}

// The number for the words at that time, by what was found as the lock was asked for that they want.
fn number_found(
    rt: HostRuntime,
    words: &[String],
    since: Duration,
    image: &str,
    found: Result<Held<'_>, Unlocked>,
) -> u8
    requires lock { IfOk found (λ held. held.lock ≡ locking.lock_for (line_of_words (map string_bytes words.now))) }
    requires folder { IfOk found (λ held. IsImageOf (map string_bytes words.now) held.folder.now) }
    ensures { EndsFound (⟦<HostFolder<HostRuntime> as Source>⟧.outside) (⟦<HostSource<HostRuntime> as Source>⟧.outside) (⟦<HostSpawner<HostRuntime> as Spawner>⟧.running) (⟦<HostSink<HostRuntime> as Sink>⟧.taking) image_root repository_root (map string_bytes words.now) (moment_at (as_nanos since)) found.entry result }
{
    match found {
        Ok(held) => {
            let number = number_under(rt, words, moment_of(since), &held);
            drop(held);
            number
        }
        Err(why) => turned_away(&rt, "image", image, why),
    }
}

/// Says why nothing is done with what the folder is, and answers the number for it.
pub fn turned_away(rt: &HostRuntime, what: &str, folder: &str, why: Unlocked) -> u8
    ensures { result ≡ number_unlocked why }
{
    match why {
        Unlocked::Busy => {
            let _ = eprintln!(rt; "pkg: another pkg is at work on this {what}");
            BUSY
        }
        Unlocked::Failed(why) => {
            let _ = eprintln!(rt; "pkg: lock {folder}: {why}");
            NOT_LOCKED
        }
    }
}

/// The second of a clock, and the last of the year 9998 behind that.
pub fn moment_of(since: Duration) -> u64
    ensures { result ≡ moment_at (as_nanos since) }
{
    let second = since.as_secs();
    if second < LAST_SECOND {
        second
    } else {
        LAST_SECOND
    }
}

// The number for the words at the moment, under the lock that they want.
fn number_under(rt: HostRuntime, words: &[String], moment: u64, held: &Held<'_>) -> u8
    requires moment { moment < 253370764800 }
    requires lock { held.now.lock ≡ locking.lock_for (line_of_words (map string_bytes words.now)) }
    requires folder { IsImageOf (map string_bytes words.now) held.now.folder.now }
    ensures { EndsLocked (⟦<HostFolder<HostRuntime> as Source>⟧.outside) (⟦<HostSource<HostRuntime> as Source>⟧.outside) (⟦<HostSpawner<HostRuntime> as Spawner>⟧.running) (⟦<HostSink<HostRuntime> as Sink>⟧.taking) image_root repository_root (map string_bytes words.now) moment result }
{
    // It is held meanwhile.
    let _ = held;
    match objects_of(rt, words) {
        Ok(mut objects) => {
            let (number, _) = work(rt, words, moment, &mut objects);
            drop(objects);
            number
        }
        Err(_) => OUT_OF_MEMORY,
    }
}

// The number of a run for the words on these objects. Behind the report it is told which of their calls failed.
fn work(rt: HostRuntime, words: &[String], moment: u64, objects: &mut Objects) -> (u8, Told)
    requires moment { moment < 253370764800 }
    ensures ends { EndsOrStarves (⟦<HostFolder<HostRuntime> as Source>⟧.outside) (⟦<HostSource<HostRuntime> as Source>⟧.outside) (⟦<HostSpawner<HostRuntime> as Spawner>⟧.running) (⟦<HostSink<HostRuntime> as Sink>⟧.taking) (map string_bytes words.now) moment objects.old.folder objects.new.folder objects.old.source objects.new.source objects.old.spawner objects.new.spawner objects.old.sink objects.new.sink result.0 }
    ensures told { IsToldOf result.1 ((⟦<HostFolder<HostRuntime> as Source>⟧.outside).faults objects.new.folder) ((⟦<HostSource<HostRuntime> as Source>⟧.outside).faults objects.new.source) ((⟦<HostSpawner<HostRuntime> as Spawner>⟧.running).faults objects.new.spawner) ((⟦<HostSink<HostRuntime> as Sink>⟧.taking).faults objects.new.sink) }
{
    let number = number_of(
        rt.alloc(),
        words,
        moment,
        &mut objects.source,
        &mut objects.folder,
        &mut objects.spawner,
        &mut objects.sink,
    );
    let told = tell_faults(
        &rt.stderr(),
        &objects.folder,
        &objects.source,
        &objects.spawner,
        &objects.sink,
    );
    (number, told)
}

// The number of a run for the words.
fn number_of<S: Source, F: Folder, P: Spawner, O: Sink>(
    alloc: Global,
    words: &[String],
    moment: u64,
    repo: &mut S,
    image: &mut F,
    spawner: &mut P,
    out: &mut O,
) -> u8
    requires moment { moment < 253370764800 }
    ensures { EndsOrStarves F.outside S.outside P.running O.taking (map string_bytes words.now) moment image.old image.new repo.old repo.new spawner.old spawner.new out.old out.new result }
{
    match status_of(alloc, words, moment, repo, image, spawner, out) {
        Ok(number) => number,
        Err(_) => OUT_OF_MEMORY,
    }
}

// The same, with one kind for each sort of step. Where memory for the kinds is refused nothing is done.
fn status_of<S: Source, F: Folder, P: Spawner, O: Sink>(
    alloc: Global,
    words: &[String],
    moment: u64,
    repo: &mut S,
    image: &mut F,
    spawner: &mut P,
    out: &mut O,
) -> Result<u8, AllocError>
    requires moment { moment < 253370764800 }
    ensures ended { IfOk result (λ number. EndsWith F.outside S.outside P.running O.taking (map string_bytes words.now) moment image.old image.new repo.old repo.new spawner.old spawner.new out.old out.new number) }
    ensures undone { OnErr result ((image.new ≡ image.old) × (repo.new ≡ repo.old) × (spawner.new ≡ spawner.old) × (out.new ≡ out.old)) }
{
    let mut kinds: Vec<Box<dyn Kind>> = Vec::new(alloc);
    kinds.push(Box::new(alloc, GoneKind::new())?)?;
    kinds.push(Box::new(alloc, FreshKind::new())?)?;
    kinds.push(Box::new(alloc, ModeKind::new())?)?;
    kinds.push(Box::new(alloc, PutKind::new())?)?;
    kinds.push(Box::new(alloc, LinkKind::new())?)?;
    kinds.push(Box::new(alloc, HardKind::new())?)?;
    let status = run(alloc, words, moment, repo, image, spawner, &mut kinds, out);
    Ok(status.number())
}
