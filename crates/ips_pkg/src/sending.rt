//! What the program does where the first word is `send`.

ghost use Rattle.std.specs.Prelude.{◌≡◌, ◌<◌, ◌↔◌, ℕ, List, IfOk, IsTrue, OnErr, map, string_bytes};
ghost use Rattle.std.specs.Duration.{as_nanos};
ghost use Rattle.std.specs.Process.{exit_status};
ghost use Rattle.ips_host.specs.Roots.{image_root, repository_root};
ghost use Rattle.ips_pkg.specs.Clock.{moment_at};
ghost use Rattle.ips_pkg.specs.Mogrified.{IsThird};
ghost use Rattle.ips_pkg.specs.Sent.{AsksToSend, IsFifth, IsLockOf, Sends, SendsFound, SendsLocked, SendsOrStarves, SendsWith};

use crate::mogrifying::{first_word, third};
use crate::working::{OUT_OF_MEMORY, moment_of, turned_away};
use ips_folder::Folder;
use ips_host::{Held, HostFolder, HostSink, HostSource, Lock, Unlocked, take_lock};
use ips_kinds::{FreshKind, GoneKind, HardKind, Kind, LinkKind, ModeKind, PutKind};
use ips_outside::{Sink, Source};
use ips_publish::send;
use ips_send_words::read_request;
use ips_text::{Or, Text};
use std::alloc::{AllocError, Global};
use std::process::ExitCode;
use std::time::Duration;

/// The folder of what is published, the repository, and where the report goes.
#[derive(Drop)]
struct Places {
    proto: HostSource<HostRuntime>,
    target: HostFolder<HostRuntime>,
    sink: HostSink<HostRuntime>,
}

/// Whether the words ask to make a repository or to publish.
pub fn asks_to_send(words: &[String]) -> bool
    ensures { IsTrue result ↔ AsksToSend (map string_bytes words.now) }
{
    match first_word(words) {
        Some(word) => word == "send",
        None => false,
    }
}

/// Does what the words ask for, at a time so long after the first of January 1970, and answers the exit status. The repository is the
/// folder that the third word names, and what is published is in that of the fifth. Where another program has the lock on the
/// repository, and where that can't be asked for, nothing is done, and standard error says why.
pub fn sent(rt: HostRuntime, words: &[String], since: Duration) -> ExitCode
    ensures { Sends (⟦<HostSource<HostRuntime> as Source>⟧.outside) (⟦<HostFolder<HostRuntime> as Source>⟧.outside) (⟦<HostSink<HostRuntime> as Sink>⟧.taking) repository_root image_root (map string_bytes words.now) (moment_at (as_nanos since)) (exit_status result) }
{
    ExitCode::from(number_for(rt, words, since))
}

// The number of that exit status.
fn number_for(rt: HostRuntime, words: &[String], since: Duration) -> u8
    ensures { Sends (⟦<HostSource<HostRuntime> as Source>⟧.outside) (⟦<HostFolder<HostRuntime> as Source>⟧.outside) (⟦<HostSink<HostRuntime> as Sink>⟧.taking) repository_root image_root (map string_bytes words.now) (moment_at (as_nanos since)) result }
{
    let moment = moment_of(since);
    let Ok(lock) = lock_for(rt.alloc(), words, moment) else {
        return OUT_OF_MEMORY;
    };
    let target = third(words);
    let found = take_lock(&rt, target, lock);
    number_found(rt, words, moment, target, found)
}

// The lock on the repository that the words want: one for this program alone, and none where they ask for nothing.
fn lock_for(alloc: Global, words: &[String], moment: u64) -> Result<Lock, AllocError>
    requires { moment < 253370764800 }
    ensures { IfOk result (IsLockOf moment (map string_bytes words.now)) }
{
    match read_request(alloc, words, moment) {
        Ok(_) => Ok(Lock::Exclusive),
        Err(Or::Bad(_)) => Ok(Lock::Free),
        Err(Or::OutOfMemory) => Err(AllocError),
    }
}

// The number for the words at the moment, by what was found as the lock was asked for that they want.
fn number_found(
    rt: HostRuntime,
    words: &[String],
    moment: u64,
    target: &str,
    found: Result<Held<'_>, Unlocked>,
) -> u8
    requires moment { moment < 253370764800 }
    requires lock { IfOk found (λ held. IsLockOf moment (map string_bytes words.now) held.lock) }
    requires folder { IfOk found (λ held. IsThird (map string_bytes words.now) held.folder.now) }
    ensures { SendsFound (⟦<HostSource<HostRuntime> as Source>⟧.outside) (⟦<HostFolder<HostRuntime> as Source>⟧.outside) (⟦<HostSink<HostRuntime> as Sink>⟧.taking) repository_root image_root (map string_bytes words.now) moment found.entry result }
{
    match found {
        Ok(held) => {
            let number = number_under(rt, words, moment, &held);
            drop(held);
            number
        }
        Err(why) => turned_away(&rt, "repository", target, why),
    }
}

// The number for the words at the moment, under the lock that they want.
fn number_under(rt: HostRuntime, words: &[String], moment: u64, held: &Held<'_>) -> u8
    requires moment { moment < 253370764800 }
    requires lock { IsLockOf moment (map string_bytes words.now) held.now.lock }
    requires folder { IsThird (map string_bytes words.now) held.now.folder.now }
    ensures { SendsLocked (⟦<HostSource<HostRuntime> as Source>⟧.outside) (⟦<HostFolder<HostRuntime> as Source>⟧.outside) (⟦<HostSink<HostRuntime> as Sink>⟧.taking) repository_root image_root (map string_bytes words.now) moment result }
{
    // It is held meanwhile.
    let _ = held;
    match places_of(rt, words) {
        Ok(mut places) => {
            let number = work(rt, words, moment, &mut places);
            drop(places);
            number
        }
        Err(_) => OUT_OF_MEMORY,
    }
}

// The objects for these words: the repository is the folder that the third one names, and what is published is in that of the fifth.
fn places_of(rt: HostRuntime, words: &[String]) -> Result<Places, AllocError>
    ensures target { IfOk result (λ places. IsThird (map string_bytes words.now) (image_root places.target)) }
    ensures proto { IfOk result (λ places. IsFifth (map string_bytes words.now) (repository_root places.proto)) }
{
    let target = Text::new(rt.alloc(), third(words))?;
    let proto = Text::new(rt.alloc(), fifth(words))?;
    Ok(Places {
        proto: HostSource::new(rt, proto),
        target: HostFolder::new(rt, target),
        sink: HostSink::new(rt),
    })
}

// The fifth word, and an empty one where there is none. For fewer words the call asks nothing of the folder that it names.
fn fifth(words: &[String]) -> &str
    ensures { IsFifth (map string_bytes words.now) result.now }
{
    match words {
        [_, _, _, _, path, ..] => path.as_str(),
        _ => "",
    }
}

// The number for the words on these objects. Behind the report standard error tells which of their calls failed.
fn work(rt: HostRuntime, words: &[String], moment: u64, places: &mut Places) -> u8
    requires moment { moment < 253370764800 }
    ensures { SendsOrStarves (⟦<HostSource<HostRuntime> as Source>⟧.outside) (⟦<HostFolder<HostRuntime> as Source>⟧.outside) (⟦<HostSink<HostRuntime> as Sink>⟧.taking) (map string_bytes words.now) moment places.old.proto places.new.proto places.old.target places.new.target places.old.sink places.new.sink result }
{
    let number = number_of(
        rt.alloc(),
        words,
        moment,
        &mut places.proto,
        &mut places.target,
        &mut places.sink,
    );
    tell(&rt, places);
    number
}

// Says on standard error which calls failed first.
fn tell(rt: &HostRuntime, places: &Places) {
    if let Some(failed) = places.target.first_fault() {
        let _ = eprintln!(rt; "pkg: {failed}");
    }
    if let Some(failed) = places.proto.first_fault() {
        let _ = eprintln!(rt; "pkg: {failed}");
    }
    if let Some(failed) = places.sink.first_fault() {
        let _ = eprintln!(rt; "pkg: {failed}");
    }
}

// The number of a run for the words.
fn number_of<S: Source, F: Folder, O: Sink>(
    alloc: Global,
    words: &[String],
    moment: u64,
    proto: &mut S,
    target: &mut F,
    out: &mut O,
) -> u8
    requires moment { moment < 253370764800 }
    ensures { SendsOrStarves S.outside F.outside O.taking (map string_bytes words.now) moment proto.old proto.new target.old target.new out.old out.new result }
{
    match status_of(alloc, words, moment, proto, target, out) {
        Ok(number) => number,
        Err(_) => OUT_OF_MEMORY,
    }
}

// The same, with one kind for each sort of step. Where memory for the kinds is refused nothing is done.
fn status_of<S: Source, F: Folder, O: Sink>(
    alloc: Global,
    words: &[String],
    moment: u64,
    proto: &mut S,
    target: &mut F,
    out: &mut O,
) -> Result<u8, AllocError>
    requires moment { moment < 253370764800 }
    ensures ended { IfOk result (λ number. SendsWith S.outside F.outside O.taking (map string_bytes words.now) moment proto.old proto.new target.old target.new out.old out.new number) }
    ensures undone { OnErr result ((proto.new ≡ proto.old) × (target.new ≡ target.old) × (out.new ≡ out.old)) }
{
    let mut kinds: Vec<Box<dyn Kind>> = Vec::new(alloc);
    kinds.push(Box::new(alloc, GoneKind::new())?)?;
    kinds.push(Box::new(alloc, FreshKind::new())?)?;
    kinds.push(Box::new(alloc, ModeKind::new())?)?;
    kinds.push(Box::new(alloc, PutKind::new())?)?;
    kinds.push(Box::new(alloc, LinkKind::new())?)?;
    kinds.push(Box::new(alloc, HardKind::new())?)?;
    let status = send(alloc, words, moment, proto, target, &mut kinds, out);
    Ok(status.number())
}
