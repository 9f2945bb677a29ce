//! What is told of payloads, files, marks, catalogs and manifests, in words.

use crate::trees::many_bytes;
use ips_digest::PayloadName;
use ips_fmri::Version;
use ips_outside::{Failed, MemSource};
use ips_repo::{FileFault, Payload, Repo, RepoFault, read_whole};
use ips_text::{Or, RelPath};
use std::alloc::Global;
use std::process::Abort;

// A fault by its name, with digests by their digits.
fn fault_told(rt: &impl Abort, alloc: Global, fault: &Or<RepoFault>) -> String {
    match fault {
        Or::Bad(RepoFault::PayloadDamaged { found }) => digest_told(rt, alloc, "damaged", found),
        Or::Bad(RepoFault::Compressed { found }) => digest_told(rt, alloc, "compressed", found),
        Or::Bad(fault) => format!(in alloc; "{fault:?}").expect(rt, "memory"),
        Or::OutOfMemory => String::from_str(alloc, "out of memory").expect(rt, "memory"),
    }
}

fn digest_told(rt: &impl Abort, alloc: Global, word: &str, name: &PayloadName) -> String {
    let mut out = [0u8; 64];
    let count = name.print(&mut out);
    let digits = str::from_utf8(&out[..count]).ok().expect(rt, "a text");
    format!(in alloc; "{word} {digits}").expect(rt, "memory")
}

// What is told of a payload of the publisher, read in pieces of at most this length.
pub fn payload_told(
    rt: &impl Abort,
    alloc: Global,
    source: &mut MemSource,
    publisher: &str,
    digits: &str,
    length: usize,
) -> String {
    let name = PayloadName::parse(digits).expect(rt, "a digest");
    match Payload::open(alloc, source, publisher, &name) {
        Ok(payload) => end_told(rt, alloc, source, payload, length),
        Err(fault) => fault_told(rt, alloc, &fault),
    }
}

// What is told of a payload at its end, or that a call failed before.
fn end_told(
    rt: &impl Abort,
    alloc: Global,
    source: &mut MemSource,
    payload: Payload,
    length: usize,
) -> String {
    let mut payload = payload;
    let mut buffer = vec![in alloc; 0u8; length].expect(rt, "memory");
    if buffer.is_empty() {
        panic!(rt; "no room");
    }
    let mut total = 0u64;
    for _ in 0..1_000u32 {
        match payload.next(source, buffer.as_mut_slice()) {
            Ok(0) => {
                return match payload.finish() {
                    Ok(()) => format!(in alloc; "intact {total}").expect(rt, "memory"),
                    Err(fault) => fault_told(rt, alloc, &Or::Bad(fault)),
                };
            }
            Ok(count) => total = total.saturating_add(count as u64),
            Err(Failed) => return String::from_str(alloc, "failed").expect(rt, "memory"),
        }
    }
    panic!(rt; "no end")
}

// Each piece of a payload, of at most 2 bytes, also behind a call that fails.
pub fn pieces_told(rt: &impl Abort, alloc: Global, source: &mut MemSource, digits: &str) -> String {
    let name = PayloadName::parse(digits).expect(rt, "a digest");
    let mut payload = Payload::open(alloc, source, "test", &name)
        .ok()
        .expect(rt, "no fault");
    let mut buffer = [0u8; 2];
    let mut told = String::new(alloc);
    for _ in 0..10u32 {
        match payload.next(source, &mut buffer) {
            Ok(0) => {
                let is_intact = payload.finish().is_ok();
                write!(told, "0 intact: {is_intact}").expect(rt, "memory");
                return told;
            }
            Ok(count) => write!(told, "{count} ").expect(rt, "memory"),
            Err(Failed) => told.push_str("failed ").expect(rt, "memory"),
        }
    }
    panic!(rt; "no end")
}

// What is told of the file at the path, where it has at most so many bytes.
pub fn file_told(
    rt: &impl Abort,
    alloc: Global,
    source: &mut MemSource,
    path: &str,
    limit: u64,
) -> String {
    let path = RelPath::parse(alloc, path.as_bytes())
        .ok()
        .expect(rt, "what is spelled");
    read_told(rt, alloc, read_whole(alloc, source, &path, limit))
}

fn read_told(rt: &impl Abort, alloc: Global, read: Result<Vec<u8>, Or<FileFault>>) -> String {
    match read {
        Ok(bytes) => {
            let is_whole = bytes.as_slice() == many_bytes(rt, alloc).as_slice();
            format!(in alloc; "whole: {is_whole}").expect(rt, "memory")
        }
        Err(fault) => format!(in alloc; "{fault:?}").expect(rt, "memory"),
    }
}

// What is told of the repository of a publisher.
pub fn opened_told(
    rt: &impl Abort,
    alloc: Global,
    source: &mut MemSource,
    publisher: &str,
) -> String {
    match Repo::open(alloc, source, publisher) {
        Ok(repo) => counts_told(rt, alloc, &repo),
        Err(fault) => fault_told(rt, alloc, &fault),
    }
}

// How many stems and versions a repository's catalog has.
fn counts_told(rt: &impl Abort, alloc: Global, repo: &Repo) -> String {
    let catalog = repo.catalog();
    let (stems, versions) = (catalog.stems(), catalog.count());
    format!(in alloc; "stems {stems} versions {versions}").expect(rt, "memory")
}

// The stems of a repository, each with the releases of its versions.
pub fn versions_told(rt: &impl Abort, alloc: Global, source: &mut MemSource) -> String {
    let repo = Repo::open(alloc, source, "test")
        .ok()
        .expect(rt, "no fault");
    let mut told = String::new(alloc);
    for number in 0..10usize {
        tell_stem(rt, &mut told, &repo, number);
    }
    told
}

fn tell_stem(rt: &impl Abort, told: &mut String, repo: &Repo, number: usize) {
    let catalog = repo.catalog();
    if let Some(stem) = catalog.stem(number) {
        told.push_str(stem).expect(rt, "memory");
        tell_releases(rt, told, catalog.versions(stem));
    }
}

fn tell_releases(rt: &impl Abort, told: &mut String, versions: &[Version]) {
    for version in versions {
        write!(told, " {:?}", version.release()).expect(rt, "memory");
    }
}

// What is told of a manifest of the publisher `test`: how many lines and bytes it has.
pub fn manifest_told(
    rt: &impl Abort,
    alloc: Global,
    source: &mut MemSource,
    stem: &str,
    version: &str,
) -> String {
    let version = Version::parse(alloc, version)
        .ok()
        .expect(rt, "what is spelled");
    match Repo::open(alloc, source, "test") {
        Ok(repo) => told_of_version(rt, alloc, source, &repo, stem, &version),
        Err(fault) => fault_told(rt, alloc, &fault),
    }
}

fn told_of_version(
    rt: &impl Abort,
    alloc: Global,
    source: &mut MemSource,
    repo: &Repo,
    stem: &str,
    version: &Version,
) -> String {
    match repo.manifest(alloc, source, stem, version) {
        Ok((manifest, size)) => {
            format!(in alloc; "lines {} bytes {size}", manifest.lines.len()).expect(rt, "memory")
        }
        Err(fault) => fault_told(rt, alloc, &fault),
    }
}
