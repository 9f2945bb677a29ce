//! The repository of `gen`, read as any other. The digests are those of `sha1sum`.

use ips_digest::PayloadName;
use ips_fmri::Version;
use ips_generate::generate;
use ips_outside::SureSource;
use ips_repo::{Payload, Repo};
use ips_text::Text;
use std::alloc::Global;
use std::process::Abort;
use std::rt::HostRuntime;

// The manifest of a stem at the version that each package has.
fn manifest(
    rt: &impl Abort,
    alloc: Global,
    repo: &Repo,
    source: &mut SureSource,
    stem: &str,
) -> Text {
    let version = Version::parse(alloc, "1.0,1-1:20240101T000000Z")
        .ok()
        .expect(rt, "a version");
    let (manifest, _) = repo
        .manifest(alloc, source, stem, &version)
        .ok()
        .expect(rt, "a manifest");
    manifest.print(alloc).ok().expect(rt, "memory")
}

// Whether the payload of these digits has just these bytes.
fn has_bytes(
    rt: &impl Abort,
    alloc: Global,
    source: &mut SureSource,
    digits: &str,
    bytes: &[u8],
) -> bool {
    let name = PayloadName::parse(digits).expect(rt, "a digest");
    let mut payload = Payload::open(alloc, source, "gen", &name)
        .ok()
        .expect(rt, "a payload");
    let mut buffer = [0; 64];
    let count = payload.next(source, &mut buffer).ok().expect(rt, "a read");
    &buffer[..count] == bytes
}

#[test]
fn a_generated_repository_reads_as_any_other(rt: HostRuntime) {
    let alloc = rt.alloc();
    let mut source = generate(alloc, 3).ok().expect(&rt, "memory");
    let repo = Repo::open(alloc, &mut source, "gen")
        .ok()
        .expect(&rt, "a repository");
    assert!(&rt; repo.catalog().stems() == 4, "all and three more");
    let all = manifest(&rt, alloc, &repo, &mut source, "all");
    assert!(&rt;
        all.as_str()
            == "depend fmri=pkg/p0 type=require
depend fmri=pkg/p1 type=require
depend fmri=pkg/p2 type=require
",
        "{}",
        all.as_str()
    );
    let first = manifest(&rt, alloc, &repo, &mut source, "pkg/p0");
    assert!(&rt;
        first.as_str()
            == "dir group=bin mode=0755 owner=root path=opt
dir group=bin mode=0755 owner=root path=opt/p0
file 09d2af8dd22201dd8d48e5dcfcaed281ff9422c7 group=bin mode=0644 owner=root path=opt/p0/data
",
        "{}",
        first.as_str()
    );
    let last = manifest(&rt, alloc, &repo, &mut source, "pkg/p2");
    assert!(&rt;
        last.as_str()
            == "dir group=bin mode=0755 owner=root path=opt
dir group=bin mode=0755 owner=root path=opt/p2
file 72e4f0fb8d4e269b644538abe0da2a212ad66b8c group=bin mode=0644 owner=root path=opt/p2/data
depend fmri=pkg/p0 type=require
",
        "{}",
        last.as_str()
    );
}

#[test]
fn generated_payloads_are_intact(rt: HostRuntime) {
    let alloc = rt.alloc();
    let mut source = generate(alloc, 3).ok().expect(&rt, "memory");
    assert!(&rt;
        has_bytes(
            &rt,
            alloc,
            &mut source,
            "09d2af8dd22201dd8d48e5dcfcaed281ff9422c7",
            b"0\n"
        ),
        "the first"
    );
    assert!(&rt;
        has_bytes(
            &rt,
            alloc,
            &mut source,
            "b66a08159f9c30ac66addf7f3d2ccd5654c15793",
            b"2654435761\n"
        ),
        "the second"
    );
    assert!(&rt;
        has_bytes(
            &rt,
            alloc,
            &mut source,
            "72e4f0fb8d4e269b644538abe0da2a212ad66b8c",
            b"1013904226\n"
        ),
        "the third"
    );
}
