//! Manifests that rules make.

use ips_manifest::{LineFault, ManifestFault};
use ips_mogrify::{MogrifyOutcome, MogrifyStatus, mogrify};
use ips_outside::{MemSink, MemSource, Tree};
use ips_syntax::Why;
use ips_text::RelPath;
use std::alloc::Global;
use std::str;
use std::test::Fail;

/// The manifest of a package that delivers one file and the directories above it.
const HELLO: &str = "dir group=bin mode=0755 owner=root path=usr\n\
dir group=bin mode=0755 owner=root path=usr/share\n\
file a9993e364706816aba3e25717850c26c9cd0d89d group=bin mode=0644 owner=root path=usr/share/hello\n";

/// Actions of which the attribute `value` has no value, one, two, and an empty one.
const VALUES: &str = "set name=none\n\
set name=one value=a\n\
set name=two value=a value=b\n\
set name=empty value=\"\"\n";

/// The words of a run on the files `rules` and `manifest`.
const WORDS: [&str; 5] = ["mogrify", "-d", "f", "rules", "manifest"];

/// What a run wrote, and how it ended.
#[derive(Drop)]
struct Ran {
    status: MogrifyStatus,
    written: Vec<u8>,
}

fn words(alloc: Global, list: &[&str]) -> Result<Vec<String>, Fail> {
    let mut words = Vec::new(alloc);
    for word in list {
        words.push(String::from_str(alloc, word)?)?;
    }
    Ok(words)
}

fn path(alloc: Global, text: &str) -> Result<RelPath, Fail> {
    match RelPath::parse(alloc, text.as_bytes()) {
        Ok(path) => Ok(path),
        Err(_) => Err("no path".into()),
    }
}

fn transform(
    alloc: Global,
    list: &[&str],
    files: &[(&str, &str)],
    room: usize,
    fails: &[u64],
) -> Result<Ran, Fail> {
    let mut tree = Tree::new(alloc);
    for (name, text) in files {
        let Ok(()) = tree.file(alloc, &path(alloc, name)?, 0o644, text.as_bytes()) else {
            return Err("no file".into());
        };
    }
    let mut source = MemSource::new(tree, Vec::from_slice(alloc, fails)?);
    let mut out = MemSink::new(alloc, room, Vec::new(alloc))?;
    let words = words(alloc, list)?;
    let status = mogrify(alloc, &words, &mut source, &mut out);
    let written = Vec::from_slice(alloc, out.taken())?;
    Ok(Ran { status, written })
}

fn transform_by(alloc: Global, rules: &str, manifest: &str) -> Result<Ran, Fail> {
    transform(
        alloc,
        &WORDS,
        &[("rules", rules), ("manifest", manifest)],
        10000,
        &[],
    )
}

/// The name of an outcome, and the number that it tells: of a line, a word or bytes.
fn told(outcome: &MogrifyOutcome) -> (&'static str, u64) {
    match outcome {
        MogrifyOutcome::Usage { place, .. } => ("Usage", *place),
        MogrifyOutcome::FileMissing { .. } => ("FileMissing", 0),
        MogrifyOutcome::TooLarge { count, .. } => ("TooLarge", *count),
        MogrifyOutcome::BadRule { line } => ("BadRule", *line),
        MogrifyOutcome::BadPattern { line } => ("BadPattern", *line),
        MogrifyOutcome::BadManifest { fault } => ("BadManifest", fault.line),
        MogrifyOutcome::BadResult { line } => ("BadResult", *line),
        MogrifyOutcome::SourceFault => ("SourceFault", 0),
        MogrifyOutcome::Written => ("Written", 0),
        MogrifyOutcome::OutOfMemory => ("OutOfMemory", 0),
    }
}

/// So many parentheses around nothing.
fn nested(alloc: Global, depth: usize) -> Result<String, Fail> {
    let mut rule = String::from_str(alloc, "<transform path=")?;
    for _ in 0..depth {
        rule.push_str("(")?;
    }
    for _ in 0..depth {
        rule.push_str(")")?;
    }
    rule.push_str(" -> drop>")?;
    Ok(rule)
}

#[test]
fn rules_make_manifests_of_manifests(rt: HostRuntime) -> Result<(), Fail> {
    let alloc = rt.alloc();
    let rows = [
        // A file is moved, and what the rule doesn't name stays.
        (
            "<transform file path=^usr/ -> edit path ^usr opt>\n",
            HELLO,
            "dir group=bin mode=0755 owner=root path=usr\n\
dir group=bin mode=0755 owner=root path=usr/share\n\
file a9993e364706816aba3e25717850c26c9cd0d89d group=bin mode=0644 owner=root path=opt/share/hello\n",
        ),
        (
            "<transform dir -> drop>",
            HELLO,
            "file a9993e364706816aba3e25717850c26c9cd0d89d group=bin mode=0644 owner=root path=usr/share/hello\n",
        ),
        // No rule, and one for all actions.
        ("# nothing\n\n", VALUES, VALUES),
        ("<transform -> drop>", VALUES, ""),
        // Each operation where there is no value, one, two, and an empty one.
        (
            "<transform set -> add value c>",
            VALUES,
            "set name=none value=c\nset name=one value=a value=c\nset name=two value=a value=b value=c\nset name=empty value=\"\" value=c\n",
        ),
        (
            "<transform set -> default value c>",
            VALUES,
            "set name=none value=c\nset name=one value=a\nset name=two value=a value=b\nset name=empty value=\"\"\n",
        ),
        (
            "<transform set -> set value c>",
            VALUES,
            "set name=none value=c\nset name=one value=c\nset name=two value=c\nset name=empty value=c\n",
        ),
        (
            "<transform set -> delete value ^a$>",
            VALUES,
            "set name=none\nset name=one\nset name=two value=b\nset name=empty value=\"\"\n",
        ),
        (
            "<transform set -> delete value ^>",
            VALUES,
            "set name=none\nset name=one\nset name=two\nset name=empty\n",
        ),
        (
            "<transform set -> edit value [ab] 'x y'>",
            VALUES,
            "set name=none\nset name=one value=\"x y\"\nset name=two value=\"x y\" value=\"x y\"\nset name=empty value=\"\"\n",
        ),
        // A criterion holds where one value is matched, and not where there is none.
        (
            "<transform set value=b -> drop>",
            VALUES,
            "set name=none\nset name=one value=a\nset name=empty value=\"\"\n",
        ),
        (
            "<transform set value=^$ -> drop>",
            VALUES,
            "set name=none\nset name=one value=a\nset name=two value=a value=b\n",
        ),
        ("<transform set value= -> drop>", VALUES, "set name=none\n"),
        // All criteria have to hold, and one of the kinds.
        (
            "<transform dir file path=share owner=root -> set owner daemon>\n<transform link -> drop>",
            HELLO,
            "dir group=bin mode=0755 owner=root path=usr\n\
dir group=bin mode=0755 owner=daemon path=usr/share\n\
file a9993e364706816aba3e25717850c26c9cd0d89d group=bin mode=0644 owner=daemon path=usr/share/hello\n",
        ),
        // Groups by number and by name, a dollar sign, and an empty match.
        (
            "<transform dir -> edit path ^([a-z]+)/(?<last>.*) ${last}/$1>\n<transform file -> set note $$1>",
            HELLO,
            "dir group=bin mode=0755 owner=root path=usr\n\
dir group=bin mode=0755 owner=root path=share/usr\n\
file a9993e364706816aba3e25717850c26c9cd0d89d group=bin mode=0644 note=$$1 owner=root path=usr/share/hello\n",
        ),
        (
            "<transform set name=^one$ -> edit value z* ->",
            VALUES,
            "set name=none\nset name=one value=-a-\nset name=two value=a value=b\nset name=empty value=\"\"\n",
        ),
        // Two rules meet on one attribute; the second sees what the first left.
        (
            "<transform set -> add value c>\n<transform set value=c -> edit value c d>\n<transform set value=c -> drop>",
            VALUES,
            "set name=none value=d\nset name=one value=a value=d\nset name=two value=a value=b value=d\nset name=empty value=\"\" value=d\n",
        ),
        (
            "<transform set name=^one$ -> delete value a>\n<transform set name=^one$ -> default value z>",
            VALUES,
            "set name=none\nset name=one value=z\nset name=two value=a value=b\nset name=empty value=\"\"\n",
        ),
        // What is dropped meets no later rule: this one would leave no action.
        (
            "<transform dir -> drop>\n<transform dir -> delete path .>",
            HELLO,
            "file a9993e364706816aba3e25717850c26c9cd0d89d group=bin mode=0644 owner=root path=usr/share/hello\n",
        ),
    ];
    for (rules, manifest, wanted) in rows {
        let made = transform_by(alloc, rules, manifest)?;
        assert_eq!(rt; told(&made.status.outcome), ("Written", 0));
        assert_eq!(rt; made.status.number(), 0);
        assert_eq!(rt; str::from_utf8(&made.written)?, wanted);
    }
    Ok(())
}

#[test]
fn refusals_are_told_by_their_lines(rt: HostRuntime) -> Result<(), Fail> {
    let alloc = rt.alloc();
    let rows = [
        ("<transform file -> frob>", HELLO, ("BadRule", 1)),
        ("<transform file path=( -> drop>", HELLO, ("BadPattern", 1)),
        (
            "<transform dir -> drop>\n<transform file -> edit path [ x>",
            HELLO,
            ("BadPattern", 2),
        ),
        // Any bad rule comes before any bad pattern.
        (
            "<transform file path=( -> drop>\n\n<transform file -> frob>",
            HELLO,
            ("BadRule", 3),
        ),
        ("<transform file path=( -> drop>", "frob", ("BadPattern", 1)),
        (
            "<transform file -> delete mode .>",
            "\nfrob",
            ("BadManifest", 2),
        ),
        // What is left is no action, or a line that is read as another.
        ("<transform file -> delete mode .>", HELLO, ("BadResult", 3)),
        (
            "<transform file -> edit path ^usr /opt>",
            HELLO,
            ("BadResult", 3),
        ),
        ("<transform -> add mode 0700>", HELLO, ("BadResult", 1)),
        (
            "<transform dir -> set mode 8>\n<transform dir path=^usr$ -> drop>",
            HELLO,
            ("BadResult", 2),
        ),
    ];
    for (rules, manifest, wanted) in rows {
        let made = transform_by(alloc, rules, manifest)?;
        assert_eq!(rt; told(&made.status.outcome), wanted);
        assert_eq!(rt; made.status.number(), 1);
        assert!(rt; made.status.told);
        assert!(rt; made.written.is_empty());
    }
    let manifest = transform_by(alloc, "", "frob")?;
    assert!(rt;
        matches!(
            manifest.status.outcome,
            MogrifyOutcome::BadManifest {
                fault: ManifestFault {
                    line: 1,
                    fault: LineFault::Action(_)
                }
            }
        )
    );
    // A pattern that takes more room than one may have is want of memory.
    let large = transform_by(alloc, "<transform file path=a{1000}{1000} -> drop>", HELLO)?;
    assert_eq!(rt; large.status.number(), 99);
    for (depth, wanted) in [(250usize, ("Written", 0)), (251, ("BadPattern", 1))] {
        let made = transform_by(alloc, nested(alloc, depth)?.as_str(), HELLO)?;
        assert_eq!(rt; told(&made.status.outcome), wanted);
    }
    Ok(())
}

#[test]
fn words_and_files_come_before_rules(rt: HostRuntime) -> Result<(), Fail> {
    let alloc = rt.alloc();
    let both = [("rules", "<transform frob -> drop>"), ("manifest", "frob")];
    let usage: [(&[&str], u64, Why); 9] = [
        (&[], 0, Why::Missing),
        (&["frob"], 0, Why::Unknown),
        (&["mogrify", "-e"], 1, Why::Unknown),
        (&["mogrify", "-d"], 2, Why::Missing),
        (&["mogrify", "-d", "f"], 3, Why::Missing),
        (&["mogrify", "-d", "f", "/a", "b"], 3, Why::BadValue),
        (&["mogrify", "-d", "f", "a"], 4, Why::Missing),
        (&["mogrify", "-d", "f", "a", ".."], 4, Why::BadValue),
        (&["mogrify", "-d", "f", "a", "b", "c"], 5, Why::Extra),
    ];
    for (list, wanted, cause) in usage {
        let made = transform(alloc, list, &both, 100, &[])?;
        assert!(rt;
            matches!(made.status.outcome, MogrifyOutcome::Usage { place, why } if place == wanted && why == cause)
        );
        assert_eq!(rt; made.status.number(), 2);
    }
    let none = transform(alloc, &WORDS, &[("manifest", "frob")], 100, &[])?;
    assert!(rt;
        matches!(&none.status.outcome, MogrifyOutcome::FileMissing { path } if path.bytes() == b"rules".as_slice())
    );
    let second = transform(alloc, &WORDS, &[("rules", "frob")], 100, &[])?;
    assert!(rt;
        matches!(&second.status.outcome, MogrifyOutcome::FileMissing { path } if path.bytes() == b"manifest".as_slice())
    );
    let rule = transform(alloc, &WORDS, &both, 100, &[])?;
    assert_eq!(rt; told(&rule.status.outcome), ("BadRule", 1));
    Ok(())
}

#[test]
fn failing_calls_and_full_sinks_are_told(rt: HostRuntime) -> Result<(), Fail> {
    let alloc = rt.alloc();
    let files = [("rules", "#"), ("manifest", HELLO)];
    for call in 1..6u64 {
        let fault = transform(alloc, &WORDS, &files, 1000, &[call])?;
        assert_eq!(rt; told(&fault.status.outcome), ("SourceFault", 0));
        assert!(rt; fault.written.is_empty());
    }
    let short = transform(alloc, &WORDS, &files, 10, &[])?;
    assert_eq!(rt; told(&short.status.outcome), ("Written", 0));
    assert!(rt; !short.status.told);
    assert_eq!(rt; short.status.number(), 1);
    assert!(rt; short.written.as_slice() == b"dir group=".as_slice());
    Ok(())
}
