use crate::script::{call_of, look_shown, path, set_up, words};
use ips_host::HostSource;
use ips_outside::{Failed, Look, Source};
use ips_text::{RelPath, Text};
use std::alloc::Global;
use std::process::Abort;
use std::{fs, str};

/// What a source tells of a path: what stands there, and how many bytes of four, and which, are read from a place on.
pub fn told<S: Source>(
    rt: &impl Abort,
    alloc: Global,
    source: &mut S,
    at: &RelPath,
    place: u64,
) -> String {
    let mut buffer = [0; 4];
    let Ok(look) = source.look(at) else {
        return format!(in alloc; "failed").expect(rt, "memory");
    };
    let look = look_shown(rt, alloc, look);
    let Ok(count) = source.read(at, place, &mut buffer) else {
        return format!(in alloc; "{look}, failed").expect(rt, "memory");
    };
    let bytes = str::from_utf8(buffer.get(..count).unwrap_or(b"?")).unwrap_or("?");
    format!(in alloc; "{look}, {count} `{bytes}`").expect(rt, "memory")
}

// A directory, a file, links to both and a named pipe, below a root that is reached by a link.
const LOOKED_AT: &str = "dir looked_at
dir looked_at/tree
link looked_at/root tree
dir looked_at/tree/d
file looked_at/tree/d/f 0123456789
mode looked_at/tree/d 1751
mode looked_at/tree/d/f 4640
link looked_at/tree/to_d d
link looked_at/tree/d/to_f f
pipe looked_at/tree/pipe";

// A path and a place: what stands there, and how many bytes are read, and which.
const TOLD: &str = "
d 0 -> dir 1751, 0 ``
d/f 0 -> file 4640 10, 4 `0123`
d/f 8 -> file 4640 10, 2 `89`
d/f 10 -> file 4640 10, 0 ``
d/f 18446744073709551615 -> file 4640 10, 0 ``
d/to_f 0 -> link, 0 ``
to_d 0 -> link, 0 ``
to_d/f 0 -> absent, 0 ``
d/f/x 0 -> absent, 0 ``
none/f 0 -> absent, 0 ``
pipe 0 -> other, 0 ``
";

#[test]
fn looks_and_reads_and_follows_no_link(rt: HostRuntime) {
    set_up(&rt, "looked_at", LOOKED_AT).expect(&rt, "files");
    let alloc = rt.alloc();
    let mut source = HostSource::new(
        rt.clone().expect(&rt, "memory"),
        Text::new(alloc, "looked_at/root").expect(&rt, "memory"),
    );
    let mut played = 0u64;
    for line in TOLD.lines() {
        let Some((call, wanted)) = call_of(line) else {
            continue;
        };
        let [at, place, _] = words(call);
        let told = told(
            &rt,
            alloc,
            &mut source,
            &path(&rt, alloc, at),
            place.parse().ok().expect(&rt, "what is spelled"),
        );
        assert!(rt; told.as_str() == wanted, "{line} {told}");
        played = played.saturating_add(1);
    }
    assert_eq!(rt; played, 11);
    fs::remove_dir_all(&rt, "looked_at")
        .ok()
        .expect(&rt, "no fault");
}

#[test]
fn fails_at_a_path_that_the_host_refuses(rt: HostRuntime) {
    let alloc = rt.alloc();
    let path = path(&rt, alloc, "f");
    let mut nowhere = HostSource::new(
        rt.clone().expect(&rt, "memory"),
        Text::new(alloc, "").expect(&rt, "memory"),
    );
    assert!(rt; nowhere.look(&path) == Ok(Look::Absent));

    let mut long = HostSource::new(
        rt.clone().expect(&rt, "memory"),
        Text::from_string("x/".repeat(alloc, 2048).ok().expect(&rt, "no fault")),
    );
    assert!(rt; long.look(&path) == Err(Failed));
    assert!(rt; long.read(&path, 0, &mut [0]) == Err(Failed));
}
