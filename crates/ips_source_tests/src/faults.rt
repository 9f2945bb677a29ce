use crate::script::{path, set_up};
use ips_folder::Folder;
use ips_host::{FailedCall, HostFolder, HostSource};
use ips_outside::{Failed, Source};
use ips_text::Text;
use std::alloc::Global;
use std::fs;
use std::process::Abort;

// The words of the first call that failed.
fn words(rt: &impl Abort, alloc: Global, fault: Option<&FailedCall<Global>>) -> String {
    match fault {
        Some(failed) => format!(in alloc; "{failed}").expect(rt, "memory"),
        None => String::new(alloc),
    }
}

const FILES: &str = "dir faults
dir faults/d
file faults/f x
link faults/l d
link faults/loop loop";

#[test]
fn tells_the_first_call_that_failed(rt: HostRuntime) {
    let alloc = rt.alloc();
    set_up(&rt, "faults", FILES).expect(&rt, "files");
    let root = Text::new(alloc, "faults").expect(&rt, "memory");
    let mut folder = HostFolder::new(rt.clone().expect(&rt, "memory"), root);
    assert!(rt; folder.first_fault().is_none());
    assert!(rt; folder.make_dir(&path(&rt, alloc, "l/\u{1b}"), 0o755) == Err(Failed));
    assert!(rt; folder.make_dir(&path(&rt, alloc, "d"), 0o755) == Err(Failed));
    let told = words(&rt, alloc, folder.first_fault());
    assert!(rt;
        told.as_str() == "mkdir faults/l/?: something else stands there",
        "{told}"
    );

    let root = Text::new(alloc, "faults/").expect(&rt, "memory");
    let mut folder = HostFolder::new(rt.clone().expect(&rt, "memory"), root);
    assert!(rt; folder.make_dir(&path(&rt, alloc, "d"), 0o755) == Err(Failed));
    let told = words(&rt, alloc, folder.first_fault());
    assert!(rt;
        told.as_str() == "mkdir faults/d: File exists (os error 17)",
        "{told}"
    );

    let root = Text::new(alloc, "faults/loop").expect(&rt, "memory");
    let mut source = HostSource::new(rt.clone().expect(&rt, "memory"), root);
    assert!(rt; source.look(&path(&rt, alloc, "f")) == Err(Failed));
    let told = words(&rt, alloc, source.first_fault());
    let wanted = "lstat faults/loop/f: Too many levels of symbolic links (os error 40)";
    assert!(rt; told.as_str() == wanted, "{told}");

    // of two files the one is told at which the look failed
    let root = Text::new(alloc, "faults").expect(&rt, "memory");
    let mut folder = HostFolder::new(rt.clone().expect(&rt, "memory"), root);
    assert!(rt; folder.same(&path(&rt, alloc, "f"), &path(&rt, alloc, "none")) == Err(Failed));
    let told = words(&rt, alloc, folder.first_fault());
    let wanted = "lstat faults/none: No such file or directory (os error 2)";
    assert!(rt; told.as_str() == wanted, "{told}");

    // an image is a directory
    let root = Text::new(alloc, "faults/f").expect(&rt, "memory");
    let mut folder = HostFolder::new(rt.clone().expect(&rt, "memory"), root);
    assert!(rt; folder.look(&path(&rt, alloc, "x")) == Err(Failed));
    let told = words(&rt, alloc, folder.first_fault());
    let wanted = "lstat faults/f/x: Not a directory (os error 20)";
    assert!(rt; told.as_str() == wanted, "{told}");
    fs::remove_dir_all(&rt, "faults")
        .ok()
        .expect(&rt, "no fault");
}
