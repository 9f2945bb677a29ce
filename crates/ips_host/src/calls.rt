//! The calls on what is below a root of the host.

ghost use Rattle.std.specs.Prelude.{◌≡◌, ◌↔◌, Ok, IfOk, IsOk};
ghost use Rattle.ips_commands.specs.Ended.{IsEnd};
ghost use Rattle.ips_host.specs.Modes.{HasMode};

use crate::fault::{Refused, or_no_memory, or_refused};
use crate::listing::list_names;
use crate::modes::Way;
use crate::opened::Opened;
use crate::programs::sync_file_system;
use crate::root::{Kind, Root, find, kind_at, know, look_anew, need, need_new, prepare};
use crate::standing::{Node, confirmed, found_with, give_mode, give_open_mode, node_at, open_with};
use crate::stat::tells_absence;
use ips_folder::Listing;
use ips_outside::Look;
use ips_text::RelPath;
use std::alloc::{Alloc, Global};
use std::fs;
use std::fs::{DirBuilder, Files, Metadata, OpenOptions};
use std::os::unix::fs::{DirBuilderExt, OpenOptionsExt};
use std::process::ExitStatus;
use std::rt::Processes;

// The greatest length of a path of the host, PATH_MAX of Linux.
const TARGET_ROOM: usize = 4096;

/// Makes a directory of just this mode, whatever the process's umask, and answers what was found with it: the directory, or one that
/// was made so in the same place before.
pub fn make_dir<R: Files + Alloc>(
    rt: &R,
    root: &mut Root<R::File, R::A>,
    path: &RelPath,
    mode: u16,
) -> Result<Metadata, Refused>
    ensures { IfOk result (λ found. HasMode found mode) }
{
    match make_dir_below(rt, root, path, mode) {
        Ok(()) => made_dir(rt, root, path, mode),
        Err(e) => Err(e),
    }
}

// The directory that was just made is known, once it is confirmed.
fn made_dir<R: Files + Alloc>(
    rt: &R,
    root: &mut Root<R::File, R::A>,
    path: &RelPath,
    mode: u16,
) -> Result<Metadata, Refused>
    ensures { IfOk result (λ found. HasMode found mode) }
{
    match dir_confirmed(rt, root, path, mode) {
        Ok(found) => match know(rt, root, path, mode) {
            Ok(()) => Ok(found),
            Err(e) => Err(e),
        },
        Err(e) => Err(e),
    }
}

fn make_dir_below<R: Files + Alloc>(
    rt: &R,
    root: &mut Root<R::File, R::A>,
    path: &RelPath,
    mode: u16,
) -> Result<(), Refused> {
    need_new(rt, root, path)?;
    or_refused(
        DirBuilder::new()
            .mode(u32::from(mode))
            .create(rt, root.place()),
    )
}

// The directory that was just made at the place that was found is looked at, and given the mode where it hasn't it.
fn dir_confirmed<R: Files + Alloc>(
    rt: &R,
    root: &mut Root<R::File, R::A>,
    path: &RelPath,
    mode: u16,
) -> Result<Metadata, Refused>
    ensures { IfOk result (λ found. HasMode found mode) }
{
    if let Some(found) = root.modes.example(Way::MadeDir, path.bytes(), mode) {
        return confirmed(or_no_memory(found.clone()), mode);
    }
    match found_with(rt, root.place(), mode) {
        Ok(found) => {
            root.modes.keep(Way::MadeDir, path.bytes(), &found);
            Ok(found)
        }
        Err(Refused::Mode) => dir_given(rt, root.place(), mode),
        Err(e) => Err(e),
    }
}

fn dir_given<R: Files>(rt: &R, place: &str, mode: u16) -> Result<Metadata, Refused>
    ensures { IfOk result (λ found. HasMode found mode) }
{
    match give_mode(rt, place, mode) {
        Ok(()) => found_with(rt, place, mode),
        Err(e) => Err(e),
    }
}

/// Makes an empty file of mode 0600, whatever the process's umask, leaves it open for `append`, and answers what was found with that
/// mode: the file, or one that was made in the same place before.
pub fn make_file<R: Files + Alloc>(
    rt: &R,
    root: &mut Root<R::File, R::A>,
    appending: &mut Opened<R::File, R::A>,
    path: &RelPath,
) -> Result<Metadata, Refused>
    ensures { IfOk result (λ found. HasMode found 384) }
{
    match make_file_below(rt, root, path) {
        Ok(file) => match file_confirmed::<R>(root, &file, path) {
            Ok(found) => match appending.keep(path, file) {
                Ok(()) => Ok(found),
                Err(e) => Err(e),
            },
            Err(e) => Err(e),
        },
        Err(e) => Err(e),
    }
}

fn make_file_below<R: Files + Alloc>(
    rt: &R,
    root: &mut Root<R::File, R::A>,
    path: &RelPath,
) -> Result<R::File, Refused> {
    match need_new(rt, root, path) {
        Ok(()) => {
            let mut how = OpenOptions::new();
            how.append(true).create_new(true).mode(0o600);
            or_refused(how.open(rt, root.place()))
        }
        Err(e) => Err(e),
    }
}

// The file that was just made is looked at, and given its mode where it hasn't it.
fn file_confirmed<R: Files + Alloc>(
    root: &mut Root<R::File, R::A>,
    file: &R::File,
    path: &RelPath,
) -> Result<Metadata, Refused>
    ensures { IfOk result (λ found. HasMode found 384) }
{
    if let Some(found) = root.modes.example(Way::MadeFile, path.bytes(), 0o600) {
        return confirmed(or_no_memory(found.clone()), 0o600);
    }
    match open_with(file, 0o600) {
        Ok(found) => {
            root.modes.keep(Way::MadeFile, path.bytes(), &found);
            Ok(found)
        }
        Err(Refused::Mode) => match give_open_mode(file, 0o600) {
            Ok(()) => open_with(file, 0o600),
            Err(e) => Err(e),
        },
        Err(e) => Err(e),
    }
}

/// Makes a symbolic link to a target, whatever bytes it has.
pub fn make_link<R: Files + Alloc>(
    rt: &R,
    root: &mut Root<R::File, R::A>,
    path: &RelPath,
    target: &[u8],
) -> Result<(), Refused> {
    match need_new(rt, root, path) {
        Ok(()) => make_link_at(target, root.place()),
        Err(e) => Err(e),
    }
}

fn make_link_at(target: &[u8], place: &str) -> Result<(), Refused> {
    match os::symlink(target, place.as_bytes()) {
        0 => Ok(()),
        _ => Err(Refused::System(os::errno())),
    }
}

/// Makes a further name of the file at `to`.
pub fn make_hard<R: Files + Alloc>(
    rt: &R,
    root: &mut Root<R::File, R::A>,
    path: &RelPath,
    to: &RelPath,
) -> Result<(), Refused> {
    need_new(rt, root, path)?;
    root.set_aside();
    match kind_at(rt, root, to) {
        Ok(Kind::File) => or_refused(fs::hard_link(rt, root.place(), root.aside())),
        Ok(_) => Err(Refused::Unfit),
        Err(e) => Err(e),
    }
}

/// Takes away what stands at the path, with all below it. No link is followed. Where nothing is known to stand, no call is made.
pub fn remove<R: Files + Alloc>(
    rt: &R,
    root: &mut Root<R::File, R::A>,
    path: &RelPath,
) -> Result<(), Refused> {
    if root.lacks(path) {
        return Ok(());
    }
    match find(rt, root, path) {
        Ok(true) => remove_found(rt, root, path),
        Ok(false) => Ok(()),
        Err(e) => Err(e),
    }
}

// Linux takes away what is no directory, and tells of a directory. Some file systems tell of it as of a missing right; and a
// file system that may not be written tells of that where nothing stands too. Then a look tells.
fn remove_found<R: Files + Alloc>(
    rt: &R,
    root: &mut Root<R::File, R::A>,
    path: &RelPath,
) -> Result<(), Refused> {
    root.forget_file(path);
    match or_refused(fs::remove_file(rt, root.place())) {
        Ok(()) => Ok(()),
        Err(Refused::System(libc::EISDIR)) => remove_dir(rt, root, path),
        Err(Refused::System(number)) if number == libc::EPERM || number == libc::EROFS => {
            remove_looked_at(rt, root, path, Refused::System(number))
        }
        Err(why) if tells_absence(why) => Ok(()),
        Err(why) => Err(why),
    }
}

// Takes away what a look tells to stand there, where a removal as of a file was refused so.
fn remove_looked_at<R: Files + Alloc>(
    rt: &R,
    root: &mut Root<R::File, R::A>,
    path: &RelPath,
    why: Refused,
) -> Result<(), Refused> {
    match look_anew(rt, root, path) {
        Ok(Look::Absent) => Ok(()),
        Ok(Look::Dir { .. }) => remove_dir(rt, root, path),
        Ok(_) => Err(why),
        Err(e) => Err(e),
    }
}

// Takes away the directory that stands at the place that was found, with all below it. What is known is gone through only where something is below it.
fn remove_dir<R: Files + Alloc>(
    rt: &R,
    root: &mut Root<R::File, R::A>,
    path: &RelPath,
) -> Result<(), Refused> {
    root.forget_dir(path);
    match or_refused(fs::remove_dir(rt, root.place())) {
        Err(Refused::System(libc::ENOTEMPTY | libc::EEXIST)) => {
            root.forget_at(path);
            or_refused(fs::remove_dir_all(rt, root.place()))
        }
        answer => answer,
    }
}

/// The children of a directory.
pub fn list<R: Files + Alloc>(
    rt: &R,
    root: &mut Root<R::File, R::A>,
    alloc: Global,
    dir: &RelPath,
) -> Result<Listing, Refused> {
    match need(rt, root, dir) {
        Ok(()) => list_at(rt, root.place(), alloc, dir),
        Err(e) => Err(e),
    }
}

fn list_at<R: Files>(
    rt: &R,
    place: &str,
    alloc: Global,
    dir: &RelPath,
) -> Result<Listing, Refused> {
    match or_refused(rt.open_dir(place)) {
        Ok(mut names) => {
            let answer = list_names(alloc, &mut names, dir);
            drop(names);
            answer
        }
        Err(e) => Err(e),
    }
}

/// The target of a symbolic link, whatever bytes it has.
pub fn target<R: Files + Alloc>(
    rt: &R,
    root: &mut Root<R::File, R::A>,
    alloc: Global,
    path: &RelPath,
) -> Result<Vec<u8>, Refused> {
    match need(rt, root, path) {
        Ok(()) => target_at(alloc, root.place()),
        Err(e) => Err(e),
    }
}

fn target_at(alloc: Global, place: &str) -> Result<Vec<u8>, Refused> {
    let mut buffer = [0; TARGET_ROOM];
    match usize::try_from(os::readlink(place.as_bytes(), &mut buffer)) {
        // Linux makes no link whose target fills the buffer.
        Ok(count) if count < TARGET_ROOM => or_no_memory(Vec::from_slice(alloc, &buffer[..count])),
        Ok(_) => Err(Refused::Unfit),
        Err(_) => Err(Refused::System(os::errno())),
    }
}

/// The file at the path.
pub fn node_of<R: Files + Alloc>(
    rt: &R,
    root: &mut Root<R::File, R::A>,
    path: &RelPath,
) -> Result<Node, Refused> {
    match need(rt, root, path) {
        Ok(()) => node_at(rt, root.place()),
        Err(e) => Err(e),
    }
}

/// Gives a directory or file just this mode, and answers what was found with it: that directory or file, or one that was given it in the
/// same place before.
pub fn set_mode<R: Files + Alloc>(
    rt: &R,
    root: &mut Root<R::File, R::A>,
    appending: &Opened<R::File, R::A>,
    path: &RelPath,
    mode: u16,
) -> Result<Metadata, Refused>
    ensures { IfOk result (λ found. HasMode found mode) }
{
    match appending.file_at(path) {
        Some(file) => set_open_mode::<R>(root, file, path, mode),
        None => set_standing_mode(rt, root, path, mode),
    }
}

fn set_open_mode<R: Files + Alloc>(
    root: &mut Root<R::File, R::A>,
    file: &R::File,
    path: &RelPath,
    mode: u16,
) -> Result<Metadata, Refused>
    ensures { IfOk result (λ found. HasMode found mode) }
{
    match give_open_mode(file, mode) {
        Ok(()) => {}
        Err(e) => return Err(e),
    }
    if let Some(found) = root.modes.example(Way::GivenFile, path.bytes(), mode) {
        return confirmed(or_no_memory(found.clone()), mode);
    }
    match open_with(file, mode) {
        Ok(found) => {
            root.modes.keep(Way::GivenFile, path.bytes(), &found);
            Ok(found)
        }
        Err(e) => Err(e),
    }
}

fn set_standing_mode<R: Files + Alloc>(
    rt: &R,
    root: &mut Root<R::File, R::A>,
    path: &RelPath,
    mode: u16,
) -> Result<Metadata, Refused>
    ensures { IfOk result (λ found. HasMode found mode) }
{
    match kind_at(rt, root, path) {
        Ok(Kind::Dir) => {
            root.forget_mode(path);
            set_mode_at(rt, root, Way::GivenDir, path, mode)
        }
        Ok(Kind::File) => set_mode_at(rt, root, Way::GivenFile, path, mode),
        Ok(Kind::Neither) => Err(Refused::Unfit),
        Err(e) => Err(e),
    }
}

// The directory or file that stands at the place that was found.
fn set_mode_at<R: Files + Alloc>(
    rt: &R,
    root: &mut Root<R::File, R::A>,
    way: Way,
    path: &RelPath,
    mode: u16,
) -> Result<Metadata, Refused>
    ensures { IfOk result (λ found. HasMode found mode) }
{
    match give_mode(rt, root.place(), mode) {
        Ok(()) => {}
        Err(e) => return Err(e),
    }
    if let Some(found) = root.modes.example(way, path.bytes(), mode) {
        return confirmed(or_no_memory(found.clone()), mode);
    }
    match found_with(rt, root.place(), mode) {
        Ok(found) => {
            root.modes.keep(way, path.bytes(), &found);
            Ok(found)
        }
        Err(e) => Err(e),
    }
}

/// A call of the host, by the name that a fault of it is told with, and what it answered: the status of the program that was run.
pub struct Answered {
    pub call: &'static str,
    pub answer: Result<ExitStatus, Refused>,
}

/// Makes safe from a crash what was written to the file system on which the root stands, by the host's program
/// `sync -f`, which calls syncfs(2) and ends with another status than 0 where the system tells of an error. A bare
/// `sync` tells of none.
pub fn sync<R: Files + Alloc + Processes>(rt: &R, root: &mut Root<R::File, R::A>) -> Answered
    ensures { IfOk result.answer (λ status. IsEnd status 0) }
{
    let answer = match prepare(rt, root) {
        Ok(()) => sync_file_system(rt, rt.alloc(), root.path()),
        Err(e) => Err(e),
    };
    explained(rt, root.path(), answer)
}

// The program of a sync says that it failed, and not why. A look at the folder may tell, as where it is missing.
fn explained<R: Files>(rt: &R, folder: &str, answer: Result<ExitStatus, Refused>) -> Answered
    ensures exact { IsOk result.answer ↔ IsOk answer }
    ensures same { IfOk result.answer (λ status. answer ≡ Ok status) }
{
    match answer {
        Err(Refused::Status) => match folder_behind(rt, folder) {
            Ok(()) => Answered {
                call: "sync",
                answer,
            },
            Err(why) => Answered {
                call: "stat",
                answer: Err(why),
            },
        },
        _ => Answered {
            call: "sync",
            answer,
        },
    }
}

// No fault where the path leads to a directory, by links too.
fn folder_behind<R: Files>(rt: &R, path: &str) -> Result<(), Refused> {
    match or_refused(fs::metadata(rt, path)) {
        Ok(metadata) if metadata.is_dir() => Ok(()),
        Ok(_) => Err(Refused::System(libc::ENOTDIR)),
        Err(e) => Err(e),
    }
}
