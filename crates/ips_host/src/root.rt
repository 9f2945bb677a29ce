//! A root of the host, and the way to what is below it.

ghost use Rattle.std.specs.Prelude.{◌≡◌, ◌<◌, IfOk, IfSome};
ghost use Rattle.ips_outside.specs.Outside.{IsSmall};
ghost use Rattle.ips_host.specs.Devices.{is_among};
ghost use Rattle.ips_host.specs.Rooted.{root_path, root_devices};

use crate::fault::{Refused, or_no_memory};
use crate::modes::Modes;
use crate::standard::{Standard, take_standard};
use crate::stat::{Seen, device_behind, one_mount, seen_at};
use ips_outside::Look;
use ips_text::{RelPath, Text, covers};
use std::alloc::{Alloc, AllocError, Allocator};
use std::collections::{BTreeMap, BTreeSet};
use std::fs::Files;
use std::{mem, str};

/// As many directories are known at once. When one more comes the others are forgotten, and asked for again where they are needed, so
/// that the memory of a long run doesn't grow with what it makes.
const MOST_KNOWN: usize = 4_096;

/// Likewise so many paths at which nothing stands.
const MOST_ABSENT: usize = 16_384;

/// The longest root of an image: a path of the host has at most 4,095 bytes (`PATH_MAX` of Linux, with its end), and behind a root, in bytes, come `/`, a
/// path of at most 1,023, and `/.`, by which its mount is asked for.
const LONGEST_ROOT: usize = 3_069;

/// A mode that nothing has: that of a directory isn't known.
const NO_MODE: u16 = 0o10000;

/// On which devices the directories may be that lead to what is below a root.
#[derive(Clone, Copy)]
pub enum Devices {
    /// On any.
    Any,
    /// On the root's, by the root's mount, which wasn't asked for yet.
    OfRoot,
    /// On this one, which is the root's, by the root's mount.
    One(u64),
}

/// What stands at a path, as far as calls ask for it.
#[derive(Clone, Copy, PartialEq, Eq)]
pub enum Kind {
    Dir,
    File,
    /// Something else, or nothing.
    Neither,
}

/// A root, which may be a link, and the way to what is below it, where no link is followed. An empty root has none: an
/// empty path of the host names nothing (POSIX, Pathname Resolution). What is known of the files serves while nobody else
/// writes below the root.
#[derive(Drop)]
pub struct Root<F: Drop, A: Allocator + Clone> {
    ways: Ways<A>,
    standard: Option<Standard<F>>,
    /// The modes that were kept.
    pub modes: Modes<A>,
}

/// What is known of the files below a root. An empty path stands for none.
#[derive(Drop)]
struct Ways<A: Allocator + Clone> {
    root: Text,
    // On which devices the directories may be.
    devices: Devices,
    // Paths below the root at which a directory, and no link, was seen or made on these devices, with its mode: at most
    // `MOST_KNOWN`. Nothing but `remove` ends one.
    known: BTreeMap<Vec<u8, A>, u16, A>,
    // The one that was asked for last.
    known_last: Vec<u8, A>,
    // The path below the root at which a directory or a file was seen last, and what was seen. Nothing but `remove` ends one.
    seen_last: Vec<u8, A>,
    seen: Seen,
    // Paths below the root at which nothing stood when they were looked at: at most `MOST_ABSENT`. What makes something there ends one.
    absent: BTreeSet<Vec<u8, A>, A>,
    // The one that was found last. Whatever makes something ends it.
    absent_last: Vec<u8, A>,
    // A directory on the way to one that isn't known.
    below: String<A>,
    // A path of the host.
    place: String<A>,
    // The one that was set aside.
    aside: String<A>,
    // That of the root, with its `.`.
    own: String<A>,
}

impl<F: Drop, A: Allocator + Clone> Root<F, A> {
    /// The root at this path, which leads on these devices alone.
    pub fn new<R: Alloc<A = A>>(rt: &R, root: Text, devices: Devices) -> Root<F, A>
        ensures path { root_path result ≡ root }
        ensures devices { root_devices result ≡ devices }
    {
        Root {
            ways: new_ways(rt, root, devices),
            standard: None,
            modes: Modes::none(rt),
        }
    }

    /// The root's own path.
    pub fn path(&self) -> &str
        ensures { result.now ≡ root_path self.now }
    {
        self.ways.root.as_str()
    }

    /// The path of the host that was found last.
    pub fn place(&self) -> &str {
        self.ways.place.as_str()
    }

    /// The path of the host that was set aside.
    pub fn aside(&self) -> &str {
        self.ways.aside.as_str()
    }

    /// Sets the path of the host aside, so that another can be found.
    pub fn set_aside(&mut self) {
        mem::swap(&mut self.ways.place, &mut self.ways.aside);
    }

    /// Something failed, so that nothing is known any longer.
    pub fn forget(&mut self) {
        self.ways.known.clear();
        self.ways.known_last.clear();
        self.ways.seen_last.clear();
        self.ways.absent.clear();
        self.ways.absent_last.clear();
        self.modes.forget();
    }

    /// Whether it is known that nothing stands at the path.
    pub fn lacks(&self, path: &RelPath) -> bool {
        is_absent(&self.ways, path.bytes())
    }

    /// Something may be made at the path.
    fn forget_absent(&mut self, path: &RelPath) {
        self.ways.absent_last.clear();
        let _ = self.ways.absent.remove(path.bytes());
    }

    /// What is no directory is taken away.
    pub fn forget_file(&mut self, path: &RelPath) {
        if self.ways.seen_last.as_slice() == path.bytes() {
            self.ways.seen_last.clear();
        }
    }

    /// A directory is taken away, and with it what is known below it.
    pub fn forget_at(&mut self, path: &RelPath) {
        let gone = path.bytes();
        self.ways
            .known
            .retain(|dir, _| !covers(gone, dir.as_slice()));
        self.forget_dir(path);
    }

    /// An empty directory is taken away, below which nothing is known.
    pub fn forget_dir(&mut self, path: &RelPath) {
        let gone = path.bytes();
        let _ = self.ways.known.remove(gone);
        end_below(&mut self.ways.known_last, gone);
        end_below(&mut self.ways.seen_last, gone);
        self.modes.forget_at(gone);
    }

    /// A directory gets another mode, and what is made in it may get other rights.
    pub fn forget_mode(&mut self, path: &RelPath) {
        self.ways.seen_last.clear();
        if let Some(mode) = self.ways.known.get_mut(path.bytes()) {
            *mode = NO_MODE;
        }
        self.modes.forget_at(path.bytes());
    }
}

// Ends what is known of a path at or below the one that is gone.
fn end_below<A: Allocator>(kept: &mut Vec<u8, A>, gone: &[u8]) {
    if covers(gone, kept.as_slice()) {
        kept.clear();
    }
}

// Keeps the path, or none where there is no memory for it.
fn keep_path<A: Allocator>(kept: &mut Vec<u8, A>, path: &[u8]) {
    kept.clear();
    if kept.extend_from_slice(path).is_err() {
        kept.clear();
    }
}

fn new_ways<R: Alloc>(rt: &R, root: Text, devices: Devices) -> Ways<R::A>
    ensures root { result.root ≡ root }
    ensures devices { result.devices ≡ devices }
{
    let (look, device) = (Look::Absent, 0);
    Ways {
        root,
        devices,
        known: BTreeMap::new(rt.alloc()),
        known_last: Vec::new(rt.alloc()),
        seen_last: Vec::new(rt.alloc()),
        seen: Seen { look, device },
        absent: BTreeSet::new(rt.alloc()),
        absent_last: Vec::new(rt.alloc()),
        below: String::new(rt.alloc()),
        place: String::new(rt.alloc()),
        aside: String::new(rt.alloc()),
        own: String::new(rt.alloc()),
    }
}

/// Takes the standard descriptors that the program was started without, before it opens a file.
pub fn prepare<R: Files + Alloc>(rt: &R, root: &mut Root<R::File, R::A>) -> Result<(), Refused> {
    take_standard(rt, &mut root.standard)
}

/// Finds the host's path, and answers whether there is one: whether all that is above it, below the root, are
/// directories and no links. Where they are to be on the root's device, the root itself has to be a directory.
pub fn find<R: Files + Alloc>(
    rt: &R,
    root: &mut Root<R::File, R::A>,
    path: &RelPath,
) -> Result<bool, Refused> {
    if root.path().is_empty() {
        return Ok(false);
    }
    prepare(rt, root)?;
    ask_device(rt, &mut root.ways)?;
    find_way(rt, &mut root.ways, text_of(path))
}

/// The same, for a call that can't be made where there is none.
pub fn need<R: Files + Alloc>(
    rt: &R,
    root: &mut Root<R::File, R::A>,
    path: &RelPath,
) -> Result<(), Refused> {
    match find(rt, root, path) {
        Ok(true) => Ok(()),
        Ok(false) => Err(Refused::Unfit),
        Err(e) => Err(e),
    }
}

/// The same, for a call that makes something there.
pub fn need_new<R: Files + Alloc>(
    rt: &R,
    root: &mut Root<R::File, R::A>,
    path: &RelPath,
) -> Result<(), Refused> {
    root.forget_absent(path);
    need(rt, root, path)
}

/// What stands at the path. What is known isn't looked at again: a path at which nothing stood, with all below it, and a directory.
pub fn look<R: Files + Alloc>(
    rt: &R,
    root: &mut Root<R::File, R::A>,
    path: &RelPath,
) -> Result<Look, Refused>
    ensures { IfOk result IsSmall }
{
    if is_absent(&root.ways, path.bytes()) {
        keep_absent(rt, &mut root.ways, path);
        return Ok(Look::Absent);
    }
    if let Some(mode) = known_mode(&root.ways, path.bytes()) {
        return Ok(Look::Dir { mode });
    }
    look_anew(rt, root, path)
}

/// The same, asked of the host. The host's path is then found where something stands there.
pub fn look_anew<R: Files + Alloc>(
    rt: &R,
    root: &mut Root<R::File, R::A>,
    path: &RelPath,
) -> Result<Look, Refused>
    ensures { IfOk result IsSmall }
{
    match find(rt, root, path) {
        Ok(true) => see(rt, &mut root.ways, path),
        Ok(false) => Ok(Look::Absent),
        Err(e) => Err(e),
    }
}

// Whether nothing stood at the path, or above that at which nothing was found last.
fn is_absent<A: Allocator + Clone>(ways: &Ways<A>, path: &[u8]) -> bool {
    let last = ways.absent_last.as_slice();
    !last.is_empty() && covers(last, path) || ways.absent.contains(path)
}

// The mode of the directory that is known.
fn known_mode<A: Allocator + Clone>(ways: &Ways<A>, path: &[u8]) -> Option<u16>
    ensures { IfSome result (λ mode. mode < 4096) }
{
    match ways.known.get(path) {
        Some(mode) if *mode < NO_MODE => Some(*mode),
        _ => None,
    }
}

// What stands at the host's path that was found, and at this one below the root. It is remembered.
fn see<R: Files + Alloc>(rt: &R, ways: &mut Ways<R::A>, path: &RelPath) -> Result<Look, Refused>
    ensures { IfOk result IsSmall }
{
    match seen_at(rt, ways.place.as_str()) {
        Ok(Some(seen)) => {
            remember(ways, path, seen);
            Ok(seen.look)
        }
        Ok(None) => {
            remember_absent(rt, ways, path);
            Ok(Look::Absent)
        }
        Err(e) => Err(e),
    }
}

fn remember<A: Allocator + Clone>(ways: &mut Ways<A>, path: &RelPath, seen: Seen) {
    match seen.look {
        Look::Dir { .. } | Look::File { .. } => {
            keep_path(&mut ways.seen_last, path.bytes());
            ways.seen = seen;
        }
        _ => {}
    }
}

fn remember_absent<R: Alloc>(rt: &R, ways: &mut Ways<R::A>, path: &RelPath) {
    keep_path(&mut ways.absent_last, path.bytes());
    keep_absent(rt, ways, path);
}

// Keeps the path as one at which nothing stands. It is known so too behind what is made above it.
fn keep_absent<R: Alloc>(rt: &R, ways: &mut Ways<R::A>, path: &RelPath) {
    if ways.absent.contains(path.bytes()) {
        return;
    }
    if ways.absent.len() >= MOST_ABSENT {
        ways.absent.clear();
    }
    if let Ok(kept) = Vec::from_slice(rt.alloc(), path.bytes()) {
        let _ = ways.absent.insert(kept);
    }
}

/// What stands at the path, whose host's path is then found. A directory that is known isn't looked at again, nor what was seen
/// last.
pub fn kind_at<R: Files + Alloc>(
    rt: &R,
    root: &mut Root<R::File, R::A>,
    path: &RelPath,
) -> Result<Kind, Refused> {
    match find(rt, root, path) {
        Ok(true) => kind_found(rt, &mut root.ways, path),
        Ok(false) => Ok(Kind::Neither),
        Err(e) => Err(e),
    }
}

fn kind_found<R: Files + Alloc>(
    rt: &R,
    ways: &mut Ways<R::A>,
    path: &RelPath,
) -> Result<Kind, Refused> {
    if ways.seen_last.as_slice() == path.bytes() {
        return Ok(kind_of(ways.seen.look));
    }
    if is_known(ways, path.bytes()) {
        return Ok(Kind::Dir);
    }
    match see(rt, ways, path) {
        Ok(look) => Ok(kind_of(look)),
        Err(e) => Err(e),
    }
}

fn kind_of(look: Look) -> Kind {
    match look {
        Look::Dir { .. } => Kind::Dir,
        Look::File { .. } => Kind::File,
        Look::Absent | Look::Link | Look::Other => Kind::Neither,
    }
}

/// Puts a directory that was made with this mode into those that are known.
pub fn know<R: Files + Alloc>(
    rt: &R,
    root: &mut Root<R::File, R::A>,
    dir: &RelPath,
    mode: u16,
) -> Result<(), Refused> {
    add(rt.alloc(), &mut root.ways.known, dir.bytes(), mode)
}

fn find_way<R: Files + Alloc>(rt: &R, ways: &mut Ways<R::A>, text: &str) -> Result<bool, Refused> {
    match reach_above(rt, ways, text) {
        Ok(true) => yes(join(&mut ways.place, ways.root.as_str(), text)),
        answer => answer,
    }
}

fn reach_above<R: Files + Alloc>(
    rt: &R,
    ways: &mut Ways<R::A>,
    text: &str,
) -> Result<bool, Refused> {
    match text.rsplit_once('/') {
        Some((above, _)) => reach(rt, ways, above),
        None => Ok(true),
    }
}

// Whether the directory's path has directories alone, which is asked of the host where it isn't known.
fn reach<R: Files + Alloc>(rt: &R, ways: &mut Ways<R::A>, dir: &str) -> Result<bool, Refused> {
    if is_known(ways, dir.as_bytes()) {
        return yes(keep_last(&mut ways.known_last, dir.as_bytes()));
    }
    match verify(rt, ways, dir) {
        Ok(true) => yes(keep_last(&mut ways.known_last, dir.as_bytes())),
        answer => answer,
    }
}

// Whether all of the directory's path are directories and no links; those that are, are known then.
fn verify<R: Files + Alloc>(rt: &R, ways: &mut Ways<R::A>, dir: &str) -> Result<bool, Refused> {
    ways.below.clear();
    for letter in dir.chars() {
        match go_on(rt, ways, letter) {
            Ok(true) => {}
            answer => return answer,
        }
    }
    verify_below(rt, ways)
}

// Whether what is before the letter is a directory, where the letter ends its path.
fn go_on<R: Files + Alloc>(rt: &R, ways: &mut Ways<R::A>, letter: char) -> Result<bool, Refused> {
    let is_way = match letter {
        '/' => verify_below(rt, ways),
        _ => Ok(true),
    };
    match is_way {
        Ok(true) => yes(ways.below.push(letter)),
        answer => answer,
    }
}

fn verify_below<R: Files + Alloc>(rt: &R, ways: &mut Ways<R::A>) -> Result<bool, Refused> {
    if is_known(ways, ways.below.as_bytes()) {
        Ok(true)
    } else {
        look_below(rt, ways)
    }
}

fn look_below<R: Files + Alloc>(rt: &R, ways: &mut Ways<R::A>) -> Result<bool, Refused> {
    let Ok(()) = join(&mut ways.place, ways.root.as_str(), ways.below.as_str()) else {
        return Err(Refused::Memory);
    };
    match seen_below(rt, ways) {
        Ok(Some(seen)) => match seen.look {
            Look::Dir { mode } => enter(rt, ways, seen.device, mode),
            _ => Ok(false),
        },
        Ok(None) => Ok(false),
        Err(e) => Err(e),
    }
}

// What was seen last isn't looked at again.
fn seen_below<R: Files + Alloc>(rt: &R, ways: &mut Ways<R::A>) -> Result<Option<Seen>, Refused> {
    if ways.seen_last.as_slice() == ways.below.as_bytes() {
        return Ok(Some(ways.seen));
    }
    seen_at(rt, ways.place.as_str())
}

// A directory on this device leads on where it may be there, and is known then.
fn enter<R: Files + Alloc>(
    rt: &R,
    ways: &mut Ways<R::A>,
    device: u64,
    mode: u16,
) -> Result<bool, Refused> {
    if !may_be_on(ways.devices, device) {
        return Err(Refused::System(libc::EXDEV));
    }
    ask_mount(rt, ways)?;
    yes(add(rt.alloc(), &mut ways.known, ways.below.as_bytes(), mode))
}

// Asks once for the root's device, where the directories are to be there. Below a root that is too long some path of an image couldn't be named, and a change
// that has begun would come to no end.
fn ask_device<R: Files + Alloc>(rt: &R, ways: &mut Ways<R::A>) -> Result<(), Refused> {
    if let Devices::OfRoot = ways.devices {
        if ways.root.as_str().len() > LONGEST_ROOT {
            return Err(Refused::System(libc::ENAMETOOLONG));
        }
        ways.devices = Devices::One(device_behind(rt, ways.root.as_str())?);
    }
    Ok(())
}

// Asks whether the directory at the place is there by the root's mount, where it has to be.
fn ask_mount<R: Files + Alloc>(rt: &R, ways: &mut Ways<R::A>) -> Result<(), Refused> {
    if let Devices::Any = ways.devices {
        return Ok(());
    }
    let joined = join(&mut ways.own, ways.root.as_str(), ".");
    if joined.is_err() || ways.place.push_str("/.").is_err() {
        return Err(Refused::Memory);
    }
    one_mount(rt, ways.own.as_str(), ways.place.as_str())
}

// Whether a directory on this device may be one of those.
fn may_be_on(devices: Devices, device: u64) -> bool
    ensures { result ≡ is_among devices device }
{
    match devices {
        Devices::Any => true,
        Devices::OfRoot => false,
        Devices::One(only) => device == only,
    }
}

// Yes, unless memory was refused.
fn yes<E: Drop>(done: Result<(), E>) -> Result<bool, Refused> {
    match done {
        Ok(()) => Ok(true),
        Err(_) => Err(Refused::Memory),
    }
}

fn join<A: Allocator>(place: &mut String<A>, root: &str, text: &str) -> Result<(), AllocError> {
    place.clear();
    place.push_str(root)?;
    if !root.ends_with('/') {
        place.push('/')?;
    }
    place.push_str(text)
}

fn is_known<A: Allocator + Clone>(ways: &Ways<A>, dir: &[u8]) -> bool {
    ways.known_last.as_slice() == dir || ways.known.contains_key(dir)
}

fn add<A: Allocator + Clone>(
    alloc: A,
    known: &mut BTreeMap<Vec<u8, A>, u16, A>,
    dir: &[u8],
    mode: u16,
) -> Result<(), Refused> {
    if known.len() >= MOST_KNOWN {
        known.clear();
    }
    let Ok(kept) = or_no_memory(Vec::from_slice(alloc, dir)) else {
        return Err(Refused::Memory);
    };
    match or_no_memory(known.insert(kept, mode)) {
        Ok(_) => Ok(()),
        Err(e) => Err(e),
    }
}

// Keeps the directory as the one that was asked for last.
fn keep_last<A: Allocator>(last: &mut Vec<u8, A>, dir: &[u8]) -> Result<(), AllocError> {
    if last.as_slice() == dir {
        return Ok(());
    }
    last.clear();
    last.extend_from_slice(dir)
}

/// A path is text.
pub fn text_of(path: &RelPath) -> &str {
    match str::from_utf8(path.bytes()) {
        Ok(text) => text,
        Err(_) => unreachable!(),
    }
}
