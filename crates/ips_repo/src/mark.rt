//! The mark of a repository.

ghost use Rattle.std.specs.Prelude.{◌≡◌, ◌<◌, IsTrue, IsFalse, IfOk, IsErr, OnOk, fold, length, take};
ghost use Rattle.ips_text.specs.Reading.{IfBad};
ghost use Rattle.ips_text.specs.declared.refusal.Or.TheVariants.{Bad};
ghost use Rattle.ips_outside.specs.Outside.{Reads, readable};
ghost use Rattle.ips_repo.specs.Answer.{Answers};
ghost use Rattle.ips_repo.specs.Mark.{marking, IsMarkFault};
ghost use Rattle.ips_repo.specs.Mark as marked;
ghost use Rattle.ips_files.specs.Files.{file_at};
ghost use Rattle.ips_repo.specs.Scan.{unscanned, stepped};
ghost use Rattle.ips_repo.specs.Scan as scanning;
ghost use Rattle.ips_repo.specs.declared.fault.RepoFault.TheVariants as fault;

use crate::fault::RepoFault;
use crate::places::mark_place;
use ips_files::{CHUNK, find_file, read_part};
use ips_outside::{Failed, Source};
use ips_text::{Or, RelPath};
use std::alloc::Global;

/// What marks a repository of format 4 in a line without its blanks.
const MARK: [u8; 9] = *b"version=4";

/// The search for a mark line, byte by byte.
#[derive(Clone, Copy)]
struct Scan {
    /// A mark line has ended.
    found: bool,
    /// How many bytes of the mark the line has so far; `None` where it can't become a mark line.
    matched: Option<usize>,
}

impl Scan {
    fn new() -> Scan
        ensures { scanning.seen result ≡ unscanned }
    {
        Scan {
            found: false,
            matched: Some(0),
        }
    }

    // Behind one more byte.
    fn step(self, byte: u8) -> Scan
        ensures { scanning.seen result ≡ stepped (scanning.seen self) byte }
    {
        match byte {
            b'\n' => Scan {
                found: self.finds(),
                matched: Some(0),
            },
            b' ' | b'\t' => self,
            _ => Scan {
                found: self.found,
                matched: advanced(self.matched, byte),
            },
        }
    }

    // Behind one more piece.
    fn behind(self, piece: &[u8]) -> Scan
        ensures { scanning.seen result ≡ fold stepped (scanning.seen self) piece.now }
    {
        let mut scan = self;
        for byte in piece {
            scan = scan.step(*byte);
        }
        scan
    }

    // Whether there is a mark line, if the bytes end here.
    fn finds(self) -> bool
        ensures { result ≡ scanning.finds (scanning.seen self) }
    {
        self.found || matches!(self.matched, Some(9))
    }
}

// How many bytes of the mark the line has with one more byte, which is no blank.
fn advanced(matched: Option<usize>, byte: u8) -> Option<usize>
    ensures { result ≡ scanning.advanced matched byte }
{
    match matched {
        Some(count) if count < 9 && byte == MARK[count] => Some(count + 1),
        _ => None,
    }
}

/// Whether the folder is a repository of format 4: it is answered with `NoRepository` where it isn't.
pub fn check_mark<S: Source>(alloc: Global, source: &mut S) -> Result<(), Or<RepoFault>>
    ensures marked { IsTrue (S.outside.tells source.old) → Answers (λ done. done) result (marking (S.outside.state source.old).held) }
    ensures faults { IfBad result IsMarkFault }
    ensures reads { Reads S.outside source.old source.new (result ≡ Err (Bad fault.SourceFault)) }
{
    let Some(place) = mark_place(alloc)? else {
        return Err(Or::Bad(RepoFault::NoRepository));
    };
    let mut buffer = vec![in alloc; 0u8; CHUNK]?;
    match has_mark(source, &place, buffer.as_mut_slice()) {
        Ok(true) => Ok(()),
        Ok(false) => Err(Or::Bad(RepoFault::NoRepository)),
        Err(Failed) => Err(Or::Bad(RepoFault::SourceFault)),
    }
}

// Whether a file with a mark line stands at the path.
fn has_mark<S: Source>(source: &mut S, path: &RelPath, buffer: &mut [u8]) -> Result<bool, Failed>
    requires { 0 < length buffer.old }
    ensures found { IsTrue (S.outside.tells source.old) → IfOk result (λ found. found ≡ marked.is_mark_file (file_at (S.outside.state source.old).held path.now.bytes)) }
    ensures reads { Reads S.outside source.old source.new (IsErr result) }
{
    match find_file(source, path)? {
        Some(size) => has_mark_line(source, path, size, buffer),
        None => Ok(false),
    }
}

// Whether one of the lines of a file of this size is a mark line.
fn has_mark_line<S: Source>(
    source: &mut S,
    path: &RelPath,
    size: u64,
    buffer: &mut [u8],
) -> Result<bool, Failed>
    requires { 0 < length buffer.old }
    ensures found { IsTrue (S.outside.tells source.old) → IfOk result (λ found. found ≡ marked.has_mark_line (take size (readable ((S.outside.state source.old).held.look path.now.bytes)))) }
    ensures reads { Reads S.outside source.old source.new (IsErr result) }
{
    let mut scan = Scan::new();
    let mut at = 0u64;
    while at < size {
        let count = read_part(source, path, at, size, buffer)?;
        if count == 0 {
            break;
        }
        scan = scan.behind(&buffer[..count]);
        at += count as u64;
    }
    Ok(scan.finds())
}
