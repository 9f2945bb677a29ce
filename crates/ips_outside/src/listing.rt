//! The children of a directory, found in the table without a look at what stands below them.

ghost use Rattle.std.specs.Prelude.{◌≡◌, ◌≤◌, List, ℕ, Some, IfOk, IsTrue, is_some, length};
ghost use Rattle.ips_text.specs.Ancestry as ancestry;
ghost use Rattle.ips_text.specs.Path.{IsPath};
ghost use Rattle.ips_outside.specs.Table.{kind_at};
ghost use Rattle.ips_outside.specs.Children.{HasChildren, path_bytes};

use crate::subtree::{next_below, spare, write_behind};
use crate::table::Paths;
use ips_text::{Or, RelPath, parent};
use std::alloc::{AllocError, Global};

// The first byte of all: behind a path there is no other before the path with this byte.
const FIRST_BYTE: u8 = 0;

// The byte behind `/`: all that is below a path stands before the path with this byte.
const BEHIND_SLASH: u8 = b'/' + 1;

// The path right below the directory at or below which the other stands.
fn child_above<'a>(dir: &[u8], path: &'a [u8]) -> &'a [u8]
    requires { IsTrue (ancestry.is_below dir.now path.now) }
    ensures above { IsTrue (ancestry.covers result.now path.now) }
    ensures child { ancestry.parent result.now ≡ Some dir.now }
{
    let mut child = path;
    while let Some(above) = parent(child) {
        if above.len() <= dir.len() {
            break;
        }
        child = above;
    }
    child
}

// A copy of bytes that are a path.
fn copied(alloc: Global, path: &[u8]) -> Result<RelPath, AllocError>
    requires { IsPath path.now }
    ensures { IfOk result (λ copy. copy.bytes ≡ path.now) }
{
    match RelPath::parse(alloc, path) {
        Ok(copy) => Ok(copy),
        Err(Or::OutOfMemory) => Err(AllocError),
        Err(Or::Bad(_)) => unreachable!(),
    }
}

/// The paths of the table right below the directory, in the order of bytes. It goes from one to the next, past all that
/// is below them.
pub fn children(alloc: Global, paths: &Paths, dir: &[u8]) -> Result<Vec<RelPath>, AllocError>
    requires paths { (q : List ℕ) → IsTrue (is_some (kind_at paths.now.entries q)) → IsPath q }
    requires fits { length dir.now ≤ 1023 }
    ensures { IfOk result (λ found. HasChildren paths.now.entries dir.now (path_bytes found.items)) }
{
    let mut found = Vec::new(alloc);
    let mut from = spare(alloc)?;
    write_behind(&mut from, dir, b'/');
    while let Some(next) = next_below(paths, dir, &from) {
        let child = child_above(dir, next);
        if child.len() == next.len() {
            found.push(copied(alloc, next)?)?;
            write_behind(&mut from, next, FIRST_BYTE);
        } else {
            write_behind(&mut from, child, BEHIND_SLASH);
        }
    }
    Ok(found)
}
