//! What stands below a path, by the order of bytes. All that is below a path begins with it and a `/`, so it stands
//! together there, though not right behind the path: `a-b` stands between `a` and `a/b`.

ghost use Rattle.std.specs.Prelude.{◌≡◌, ◌≤◌, ◌+◌, ◌++◌, ◌∷◌, [], List, ℕ, cond, None, IfOk, OnOk, IsTrue, IsFalse, MatchOption, is_some, length, vec_capacity};
ghost use Rattle.ips_text.specs.Ancestry as ancestry;
ghost use Rattle.ips_text.specs.Path.{IsPath};
ghost use Rattle.ips_outside.specs.Table.{kind_at};
ghost use Rattle.ips_outside.specs.Order.{comes_after, front_below, IsFirstFrom, IsNoneFrom, IsNextBelow, IsNoneBelow};

use crate::table::{Paths, take};
use ips_text::{RelPath, covers};
use std::alloc::{AllocError, Global};

// The greatest length of a path, and a `/` behind it.
const ROOM: usize = 1024;

/// The path as a key of the table, once the spare bytes have room for any path, by which `take_away` goes.
pub fn key(alloc: Global, path: &RelPath, spare: &mut Vec<u8>) -> Result<Vec<u8>, AllocError>
    ensures key { IfOk result (λ key. key.items ≡ path.now.bytes) }
    ensures path { IfOk result (λ key. IsPath key.items) }
    ensures room { OnOk result (1024 ≤ vec_capacity spare.new) }
    ensures grows { vec_capacity spare.old ≤ vec_capacity spare.new }
{
    spare.clear();
    spare.reserve(ROOM)?;
    Vec::from_slice(alloc, path.bytes())
}

/// Spare bytes with that room.
pub fn spare(alloc: Global) -> Result<Vec<u8>, AllocError>
    ensures { IfOk result (λ spare. 1024 ≤ vec_capacity spare) }
{
    Vec::with_capacity(alloc, ROOM)
}

// The first path from these bytes on.
fn first_from<'a>(paths: &'a Paths, from: &Vec<u8>) -> Option<&'a [u8]>
    ensures { MatchOption result (IsNoneFrom paths.now.entries from.now.items) (λ first. IsFirstFrom paths.now.entries from.now.items first.now) }
{
    match paths.range(from..).next() {
        Some((first, _)) => Some(first),
        None => None,
    }
}

/// The first path from these bytes on, where it is below `path`.
pub fn next_below<'a>(paths: &'a Paths, path: &[u8], from: &Vec<u8>) -> Option<&'a [u8]>
    requires { IsFalse (comes_after (front_below path.now) from.now.items) }
    ensures { MatchOption result (IsNoneBelow paths.now.entries path.now from.now.items) (λ next. IsNextBelow paths.now.entries path.now from.now.items next.now) }
{
    let first = first_from(paths, from)?;
    let below = covers(path, first);
    if below { Some(first) } else { None }
}

// Writes bytes over others, which have room for them.
fn rewrite(spare: &mut Vec<u8>, bytes: &[u8])
    requires { length bytes.now ≤ vec_capacity spare.old }
    ensures written { spare.new.items ≡ bytes.now }
    ensures grows { vec_capacity spare.old ≤ vec_capacity spare.new }
{
    spare.clear();
    match spare.extend_from_slice(bytes) {
        Ok(()) => {}
        Err(_) => unreachable!(),
    }
}

/// Writes a path with one more byte over the spare bytes, which have room for it.
pub fn write_behind(spare: &mut Vec<u8>, path: &[u8], byte: u8)
    requires { length path.now + 1 ≤ vec_capacity spare.old }
    ensures written { spare.new.items ≡ path.now ++ byte ∷ [] }
    ensures grows { vec_capacity spare.old ≤ vec_capacity spare.new }
{
    rewrite(spare, path);
    match spare.push(byte) {
        Ok(()) => {}
        Err(_) => unreachable!(),
    }
}

/// Takes away what stands at a path and below it. The spare bytes have room for that path with a `/`, and for each path
/// of the table, so no memory is taken.
pub fn take_away(paths: &mut Paths, spare: &mut Vec<u8>, path: &[u8])
    requires room { length path.now + 1 ≤ vec_capacity spare.old }
    requires each { (q : List ℕ) → IsTrue (is_some (kind_at paths.old.entries q)) → length q ≤ vec_capacity spare.old }
    ensures taken { (q : List ℕ) → kind_at paths.new.entries q ≡ cond (ancestry.covers path.now q) None (kind_at paths.old.entries q) }
    ensures grows { vec_capacity spare.old ≤ vec_capacity spare.new }
{
    write_behind(spare, path, b'/');
    while let Some(next) = next_below(paths, path, spare) {
        rewrite(spare, next);
        take(paths, spare);
    }
    take(paths, path);
}
