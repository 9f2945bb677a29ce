//! What becomes of a name beside a path.

ghost use Rattle.std.specs.Prelude.{◌≡◌, ◌++◌, IsTrue, IfOk, List, Option};
ghost use Rattle.std.specs.List.Sorted.{IsStrictlySortedBy};
ghost use Rattle.std.specs.Ordering.{nat_cmp};
ghost use Rattle.std.specs.Cmp.Lexicographic.{slice_cmp};
ghost use Rattle.ips_text.specs.Path.{IsPath};
ghost use Rattle.ips_outside.specs.Outside.{Reads};
ghost use Rattle.ips_after.specs.Planned.{IsProperRequest};
ghost use Rattle.ips_after.specs.Request.{Request};
ghost use Rattle.ips_change.specs.content.Failing.{HasFailed};
ghost use Rattle.ips_change.specs.Told.{naming};
ghost use Rattle.ips_change.specs.survey.Marks.{row_paths};
ghost use Rattle.ips_change.specs.survey.Tables.{IsTable};
ghost use Rattle.ips_change.specs.declared.survey.said.Said.{Said};
ghost use Rattle.ips_aside.specs.sides.Sides.{IsNameOf, ending_of};

use crate::lost_and_found::is_lost;
use crate::sides::side::{Put, SideName};
use ips_change::survey::Row;
use ips_outside::{Failed, Source};
use ips_text::{Or, RelPath};
use std::alloc::{AllocError, Global};

// What becomes of the name of this file beside the path.
pub(crate) fn name_beside<S: Source>(
    alloc: Global,
    source: &mut S,
    rows: &[Row<'_>],
    path: &RelPath,
    put: Put<'_>,
) -> Result<SideName, Or<Failed>>
    requires { IsStrictlySortedBy (slice_cmp nat_cmp) (row_paths rows.now) }
    ensures found { IsTrue (S.outside.tells source.old) → IfOk result (λ name. (r : Request) (said : List (Option Said)) → IsProperRequest r → IsTable r rows.now said → IsNameOf (naming r) (S.outside.state source.old).held (path.now.bytes ++ ending_of put.entry) name) }
    ensures reads { Reads S.outside source.old source.new (HasFailed result) }
{
    let text = joined(alloc, path, put)?;
    match RelPath::parse(alloc, &text) {
        Ok(name) => judge(source, rows, name),
        Err(Or::Bad(_)) => Ok(SideName::TooLong),
        Err(Or::OutOfMemory) => Err(Or::OutOfMemory),
    }
}

// The path with the file's extension.
fn joined(alloc: Global, path: &RelPath, put: Put<'_>) -> Result<Vec<u8>, AllocError>
    ensures joined { IfOk result (λ text. text.items ≡ path.now.bytes ++ ending_of put.entry) }
    ensures path { IfOk result (λ text. IsPath path.now.bytes) }
{
    let mut text = Vec::from_slice(alloc, path.bytes())?;
    text.extend_from_slice(put.ending())?;
    Ok(text)
}

// What becomes of a name that is a path.
fn judge<S: Source>(source: &mut S, rows: &[Row<'_>], name: RelPath) -> Result<SideName, Or<Failed>>
    requires order { IsStrictlySortedBy (slice_cmp nat_cmp) (row_paths rows.now) }
    requires path { IsPath name.bytes }
    ensures found { IsTrue (S.outside.tells source.old) → IfOk result (λ found. (r : Request) (said : List (Option Said)) → IsTable r rows.now said → IsNameOf (naming r) (S.outside.state source.old).held name.bytes found) }
    ensures reads { Reads S.outside source.old source.new (HasFailed result) }
{
    match is_lost(source, rows, &name) {
        Ok(true) => Ok(SideName::Lost),
        Ok(false) => Ok(SideName::Free(name)),
        Err(fault) => Err(fault),
    }
}
