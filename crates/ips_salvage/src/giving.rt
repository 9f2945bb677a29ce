//! Whether what stands at the path of a row may go unsaved.

ghost use Rattle.std.specs.Prelude.{◌≡◌, ◌<◌, false, IsTrue, IfOk, length};
ghost use Rattle.std.specs.List.Sorted.{IsStrictlySortedBy};
ghost use Rattle.std.specs.Option.{option_map};
ghost use Rattle.std.specs.Ordering.{nat_cmp};
ghost use Rattle.std.specs.Cmp.Lexicographic.{slice_cmp};
ghost use Rattle.ips_outside.specs.Outside.{Reads};
ghost use Rattle.ips_after.specs.After as after;
ghost use Rattle.ips_after.specs.Request.{Request, takes};
ghost use Rattle.ips_change.specs.wanted.Named.{is_payload_of};
ghost use Rattle.ips_change.specs.wanted.Wanted.{wanted_of};
ghost use Rattle.ips_change.specs.content.Failing.{HasFailed};
ghost use Rattle.ips_change.specs.Told.{naming};
ghost use Rattle.ips_change.specs.survey.Rows.{HasLooked, IsRowOf};
ghost use Rattle.ips_change.specs.survey.Marks.{IsMarkOf, row_paths};
ghost use Rattle.ips_change.specs.survey.Kinds.{is_unlooked};

use ips_change::survey::{Row, is_reached};
use ips_change::{Stands, given_up, stand_at};
use ips_folder::Folder;
use ips_outside::Failed;
use ips_text::Or;
use std::alloc::Global;

/// Whether what stands at the row's path may go unsaved: it is ours and no one may have edited it, or account files and records take it away at or
/// above the path, as these marks say. It looks there only where the row doesn't know.
pub fn given_up_at<F: Folder>(
    alloc: Global,
    folder: &mut F,
    rows: &[Row<'_>],
    away: &[bool],
    row: &Row<'_>,
    buffer: &mut [u8],
) -> Result<bool, Or<Failed>>
    requires order { IsStrictlySortedBy (slice_cmp nat_cmp) (row_paths rows.now) }
    requires away { length away.now ≡ length rows.now }
    requires room { 0 < length buffer.old }
    ensures found { IsTrue (F.outside.tells folder.old) → HasLooked (F.outside.state folder.old).held row.now
        → IfOk result (λ given. (r : Request) → IsRowOf r row.now → IsMarkOf (λ q. takes (r.over.at q)) (row_paths rows.now) away.now
        → given ≡ after.given_up (naming r) (F.outside.state folder.old).held row.now.path.now.bytes) }
    ensures untouched { is_unlooked row.now.stands ≡ false → folder.new ≡ folder.old }
    ensures reads { Reads F.outside folder.old folder.new (HasFailed result) }
{
    if is_reached(rows, away, row.path.bytes()) {
        return Ok(true);
    }
    is_ours(alloc, folder, row, buffer)
}

// Whether what stands at the row's path is ours and no one may have edited it.
fn is_ours<F: Folder>(
    alloc: Global,
    folder: &mut F,
    row: &Row<'_>,
    buffer: &mut [u8],
) -> Result<bool, Or<Failed>>
    requires room { 0 < length buffer.old }
    ensures found { IsTrue (F.outside.tells folder.old) → HasLooked (F.outside.state folder.old).held row.now
        → IfOk result (λ ours. ours ≡ after.given_up_as is_payload_of (option_map (λ x. wanted_of x.now) row.now.old) ((F.outside.state folder.old).held.look row.now.path.now.bytes)) }
    ensures untouched { is_unlooked row.now.stands ≡ false → folder.new ≡ folder.old }
    ensures reads { Reads F.outside folder.old folder.new (HasFailed result) }
{
    if row.old.is_none() {
        return Ok(false);
    }
    if let Stands::Unasked = row.stands {
        let stands = stand_at(alloc, folder, row.path, row.old, None, buffer)?;
        return Ok(given_up(row.old, stands));
    }
    Ok(given_up(row.old, row.stands))
}
