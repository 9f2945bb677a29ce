//! Side names that can't be used beside their path.

ghost use Rattle.std.specs.Prelude.{◌≡◌, ◌||◌, IsTrue, IfOk, List, Option, is_some};
ghost use Rattle.std.specs.List.Sorted.{IsStrictlySortedBy};
ghost use Rattle.std.specs.Ordering.{nat_cmp};
ghost use Rattle.std.specs.Cmp.Lexicographic.{slice_cmp};
ghost use Rattle.ips_outside.specs.Outside.{Reads};
ghost use Rattle.ips_after.specs.Request.{Request};
ghost use Rattle.ips_after.specs.Salvage as salvage;
ghost use Rattle.ips_change.specs.content.Failing.{HasFailed};
ghost use Rattle.ips_change.specs.Told.{naming};
ghost use Rattle.ips_change.specs.survey.Marks.{row_paths};
ghost use Rattle.ips_change.specs.survey.Tables.{IsTable};
ghost use Rattle.ips_change.specs.declared.survey.said.Said.{Said};
ghost use Rattle.ips_aside.specs.lost_and_found.Sides.{dir_or_other_looked};

use ips_change::content::look_at;
use ips_change::survey::{Row, place};
use ips_outside::{Failed, Look, Source};
use ips_text::{Or, RelPath};

/// Whether a side name can't be used beside its path: it was or is wanted, or something other than a file or a symbolic link stands there. It
/// looks there only where the name neither was nor is wanted.
pub fn is_lost<S: Source>(
    source: &mut S,
    rows: &[Row<'_>],
    name: &RelPath,
) -> Result<bool, Or<Failed>>
    requires { IsStrictlySortedBy (slice_cmp nat_cmp) (row_paths rows.now) }
    ensures found { IsTrue (S.outside.tells source.old) → IfOk result (λ lost. (r : Request) (said : List (Option Said)) → IsTable r rows.now said → lost ≡ salvage.is_lost (naming r) (S.outside.state source.old).held name.now.bytes) }
    ensures reads { Reads S.outside source.old source.new (HasFailed result) }
{
    if is_wanted(rows, name) {
        return Ok(true);
    }
    Ok(is_dir_or_other(look_at(source, name)?))
}

// Whether something was or is wanted at the path.
fn is_wanted(rows: &[Row<'_>], path: &RelPath) -> bool
    requires { IsStrictlySortedBy (slice_cmp nat_cmp) (row_paths rows.now) }
    ensures { (r : Request) (said : List (Option Said)) → IsTable r rows.now said → result ≡ (is_some (r.old.at path.now.bytes) || is_some (r.new.at path.now.bytes)) }
{
    match place(rows, path.bytes()) {
        Some(i) => is_any_wanted(&rows[i]),
        None => false,
    }
}

// Whether something was or is wanted at the row's path.
fn is_any_wanted(row: &Row<'_>) -> bool
    ensures { result ≡ (is_some row.now.old || is_some row.now.new) }
{
    row.old.is_some() || row.new.is_some()
}

// Whether a look found something other than a file or a symbolic link.
fn is_dir_or_other(found: Look) -> bool
    ensures { result ≡ dir_or_other_looked found }
{
    matches!(found, Look::Dir { .. } | Look::Other)
}
