//! Whether the path of an account file is blocked.

ghost use Rattle.std.specs.Prelude.{◌≡◌, not, ◌&&◌, false, IsErr, IsTrue, IfOk, List, Option, is_some};
ghost use Rattle.std.specs.List.Sorted.{IsStrictlySortedBy};
ghost use Rattle.std.specs.Option.{option_map};
ghost use Rattle.std.specs.Ordering.{nat_cmp};
ghost use Rattle.std.specs.Cmp.Lexicographic.{slice_cmp};
ghost use Rattle.ips_outside.specs.Image.{Entry as Standing};
ghost use Rattle.ips_outside.specs.Outside.{Reads, look_of};
ghost use Rattle.ips_after.specs.Request as after;
ghost use Rattle.ips_after.specs.Request.{Request};
ghost use Rattle.ips_change.specs.wanted.Wanted.{wanted_of};
ghost use Rattle.ips_change.specs.declared.survey.said.Said as saying;
ghost use Rattle.ips_change.specs.survey.Marks.{row_paths};
ghost use Rattle.ips_change.specs.survey.Tables.{IsTable};
ghost use Rattle.ips_account_files.specs.ledger.Blocking as spec;

use ips_change::survey::{Row, place};
use ips_meaning::Entry;
use ips_outside::{Failed, Look, Source};
use ips_text::RelPath;

/// Whether something other than a file stands or is wanted at the path. `Failed` where the folder failed.
pub fn is_blocked<S: Source>(
    source: &mut S,
    rows: &[Row<'_>],
    path: &RelPath,
) -> Result<bool, Failed>
    requires order { IsStrictlySortedBy (slice_cmp nat_cmp) (row_paths rows.now) }
    ensures wanted { IfOk result (λ blocked. (r : Request) (said : List (Option saying.Said)) → IsTable r rows.now said → blocked ≡ false → spec.wants_other_than_file (r.new.at path.now.bytes) ≡ false) }
    ensures found { IsTrue (S.outside.tells source.old) → IfOk result (λ blocked. (r : Request) (said : List (Option saying.Said)) → IsTable r rows.now said
        → blocked ≡ spec.is_blocked r (S.outside.state source.old).held path.now.bytes) }
    ensures reads { Reads S.outside source.old source.new (IsErr result) }
{
    let other = wants_other_than_file(wanted_at(rows, path.bytes()));
    let stands = is_in_way(source.look(path)?);
    Ok(other || stands)
}

/// Whether something other than a directory is wanted at the path of the folder of account files.
pub fn is_folder_blocked(rows: &[Row<'_>]) -> bool
    requires order { IsStrictlySortedBy (slice_cmp nat_cmp) (row_paths rows.now) }
    ensures { (r : Request) (said : List (Option saying.Said)) → IsTable r rows.now said → result ≡ spec.is_folder_blocked r }
{
    is_no_folder(wanted_at(rows, b"etc"))
}

// What is wanted at the path.
fn wanted_at<'a>(rows: &[Row<'a>], path: &[u8]) -> Option<&'a Entry>
    requires order { IsStrictlySortedBy (slice_cmp nat_cmp) (row_paths rows.now) }
    ensures { (r : Request) (said : List (Option saying.Said)) → IsTable r rows.now said → option_map (λ x. wanted_of x.now) result ≡ r.new.at path.now }
{
    match place(rows, path) {
        Some(i) => rows[i].new,
        None => None,
    }
}

// Whether something other than a file is wanted.
fn wants_other_than_file(new: Option<&Entry>) -> bool
    ensures { result ≡ spec.wants_other_than_file (option_map (λ x. wanted_of x.now) new.entry) }
{
    matches!(
        new,
        Some(Entry::Dir { .. } | Entry::Link { .. } | Entry::Hard { .. })
    )
}

// Whether something other than a directory is wanted.
fn is_no_folder(new: Option<&Entry>) -> bool
    ensures { result ≡ (is_some (option_map (λ x. wanted_of x.now) new.entry) && not (after.is_dir_wanted (option_map (λ x. wanted_of x.now) new.entry))) }
{
    matches!(
        new,
        Some(Entry::File { .. } | Entry::Link { .. } | Entry::Hard { .. })
    )
}

// Whether something other than a file was seen.
fn is_in_way(found: Look) -> bool
    ensures { (e : Option Standing) → found ≡ look_of e → result ≡ spec.is_in_way e }
{
    matches!(found, Look::Dir { .. } | Look::Link | Look::Other)
}
