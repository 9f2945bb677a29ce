//! What kind stands at the path of a row.

ghost use Rattle.std.specs.Prelude.{◌≡◌, true, false, IsTrue, IfOk};
ghost use Rattle.ips_outside.specs.Image as image;
ghost use Rattle.ips_outside.specs.Outside.{Reads, look_of};
ghost use Rattle.ips_change.specs.content.Failing.{HasFailed};
ghost use Rattle.ips_change.specs.survey.Rows.{HasLooked};
ghost use Rattle.ips_change.specs.survey.Kinds.{is_dir_looked, is_file_looked, is_unlooked};

use crate::Stands;
use crate::content::look_at;
use crate::survey::row::Row;
use ips_outside::{Failed, Look, Source};
use ips_text::Or;

/// Whether a directory stands at the row's path. It looks there only where the row doesn't know.
pub fn is_dir_at<S: Source>(source: &mut S, row: &Row<'_>) -> Result<bool, Or<Failed>>
    ensures found { IsTrue (S.outside.tells source.old) → HasLooked (S.outside.state source.old).held row.now
        → IfOk result (λ found. found ≡ image.is_dir ((S.outside.state source.old).held.look row.now.path.now.bytes)) }
    ensures untouched { is_unlooked row.now.stands ≡ false → source.new ≡ source.old }
    ensures reads { Reads S.outside source.old source.new (HasFailed result) }
{
    match row.stands {
        Stands::Unasked => Ok(is_dir(look_at(source, row.path)?)),
        Stands::Dir { .. } => Ok(true),
        _ => Ok(false),
    }
}

/// Whether a file stands at the row's path. It looks there only where the row doesn't know.
pub fn is_file_at<S: Source>(source: &mut S, row: &Row<'_>) -> Result<bool, Or<Failed>>
    ensures found { IsTrue (S.outside.tells source.old) → HasLooked (S.outside.state source.old).held row.now
        → IfOk result (λ found. found ≡ image.is_file ((S.outside.state source.old).held.look row.now.path.now.bytes)) }
    ensures untouched { is_unlooked row.now.stands ≡ false → source.new ≡ source.old }
    ensures reads { Reads S.outside source.old source.new (HasFailed result) }
{
    match row.stands {
        Stands::Unasked => Ok(is_file(look_at(source, row.path)?)),
        Stands::File { .. } => Ok(true),
        _ => Ok(false),
    }
}

// Whether a directory was seen.
fn is_dir(found: Look) -> bool
    ensures { result ≡ is_dir_looked found }
{
    matches!(found, Look::Dir { .. })
}

// Whether a file was seen.
fn is_file(found: Look) -> bool
    ensures { result ≡ is_file_looked found }
{
    matches!(found, Look::File { .. })
}
