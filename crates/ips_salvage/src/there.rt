//! Whether something stands at the path of a row.

ghost use Rattle.std.specs.Prelude.{◌≡◌, false, IsTrue, IfOk, is_some};
ghost use Rattle.ips_outside.specs.Outside.{Reads};
ghost use Rattle.ips_change.specs.content.Failing.{HasFailed};
ghost use Rattle.ips_change.specs.survey.Rows.{HasLooked};
ghost use Rattle.ips_change.specs.survey.Kinds.{is_unlooked};
ghost use Rattle.ips_salvage.specs.Destroying.{is_something};

use ips_change::Stands;
use ips_change::content::look_at;
use ips_change::survey::Row;
use ips_outside::{Failed, Look, Source};
use ips_text::Or;

/// Whether something stands at the row's path. It looks there only where the row doesn't know.
pub fn is_there<S: Source>(source: &mut S, row: &Row<'_>) -> Result<bool, Or<Failed>>
    ensures found { IsTrue (S.outside.tells source.old) → HasLooked (S.outside.state source.old).held row.now
        → IfOk result (λ found. found ≡ is_some ((S.outside.state source.old).held.look row.now.path.now.bytes)) }
    ensures untouched { is_unlooked row.now.stands ≡ false → source.new ≡ source.old }
    ensures reads { Reads S.outside source.old source.new (HasFailed result) }
{
    match row.stands {
        Stands::Unasked => Ok(is_found(look_at(source, row.path)?)),
        Stands::Absent => Ok(false),
        _ => Ok(true),
    }
}

// Whether something was found.
fn is_found(found: Look) -> bool
    ensures { result ≡ is_something found }
{
    !matches!(found, Look::Absent)
}
