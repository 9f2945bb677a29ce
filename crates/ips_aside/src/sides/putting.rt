//! Which file is put beside the path of a row.

ghost use Rattle.std.specs.Prelude.{◌≡◌, ℕ, List};
ghost use Rattle.std.specs.Option.{option_map};
ghost use Rattle.ips_outside.specs.Image.{Image};
ghost use Rattle.ips_outside.specs.Outside.{readable};
ghost use Rattle.ips_after.specs.Request.{Request};
ghost use Rattle.ips_after.specs.Salvage.{side_at};
ghost use Rattle.ips_change.specs.wanted.Wanted.{wanted_of};
ghost use Rattle.ips_change.specs.Told.{naming, new_beside};
ghost use Rattle.ips_change.specs.survey.Rows.{HasLooked, IsRowOf};
ghost use Rattle.ips_aside.specs.sides.Sides.{mode_seen, side_put};

use crate::sides::side::Put;
use ips_change::survey::Row;
use ips_change::{Beside, Stands, side};
use ips_meaning::Entry;

// The file that is put beside the row's path, if one is.
pub(crate) fn put_beside<'a>(row: &Row<'a>) -> Option<Put<'a>>
    ensures { (r : Request) (t : Image) → IsRowOf r row.now → HasLooked t row.now
        → option_map (side_put r.bytes (readable (t.look row.now.path.now.bytes))) result ≡ side_at (naming r) t row.now.path.now.bytes }
{
    match side(row.old, row.new, row.stands) {
        Some(Beside::Old) => mode_of(row.stands).map(|mode| Put::Old { mode }),
        Some(Beside::Legacy) => mode_of(row.stands).map(|mode| Put::Legacy { mode }),
        Some(Beside::New) => wanted_file(row.new),
        None => None,
    }
}

// The mode of the file that stands, if one does.
fn mode_of(stands: Stands) -> Option<u16>
    ensures { result ≡ mode_seen stands }
{
    match stands {
        Stands::File { mode, .. } => Some(mode),
        _ => None,
    }
}

// The file that is wanted, if one is.
fn wanted_file<'a>(new: Option<&'a Entry>) -> Option<Put<'a>>
    ensures { (bytes : List ℕ → List ℕ) (standing : List ℕ) → option_map (side_put bytes standing) result ≡ new_beside bytes (option_map (λ x. wanted_of x.now) new.entry) }
{
    match new {
        Some(Entry::File { payload, mode, .. }) => Some(Put::New {
            payload,
            mode: *mode,
        }),
        _ => None,
    }
}
