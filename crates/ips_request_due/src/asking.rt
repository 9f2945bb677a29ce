//! What a request makes due.

ghost use Rattle.std.specs.Prelude.{◌≡◌, ◌==◌, IfOk, OnOk, map};
ghost use Rattle.ips_text.specs.Reading.{IfBad};
ghost use Rattle.ips_books.specs.Seen.{accounts as books_seen};
ghost use Rattle.ips_state.specs.State.{recorded};
ghost use Rattle.ips_state.specs.Lawful.{IsLawful};
ghost use Rattle.ips_due.specs.Due.{HasProperDue, IsDue, MeansSame};
ghost use Rattle.ips_due.specs.Delivered as due;
ghost use Rattle.ips_due.specs.Delivered.{CanBeNamed, Delivered, delivered_records};
ghost use Rattle.ips_due.specs.State.{renewed_by};
ghost use Rattle.ips_due.specs.outstanding.Parts.{due_file, due_record};
ghost use Rattle.ips_delivered.specs.delivered.Delivering.{HasUnknownOwner};
ghost use Rattle.ips_delivered.specs.withdrawn.Withdrawn.{IsDeliveredBy};
ghost use Rattle.ips_request_due.specs.RequestDue.{AreAccountFiles, IsRequestDue, LeavesAlone};

use crate::kept::KeptDue;
use crate::state_due::places_mean_the_records;
use ips_books::Books;
use ips_delivered::delivered::{UnknownOwner, delivered, names_are_one};
use ips_delivered::withdrawn::withdrawn;
use ips_due::outstanding::{AccountFile, DueRecord};
use ips_due::{
    due_is_told_by_paths, requests_hang_together, requests_have_proper_due, requests_leave_salvage,
};
use ips_entries::places;
use ips_load::path_of;
use ips_state::State;
use ips_text::{Or, RelPath};
use std::alloc::{AllocError, Global};

/// What is due behind a request from the old state to the new one, with these account files, and with the texts that account files will have: the records
/// of the new state and of what its packages deliver; what was recorded and isn't any more goes. It hangs together, has proper parts, and leaves what is salvaged alone.
///
/// Bad names the least path of an admitted directory or file of the new packages whose owner or group is unknown, the owner first.
pub fn request_due<'a>(
    alloc: Global,
    accounts: &'a [AccountFile],
    books: &Books,
    old: &State,
    new: &'a State,
) -> Result<KeptDue<'a>, Or<UnknownOwner>>
    requires accounts { AreAccountFiles (map due_file accounts.now) }
    requires old { IsLawful (recorded old.now) }
    requires new { IsLawful (recorded new.now) }
    ensures due { IfOk result (IsRequestDue (map due_file accounts.now) (books_seen books.now) old.now new.now) }
    ensures together { IfOk result IsDue }
    ensures proper { IfOk result HasProperDue }
    ensures apart { IfOk result LeavesAlone }
    ensures unknown { IfBad result (λ fault. HasUnknownOwner (books_seen books.now) new.now.settings new.now.installed.items fault.path.bytes fault.name) }
{
    due_is_told_by_paths();
    requests_hang_together();
    requests_have_proper_due();
    requests_leave_salvage();
    names_are_one();
    let others = delivered(alloc, &new.installed, &new.settings, books)?;
    Ok(with_records(alloc, accounts, old, new, others)?)
}

// What is due, with these records of what the new packages deliver.
fn with_records<'a>(
    alloc: Global,
    accounts: &'a [AccountFile],
    old: &State,
    new: &'a State,
    others: Vec<DueRecord>,
) -> Result<KeptDue<'a>, AllocError>
    requires old { IsLawful (recorded old.now) }
    requires new { IsLawful (recorded new.now) }
    ensures means { IfOk result (λ made. (was is : Delivered) → IsDeliveredBy old.now was → IsDeliveredBy new.now is → map due_record others.items ≡ delivered_records is → MeansSame made (due.request_due (map due_file accounts.now) (recorded old.now) (recorded new.now) was is)) }
    ensures old { OnOk result ((was : Delivered) × IsDeliveredBy old.now was × CanBeNamed was) }
{
    places_mean_the_records();
    let places = places(alloc, new)?;
    let renewed = renewed(alloc, old, new)?;
    let gone = withdrawn(alloc, old, new)?;
    Ok(KeptDue {
        accounts,
        state: new,
        places,
        others,
        renewed,
        folders: Vec::new(alloc),
        gone,
    })
}

// The folders that a change of the state makes anew.
fn renewed(alloc: Global, old: &State, new: &State) -> Result<Vec<RelPath>, AllocError>
    ensures { IfOk result (λ paths. map (λ p. p.bytes) paths.items ≡ renewed_by (old.now.format == 1) (new.now.format == 1)) }
{
    let mut paths = Vec::new(alloc);
    if old.format == 1 && new.format != 1 {
        paths.push(path_of(alloc, b"var/pkg/packages")?)?;
    }
    Ok(paths)
}
