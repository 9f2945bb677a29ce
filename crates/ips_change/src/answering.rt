//! What the keep table answers.

ghost use Rattle.std.specs.Prelude.{◌≡◌, ℕ, List, Option, Some, None};
ghost use Rattle.std.specs.Option.{option_map};
ghost use Rattle.ips_outside.specs.Image as image;
ghost use Rattle.ips_digest.specs.Name.{spelling};
ghost use Rattle.ips_after.specs.After as after;
ghost use Rattle.ips_after.specs.Request.{Request, WantFile, Wanted};
ghost use Rattle.ips_change.specs.wanted.Named.{is_payload_of};
ghost use Rattle.ips_change.specs.wanted.Wanted.{wanted_of};
ghost use Rattle.ips_change.specs.Stands as spec;
ghost use Rattle.ips_change.specs.Told.{naming};

use crate::content::is_same_name;
use crate::stands::Stands;
use ips_action::Preserve;
use ips_digest::PayloadName;
use ips_meaning::Entry;
use ips_preserve::{Case, Event, Keep, Standing, decide};

/// What the table answers for a file that is wanted.
pub fn answer(
    old: Option<&Entry>,
    payload: &PayloadName,
    preserve: Preserve,
    stands: Stands,
) -> Keep
    ensures { (r : Request) (m : ℕ) (e : Option image.Entry) → stands ≡ spec.seen_of is_payload_of (option_map (λ x. wanted_of x.now) old.entry) (Some (WantFile (spelling payload.now) m preserve)) e
        → result ≡ after.answer_at (naming r) (option_map (λ x. wanted_of x.now) old.entry) (spelling payload.now) preserve e }
{
    let (event, changed) = turn(old, payload);
    decide(Case {
        preserve,
        event,
        standing: standing(stands),
        changed,
    })
}

// What happens to a file that is wanted, and whether another payload was.
fn turn(old: Option<&Entry>, payload: &PayloadName) -> (Event, bool)
    ensures event { result.0 ≡ after.event_of (option_map (λ x. wanted_of x.now) old.entry) }
    ensures changed { result.1 ≡ after.has_new_payload (option_map (λ x. wanted_of x.now) old.entry) (spelling payload.now) }
{
    match old {
        Some(Entry::File { payload: was, .. }) => (Event::Update, !is_same_name(was, payload)),
        _ => (Event::First, false),
    }
}

/// What the table answers for a file that is no longer wanted.
pub fn answer_gone(preserve: Preserve, stands: Stands) -> Keep
    ensures { (r : Request) (was : List ℕ) (m : ℕ) (e : Option image.Entry) → stands ≡ spec.seen_of is_payload_of (Some (WantFile was m preserve)) None e
        → result ≡ after.answer_gone (naming r) was preserve e }
{
    decide(Case {
        preserve,
        event: Event::Removal,
        standing: standing(stands),
        changed: false,
    })
}

// What stands, for the table.
fn standing(stands: Stands) -> Standing
    ensures { result ≡ spec.standing_seen stands }
{
    match stands {
        Stands::Absent => Standing::Absent,
        Stands::File { known: true, .. } => Standing::Same,
        Stands::File { known: false, .. } => Standing::Different,
        _ => Standing::NotFile,
    }
}
