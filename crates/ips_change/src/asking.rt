//! Questions of what was and what is wanted.

ghost use Rattle.std.specs.Prelude.{◌≡◌, false, Some, None};
ghost use Rattle.std.specs.Option.{option_map};
ghost use Rattle.ips_digest.specs.Name.{spelling};
ghost use Rattle.ips_after.specs.After as after;
ghost use Rattle.ips_change.specs.wanted.Wanted.{wanted_of};
ghost use Rattle.ips_change.specs.Stands as spec;

use crate::content::{is_same, is_same_name};
use ips_action::Preserve;
use ips_digest::PayloadName;
use ips_meaning::Entry;

/// Whether the two entries are equal. Of files payload and mode count.
pub fn is_equal(one: &Entry, other: &Entry) -> bool
    ensures { result ≡ after.equal (wanted_of one.now) (wanted_of other.now) }
{
    match (one, other) {
        (Entry::Dir { mode: one }, Entry::Dir { mode: other }) => is_same_mode(*one, *other),
        (
            Entry::File {
                payload: one,
                mode,
                ..
            },
            Entry::File {
                payload: other,
                mode: stated,
                ..
            },
        ) => { is_same_name(one, other) && *mode == *stated }
        (Entry::Link { target: one }, Entry::Link { target: other }) => {
            is_same(one.as_str().as_bytes(), other.as_str().as_bytes())
        }
        (Entry::Hard { to: one }, Entry::Hard { to: other }) => is_same(one.bytes(), other.bytes()),
        _ => false,
    }
}

// Whether both state one mode, or none.
fn is_same_mode(one: Option<u16>, other: Option<u16>) -> bool
    ensures { result ≡ after.same_mode one other }
{
    match (one, other) {
        (None, None) => true,
        (Some(one), Some(other)) => one == other,
        _ => false,
    }
}

/// Whether no rule asks what stands: an equal entry was wanted, or nothing was and is.
pub fn is_unasked(old: Option<&Entry>, new: Option<&Entry>) -> bool
    ensures { result ≡ spec.is_unasked (option_map (λ x. wanted_of x.now) old.entry) (option_map (λ x. wanted_of x.now) new.entry) }
{
    match (old, new) {
        (Some(old), Some(new)) => is_equal(old, new),
        (None, None) => true,
        _ => false,
    }
}

/// The payload that counts as the same, where a rule asks whether a file that stands has it.
pub fn known_payload<'a>(old: Option<&'a Entry>, new: Option<&'a Entry>) -> Option<&'a PayloadName>
    ensures { option_map (λ name. spelling name.now) result ≡ spec.known_payload (option_map (λ x. wanted_of x.now) old.entry) (option_map (λ x. wanted_of x.now) new.entry) }
{
    match old {
        Some(
            Entry::File {
                payload,
                preserve,
                ..
            },
        ) => (tells_edits(*preserve) || weighs_wanted(new)).then_some(payload),
        _ => first_payload(new),
    }
}

/// The payload of a file that is wanted where another was that may not go unsaved.
pub fn fresh_payload<'a>(
    old: Option<&Entry>,
    new: Option<&'a Entry>,
    known: bool,
) -> Option<&'a PayloadName>
    ensures { option_map (λ name. spelling name.now) result ≡ spec.fresh_payload (option_map (λ x. wanted_of x.now) old.entry) (option_map (λ x. wanted_of x.now) new.entry) known }
{
    match old {
        Some(Entry::File { preserve, .. }) if !spent(known, *preserve) => first_payload(new),
        _ => None,
    }
}

// The payload of a file that is wanted.
fn first_payload<'a>(new: Option<&'a Entry>) -> Option<&'a PayloadName>
    ensures { option_map (λ name. spelling name.now) result ≡ spec.first_payload (option_map (λ x. wanted_of x.now) new.entry) }
{
    match new {
        Some(Entry::File { payload, .. }) => Some(payload),
        _ => None,
    }
}

// Whether a file is wanted of which it depends on the bytes that stand there what becomes of it.
fn weighs_wanted(new: Option<&Entry>) -> bool
    ensures { result ≡ spec.weighs_wanted (option_map (λ x. wanted_of x.now) new.entry) }
{
    match new {
        Some(Entry::File { preserve, .. }) => weighs(*preserve),
        _ => false,
    }
}

// Whether it depends on the bytes that stand there what becomes of a file with another payload.
fn weighs(preserve: Preserve) -> bool
    ensures { result ≡ spec.weighs preserve }
{
    matches!(
        preserve,
        Preserve::True | Preserve::RenameOld | Preserve::RenameNew
    )
}

// Whether it depends on its bytes whether a file may go unsaved.
fn tells_edits(preserve: Preserve) -> bool
    ensures { result ≡ spec.tells_edits preserve }
{
    matches!(
        preserve,
        Preserve::True | Preserve::RenameOld | Preserve::RenameNew | Preserve::Legacy
    )
}

/// Whether a file may go unsaved, by its preserve and whether its bytes are the payload that was wanted.
pub fn spent(same: bool, preserve: Preserve) -> bool
    ensures { result ≡ after.spent same preserve }
{
    match preserve {
        Preserve::None => true,
        Preserve::Abandon | Preserve::InstallOnly => false,
        _ => same,
    }
}
