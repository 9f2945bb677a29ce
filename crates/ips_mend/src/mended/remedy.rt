//! What becomes of a path by its own finding.

ghost use Rattle.std.specs.Prelude.{◌≡◌, ℕ, List, Some};
ghost use Rattle.std.specs.Option.{option_map};
ghost use Rattle.ips_after.specs.Repaired as repaired;
ghost use Rattle.ips_change.specs.wanted.Wanted.{wanted_of};
ghost use Rattle.ips_change.specs.Fitting.{Fits};
ghost use Rattle.ips_change.specs.Told.{change_told};
ghost use Rattle.ips_verify.specs.Verified.{damage_told};

use ips_change::Change;
use ips_meaning::{Damage, Entry};

/// What becomes of a path where this is wanted, by what is found there.
pub(crate) fn remedy<'a>(new: Option<&'a Entry>, damage: Option<Damage>) -> Change<'a>
    ensures told { (bytes : List ℕ → List ℕ) → change_told bytes result ≡ repaired.mended_as bytes (option_map (λ x. wanted_of x.now) new.entry) (option_map damage_told damage) }
    ensures fits { Fits (option_map (λ x. wanted_of x.now) new.entry) result }
{
    match (new, damage) {
        (Some(new), Some(Damage::WrongMode)) => given(new),
        (Some(new), Some(_)) => laid(new),
        _ => Change::Kept,
    }
}

// What is wanted is laid.
fn laid(new: &Entry) -> Change<'_>
    ensures told { (bytes : List ℕ → List ℕ) → change_told bytes result ≡ repaired.laying bytes (wanted_of new.now) }
    ensures fits { Fits (Some (wanted_of new.now)) result }
{
    match new {
        Entry::Dir { mode } => Change::Dir {
            mode: mode.unwrap_or(0o755),
        },
        Entry::File { payload, mode, .. } => Change::File {
            payload,
            mode: *mode,
        },
        Entry::Link { target } => Change::Link { target },
        Entry::Hard { to } => Change::Hard { to },
    }
}

// What stands gets the wanted mode.
fn given(new: &Entry) -> Change<'_>
    ensures told { (bytes : List ℕ → List ℕ) → change_told bytes result ≡ repaired.giving (wanted_of new.now) }
    ensures fits { Fits (Some (wanted_of new.now)) result }
{
    match new {
        Entry::Dir { mode: Some(mode) } => Change::Mode { mode: *mode },
        Entry::File { mode, .. } => Change::Mode { mode: *mode },
        _ => Change::Kept,
    }
}
