//! The origins of an image: publishers, each named once.

ghost use Rattle.std.specs.Prelude.{◌≡◌, ℕ, List, [], IfOk, IfNone, IfSome, map};
ghost use Rattle.std.specs.List.{AllByRecursion};
ghost use Rattle.ips_state.specs.Lawful.{AreOrigins};
ghost use Rattle.ips_load.specs.HeadLines.{IsFormat, IsOrigin, IsBadOrigin};

use ips_state::Origin;
use ips_text::Text;
use std::alloc::{AllocError, Global};
use std::collections::BTreeSet;

/// The place of the first origin that can't stand behind those before it: in format 1 any, and in format 2 one that was named.
pub fn first_bad_origin(
    alloc: Global,
    format: u8,
    origins: &[Origin],
) -> Result<Option<usize>, AllocError>
    requires format { IsFormat format }
    requires each { AllByRecursion IsOrigin origins.now }
    ensures some { IfOk result (λ found. IfSome found (IsBadOrigin format origins.now)) }
    ensures none { IfOk result (λ found. IfNone found (AreOrigins format origins.now)) }
{
    if format == 1 && !origins.is_empty() {
        return Ok(Some(0));
    }
    first_repeated(alloc, format, origins)
}

// The place of the first origin that was named before.
fn first_repeated(
    alloc: Global,
    format: u8,
    origins: &[Origin],
) -> Result<Option<usize>, AllocError>
    requires each { AllByRecursion IsOrigin origins.now }
    requires none { format ≡ 1 → origins.now ≡ [] }
    ensures some { IfOk result (λ found. IfSome found (IsBadOrigin format origins.now)) }
    ensures none { IfOk result (λ found. IfNone found (AreOrigins format origins.now)) }
{
    let mut names: BTreeSet<Text> = BTreeSet::new(alloc);
    for place in 0..origins.len() {
        if !names.insert(origins[place].name.copy(alloc)?)? {
            return Ok(Some(place));
        }
    }
    Ok(None)
}
