//! The licenses that a request newly delivers.

ghost use Rattle.std.specs.Prelude.{◌≡◌, ◌<◌, false, [], IfOk, length};
ghost use Rattle.ips_text.specs.Reading.{IfBad};
ghost use Rattle.ips_state.specs.State.{recorded};
ghost use Rattle.ips_state.specs.Lawful.{IsLawful};
ghost use Rattle.ips_plan.specs.image_plan.Licenses.{AreDisplayed, AreNeeded};

use ips_delivered::new_licenses::{NewLicenses, new_licenses};
use ips_state::State;
use ips_text::{Or, Text};
use std::alloc::Global;

/// The licenses to be shown that a request from the old state to the new one newly delivers, each as the stem of its package, a blank and its name, in the order
/// of stems and names. Bad names those that must be accepted, where there are some and they aren't.
pub fn licenses_between(
    alloc: Global,
    old: &State,
    new: &State,
    accept: bool,
) -> Result<Vec<Text>, Or<Vec<Text>>>
    requires old { IsLawful (recorded old.now) }
    requires new { IsLawful (recorded new.now) }
    ensures displayed { IfOk result (λ shown. AreDisplayed old.now new.now accept shown.items) }
    ensures needed { IfBad result (λ asked. AreNeeded old.now new.now accept asked.items) }
{
    match new_licenses(
        alloc,
        &old.installed,
        &old.settings,
        &new.installed,
        &new.settings,
    ) {
        Ok(found) => accepted(found, accept),
        Err(_) => Err(Or::OutOfMemory),
    }
}

// Those to be shown, where all that must be accepted are.
fn accepted(found: NewLicenses, accept: bool) -> Result<Vec<Text>, Or<Vec<Text>>>
    ensures displayed { IfOk result (λ shown. (shown.items ≡ found.display.items) × (accept ≡ false → found.accept.items ≡ [])) }
    ensures needed { IfBad result (λ asked. (asked.items ≡ found.accept.items) × (accept ≡ false) × (0 < length asked.items)) }
{
    let NewLicenses {
        display,
        accept: asked,
    } = found;
    if !accept && !asked.is_empty() {
        return Err(Or::Bad(asked));
    }
    Ok(display)
}
