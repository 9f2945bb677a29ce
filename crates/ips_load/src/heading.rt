//! The file `image`: what an image is by itself.

ghost use Rattle.std.specs.Prelude.{◌≡◌, ◌∷◌, ℕ, List, true, false, IsTrue, IfOk, IfNone, IfSome, map};
ghost use Rattle.std.specs.List.{AllByRecursion, flat_map};
ghost use Rattle.ips_text.specs.Reading.{IfBad};
ghost use Rattle.ips_filter.specs.Settings.{IsSet, AreByName};
ghost use Rattle.ips_records.specs.Lines.{ended, lines_in, IsFirstBadLine};
ghost use Rattle.ips_records.specs.Listed.{Chain};
ghost use Rattle.ips_state.specs.Lawful.{IsHead, AreOrigins};
ghost use Rattle.ips_state.specs.Text.{head_lines};
ghost use Rattle.ips_load.specs.HeadLines.{IsHeadLine, IsFormat, IsOrigin, FollowsLine, head_items, head_read, origin_in, actuator_in, variant_in, facet_in, first_word, IsFirstBadItem, IsBadOrigin};
ghost use Rattle.ips_load.specs.declared.head_lines.HeadLine as told;
ghost use Rattle.ips_load.specs.declared.head_lines.HeadLine.TheVariants as head_line;
ghost use Rattle.ips_load.specs.Fault.{IsHeadFile};

use crate::head_lines::{HeadLine, HeadLines};
use crate::origins::first_bad_origin;
use crate::set_lines::settings_of;
use ips_filter::Settings;
use ips_records::read_front;
use ips_state::Origin;
use ips_text::{Or, Text};
use std::alloc::{AllocError, Global};

/// What an image is by itself, as the file `image` tells it.
#[derive(Drop)]
pub struct Heading {
    /// The format of the records: 1 or 2.
    pub format: u8,
    /// The publisher of its packages.
    pub publisher: Text,
    /// Where packages come from, in order; none in format 1.
    pub origins: Vec<Origin>,
    /// The word before the actuators that a change runs, where one is set.
    pub actuator: Option<Text>,
    /// Its variants and facets.
    pub settings: Settings,
}

/// What the text of the file `image` tells, or the number of the first line that no such file has there.
pub fn read_heading(alloc: Global, bytes: &[u8]) -> Result<Heading, Or<u64>>
    ensures lawful { IfOk result (λ h. IsHead (head_read h)) }
    ensures lines { IfOk result (λ h. lines_in bytes.now ≡ map ended (head_lines (head_read h))) }
    ensures bad { IfBad result (λ number. IsFirstBadLine IsHeadFile (lines_in bytes.now) number) }
{
    match read_front::<HeadLines>(alloc, bytes) {
        Ok((lines, rest)) => from_lines(alloc, &lines, rest.is_empty()),
        Err(_) => Err(Or::OutOfMemory),
    }
}

// The heading of these lines, or the number of the first that no heading has there. They may be all, or not.
fn from_lines(alloc: Global, lines: &[HeadLine], whole: bool) -> Result<Heading, Or<u64>>
    requires fit { AllByRecursion IsHeadLine lines.now }
    requires chain { Chain FollowsLine lines.now }
    ensures lawful { IfOk result (λ h. IsHead (head_read h)) }
    ensures items { IfOk result (λ h. lines.now ≡ head_items (head_read h)) }
    ensures whole { IfOk result (λ h. whole ≡ true) }
    ensures bad { IfBad result (λ number. IsFirstBadItem whole lines.now number) }
{
    let Some((format, behind)) = first_format(lines) else {
        return Err(Or::Bad(1));
    };
    let Some((publisher, tail)) = first_publisher(behind) else {
        return Err(Or::Bad(2));
    };
    from_tail(alloc, format, publisher, tail, whole)
}

// The format that the first line tells, and the lines behind it.
fn first_format(lines: &[HeadLine]) -> Option<(u8, &[HeadLine])>
    ensures some { IfSome result (λ x. lines.now ≡ head_line.Format x.0 ∷ x.1.now) }
    ensures none { IfNone result ((n : ℕ) (rest : List told.HeadLine) → lines.now ≡ head_line.Format n ∷ rest → ⊥) }
{
    match lines.split_first() {
        Some((HeadLine::Format(format), behind)) => Some((*format, behind)),
        _ => None,
    }
}

// The publisher that the first line names, and the lines behind it.
fn first_publisher(lines: &[HeadLine]) -> Option<(&Text, &[HeadLine])>
    ensures some { IfSome result (λ x. lines.now ≡ head_line.Publisher x.0.now ∷ x.1.now) }
    ensures none { IfNone result ((p : List ℕ) (rest : List told.HeadLine) → lines.now ≡ head_line.Publisher p ∷ rest → ⊥) }
{
    match lines.split_first() {
        Some((HeadLine::Publisher(publisher), behind)) => Some((publisher, behind)),
        _ => None,
    }
}

// The heading of a format and a publisher with these lines behind them.
fn from_tail(
    alloc: Global,
    format: u8,
    publisher: &Text,
    tail: &[HeadLine],
    whole: bool,
) -> Result<Heading, Or<u64>>
    requires format { IsFormat format }
    requires publisher { IsHeadLine (head_line.Publisher publisher.now) }
    requires fit { AllByRecursion IsHeadLine tail.now }
    requires chain { Chain FollowsLine (head_line.Publisher publisher.now ∷ tail.now) }
    ensures lawful { IfOk result (λ h. IsHead (head_read h)) }
    ensures items { IfOk result (λ h. head_line.Format format ∷ head_line.Publisher publisher.now ∷ tail.now ≡ head_items (head_read h)) }
    ensures whole { IfOk result (λ h. whole ≡ true) }
    ensures bad { IfBad result (λ number. IsFirstBadItem whole (head_line.Format format ∷ head_line.Publisher publisher.now ∷ tail.now) number) }
{
    let origins = origins_of(alloc, tail)?;
    if let Some(place) = first_bad_origin(alloc, format, &origins)? {
        return Err(Or::Bad(place as u64 + 3));
    }
    if !whole {
        return Err(Or::Bad(tail.len() as u64 + 3));
    }
    Ok(Heading {
        format,
        publisher: publisher.copy(alloc)?,
        origins,
        actuator: actuator_of(alloc, tail)?,
        settings: settings_of(alloc, tail)?,
    })
}

// The origins that the lines name, in order.
fn origins_of(alloc: Global, lines: &[HeadLine]) -> Result<Vec<Origin>, AllocError>
    ensures { IfOk result (λ origins. origins.items ≡ flat_map origin_in lines.now) }
{
    let mut origins = Vec::new(alloc);
    for line in lines {
        if let HeadLine::Origin(origin) = line {
            let name = origin.name.copy(alloc)?;
            origins.push(Origin {
                name,
                sticky: origin.sticky,
            })?;
        }
    }
    Ok(origins)
}

// The actuator word that the lines set first.
fn actuator_of(alloc: Global, lines: &[HeadLine]) -> Result<Option<Text>, AllocError>
    ensures { IfOk result (λ word. word ≡ first_word (flat_map actuator_in lines.now)) }
{
    for line in lines {
        if let HeadLine::Actuator(word) = line {
            return Ok(Some(word.copy(alloc)?));
        }
    }
    Ok(None)
}
