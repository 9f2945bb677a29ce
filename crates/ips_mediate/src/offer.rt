//! What a link of a mediator offers.

ghost use Rattle.std.specs.Prelude.{◌≡◌, ◌↔◌, IsTrue, IfSome, option_map, codes};
ghost use Rattle.std.specs.Ordering.{nat_cmp};
ghost use Rattle.std.specs.Option.{ForSome, option_cmp};
ghost use Rattle.std.specs.Cmp.Lexicographic.{slice_cmp};
ghost use Rattle.ips_fmri.specs.Order.{version_cmp};
ghost use Rattle.ips_action.specs.Action.{IsAction};
ghost use Rattle.ips_action.specs.Check.{IsNumerals};
ghost use Rattle.ips_mediate.specs.Mediation as spec;
ghost use Rattle.ips_mediate.specs.Mediation.{mediation_of, implementation_of, rank_of, version_named, version_of};

use crate::numbers::numerals_order;
use ips_action::{Action, ActionKind};
use std::cmp::Ordering;

/// Who chooses a mediation (pkg(7), `mediator-priority`).
#[derive(Clone, Copy, Debug, PartialEq, Eq, Drop)]
pub enum Priority {
    /// Nobody in particular.
    Unset,
    /// The vendor of the system.
    Vendor,
    /// The site at which the image stands.
    Site,
}

impl Priority {
    // The priority that the word names.
    fn named(word: &str) -> Priority
        ensures { result ≡ spec.priority_named word.now }
    {
        if word == "site" {
            return Priority::Site;
        }
        if word == "vendor" {
            return Priority::Vendor;
        }
        Priority::Unset
    }

    // How high it ranks.
    fn rank(self) -> u8
        ensures { result ≡ spec.rank self }
    {
        match self {
            Priority::Unset => 0,
            Priority::Vendor => 1,
            Priority::Site => 2,
        }
    }
}

/// Whether two links have one mediation: the same version, or none, and the same implementation, or none. An action that is no
/// link has neither.
pub fn same_mediation(a: &Action, b: &Action) -> bool
    ensures { IsTrue result ↔ (mediation_of a.now ≡ mediation_of b.now) }
{
    if !is_tie(version_order(version(a), version(b))) {
        return false;
    }
    is_tie(text_order(implementation(a), implementation(b)))
}

// Whether neither of two things comes before the other.
fn is_tie(order: Ordering) -> bool
    ensures { IsTrue result ↔ (order ≡ Ordering.Equal) }
{
    order == Ordering::Equal
}

/// How high the priority of a link ranks.
pub fn rank(link: &Action) -> u8
    ensures { result ≡ rank_of link.now }
{
    match link_value(link, "mediator-priority") {
        Some(word) => Priority::named(word).rank(),
        None => 0,
    }
}

/// The version that a link offers, where it offers one: numbers joined by dots.
pub fn version(link: &Action) -> Option<&str>
    ensures value { option_map (λ text. version_named text.now) result ≡ version_of link.now }
    ensures numerals { IfSome result (λ text. IsNumerals text.now) }
{
    link_value(link, "mediator-version")
}

/// The implementation that a link offers, where it offers one.
pub fn implementation(link: &Action) -> Option<&str>
    ensures { option_map (λ text. text.now) result ≡ implementation_of link.now }
{
    link_value(link, "mediator-implementation")
}

/// How two versions stand to one another; none is least.
pub fn version_order(a: Option<&str>, b: Option<&str>) -> Ordering
    requires a { ForSome a (λ text. IsNumerals text.now) }
    requires b { ForSome b (λ text. IsNumerals text.now) }
    ensures { result ≡ option_cmp version_cmp (option_map (λ text. version_named text.now) a.entry) (option_map (λ text. version_named text.now) b.entry) }
{
    match (a, b) {
        (None, None) => Ordering::Equal,
        (None, Some(_)) => Ordering::Less,
        (Some(_), None) => Ordering::Greater,
        (Some(a), Some(b)) => numerals_order(a.as_bytes(), b.as_bytes()),
    }
}

/// How two texts stand to one another by their bytes; none comes first.
pub fn text_order(a: Option<&str>, b: Option<&str>) -> Ordering
    ensures { result ≡ option_cmp (slice_cmp nat_cmp) (option_map (λ text. text.now) a.entry) (option_map (λ text. text.now) b.entry) }
{
    match (a, b) {
        (None, None) => Ordering::Equal,
        (None, Some(_)) => Ordering::Less,
        (Some(_), None) => Ordering::Greater,
        (Some(a), Some(b)) => a.as_bytes().cmp(b.as_bytes()),
    }
}

// The value of an attribute of a link, where it stands.
fn link_value<'a>(link: &'a Action, key: &str) -> Option<&'a str>
    ensures value { option_map (λ text. text.now) result ≡ spec.link_value key.now link.now }
    ensures action { IsAction link.now }
{
    match link.kind {
        ActionKind::Link | ActionKind::Hardlink => link.get(key),
        _ => None,
    }
}
