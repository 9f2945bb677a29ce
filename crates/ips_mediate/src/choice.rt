//! Which link is of the best mediation.

ghost use Rattle.std.specs.Prelude.{◌≡◌, ◌↔◌, IsTrue, IfSome, IfNone, List, Option, Some, option_map, slice_get};
ghost use Rattle.std.specs.List.{All, Any};
ghost use Rattle.std.specs.Option.{ForSome};
ghost use Rattle.ips_fmri.specs.Version.{Parts};
ghost use Rattle.ips_action.specs.Action.{Fields};
ghost use Rattle.ips_action.specs.Check.{IsNumerals};
ghost use Rattle.ips_mediate.specs.declared.set.SetMediator as declared;
ghost use Rattle.ips_mediate.specs.Mediation.{Mediation, mediation_of, numbers_of, version_named};
ghost use Rattle.ips_mediate.specs.Best.{Fits, IsAsSet, IsBest};
ghost use Rattle.ips_mediate.specs.Order.{link_cmp, Leads};

use crate::numbers::are_numbers_of;
use crate::offer::{implementation, rank, text_order, version, version_order};
use crate::set::SetMediator;
use ips_action::Action;
use ips_fmri::Version;
use ips_text::Text;
use std::cmp::Ordering;

/// A link of the best mediation among the links of one mediator, by its place; None exactly where no link fits what is set of
/// the mediator. An action that is no link offers no version, no implementation and no priority.
pub fn choose(links: &[Action], set: Option<&SetMediator>) -> Option<usize>
    ensures best { IfSome result (λ i. (link : Fields) × (slice_get links.now i ≡ Some link) × IsBest links.now (option_map (λ s. s.now) set.entry) (mediation_of link)) }
    ensures none { IfNone result (All (λ link. Fits (option_map (λ s. s.now) set.entry) (mediation_of link) → ⊥) links.now) }
{
    let mut found: Option<(usize, &Action)> = None;
    for (i, link) in links.iter().enumerate() {
        if leads(set, link, found) {
            found = Some((i, link));
        }
    }
    match found {
        Some((i, _)) => Some(i),
        None => None,
    }
}

/// The law of the best mediation: two of the links' that are best are one.
pub fn best_mediation_is_one()
    ensures { (links : List Fields) (set : Option declared.SetMediator) (m n : Mediation) → Any (λ link. mediation_of link ≡ m) links → Any (λ link. mediation_of link ≡ n) links → IsBest links set m → IsBest links set n → m ≡ n }
{}

// Whether a link fits what is set, and stands above the one that was found, if any.
fn leads(set: Option<&SetMediator>, link: &Action, found: Option<(usize, &Action)>) -> bool
    ensures { IsTrue result ↔ Leads (option_map (λ s. s.now) set.entry) link.now found.entry }
{
    if !fits(set, link) {
        return false;
    }
    match found {
        Some((_, other)) => order(link, other) == Ordering::Greater,
        None => true,
    }
}

// How two links stand to one another: by their own priority, then by version, and then the other way round by implementation.
fn order(a: &Action, b: &Action) -> Ordering
    ensures { result ≡ link_cmp a.now b.now }
{
    rank(a)
        .cmp(&rank(b))
        .then(version_order(version(a), version(b)))
        .then(text_order(implementation(b), implementation(a)))
}

// Whether a link fits what is set of its mediator, if anything is.
fn fits(set: Option<&SetMediator>, link: &Action) -> bool
    ensures { IsTrue result ↔ Fits (option_map (λ s. s.now) set.entry) (mediation_of link.now) }
{
    let Some(set) = set else {
        return true;
    };
    if !fits_version(&set.version, version(link)) {
        return false;
    }
    fits_implementation(&set.implementation, implementation(link))
}

fn fits_version(set: &Option<Version>, offered: Option<&str>) -> bool
    requires { ForSome offered (λ text. IsNumerals text.now) }
    ensures { IsTrue result ↔ IsAsSet set.now (option_map (λ text. version_named text.now) offered.entry) }
{
    let Some(version) = set else {
        return true;
    };
    match offered {
        Some(text) => is_named(version, text.as_bytes()),
        None => false,
    }
}

// Whether the text names the version, which then has a release alone.
fn is_named(version: &Version, text: &[u8]) -> bool
    requires { IsNumerals text.now }
    ensures { IsTrue result ↔ (version_named text.now ≡ version.now) }
{
    if !version.build().is_empty() {
        return false;
    }
    if !version.branch().is_empty() {
        return false;
    }
    if version.stamp().is_some() {
        return false;
    }
    are_numbers_of(version.release(), text)
}

fn fits_implementation(set: &Option<Text>, offered: Option<&str>) -> bool
    ensures { IsTrue result ↔ IsAsSet set.now (option_map (λ text. text.now) offered.entry) }
{
    let Some(implementation) = set else {
        return true;
    };
    match offered {
        Some(text) => implementation.as_str() == text,
        None => false,
    }
}
