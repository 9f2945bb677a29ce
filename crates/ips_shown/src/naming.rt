//! The one installed package that a pattern names.

ghost use Rattle.std.specs.Prelude.{◌≡◌, ◌↔◌, ◌∷◌, [], ℕ, List, Some, map, IfOk, IfNone, IfSome, IsTrue, Contains, false};
ghost use Rattle.ips_text.specs.Reading.{IfBad};
ghost use Rattle.ips_manifest.specs.declared.package.Package as held;
ghost use Rattle.ips_request.specs.Named.{AreMatched, IsMatch, IsOf, Names, named_among};
ghost use Rattle.ips_request.specs.Stems as lists;
ghost use Rattle.ips_shown.specs.Naming.{IsUnnamed, stems_of};

use ips_fmri::Pattern;
use ips_manifest::Package;
use ips_text::{Or, Text};
use std::alloc::{AllocError, Global};

/// Why a pattern doesn't name one installed package.
#[derive(Drop)]
pub enum NamingFault {
    /// It matches none.
    NoMatch {
        /// The pattern.
        pattern: Text,
    },
    /// It matches several: it has a wildcard, or equals none of their stems.
    Ambiguous {
        /// The pattern.
        pattern: Text,
        /// The stems that it matches, in their order.
        stems: Vec<Text>,
    },
}

/// The one package that the pattern names, in an image of this publisher: the only one whose stem it matches, or without a wildcard
/// the one whose stem it equals. Its version plays no part.
pub fn named<'a>(
    alloc: Global,
    publisher: &str,
    packages: &'a [Package],
    pattern: &Pattern,
) -> Result<&'a Package, Or<NamingFault>>
    ensures stands { IfOk result (λ p. Contains packages.now p.now) }
    ensures named { IfOk result (λ p. Names publisher.now (stems_of packages.now) pattern.now (p.now.stem ∷ [])) }
    ensures unnamed { IfBad result (λ why. (matched : List (List ℕ)) × AreMatched publisher.now pattern.now (stems_of packages.now) matched × IsUnnamed pattern.now matched why) }
{
    let matched = matched(alloc, publisher, packages, pattern)?;
    match chosen(alloc, pattern, matched) {
        Ok(stem) => match held_of(packages, stem.as_str()) {
            Some(held) => Ok(held),
            None => unreachable!(),
        },
        Err(why) => Err(why),
    }
}

// The stems that the pattern matches, in their order.
fn matched(
    alloc: Global,
    publisher: &str,
    packages: &[Package],
    pattern: &Pattern,
) -> Result<Vec<Text>, AllocError>
    ensures { IfOk result (λ v. AreMatched publisher.now pattern.now (stems_of packages.now) v.items) }
{
    let mut matched = Vec::new(alloc);
    for held in packages {
        if is_match(publisher, pattern, held.stem.as_str()) {
            matched.push(held.stem.copy(alloc)?)?;
        }
    }
    Ok(matched)
}

// Whether the pattern matches the stem of a package of the publisher.
fn is_match(publisher: &str, pattern: &Pattern, stem: &str) -> bool
    ensures { IsTrue result ↔ IsMatch publisher.now pattern.now stem.now }
{
    is_of(publisher, &pattern.publisher) && pattern.matches(stem)
}

// Whether a pattern with this publisher, or none, names packages of the publisher.
fn is_of(publisher: &str, other: &Option<Text>) -> bool
    ensures { IsTrue result ↔ IsOf publisher.now other.now }
{
    match other {
        Some(other) => other.as_str() == publisher,
        None => true,
    }
}

// The one stem that the pattern names among those that it matches.
fn chosen(alloc: Global, pattern: &Pattern, matched: Vec<Text>) -> Result<Text, Or<NamingFault>>
    ensures named { IfOk result (λ stem. named_among pattern.now matched.items ≡ Some (stem ∷ [])) }
    ensures unnamed { IfBad result (λ why. IsUnnamed pattern.now matched.items why) }
{
    if matched.is_empty() {
        let pattern = pattern.print(alloc)?;
        return Err(Or::Bad(NamingFault::NoMatch { pattern }));
    }
    if !pattern.is_wild() && has(&matched, pattern.stem.as_str()) {
        return Ok(pattern.stem.copy(alloc)?);
    }
    if matched.len() == 1 {
        return Ok(matched[0].copy(alloc)?);
    }
    let pattern = pattern.print(alloc)?;
    Err(Or::Bad(NamingFault::Ambiguous {
        pattern,
        stems: matched,
    }))
}

// Whether the stem is one of these.
fn has(stems: &[Text], stem: &str) -> bool
    ensures { result ≡ lists.has stem.now stems.now }
{
    for other in stems {
        if stem == other.as_str() {
            return true;
        }
    }
    false
}

// The package of the stem.
fn held_of<'a>(packages: &'a [Package], stem: &str) -> Option<&'a Package>
    ensures stands { IfSome result (λ p. Contains packages.now p.now) }
    ensures stem { IfSome result (λ p. p.now.stem ≡ stem.now) }
    ensures none { IfNone result (lists.has stem.now (stems_of packages.now) ≡ false) }
{
    for held in packages {
        if stem == held.stem.as_str() {
            return Some(held);
        }
    }
    None
}
