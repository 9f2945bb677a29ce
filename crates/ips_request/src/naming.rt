//! What patterns name.

ghost use Rattle.std.specs.Prelude.{◌≡◌, ◌++◌, ◌∷◌, [], Some, map, IfOk, IfNone, IfSome, IsTrue, ◌↔◌, List, ℕ};
ghost use Rattle.ips_text.specs.Reading.{IfBad};
ghost use Rattle.ips_request.specs.Named.{AreMatched, AreNamed, IsFirstUnnamed, IsMatch, IsOf, IsUnnamed, Names, named_among};
ghost use Rattle.ips_request.specs.Stems as lists;

use crate::fault::ProblemFault;
use ips_fmri::Pattern;
use ips_text::{Or, Text};
use std::alloc::{AllocError, Global};

/// What each of the patterns names among the known stems, or the fault of the first that names none. Only packages of the
/// publisher are named.
pub fn named_by(
    alloc: Global,
    publisher: &str,
    known: &[Text],
    patterns: &[Pattern],
) -> Result<Vec<Vec<Text>>, Or<ProblemFault>>
    ensures named { IfOk result (λ named. AreNamed publisher.now known.now patterns.now (map (λ v. v.items) named.items)) }
    ensures unnamed { IfBad result (λ why. IsFirstUnnamed publisher.now known.now patterns.now why) }
{
    let mut named = Vec::new(alloc);
    for pattern in patterns {
        let stems = match named_one(alloc, publisher, known, pattern) {
            Ok(stems) => stems,
            Err(why) => return Err(why),
        };
        named.push(stems)?;
    }
    Ok(named)
}

/// What the pattern names among the known stems.
pub fn named_one(
    alloc: Global,
    publisher: &str,
    known: &[Text],
    pattern: &Pattern,
) -> Result<Vec<Text>, Or<ProblemFault>>
    ensures named { IfOk result (λ v. Names publisher.now known.now pattern.now v.items) }
    ensures unnamed { IfBad result (λ why. (matched : List (List ℕ)) × AreMatched publisher.now pattern.now known.now matched × IsUnnamed pattern.now matched why) }
{
    let matched = matched(alloc, publisher, known, pattern)?;
    chosen(alloc, pattern, matched)
}

// The stems that the pattern matches, in their order.
fn matched(
    alloc: Global,
    publisher: &str,
    known: &[Text],
    pattern: &Pattern,
) -> Result<Vec<Text>, AllocError>
    ensures { IfOk result (λ v. AreMatched publisher.now pattern.now known.now v.items) }
{
    let mut matched = Vec::new(alloc);
    for stem in known {
        if is_match(publisher, pattern, stem.as_str()) {
            matched.push(stem.copy(alloc)?)?;
        }
    }
    Ok(matched)
}

// Whether the pattern matches the stem of a package of the publisher.
fn is_match(publisher: &str, pattern: &Pattern, stem: &str) -> bool
    ensures { IsTrue result ↔ IsMatch publisher.now pattern.now stem.now }
{
    is_of(publisher, &pattern.publisher) && pattern.matches(stem)
}

// Whether a pattern with this publisher, or none, names packages of the publisher.
fn is_of(publisher: &str, other: &Option<Text>) -> bool
    ensures { IsTrue result ↔ IsOf publisher.now other.now }
{
    match other {
        Some(other) => other.as_str() == publisher,
        None => true,
    }
}

// What the pattern names among the stems that it matches.
fn chosen(
    alloc: Global,
    pattern: &Pattern,
    matched: Vec<Text>,
) -> Result<Vec<Text>, Or<ProblemFault>>
    ensures named { IfOk result (λ v. named_among pattern.now matched.items ≡ Some v.items) }
    ensures unnamed { IfBad result (λ why. IsUnnamed pattern.now matched.items why) }
{
    if matched.is_empty() {
        let pattern = pattern.print(alloc)?;
        return Err(Or::Bad(ProblemFault::NoMatch { pattern }));
    }
    if pattern.is_wild() {
        return Ok(matched);
    }
    if has(&matched, pattern.stem.as_str()) {
        let stem = pattern.stem.copy(alloc)?;
        let mut named = Vec::new(alloc);
        named.push(stem)?;
        return Ok(named);
    }
    if matched.len() == 1 {
        return Ok(matched);
    }
    let pattern = pattern.print(alloc)?;
    Err(Or::Bad(ProblemFault::Ambiguous {
        pattern,
        stems: matched,
    }))
}

// Whether the stem is one of these.
fn has(stems: &[Text], stem: &str) -> bool
    ensures { result ≡ lists.has stem.now stems.now }
{
    for other in stems {
        if stem == other.as_str() {
            return true;
        }
    }
    false
}
