//! What a line gives, gathered for one command.

ghost use Rattle.std.specs.Prelude.{◌≡◌, ◌++◌, OnOk, IfNone, IfOk, IfSome, None, Some};
ghost use Rattle.ips_words.specs.Meaning as meaning;
ghost use Rattle.ips_words.specs.Meaning.{all_of, facet_in, freeze_in, or_empty, pattern_in, variant_in, word_in, word_of};

use ips_fmri::{Fmri, Pattern, Version};
use ips_syntax::{FacetWord, Given, Role, Value, VariantWord, sets};
use ips_text::Text;
use std::alloc::{AllocError, Global};

/// The patterns of a role.
pub fn patterns(alloc: Global, role: Role, given: &[Given]) -> Result<Vec<Pattern>, AllocError>
    ensures { IfOk result (λ list. list.items ≡ all_of pattern_in role given.now) }
{
    let mut list = Vec::new(alloc);
    for g in given {
        if let (true, Value::Pattern(pattern)) = (sets(g.role) == sets(role), &g.value) {
            list.push(pattern.copy(alloc)?)?;
        }
    }
    Ok(list)
}

/// The words of a role.
pub fn texts(alloc: Global, role: Role, given: &[Given]) -> Result<Vec<Text>, AllocError>
    ensures { IfOk result (λ list. list.items ≡ all_of word_in role given.now) }
{
    let mut list = Vec::new(alloc);
    for g in given {
        if let (true, Value::Word(text)) = (sets(g.role) == sets(role), &g.value) {
            list.push(text.copy(alloc)?)?;
        }
    }
    Ok(list)
}

/// The packages with versions of a role.
pub fn freezes(alloc: Global, role: Role, given: &[Given]) -> Result<Vec<Fmri>, AllocError>
    ensures { IfOk result (λ list. list.items ≡ all_of freeze_in role given.now) }
{
    let mut list = Vec::new(alloc);
    for g in given {
        if let (true, Value::Freeze(fmri)) = (sets(g.role) == sets(role), &g.value) {
            list.push(fmri.copy(alloc)?)?;
        }
    }
    Ok(list)
}

/// The variants of a role.
pub fn variants(alloc: Global, role: Role, given: &[Given]) -> Result<Vec<VariantWord>, AllocError>
    ensures { IfOk result (λ list. list.items ≡ all_of variant_in role given.now) }
{
    let mut list = Vec::new(alloc);
    for g in given {
        if let (true, Value::Variant(variant)) = (sets(g.role) == sets(role), &g.value) {
            list.push(copy_variant(alloc, variant)?)?;
        }
    }
    Ok(list)
}

// Another variant of the same name and value.
fn copy_variant(alloc: Global, variant: &VariantWord) -> Result<VariantWord, AllocError>
    ensures { IfOk result (λ v. v ≡ variant.now) }
{
    Ok(VariantWord {
        name: variant.name.copy(alloc)?,
        value: variant.value.copy(alloc)?,
    })
}

/// The facets of a role.
pub fn facets(alloc: Global, role: Role, given: &[Given]) -> Result<Vec<FacetWord>, AllocError>
    ensures { IfOk result (λ list. list.items ≡ all_of facet_in role given.now) }
{
    let mut list = Vec::new(alloc);
    for g in given {
        if let (true, Value::Facet(facet)) = (sets(g.role) == sets(role), &g.value) {
            let name = facet.name.copy(alloc)?;
            list.push(FacetWord { name, on: facet.on })?;
        }
    }
    Ok(list)
}

/// The first value of a role.
pub fn value_of(role: Role, given: &[Given]) -> Option<&Value>
    ensures none { IfNone result (meaning.value_of role given.now ≡ None) }
    ensures some { IfSome result (λ v. meaning.value_of role given.now ≡ Some v.now) }
{
    let mut rest = given;
    while let [g, after @ ..] = rest {
        if sets(g.role) == sets(role) {
            return Some(&g.value);
        }
        rest = after;
    }
    None
}

/// The first word of a role.
pub fn word(alloc: Global, role: Role, given: &[Given]) -> Result<Option<Text>, AllocError>
    ensures { IfOk result (λ text. text ≡ word_of (meaning.value_of role given.now)) }
{
    match value_of(role, given) {
        Some(Value::Word(text)) => Ok(Some(text.copy(alloc)?)),
        _ => Ok(None),
    }
}

/// The first word of a role, which is empty where there is none.
pub fn name(alloc: Global, role: Role, given: &[Given]) -> Result<Text, AllocError>
    ensures { IfOk result (λ text. text ≡ or_empty (word_of (meaning.value_of role given.now))) }
{
    match word(alloc, role, given)? {
        Some(text) => Ok(text),
        None => Text::new(alloc, ""),
    }
}

/// The first number of a role, or this one.
pub fn number_or(other: u64, role: Role, given: &[Given]) -> u64
    ensures { result ≡ meaning.number_or other (meaning.value_of role given.now) }
{
    match value_of(role, given) {
        Some(Value::Number(n)) => *n,
        _ => other,
    }
}

/// The first version of a role.
pub fn version(alloc: Global, role: Role, given: &[Given]) -> Result<Option<Version>, AllocError>
    ensures { IfOk result (λ v. v ≡ meaning.version_of (meaning.value_of role given.now)) }
{
    match value_of(role, given) {
        Some(Value::Version(version)) => Ok(Some(version.copy(alloc)?)),
        _ => Ok(None),
    }
}

/// The first pattern of a role.
pub fn pattern(alloc: Global, role: Role, given: &[Given]) -> Result<Pattern, AllocError>
    ensures { IfOk result (λ p. p ≡ meaning.pattern_of (meaning.value_of role given.now)) }
{
    match value_of(role, given) {
        Some(Value::Pattern(pattern)) => pattern.copy(alloc),
        _ => Ok(Pattern {
            publisher: None,
            anchored: false,
            stem: Text::new(alloc, "")?,
            version: None,
        }),
    }
}

/// The first variant of a role.
pub fn variant(alloc: Global, role: Role, given: &[Given]) -> Result<VariantWord, AllocError>
    ensures { IfOk result (λ v. v ≡ meaning.variant_or_empty (meaning.value_of role given.now)) }
{
    match value_of(role, given) {
        Some(Value::Variant(variant)) => copy_variant(alloc, variant),
        _ => Ok(VariantWord {
            name: Text::new(alloc, "")?,
            value: Text::new(alloc, "")?,
        }),
    }
}

/// What the options say of stickiness.
pub fn sticky(given: &[Given]) -> Option<bool>
    ensures { result ≡ meaning.sticky_of given.now }
{
    let mut rest = given;
    while let [g, after @ ..] = rest {
        match g.role {
            Role::Sticky => return Some(true),
            Role::NonSticky => return Some(false),
            _ => {}
        }
        rest = after;
    }
    None
}
