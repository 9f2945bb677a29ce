//! What a line means, made of what was given.

ghost use Rattle.std.specs.Prelude.{IfOk};
ghost use Rattle.ips_syntax.specs.declared.table.Verb.TheVariants as verb;
ghost use Rattle.ips_syntax.specs.declared.lines.Line.TheVariants as line;
ghost use Rattle.ips_words.specs.Meaning as meaning;
ghost use Rattle.ips_words.specs.Meaning.{Means};

use crate::gather::{
    facets, freezes, name, number_or, pattern, patterns, sticky, texts, variant, variants, version,
    word,
};
use crate::what::What;
use ips_syntax::{Given, Line, Role, VariantWord, Verb, stands};
use std::alloc::{AllocError, Global};

/// The limit of a search where the words give none.
const LIMIT: u64 = 1_000_000;

/// What a line means.
pub fn what_of(alloc: Global, line: Line, given: &[Given]) -> Result<What, AllocError>
    ensures { IfOk result (λ what. Means line given.now what) }
{
    match line {
        Line::Help => Ok(What::Help { command: None }),
        Line::HelpOf(verb) => Ok(What::Help {
            command: Some(verb),
        }),
        Line::Version => Ok(What::Version),
        Line::Does(verb) => asked_of(alloc, verb, given),
    }
}

// What a command is asked to do.
fn asked_of(alloc: Global, verb: Verb, given: &[Given]) -> Result<What, AllocError>
    ensures { IfOk result (λ what. Means (line.Does verb) given.now what) }
{
    match verb {
        Verb::ImageCreate => image_create(alloc, given),
        Verb::Install => install(alloc, given),
        Verb::Update => update(alloc, given),
        Verb::Uninstall => uninstall(alloc, given),
        Verb::ChangeFacet => change_facet(alloc, given),
        Verb::ChangeVariant => change_variant(alloc, given),
        Verb::SetMediator => set_mediator(alloc, given),
        Verb::SetPublisher => set_publisher(alloc, given),
        Verb::Contents => contents(alloc, given),
        Verb::Freeze => freeze(alloc, given),
        Verb::Avoid | Verb::Unavoid | Verb::Unfreeze => with_stems(alloc, verb, given),
        Verb::UnsetMediator | Verb::UnsetPublisher | Verb::Search => with_name(alloc, verb, given),
        Verb::Gen => Ok(What::Gen {
            number: number_or(0, Role::Operand, given),
        }),
        Verb::UpdateFormat => Ok(What::UpdateFormat),
        Verb::RebuildIndex => Ok(What::RebuildIndex),
        Verb::Fix => Ok(What::Fix),
        Verb::Verify => Ok(What::Verify),
        Verb::List => Ok(What::List),
        Verb::History => Ok(What::History),
    }
}

// `image-create`.
fn image_create(alloc: Global, given: &[Given]) -> Result<What, AllocError>
    ensures { IfOk result (λ what. Means (line.Does verb.ImageCreate) given.now what) }
{
    Ok(What::ImageCreate {
        publisher: name(alloc, Role::Publisher, given)?,
        variants: variants(alloc, Role::Variant, given)?,
        facets: facets(alloc, Role::Facet, given)?,
        actuator: word(alloc, Role::Actuator, given)?,
    })
}

// `install`.
fn install(alloc: Global, given: &[Given]) -> Result<What, AllocError>
    ensures { IfOk result (λ what. Means (line.Does verb.Install) given.now what) }
{
    Ok(What::Install {
        patterns: patterns(alloc, Role::Operand, given)?,
        reject: patterns(alloc, Role::Reject, given)?,
        accept: stands(Role::Accept, given),
        limit: number_or(LIMIT, Role::SearchLimit, given),
    })
}

// `update`.
fn update(alloc: Global, given: &[Given]) -> Result<What, AllocError>
    ensures { IfOk result (λ what. Means (line.Does verb.Update) given.now what) }
{
    Ok(What::Update {
        patterns: patterns(alloc, Role::Operand, given)?,
        reject: patterns(alloc, Role::Reject, given)?,
        accept: stands(Role::Accept, given),
        limit: number_or(LIMIT, Role::SearchLimit, given),
    })
}

// `uninstall`.
fn uninstall(alloc: Global, given: &[Given]) -> Result<What, AllocError>
    ensures { IfOk result (λ what. Means (line.Does verb.Uninstall) given.now what) }
{
    Ok(What::Uninstall {
        patterns: patterns(alloc, Role::Operand, given)?,
        limit: number_or(LIMIT, Role::SearchLimit, given),
    })
}

// `change-facet`.
fn change_facet(alloc: Global, given: &[Given]) -> Result<What, AllocError>
    ensures { IfOk result (λ what. Means (line.Does verb.ChangeFacet) given.now what) }
{
    Ok(What::ChangeFacet {
        facets: facets(alloc, Role::Operand, given)?,
        accept: stands(Role::Accept, given),
    })
}

// `change-variant`.
fn change_variant(alloc: Global, given: &[Given]) -> Result<What, AllocError>
    ensures { IfOk result (λ what. Means (line.Does verb.ChangeVariant) given.now what) }
{
    let VariantWord { name, value } = variant(alloc, Role::Operand, given)?;
    Ok(What::ChangeVariant {
        name,
        value,
        accept: stands(Role::Accept, given),
    })
}

// `set-mediator`.
fn set_mediator(alloc: Global, given: &[Given]) -> Result<What, AllocError>
    ensures { IfOk result (λ what. Means (line.Does verb.SetMediator) given.now what) }
{
    Ok(What::SetMediator {
        name: name(alloc, Role::Operand, given)?,
        version: version(alloc, Role::Version, given)?,
        implementation: word(alloc, Role::Implementation, given)?,
    })
}

// `set-publisher`.
fn set_publisher(alloc: Global, given: &[Given]) -> Result<What, AllocError>
    ensures { IfOk result (λ what. Means (line.Does verb.SetPublisher) given.now what) }
{
    Ok(What::SetPublisher {
        name: name(alloc, Role::Operand, given)?,
        first: stands(Role::SearchFirst, given),
        sticky: sticky(given),
    })
}

// `contents`.
fn contents(alloc: Global, given: &[Given]) -> Result<What, AllocError>
    ensures { IfOk result (λ what. Means (line.Does verb.Contents) given.now what) }
{
    Ok(What::Contents {
        pattern: pattern(alloc, Role::Operand, given)?,
        manifest: stands(Role::Manifest, given),
    })
}

// `freeze`.
fn freeze(alloc: Global, given: &[Given]) -> Result<What, AllocError>
    ensures { IfOk result (λ what. Means (line.Does verb.Freeze) given.now what) }
{
    Ok(What::Freeze {
        freezes: freezes(alloc, Role::Operand, given)?,
    })
}

// `avoid`, `unavoid` and `unfreeze`.
fn with_stems(alloc: Global, verb: Verb, given: &[Given]) -> Result<What, AllocError>
    requires { meaning.AsksForStems verb }
    ensures { IfOk result (λ what. Means (line.Does verb) given.now what) }
{
    let stems = texts(alloc, Role::Operand, given)?;
    match verb {
        Verb::Avoid => Ok(What::Avoid { stems }),
        Verb::Unavoid => Ok(What::Unavoid { stems }),
        Verb::Unfreeze => Ok(What::Unfreeze { stems }),
        _ => unreachable!(),
    }
}

// `unset-mediator`, `unset-publisher` and `search`.
fn with_name(alloc: Global, verb: Verb, given: &[Given]) -> Result<What, AllocError>
    requires { meaning.AsksForName verb }
    ensures { IfOk result (λ what. Means (line.Does verb) given.now what) }
{
    let name = name(alloc, Role::Operand, given)?;
    match verb {
        Verb::UnsetMediator => Ok(What::UnsetMediator { name }),
        Verb::UnsetPublisher => Ok(What::UnsetPublisher { name }),
        Verb::Search => Ok(What::Search { pattern: name }),
        _ => unreachable!(),
    }
}
