//! The dependencies that a manifest asks for.

ghost use Rattle.std.specs.Prelude.{◌≡◌, ◌↔◌, IsTrue, IfOk, OnOk};
ghost use Rattle.ips_text.specs.Reading.{IfBad};
ghost use Rattle.ips_depend.specs.Asking as asking;
ghost use Rattle.ips_depend.specs.Asking.{LinesAsk, IsJudged, IsBad, IsFirstBad};
ghost use Rattle.ips_depend.specs.Read.{AreRead, HasAdded, IsAskedFor, IsTyped, Reads};

use crate::dependency::Test;
use crate::dependency_type::DependencyType;
use ips_action::{Action, ActionKind, Attrs, Values};
use ips_filter::Settings;
use ips_fmri::Fmri;
use ips_manifest::{Line, Manifest};
use ips_text::Or;
use std::alloc::{AllocError, Global};

/// A `depend` action that the image takes is no dependency: its type is unknown; it has more than one FMRI, and is none of
/// `require-any`, `group-any` and `parent`; it has no predicate and is `conditional`, or has one and isn't; or one of its texts is
/// no FMRI.
#[derive(Clone, Copy, Debug, PartialEq, Eq, Drop)]
pub struct BadDepend {
    /// The number of the line of the manifest.
    pub line: u64,
}

/// The dependencies of the `depend` actions that the image takes, in their order. BadDepend comes exactly where one of these
/// actions is no dependency, and tells the first such line.
pub fn tests_of(
    alloc: Global,
    manifest: &Manifest,
    settings: &Settings,
) -> Result<Vec<Test>, Or<BadDepend>>
    ensures asked { IfOk result (λ tests. LinesAsk settings.now manifest.now.lines.items tests.items) }
    ensures bad { IfBad result (λ bad. IsFirstBad settings.now manifest.now.lines.items bad.line) }
{
    let mut tests = Vec::new(alloc);
    for line in &manifest.lines {
        add(alloc, &mut tests, line, settings)?;
    }
    Ok(tests)
}

// Adds the dependency that a line asks for, where it is judged.
fn add(
    alloc: Global,
    tests: &mut Vec<Test>,
    line: &Line,
    settings: &Settings,
) -> Result<(), Or<BadDepend>>
    ensures asked { OnOk result (HasAdded settings.now line.now tests.old.items tests.new.items) }
    ensures bad { IfBad result (λ bad. IsBad settings.now line.now × (bad.line ≡ line.now.number)) }
{
    if !is_judged(line, settings) {
        return Ok(());
    }
    let action = &line.action;
    match test_of(alloc, &action.attrs)? {
        Some(test) => tests.push(test)?,
        None => return Err(Or::Bad(BadDepend { line: line.number })),
    }
    Ok(())
}

// Whether the line is a `depend` action that the image takes.
fn is_judged(line: &Line, settings: &Settings) -> bool
    ensures { IsTrue result ↔ IsJudged settings.now line.now }
{
    if !is_depend(&line.action) {
        return false;
    }
    settings.admits(&line.action)
}

// Whether the action is a `depend` action.
fn is_depend(action: &Action) -> bool
    ensures { IsTrue result ↔ (action.now.kind ≡ ActionKind.Depend) }
{
    matches!(action.kind, ActionKind::Depend)
}

// The dependency that a `depend` action of these attributes asks for; None where it asks for none.
fn test_of(alloc: Global, attrs: &Attrs) -> Result<Option<Test>, AllocError>
    ensures { IfOk result (λ test. IsAskedFor attrs.now test) }
{
    let Some(of_type) = type_of(attrs.values("type")) else {
        return Ok(None);
    };
    let Some(predicates) = read_fmris(alloc, attrs.values("predicate"))? else {
        return Ok(None);
    };
    let Some(fmris) = read_fmris(alloc, attrs.values("fmri"))? else {
        return Ok(None);
    };
    let rooted = marks_root(attrs.values("root-image"));
    Ok(Test::new(of_type, rooted, predicates, fmris))
}

// The type that is the one value; None where there is no such value or type.
fn type_of(values: Values<'_>) -> Option<DependencyType>
    ensures { IsTyped values.entry result }
{
    let (word, others) = values.split_first()?;
    if others.len() > 0 {
        return None;
    }
    DependencyType::named(word)
}

// Whether the values mark a dependency as one on the image that the system runs from.
fn marks_root(values: Values<'_>) -> bool
    ensures { result ≡ asking.marks_root values.entry }
{
    let mut left = values;
    while let Some((value, rest)) = left.split_first() {
        if value == "true" {
            return true;
        }
        left = rest;
    }
    false
}

// The FMRIs that the texts are; None where one of them is none.
fn read_fmris(alloc: Global, texts: Values<'_>) -> Result<Option<Vec<Fmri>>, AllocError>
    ensures { IfOk result (λ fmris. AreRead texts.entry fmris) }
{
    let mut fmris = Vec::with_capacity(alloc, texts.len())?;
    let mut left = texts;
    while let Some((text, rest)) = left.split_first() {
        let Some(fmri) = read_fmri(alloc, text)? else {
            return Ok(None);
        };
        fmris.push(fmri)?;
        left = rest;
    }
    Ok(Some(fmris))
}

// The FMRI that the text is; None where it is none.
fn read_fmri(alloc: Global, text: &str) -> Result<Option<Fmri>, AllocError>
    ensures { IfOk result (λ fmri. Reads text.now fmri) }
{
    match Fmri::parse(alloc, text) {
        Ok(fmri) => Ok(Some(fmri)),
        Err(Or::Bad(_)) => Ok(None),
        Err(Or::OutOfMemory) => Err(AllocError),
    }
}
