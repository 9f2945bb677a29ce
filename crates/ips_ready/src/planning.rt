//! What is written, made ready before anything is.

ghost use Rattle.std.specs.Prelude.{◌≡◌, ◌++◌, ◌∷◌, [], List, IfOk, IfNone, map};
ghost use Rattle.std.specs.List.{AllByRecursion, flat_map};
ghost use Rattle.std.specs.Str.{IsUtf8};
ghost use Rattle.ips_outside.specs.Children.{path_bytes};
ghost use Rattle.ips_digest.specs.Name.{IsName};
ghost use Rattle.ips_fmri.specs.Name.{IsPublisher};
ghost use Rattle.ips_manifest.specs.Manifest.{StandsOnLine};
ghost use Rattle.ips_steps.specs.View.{step_of};
ghost use Rattle.ips_repo.specs.Places as places;
ghost use Rattle.ips_sends.specs.Judged as spec;
ghost use Rattle.ips_sends.specs.Whole.{content_of};
ghost use Rattle.ips_put.specs.Two.{two_puts};
ghost use Rattle.ips_prepare.specs.Prepared.{HasName, names_of};
ghost use Rattle.ips_judged.specs.Answers.{IsAsked, put_of};
ghost use Rattle.ips_ready.specs.Plans.{AreTwo, IsPlaced, IsPlan, catalog_at, manifest_at, sources_placed, sources_prepared};

use ips_digest::PayloadName;
use ips_journal::Staged;
use ips_judged::{Asked, Publication};
use ips_lay::Content;
use ips_prepare as prepare;
use ips_prepare::{Prepared, Texts};
use ips_repo::{catalog_place, manifest_place, payload_place, places_are_paths};
use ips_steps::Step;
use ips_text::{RelPath, Text};
use std::alloc::{AllocError, Global};

/// What is written: directories and contents, and then the steps that put the manifest and the catalog, with their bytes.
#[derive(Drop)]
pub struct Plan {
    /// The directories on the way, each behind those that it stands in.
    pub ways: Vec<RelPath>,
    /// The contents.
    pub contents: Vec<Content>,
    /// The steps.
    pub steps: Vec<Step>,
    /// Their bytes.
    pub staged: Vec<Staged>,
}

/// What is written of a publication.
pub fn plan_of(alloc: Global, asked: &Asked, publication: Publication) -> Result<Plan, AllocError>
    requires asked { IsAsked asked.now }
    requires stand { AllByRecursion StandsOnLine publication.prepared.manifest.lines.items }
    requires contents { names_of publication.prepared.contents.items ≡ flat_map content_of (put_of publication).actions }
    requires names { AllByRecursion HasName publication.prepared.contents.items }
    requires ways { path_bytes publication.ways.items ≡ spec.ways asked.now.publisher asked.now.stem (names_of publication.prepared.contents.items) }
    requires utf8 { IsUtf8 publication.texts.catalog.items }
    ensures plan { IfOk result (IsPlan asked.now (put_of publication)) }
    ensures sources { IfOk result (λ plan. sources_placed plan.contents.items ≡ sources_prepared publication.prepared.contents.items) }
{
    places_are_paths();
    let Publication {
        prepared,
        ways,
        texts,
    } = publication;
    let Prepared { contents, .. } = prepared;
    let steps = two_steps(alloc, asked)?;
    let staged = two_texts(alloc, texts)?;
    let contents = place_all(alloc, asked.publisher.as_str(), contents)?;
    Ok(Plan {
        ways,
        contents,
        steps,
        staged,
    })
}

// The steps that put the manifest, and then the catalog.
fn two_steps(alloc: Global, asked: &Asked) -> Result<Vec<Step>, AllocError>
    requires { IsAsked asked.now }
    ensures { IfOk result (λ steps. map step_of steps.items ≡ two_puts (manifest_at asked.now) (catalog_at asked.now)) }
{
    let manifest = Step::Put {
        path: manifest_path(alloc, asked)?,
        mode: 0o644,
        stage: 0,
    };
    let catalog = Step::Put {
        path: catalog_path(alloc, asked)?,
        mode: 0o644,
        stage: 1,
    };
    let steps = vec![in alloc; manifest, catalog]?;
    Ok(steps)
}

// Where the manifest is put.
fn manifest_path(alloc: Global, asked: &Asked) -> Result<RelPath, AllocError>
    requires { IsAsked asked.now }
    ensures { IfOk result (λ path. path.bytes ≡ manifest_at asked.now) }
{
    places_are_paths();
    let place = manifest_place(
        alloc,
        asked.publisher.as_str(),
        asked.stem.as_str(),
        &asked.version,
    )?;
    match place {
        Some(path) => Ok(path),
        None => unreachable!(),
    }
}

// Where the catalog is put.
fn catalog_path(alloc: Global, asked: &Asked) -> Result<RelPath, AllocError>
    requires { IsAsked asked.now }
    ensures { IfOk result (λ path. path.bytes ≡ catalog_at asked.now) }
{
    places_are_paths();
    let place = catalog_place(alloc, asked.publisher.as_str())?;
    match place {
        Some(path) => Ok(path),
        None => unreachable!(),
    }
}

// The bytes of the manifest, and those of the catalog.
fn two_texts(alloc: Global, texts: Texts) -> Result<Vec<Staged>, AllocError>
    ensures { IfOk result (λ staged. AreTwo texts.manifest texts.catalog.items staged.items) }
{
    let Texts { manifest, catalog } = texts;
    let manifest = bytes_of(alloc, &manifest)?;
    let staged = vec![in alloc; Staged::Bytes(manifest), Staged::Bytes(catalog)]?;
    Ok(staged)
}

// The bytes of a text.
fn bytes_of(alloc: Global, text: &Text) -> Result<Vec<u8>, AllocError>
    ensures { IfOk result (λ bytes. bytes.items ≡ text.now) }
{
    Vec::from_slice(alloc, text.as_str().as_bytes())
}

// The contents with the places of their names.
fn place_all(
    alloc: Global,
    publisher: &str,
    contents: Vec<prepare::Content>,
) -> Result<Vec<Content>, AllocError>
    requires publisher { IsPublisher publisher.now }
    requires names { AllByRecursion HasName contents.items }
    ensures placed { IfOk result (λ placed. AllByRecursion (IsPlaced publisher.now) placed.items) }
    ensures sources { IfOk result (λ placed. sources_placed placed.items ≡ sources_prepared contents.items) }
{
    let mut placed = Vec::with_capacity(alloc, contents.len())?;
    for content in contents {
        let one = place(alloc, publisher, content)?;
        placed.push(one)?;
    }
    Ok(placed)
}

// The same of one content.
fn place(alloc: Global, publisher: &str, content: prepare::Content) -> Result<Content, AllocError>
    requires publisher { IsPublisher publisher.now }
    requires name { IsName content.name }
    ensures placed { IfOk result (IsPlaced publisher.now) }
    ensures path { IfOk result (λ placed. placed.path ≡ content.path) }
    ensures name { IfOk result (λ placed. placed.name ≡ content.name) }
{
    let prepare::Content { path, name } = content;
    match payload_path(alloc, publisher, &name) {
        Ok(place) => Ok(Content { path, name, place }),
        Err(AllocError) => Err(AllocError),
    }
}

// Where the content of this name stands.
fn payload_path(alloc: Global, publisher: &str, name: &PayloadName) -> Result<RelPath, AllocError>
    requires publisher { IsPublisher publisher.now }
    requires name { IsName name.now }
    ensures { IfOk result (λ path. path.bytes ≡ places.payload_place publisher.now name.now) }
{
    places_are_paths();
    let place = payload_place(alloc, publisher, name)?;
    match place {
        Some(path) => Ok(path),
        None => unreachable!(),
    }
}
