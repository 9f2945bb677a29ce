//! The texts of records.

ghost use Rattle.std.specs.Prelude.{◌≡◌, ◌++◌, IfOk, OnOk};
ghost use Rattle.std.specs.List.{flat_map};
ghost use Rattle.ips_text.specs.Quote.{quoted};
ghost use Rattle.ips_fmri.specs.Fmri.{fmri_text};
ghost use Rattle.ips_records.specs.Lines.{ended, lines_text};
ghost use Rattle.ips_records.specs.Field.{version_field, word_field};
ghost use Rattle.ips_state.specs.Text.{mediator_line, package_text};

use ips_fmri::{Fmri, Version};
use ips_manifest::Package;
use ips_mediate::SetMediator;
use ips_text::{Text, quote};
use std::alloc::{AllocError, Global};

/// The text of a record that lists texts, one a line.
pub fn texts_text(alloc: Global, texts: &[Text]) -> Result<Vec<u8>, AllocError>
    ensures { IfOk result (λ bytes. bytes.items ≡ lines_text texts.now) }
{
    let mut out = Vec::new(alloc);
    push_texts(&mut out, texts)?;
    Ok(out)
}

pub fn push_texts(out: &mut Vec<u8>, texts: &[Text]) -> Result<(), AllocError>
    ensures { OnOk result (out.new.items ≡ out.old.items ++ lines_text texts.now) }
{
    for text in texts {
        push_line(out, text.as_str().as_bytes())?;
    }
    Ok(())
}

/// The text of a record that lists stems at a version, one a line.
pub fn names_text(alloc: Global, names: &[Fmri]) -> Result<Vec<u8>, AllocError>
    ensures { IfOk result (λ bytes. bytes.items ≡ flat_map (λ f. ended (fmri_text f)) names.now) }
{
    let mut out = Vec::new(alloc);
    push_names(alloc, &mut out, names)?;
    Ok(out)
}

fn push_names(alloc: Global, out: &mut Vec<u8>, names: &[Fmri]) -> Result<(), AllocError>
    ensures { OnOk result (out.new.items ≡ out.old.items ++ flat_map (λ f. ended (fmri_text f)) names.now) }
{
    for name in names {
        let text = name.print(alloc)?;
        push_line(out, text.as_str().as_bytes())?;
    }
    Ok(())
}

/// The text of a record that lists what is set of mediators.
pub fn mediators_text(alloc: Global, mediators: &[SetMediator]) -> Result<Vec<u8>, AllocError>
    ensures { IfOk result (λ bytes. bytes.items ≡ flat_map (λ m. ended (mediator_line m)) mediators.now) }
{
    let mut out = Vec::new(alloc);
    push_mediators(alloc, &mut out, mediators)?;
    Ok(out)
}

fn push_mediators(
    alloc: Global,
    out: &mut Vec<u8>,
    mediators: &[SetMediator],
) -> Result<(), AllocError>
    ensures { OnOk result (out.new.items ≡ out.old.items ++ flat_map (λ m. ended (mediator_line m)) mediators.now) }
{
    for mediator in mediators {
        push_mediator(alloc, out, mediator)?;
    }
    Ok(())
}

// Writes the line of a mediator.
fn push_mediator(alloc: Global, out: &mut Vec<u8>, mediator: &SetMediator) -> Result<(), AllocError>
    ensures { OnOk result (out.new.items ≡ out.old.items ++ ended (mediator_line mediator.now)) }
{
    push_quoted(alloc, out, mediator.name.as_str())?;
    out.push(b' ')?;
    push_version(alloc, out, &mediator.version)?;
    out.push(b' ')?;
    push_word(alloc, out, &mediator.implementation)?;
    out.push(b'\n')?;
    Ok(())
}

// Writes a version, or `-`.
fn push_version(
    alloc: Global,
    out: &mut Vec<u8>,
    version: &Option<Version>,
) -> Result<(), AllocError>
    ensures { OnOk result (out.new.items ≡ out.old.items ++ version_field version.now) }
{
    match version {
        None => {
            out.push(b'-')?;
            Ok(())
        }
        Some(version) => {
            let text = version.print(alloc)?;
            out.extend_from_slice(text.as_str().as_bytes())
        }
    }
}

// Writes a quoted word, or `-`.
fn push_word(alloc: Global, out: &mut Vec<u8>, word: &Option<Text>) -> Result<(), AllocError>
    ensures { OnOk result (out.new.items ≡ out.old.items ++ word_field word.now) }
{
    match word {
        None => {
            out.push(b'-')?;
            Ok(())
        }
        Some(word) => push_quoted(alloc, out, word.as_str()),
    }
}

/// Writes a quoted word.
pub fn push_quoted(alloc: Global, out: &mut Vec<u8>, word: &str) -> Result<(), AllocError>
    ensures { OnOk result (out.new.items ≡ out.old.items ++ quoted word.now) }
{
    let text = quote(alloc, word.as_bytes())?;
    out.extend_from_slice(text.as_str().as_bytes())
}

/// Writes a line.
pub fn push_line(out: &mut Vec<u8>, line: &[u8]) -> Result<(), AllocError>
    ensures { OnOk result (out.new.items ≡ out.old.items ++ ended line.now) }
{
    out.extend_from_slice(line)?;
    out.push(b'\n')?;
    Ok(())
}

/// The record of a package, in format 2.
pub fn package_record(alloc: Global, installed: &Package) -> Result<Vec<u8>, AllocError>
    ensures { IfOk result (λ bytes. bytes.items ≡ package_text installed.now.version installed.now.manifest.lines.items) }
{
    let mut out = Vec::from_slice(alloc, b"package 2\nversion ")?;
    let version = installed.version.print(alloc)?;
    out.extend_from_slice(version.as_str().as_bytes())?;
    out.push(b'\n')?;
    let manifest = installed.manifest.print(alloc)?;
    out.extend_from_slice(manifest.as_str().as_bytes())?;
    Ok(out)
}
