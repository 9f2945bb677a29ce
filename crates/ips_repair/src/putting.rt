//! The record of the history.

ghost use Rattle.std.specs.Prelude.{◌≡◌, ◌++◌, ◌<◌, IfOk, IsTrue, List, ℕ, OnOk, Some, length};
ghost use Rattle.std.specs.Option.{option_map};
ghost use Rattle.ips_outside.specs.Image.{Image};
ghost use Rattle.ips_text.specs.Ancestry.{same_path};
ghost use Rattle.ips_outside.specs.Outside.{Reads, readable};
ghost use Rattle.ips_files.specs.Files.{HasSize, file_at};
ghost use Rattle.ips_change.specs.content.Failing.{HasFailed};
ghost use Rattle.ips_records.specs.Lines.{lines_text};
ghost use Rattle.ips_state.specs.Records.{history_path};
ghost use Rattle.ips_change.specs.wanted.Named.{is_payload_of};
ghost use Rattle.ips_due.specs.Due.{Own, holds_content};
ghost use Rattle.ips_emit.specs.Emitted.{IsEmitted, Provenance, Turn};
ghost use Rattle.ips_repair.specs.Drawing.{history_sources, history_turns};
ghost use Rattle.ips_repair.specs.Gathered.{put_unless, stands_as};

use ips_change::content::look_at;
use ips_due::outstanding::has_bytes;
use ips_emit::Emitted;
use ips_files::CHUNK;
use ips_load::path_of;
use ips_outside::{Failed, Look, Source};
use ips_request_due::repairs::repairs_hang_together;
use ips_state::{State, texts_text};
use ips_text::{Or, RelPath};
use std::alloc::{AllocError, Global};

// The path of the history.
fn history(alloc: Global) -> Result<RelPath, AllocError>
    ensures { IfOk result (λ path. path.bytes ≡ history_path) }
{
    repairs_hang_together();
    path_of(alloc, b"var/pkg/history")
}

/// The text of the state's history, unless the record of the history stands with it.
pub(crate) fn history_to_put<S: Source>(
    alloc: Global,
    new: &State,
    source: &mut S,
) -> Result<Option<Vec<u8>>, Or<Failed>>
    ensures put { IsTrue (S.outside.tells source.old) → IfOk result (λ put. option_map (λ text. text.items) put ≡ put_unless (stands_as (lines_text new.now.history.items) (S.outside.state source.old).held) (lines_text new.now.history.items)) }
    ensures reads { Reads S.outside source.old source.new (HasFailed result) }
{
    let path = history(alloc)?;
    let text = texts_text(alloc, &new.history)?;
    if stands(alloc, source, &path, &text)? {
        return Ok(None);
    }
    Ok(Some(text))
}

// Whether a file with these bytes stands at the path.
fn stands<S: Source>(
    alloc: Global,
    source: &mut S,
    path: &RelPath,
    text: &[u8],
) -> Result<bool, Or<Failed>>
    ensures found { IsTrue (S.outside.tells source.old) → IfOk result (λ stands. stands ≡ holds_content is_payload_of (Own text.now) ((S.outside.state source.old).held.look path.now.bytes)) }
    ensures reads { Reads S.outside source.old source.new (HasFailed result) }
{
    match look_at(source, path)? {
        Look::File { size, .. } => has_text(alloc, source, path, size, text),
        _ => Ok(false),
    }
}

// Whether the file at the path, which has so many bytes, has just these.
fn has_text<S: Source>(
    alloc: Global,
    source: &mut S,
    path: &RelPath,
    size: u64,
    text: &[u8],
) -> Result<bool, Or<Failed>>
    ensures found { IsTrue (S.outside.tells source.old) → HasSize (file_at (S.outside.state source.old).held path.now.bytes) size
        → IfOk result (λ same. same ≡ same_path text.now (readable ((S.outside.state source.old).held.look path.now.bytes))) }
    ensures reads { Reads S.outside source.old source.new (HasFailed result) }
{
    let mut buffer = vec![in alloc; 0u8; CHUNK]?;
    is_text(source, path, size, text, &mut buffer)
}

// The same, read through this buffer.
fn is_text<S: Source>(
    source: &mut S,
    path: &RelPath,
    size: u64,
    text: &[u8],
    buffer: &mut [u8],
) -> Result<bool, Or<Failed>>
    requires room { 0 < length buffer.old }
    ensures found { IsTrue (S.outside.tells source.old) → HasSize (file_at (S.outside.state source.old).held path.now.bytes) size
        → IfOk result (λ same. same ≡ same_path text.now (readable ((S.outside.state source.old).held.look path.now.bytes))) }
    ensures reads { Reads S.outside source.old source.new (HasFailed result) }
{
    match has_bytes(source, path, size, text, buffer) {
        Ok(same) => Ok(same),
        Err(Failed) => Err(Or::Bad(Failed)),
    }
}

/// Adds the step of the history, where its text is put.
pub(crate) fn add_history(
    alloc: Global,
    emitted: &mut Emitted,
    put: Option<Vec<u8>>,
) -> Result<(), AllocError>
    ensures { OnOk result ((bytes : List ℕ → List ℕ) (t : Image) (turns : List Turn) (provenances : List Provenance) → IsEmitted bytes t turns provenances emitted.old
        → IsEmitted bytes t (turns ++ history_turns (option_map (λ text. text.items) put)) (provenances ++ history_sources (option_map (λ text. text.items) put)) emitted.new) }
{
    match put {
        Some(text) => add_text(alloc, emitted, text),
        None => Ok(()),
    }
}

// Adds the step of the history with this text.
fn add_text(alloc: Global, emitted: &mut Emitted, text: Vec<u8>) -> Result<(), AllocError>
    ensures { OnOk result ((bytes : List ℕ → List ℕ) (t : Image) (turns : List Turn) (provenances : List Provenance) → IsEmitted bytes t turns provenances emitted.old
        → IsEmitted bytes t (turns ++ history_turns (Some text.items)) (provenances ++ history_sources (Some text.items)) emitted.new) }
{
    match history(alloc) {
        Ok(path) => emitted.push_text(alloc, &path, 0o644, text),
        Err(fault) => Err(fault),
    }
}
