//! What a search finds.

ghost use Rattle.std.specs.Prelude.{◌≡◌, ◌≢◌, Err, IsTrue, IfOk, map};
ghost use Rattle.ips_text.specs.declared.refusal.Or.TheVariants.{Bad};
ghost use Rattle.ips_outside.specs.Image.{Image};
ghost use Rattle.ips_outside.specs.Outside.{Reads};
ghost use Rattle.ips_history.specs.declared.effect.Effect.TheVariants as effect;
ghost use Rattle.ips_index.specs.Rows.{row_seen};
ghost use Rattle.ips_run.specs.Planned.{IsOfEffect};
ghost use Rattle.ips_tell.specs.told.Told.{IsToldAs};
ghost use Rattle.ips_run.specs.declared.operation.DecideFault.TheVariants as fault;
ghost use Rattle.ips_showing.specs.Asked.{Search};
ghost use Rattle.ips_showing.specs.Shows.{AreFoundIn, HasIndex, Shows};

use crate::answers::text_shown;
use ips_folder::Folder;
use ips_image::load_index;
use ips_index::{Index, IndexRow};
use ips_report::Outcome;
use ips_run::{DecideFault, Decision};
use ips_shown::found_text;
use ips_tell::refusals::unread;
use ips_text::{Or, Text};
use std::alloc::{AllocError, Global};

// What is decided where the index is asked for.
pub(crate) fn searched<F: Folder>(
    alloc: Global,
    pattern: &Text,
    folder: &mut F,
) -> Result<Decision<Outcome>, Or<DecideFault>>
    ensures decided { IsTrue (F.outside.tells folder.old) → IfOk result (Shows (F.outside.state folder.old).held (Search pattern.now)) }
    ensures of_effect { IfOk result (IsOfEffect effect.Shows) }
    ensures says { IfOk result IsToldAs }
    ensures unasked { result ≢ Err (Bad fault.SourceFault) }
    ensures reads { Reads F.outside folder.old folder.new (result ≡ Err (Bad fault.FolderFault)) }
{
    match load_index(alloc, folder) {
        Ok(Some(index)) => matched(alloc, pattern, &index),
        Ok(None) => Ok(Decision::Refused(Outcome::NoIndex)),
        Err(fault) => unread(fault),
    }
}

// What is decided where this is the index.
fn matched(
    alloc: Global,
    pattern: &Text,
    index: &Index,
) -> Result<Decision<Outcome>, Or<DecideFault>>
    ensures decided { (t : Image) → HasIndex t index.now → IfOk result (Shows t (Search pattern.now)) }
    ensures of_effect { IfOk result (IsOfEffect effect.Shows) }
    ensures says { IfOk result IsToldAs }
    ensures unasked { result ≢ Err (Bad fault.SourceFault) }
    ensures kept { result ≢ Err (Bad fault.FolderFault) }
{
    match index.find(alloc, pattern.as_str()) {
        Ok(rows) => found(alloc, pattern, &rows),
        Err(AllocError) => Err(Or::OutOfMemory),
    }
}

// What is decided of the rows that are found.
fn found(
    alloc: Global,
    pattern: &Text,
    rows: &[IndexRow],
) -> Result<Decision<Outcome>, Or<DecideFault>>
    ensures decided { (t : Image) → AreFoundIn t pattern.now (map row_seen rows.now) → IfOk result (Shows t (Search pattern.now)) }
    ensures of_effect { IfOk result (IsOfEffect effect.Shows) }
    ensures says { IfOk result IsToldAs }
    ensures unasked { result ≢ Err (Bad fault.SourceFault) }
    ensures kept { result ≢ Err (Bad fault.FolderFault) }
{
    if !rows.is_empty() {
        return text_shown(found_text(alloc, rows));
    }
    match pattern.copy(alloc) {
        Ok(pattern) => Ok(Decision::Refused(Outcome::NoMatch { pattern })),
        Err(AllocError) => Err(Or::OutOfMemory),
    }
}
