//! Which actions have a content, and which text names it.

ghost use Rattle.std.specs.Prelude.{◌≡◌, IfOk};
ghost use Rattle.ips_repo.specs.Places.{IsPlace};
ghost use Rattle.ips_action.specs.Attrs.{values_of};
ghost use Rattle.ips_sends.specs.Whole as whole;
ghost use Rattle.ips_sends.specs.Published as spec;

use ips_action::ActionKind;
use ips_manifest::Draft;
use ips_text::{Or, RelPath};
use std::alloc::{AllocError, Global};

/// The word that stands for no word.
const NO_WORD: &str = "NOHASH";

/// Whether an action of this kind has a content: it is a file or a license.
pub fn has_content(kind: ActionKind) -> bool
    ensures { result ≡ whole.has_content kind }
{
    matches!(kind, ActionKind::File | ActionKind::License)
}

/// The text that names the content of a draft: its word, or the action's path or the license's name where there is no word or it
/// is `NOHASH`.
pub fn content_text(draft: &Draft) -> &str
    ensures { result.now ≡ spec.content_text draft.now }
{
    match &draft.word {
        Some(word) if word.as_str() != NO_WORD => word.as_str(),
        _ => own_text(draft),
    }
}

// The path of the action, or the name of the license.
fn own_text(draft: &Draft) -> &str
    ensures { result.now ≡ spec.first_or_none (values_of (spec.content_key draft.now.line.action.kind) draft.now.line.action.attrs) }
{
    match draft.line.action.get(content_key(draft.line.action.kind)) {
        Some(value) => value,
        None => "",
    }
}

// The key of the attribute that names the content.
fn content_key(kind: ActionKind) -> &'static str
    ensures { result.now ≡ spec.content_key kind }
{
    match kind {
        ActionKind::File => "path",
        ActionKind::License => "license",
        ActionKind::Set
        | ActionKind::Depend
        | ActionKind::Dir
        | ActionKind::Link
        | ActionKind::Hardlink
        | ActionKind::User
        | ActionKind::Group
        | ActionKind::Driver
        | ActionKind::Legacy
        | ActionKind::Signature => "",
    }
}

/// The path that the text is, where it is one.
pub(crate) fn path_of(alloc: Global, text: &str) -> Result<Option<RelPath>, AllocError>
    ensures { IfOk result (IsPlace text.now) }
{
    match RelPath::parse(alloc, text.as_bytes()) {
        Ok(path) => Ok(Some(path)),
        Err(Or::Bad(_)) => Ok(None),
        Err(Or::OutOfMemory) => Err(AllocError),
    }
}
