//! The words of a line.

ghost use Rattle.std.specs.Prelude.{◌≡◌, ◌↔◌, ℕ, List, Some, IsTrue, IfOk, IfNone, IfSome, drop, Contains};
ghost use Rattle.std.specs.Str.{IsUtf8, IsCharBoundary};
ghost use Rattle.ips_text.specs.Quote.{quoted};
ghost use Rattle.ips_action.specs.Kind.{kind_name};
ghost use Rattle.ips_action.specs.Action.{naming_key};
ghost use Rattle.ips_index.specs.Rows.{tokens};
ghost use Rattle.ips_index.specs.Text.{AreWords, HasIndex};
ghost use Rattle.ips_index.specs.Entries as spec;

use crate::entry::{Field, key_name, last_part};
use crate::scanning::has_last;
use ips_action::{ActionKind, takes_payload};
use ips_records::cut;
use ips_text::{Or, Text, quote, unquote};
use std::alloc::{AllocError, Global};

/// The words of the line of a row.
#[derive(Clone, Copy)]
pub(crate) struct Words<'a> {
    pub(crate) token: &'a [u8],
    pub(crate) index: &'a [u8],
    pub(crate) kind: &'a [u8],
    pub(crate) value: &'a [u8],
    pub(crate) stem: &'a [u8],
}

/// The five words of a line.
pub(crate) fn split(line: &[u8]) -> Option<Words>
    ensures some { IfSome result (λ w. AreWords line.now w.token.now w.index.now w.kind.now w.value.now w.stem.now) }
    ensures none { IfNone result ((token index kind value stem : List ℕ) → AreWords line.now token index kind value stem → ⊥) }
{
    let (token, rest) = cut(b' ', line)?;
    let (index, rest) = cut(b' ', rest)?;
    let (kind, rest) = cut(b' ', rest)?;
    let (value, stem) = cut(b' ', rest)?;
    Some(Words {
        token,
        index,
        kind,
        value,
        stem,
    })
}

/// The kind of this name, and its field of which the index has this name.
pub(crate) fn place(kind: &[u8], index: &[u8]) -> Option<(ActionKind, Field)>
    ensures kind { IfSome result (λ p. kind.now ≡ kind_name p.0) }
    ensures index { IfSome result (λ p. index.now ≡ spec.index_name p.0 p.1) }
    ensures has { IfSome result (λ p. HasIndex p.0 index.now) }
    ensures none { IfNone result ((k : ActionKind) → kind.now ≡ kind_name k → HasIndex k index.now → ⊥) }
{
    let Ok(name) = str::from_utf8(kind) else {
        return None;
    };
    let kind = ActionKind::named(name)?;
    let field = field_of(kind, index)?;
    Some((kind, field))
}

// The field of the kind of which the index has this name.
fn field_of(kind: ActionKind, index: &[u8]) -> Option<Field>
    ensures index { IfSome result (λ field. index.now ≡ spec.index_name kind field) }
    ensures has { IfSome result (λ _. HasIndex kind index.now) }
    ensures none { IfNone result (HasIndex kind index.now → ⊥) }
{
    if is_key(kind, index) {
        Some(Field::Key)
    } else if matches!(kind, ActionKind::Set) && index == b"value".as_slice() {
        Some(Field::Value)
    } else if takes_payload(kind) && index == b"payload".as_slice() {
        Some(Field::Payload)
    } else {
        None
    }
}

// Whether the index has the name of the attribute that names actions of the kind.
fn is_key(kind: ActionKind, index: &[u8]) -> bool
    ensures { IsTrue result ↔ (naming_key kind ≡ Some index.now) }
{
    match key_name(kind) {
        Some(key) => key.as_bytes() == index,
        None => false,
    }
}

/// The text whose quoted form the bytes are, where there is one. It may be empty.
pub(crate) fn text(alloc: Global, bytes: &[u8]) -> Result<Option<Text>, AllocError>
    ensures some { IfOk result (λ found. IfSome found (λ text. (bytes.now ≡ quoted text) × IsUtf8 text)) }
    ensures none { IfOk result (λ found. IfNone found ((text : List ℕ) → IsUtf8 text → bytes.now ≡ quoted text → ⊥)) }
{
    match unquote(alloc, bytes) {
        Ok(plain) => text_of(alloc, &plain),
        Err(Or::Bad(_)) => Ok(None),
        Err(Or::OutOfMemory) => Err(AllocError),
    }
}

// The bytes as a text, where they are one.
fn text_of(alloc: Global, bytes: &[u8]) -> Result<Option<Text>, AllocError>
    ensures some { IfOk result (λ found. IfSome found (λ text. text ≡ bytes.now)) }
    ensures text { IfOk result (λ found. IfSome found IsUtf8) }
    ensures none { IfOk result (λ found. IfNone found (IsUtf8 bytes.now → ⊥)) }
{
    match str::from_utf8(bytes) {
        Ok(text) => Ok(Some(Text::new(alloc, text)?)),
        Err(_) => Ok(None),
    }
}

/// The place of the value, whose quoted form is at hand, where its token of this quoted form begins: that of the value itself, or
/// of its last part. None where it isn't found by it.
pub(crate) fn found_by(
    alloc: Global,
    place: (ActionKind, Field),
    value: &str,
    form: &[u8],
    token: &[u8],
) -> Result<Option<usize>, AllocError>
    requires { form.now ≡ quoted value.now }
    ensures found { IfOk result (λ found. IfSome found (λ at. Contains (tokens (spec.index_name place.0 place.1) value.now) (drop at value.now))) }
    ensures spelled { IfOk result (λ found. IfSome found (λ at. token.now ≡ quoted (drop at value.now))) }
    ensures cut { IfOk result (λ found. IfSome found (IsCharBoundary value.now)) }
    ensures none { IfOk result (λ found. IfNone found ((t : List ℕ) → Contains (tokens (spec.index_name place.0 place.1) value.now) t → token.now ≡ quoted t → ⊥)) }
{
    if token == form {
        return Ok(Some(0));
    }
    if !has_last(place.0, place.1, value) {
        return Ok(None);
    }
    let last = last_part(value);
    let quoted = quote(alloc, value[last..].as_bytes())?;
    if quoted.as_str().as_bytes() == token {
        Ok(Some(last))
    } else {
        Ok(None)
    }
}
