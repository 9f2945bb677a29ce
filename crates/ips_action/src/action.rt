//! Actions.

ghost use Rattle.std.specs.Prelude.{◌≡◌, ◌∷◌, [], ◌≤◌, List, ℕ, IfOk, IfSome, IfNone, IsSome, Some, None, codes, length, slice_get};
ghost use Rattle.std.specs.Option.{option_map};
ghost use Rattle.ips_digest.specs.Name.{IsName};
ghost use Rattle.ips_action.specs.Attrs.{values_of};
ghost use Rattle.ips_action.specs.Action.{IsAction, naming_key, preserve_values};
ghost use Rattle.ips_action.specs.Draft.{with_payload};
ghost use Rattle.ips_action.specs.Check.{IsOneOf, preserve_words};

use crate::attrs::Attrs;
use crate::kind::ActionKind;
use crate::table::rows;
use ips_digest::PayloadName;
use std::alloc::{AllocError, Global};
use std::marker::Model;

/// An action of a package (pkg(7), "Actions"): one line of a manifest. It meets the table of actions: its attributes stand as
/// often as the table says and have the values that it asks for. A path stands without the `/` before it. Attributes that the
/// table doesn't know are kept.
#[derive(Drop)]
pub struct Action {
    /// What it is about.
    pub kind: ActionKind,
    /// The name of its payload, where it has one.
    pub payload: Option<PayloadName>,
    /// Its attributes.
    pub attrs: Attrs,
}

impl Model for Action {
    ghost use Rattle.ips_action.specs.Action.{Fields, IsAction};

    ghost Value = { Fields };

    ghost view = { λ a. record { kind = a.kind; payload = a.payload; attrs = a.attrs } };

    ghost invariant = { λ a. IsAction (record { kind = a.kind; payload = a.payload; attrs = a.attrs }) };
}

/// How a file is kept that was changed since it was laid (pkg(7), "File Actions", `preserve`).
#[derive(Clone, Copy, Drop)]
pub enum Preserve {
    /// It isn't kept.
    None,
    /// It stays as it is.
    True,
    /// It is renamed with the extension `.old`, and the new file is laid.
    RenameOld,
    /// It stays, and the new file is laid with the extension `.new`.
    RenameNew,
    /// It is renamed with the extension `.legacy`, and the new file is laid.
    Legacy,
    /// It stays, and is never removed.
    Abandon,
    /// It is laid only where the package is first installed.
    InstallOnly,
}

impl Action {
    /// The first value of the key, or None where it doesn't stand. It also says that an action always meets the table.
    pub fn get(&self, name: &str) -> Option<&str>
        ensures some { IfSome result (λ value. slice_get (values_of name.now self.now.attrs) 0 ≡ Some value.now) }
        ensures none { IfNone result (values_of name.now self.now.attrs ≡ []) }
        ensures action { IsAction self.now }
    {
        self.attrs.get(name)
    }

    /// How many values the key has.
    pub fn count(&self, name: &str) -> usize
        ensures { result ≡ length (values_of name.now self.now.attrs) }
    {
        self.attrs.count(name)
    }

    /// The value of the key at a place, counted from 0, or None where it doesn't have so many.
    pub fn nth(&self, name: &str, i: usize) -> Option<&str>
        ensures some { IfSome result (λ value. slice_get (values_of name.now self.now.attrs) i ≡ Some value.now) }
        ensures none { IfNone result (length (values_of name.now self.now.attrs) ≤ i) }
    {
        self.attrs.nth(name, i)
    }

    /// The first value of the attribute that names the action: its path, the name of what it adds, or what it depends on.
    /// None exactly where its kind has no such attribute, as a signature.
    pub fn key(&self) -> Option<&str>
        ensures some { IfSome result (λ value. (name : List ℕ) × (naming_key self.now.kind ≡ Some name) × (slice_get (values_of name self.now.attrs) 0 ≡ Some value.now)) }
        ensures none { IfNone result (naming_key self.now.kind ≡ None) }
    {
        match key_of(self.kind) {
            Some(name) => self.attrs.get(name),
            None => None,
        }
    }

    /// How the file is kept where it was changed, by the attribute `preserve`. An action that is no file isn't kept.
    pub fn preserve(&self) -> Preserve
        ensures file { self.now.kind ≡ ActionKind.File → values_of (codes "preserve") self.now.attrs ≡ preserve_values result }
        ensures other { (self.now.kind ≡ ActionKind.File → ⊥) → result ≡ Preserve.None }
    {
        match self.kind {
            ActionKind::File => match self.attrs.get("preserve") {
                Some(word) => preserve_named(word),
                None => Preserve::None,
            },
            _ => Preserve::None,
        }
    }

    /// The same action with this payload in the place of its own.
    pub fn with_payload(self, payload: PayloadName) -> Action
        requires has { IsSome self.payload }
        ensures { result ≡ with_payload payload self }
    {
        has_digest(payload);
        let Action { kind, attrs, .. } = self;
        Action {
            kind,
            payload: Some(payload),
            attrs,
        }
    }

    /// The same action.
    pub fn copy(&self, alloc: Global) -> Result<Action, AllocError>
        ensures same { IfOk result (λ action. action ≡ self.now) }
        ensures action { IfOk result (λ action. IsAction action) }
    {
        let attrs = self.attrs.copy(alloc)?;
        Ok(Action {
            kind: self.kind,
            payload: self.payload,
            attrs,
        })
    }
}

// The key of the attribute that names an action of this kind.
fn key_of(kind: ActionKind) -> Option<&'static str>
    ensures { option_map (λ name. name.now) result ≡ naming_key kind }
{
    match rows(kind).first() {
        Some(row) if !row.check.is_payload() => Some(row.name),
        _ => None,
    }
}

// The sort that has this word.
fn preserve_named(word: &str) -> Preserve
    requires { IsOneOf preserve_words word.now }
    ensures { preserve_values result ≡ word.now ∷ [] }
{
    match word {
        "true" => Preserve::True,
        "renameold" => Preserve::RenameOld,
        "renamenew" => Preserve::RenameNew,
        "legacy" => Preserve::Legacy,
        "abandon" => Preserve::Abandon,
        _ => Preserve::InstallOnly,
    }
}

// A payload's name has as many bytes as its digest.
fn has_digest(name: PayloadName)
    ensures { IsName name }
{}
