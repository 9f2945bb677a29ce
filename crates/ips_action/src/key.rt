//! Keys of attributes.

ghost use Rattle.std.specs.Prelude.{◌≡◌, ◌==◌, IfOk, IfSome};
ghost use Rattle.std.specs.Cmp.Rules.{comparing};
ghost use Rattle.std.specs.Cmp.Lexicographic.{pointwise};
ghost use Rattle.std.proofs.Common.{rules};
ghost use Rattle.ips_action.specs.Key.{known_text};

use ips_text::Text;
use std::alloc::{AllocError, Global};
use std::marker::Model;

/// The key of an attribute. A key that stands in many actions takes no room of its own. Contracts see its bytes.
#[derive(Drop)]
pub struct Key {
    held: Named,
}

/// How a key is held.
#[derive(Drop)]
pub enum Named {
    /// One that stands in many actions.
    Known(Known),
    /// Any other, as its text.
    Other(Box<Text>),
}

/// A key that stands in many actions (pkg(7), "Actions").
#[derive(Clone, Copy, Drop)]
pub enum Known {
    /// `path`.
    Path,
    /// `mode`.
    Mode,
    /// `owner`.
    Owner,
    /// `group`.
    Group,
    /// `target`.
    Target,
    /// `chash`.
    Chash,
    /// `pkg.size`.
    Size,
    /// `pkg.csize`.
    Csize,
    /// `pkg.content-hash`.
    ContentHash,
    /// `elfarch`.
    ElfArch,
    /// `elfbits`.
    ElfBits,
    /// `elfhash`.
    ElfHash,
    /// `name`.
    Name,
    /// `value`.
    Value,
    /// `fmri`.
    Fmri,
    /// `type`.
    Type,
}

impl Model for Key {
    ghost use Rattle.std.specs.Prelude.{List, ℕ};
    ghost use Rattle.ips_action.specs.Key.{key_text};

    ghost Value = { List ℕ };

    ghost view = { λ k. key_text k.held };
}

impl Key {
    /// The key of this text, which isn't copied.
    pub fn new(alloc: Global, text: Text) -> Result<Key, AllocError>
        ensures { IfOk result (λ key. key ≡ text) }
    {
        let held = match Known::named(text.as_str()) {
            Some(known) => Named::Known(known),
            None => Named::Other(Box::new(alloc, text)?),
        };
        Ok(Key { held })
    }

    /// The key as a `&str`.
    pub fn as_str(&self) -> &str
        ensures { result.now ≡ self.now }
    {
        match &self.held {
            Named::Known(known) => known.name(),
            Named::Other(text) => text.as_str(),
        }
    }

    /// The same key.
    pub fn copy(&self, alloc: Global) -> Result<Key, AllocError>
        ensures { IfOk result (λ key. key ≡ self.now) }
    {
        let held = match &self.held {
            Named::Known(known) => Named::Known(*known),
            Named::Other(text) => Named::Other(Box::new(alloc, text.copy(alloc)?)?),
        };
        Ok(Key { held })
    }
}

impl PartialEq for Key {
    ghost eq = { pointwise ◌==◌ };

    ghost laws = { Prim.search (comparing, rules) };

    fn eq(&self, other: &Key) -> bool {
        self.as_str().as_bytes() == other.as_str().as_bytes()
    }
}

impl Known {
    // The key.
    fn name(self) -> &'static str
        ensures { result.now ≡ known_text self }
    {
        match self {
            Known::Path => "path",
            Known::Mode => "mode",
            Known::Owner => "owner",
            Known::Group => "group",
            Known::Target => "target",
            Known::Chash => "chash",
            Known::Size => "pkg.size",
            Known::Csize => "pkg.csize",
            Known::ContentHash => "pkg.content-hash",
            Known::ElfArch => "elfarch",
            Known::ElfBits => "elfbits",
            Known::ElfHash => "elfhash",
            Known::Name => "name",
            Known::Value => "value",
            Known::Fmri => "fmri",
            Known::Type => "type",
        }
    }

    // The known key of this text, where it is one.
    fn named(text: &str) -> Option<Known>
        ensures { IfSome result (λ known. text.now ≡ known_text known) }
    {
        match text {
            "path" => Some(Known::Path),
            "mode" => Some(Known::Mode),
            "owner" => Some(Known::Owner),
            "group" => Some(Known::Group),
            "target" => Some(Known::Target),
            "chash" => Some(Known::Chash),
            "pkg.size" => Some(Known::Size),
            "pkg.csize" => Some(Known::Csize),
            "pkg.content-hash" => Some(Known::ContentHash),
            "elfarch" => Some(Known::ElfArch),
            "elfbits" => Some(Known::ElfBits),
            "elfhash" => Some(Known::ElfHash),
            "name" => Some(Known::Name),
            "value" => Some(Known::Value),
            "fmri" => Some(Known::Fmri),
            "type" => Some(Known::Type),
            _ => None,
        }
    }
}
