//! Patterns, which name packages by wildcards.

ghost use Rattle.std.specs.Prelude.{◌≡◌, ◌↔◌, true, Ok, IfOk, IsTrue};
ghost use Rattle.std.specs.List.{list_any};
ghost use Rattle.std.specs.Str.{chars};
ghost use Rattle.ips_text.specs.Reading.{Gives, IfBad, IsFirstBad};
ghost use Rattle.ips_fmri.specs.Name as name;
ghost use Rattle.ips_fmri.specs.Fmri.{Writes, EndsWithPart};
ghost use Rattle.ips_fmri.specs.Pattern.{IsPattern, MatchesStem, Admits, pattern_text};
ghost use Rattle.ips_fmri.specs.Reading as reading;
ghost use Rattle.ips_fmri.specs.Reading.{place_of, placed};
ghost use Rattle.ips_fmri.specs.declared.pattern.Pattern as declared;

use crate::components::is_wildcard;
use crate::fault::{FmriFault, fault};
use crate::matching::matches_stem;
use crate::names::{copy_text, copy_version, read_name};
use crate::printing::{push_lead, push_version_part};
use crate::version::Version;
use ips_text::{Or, Text};
use std::alloc::{AllocError, Global};

/// A pattern: an FMRI in whose stem the wildcards `*` and `?` may stand.
#[derive(Drop)]
pub struct Pattern {
    /// The publisher whose packages it names.
    pub publisher: Option<Text>,
    /// Whether it must match the whole stem: it was written with `pkg:/`, `pkg://publisher/` or a leading `/`. Another one
    /// matches the stem or what follows one of its `/`.
    pub anchored: bool,
    /// What a stem must match: `*` stands for any text, also with `/`, and `?` for any one character.
    pub stem: Text,
    /// A version that the package's version has to incorporate.
    pub version: Option<Version>,
}

impl Pattern {
    /// Reads a pattern, which has to be all of the text. Faults are those of an FMRI; in the stem's quoted text, which has at
    /// most 255 bytes, a wildcard counts as three.
    pub fn parse(alloc: Global, text: &str) -> Result<Pattern, Or<FmriFault>>
        ensures found { IfOk result (λ p. IsPattern p × Writes true p text.now) }
        ensures only { (p : declared.Pattern) → IsPattern p → Writes true p text.now → Gives (λ x. x) result (Ok p) }
        ensures first { IfBad result (λ fault. IsFirstBad (EndsWithPart true) text.now (place_of fault)) }
        ensures exact { Gives (λ x. x) result (placed text.now (reading.read_name true text.now)) }
    {
        let bytes = text.as_bytes();
        match read_name(alloc, true, bytes) {
            Ok(name) => Ok(name),
            Err(Or::Bad(stop)) => Err(Or::Bad(fault(bytes.len(), stop))),
            Err(Or::OutOfMemory) => Err(Or::OutOfMemory),
        }
    }

    /// A pattern of the same parts.
    pub fn copy(&self, alloc: Global) -> Result<Pattern, AllocError>
        ensures { IfOk result (λ p. p ≡ self.now) }
    {
        Ok(Pattern {
            publisher: copy_text(alloc, &self.publisher)?,
            anchored: self.anchored,
            stem: self.stem.copy(alloc)?,
            version: copy_version(alloc, &self.version)?,
        })
    }

    /// The canonical spelling: `pkg://` and the publisher, or `pkg:/` where it is anchored without one, then stem and version.
    pub fn print(&self, alloc: Global) -> Result<Text, AllocError>
        ensures { IfOk result (λ text. text ≡ pattern_text self.now) }
    {
        let mut out = String::new(alloc);
        push_lead(&mut out, &self.publisher, self.anchored)?;
        out.push_str(self.stem.as_str())?;
        push_version_part(&mut out, &self.version)?;
        Ok(Text::from_string(out))
    }

    /// Whether the pattern matches a stem: the whole of it, or, unless it is anchored, what follows one of its `/`. Characters
    /// are those of UTF-8, so `?` stands for one character of any number of bytes. Publisher and version play no part.
    ///
    /// The steps are at most about the length of the pattern times that of the stem, for each component at which a match may
    /// begin, however many stars there are.
    pub fn matches(&self, stem: &str) -> bool
        ensures { IsTrue result ↔ MatchesStem self.now.anchored (chars self.now.stem) (chars stem.now) }
    {
        matches_stem(self.anchored, self.stem.as_str(), stem)
    }

    /// Whether the pattern's own text is the stem.
    pub fn equals(&self, stem: &str) -> bool
        ensures { IsTrue result ↔ (self.now.stem ≡ stem.now) }
    {
        self.stem.as_str() == stem
    }

    /// Whether a wildcard stands in the pattern.
    pub fn is_wild(&self) -> bool
        ensures { result ≡ list_any name.is_wildcard self.now.stem }
    {
        self.stem
            .as_str()
            .as_bytes()
            .iter()
            .any(|byte| is_wildcard(*byte))
    }

    /// Whether the pattern admits a version: it has none itself, or the version incorporates it.
    pub fn admits(&self, version: &Version) -> bool
        ensures { IsTrue result ↔ Admits self.now.version version.now }
    {
        match &self.version {
            None => true,
            Some(limit) => version.incorporates(limit),
        }
    }
}

/// The law of patterns' texts: no two patterns have one canonical spelling, and it reads as the pattern.
pub fn patterns_read_back()
    ensures one { (p q : declared.Pattern) → IsPattern p → IsPattern q → pattern_text p ≡ pattern_text q → p ≡ q }
    ensures back { (p : declared.Pattern) → IsPattern p → reading.read_name true (pattern_text p) ≡ Ok p }
{}
