//! The names of packages.

ghost use Rattle.std.specs.Prelude.{◌≡◌, false, Ok, IfOk};
ghost use Rattle.ips_text.specs.Reading.{Gives, IfBad, IsFirstBad};
ghost use Rattle.ips_fmri.specs.Fmri.{IsFmri, WritesFmri, EndsWithPart, fmri_text};
ghost use Rattle.ips_fmri.specs.Reading as reading;
ghost use Rattle.ips_fmri.specs.Reading.{place_of, placed};
ghost use Rattle.ips_fmri.specs.declared.fmri.Fmri as declared;

use crate::fault::{FmriFault, Part, fault};
use crate::names::{copy_text, copy_version, read_name};
use crate::pattern::Pattern;
use crate::printing::{push_lead, push_version_part};
use crate::version::Version;
use ips_text::{Or, Stop, Text};
use std::alloc::{AllocError, Global};

/// The name of a package, a fault management resource identifier: `pkg://publisher/stem@version`, `pkg:/stem@version` or
/// `stem@version`, where the part from `@` may be absent (pkg(7)).
#[derive(Drop)]
pub struct Fmri {
    /// Who publishes the package: one component.
    pub publisher: Option<Text>,
    /// The package's name: components joined by `/`. Each begins with an ASCII letter or digit and goes on with letters,
    /// digits, `_`, `-`, `.` and `+`.
    pub stem: Text,
    /// The version of the package.
    pub version: Option<Version>,
}

impl Fmri {
    /// Reads an FMRI, which has to be all of the text. A fault is at the first byte that no FMRI's text continues, or at the end
    /// of a publisher, stem or version whose quoted text has more than 255 bytes, whichever comes first.
    pub fn parse(alloc: Global, text: &str) -> Result<Fmri, Or<FmriFault>>
        ensures found { IfOk result (λ f. IsFmri f × WritesFmri f text.now) }
        ensures only { (f : declared.Fmri) → IsFmri f → WritesFmri f text.now → Gives (λ x. x) result (Ok f) }
        ensures first { IfBad result (λ fault. IsFirstBad (EndsWithPart false) text.now (place_of fault)) }
        ensures exact { Gives (λ x. x) result (placed text.now (reading.read_fmri text.now)) }
    {
        let bytes = text.as_bytes();
        match read_fmri(alloc, bytes) {
            Ok(fmri) => Ok(fmri),
            Err(Or::Bad(stop)) => Err(Or::Bad(fault(bytes.len(), stop))),
            Err(Or::OutOfMemory) => Err(Or::OutOfMemory),
        }
    }

    /// An FMRI of the same parts.
    pub fn copy(&self, alloc: Global) -> Result<Fmri, AllocError>
        ensures { IfOk result (λ f. f ≡ self.now) }
    {
        Ok(Fmri {
            publisher: copy_text(alloc, &self.publisher)?,
            stem: self.stem.copy(alloc)?,
            version: copy_version(alloc, &self.version)?,
        })
    }

    /// The canonical spelling: `pkg://publisher/stem@version`, or `stem@version` where there is no publisher.
    pub fn print(&self, alloc: Global) -> Result<Text, AllocError>
        ensures { IfOk result (λ text. text ≡ fmri_text self.now) }
    {
        let mut out = String::new(alloc);
        push_lead(&mut out, &self.publisher, false)?;
        out.push_str(self.stem.as_str())?;
        push_version_part(&mut out, &self.version)?;
        Ok(Text::from_string(out))
    }
}

// The FMRI that is all of a text.
#[tactic(auto, unfolding(crate::specs::Reading::read_fmri))]
fn read_fmri(alloc: Global, bytes: &[u8]) -> Result<Fmri, Or<Stop<Part>>>
    ensures { Gives (λ f. f) result (reading.read_fmri bytes.now) }
{
    let Pattern {
        publisher,
        stem,
        version,
        ..
    } = read_name(alloc, false, bytes)?;
    Ok(Fmri {
        publisher,
        stem,
        version,
    })
}

/// The law of FMRIs' texts: no two FMRIs have one canonical spelling, and it reads as the FMRI.
pub fn fmris_read_back()
    ensures one { (f g : declared.Fmri) → IsFmri f → IsFmri g → fmri_text f ≡ fmri_text g → f ≡ g }
    ensures back { (f : declared.Fmri) → IsFmri f → reading.read_fmri (fmri_text f) ≡ Ok f }
{}
