//! Packages.

ghost use Rattle.std.specs.Prelude.{◌≡◌, IfOk};

use crate::line::Line;
use crate::manifest::Manifest;
use ips_fmri::Version;
use ips_text::Text;
use std::alloc::{AllocError, Global};

/// A package (pkg(7)): its name, its version, and what it consists of.
#[derive(Drop)]
pub struct Package {
    /// The name, a stem.
    pub stem: Text,
    /// The version.
    pub version: Version,
    /// What it consists of.
    pub manifest: Manifest,
}

impl Package {
    /// The same package.
    pub fn copy(&self, alloc: Global) -> Result<Package, AllocError>
        ensures stem { IfOk result (λ copy. copy.stem ≡ self.now.stem) }
        ensures version { IfOk result (λ copy. copy.version ≡ self.now.version) }
        ensures lines { IfOk result (λ copy. copy.manifest.lines.items ≡ self.now.manifest.lines.items) }
    {
        Ok(Package {
            stem: self.stem.copy(alloc)?,
            version: self.version.copy(alloc)?,
            manifest: self.manifest.copy(alloc)?,
        })
    }
}

impl Manifest {
    /// The same manifest.
    pub fn copy(&self, alloc: Global) -> Result<Manifest, AllocError>
        ensures { IfOk result (λ manifest. manifest.lines.items ≡ self.now.lines.items) }
    {
        let lines = copy_lines(alloc, &self.lines)?;
        Ok(Manifest { lines })
    }
}

// The same lines.
fn copy_lines(alloc: Global, lines: &[Line]) -> Result<Vec<Line>, AllocError>
    ensures { IfOk result (λ copies. copies.items ≡ lines.now) }
{
    let mut copies = Vec::with_capacity(alloc, lines.len())?;
    for line in lines {
        copies.push(copy_line(alloc, line)?)?;
    }
    Ok(copies)
}

// The same line.
fn copy_line(alloc: Global, line: &Line) -> Result<Line, AllocError>
    ensures { IfOk result (λ copy. copy ≡ line.now) }
{
    Ok(Line {
        number: line.number,
        action: line.action.copy(alloc)?,
    })
}
