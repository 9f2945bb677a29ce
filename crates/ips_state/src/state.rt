//! What an image records.

ghost use Rattle.std.specs.Prelude.{◌≡◌, IfOk};
ghost use Rattle.ips_state.specs.State.{recorded};

use crate::copying::{
    copy_fmris, copy_index, copy_mediators, copy_origins, copy_packages, copy_text, copy_texts,
};
use ips_filter::Settings;
use ips_fmri::Fmri;
use ips_index::Index;
use ips_manifest::Package;
use ips_mediate::SetMediator;
use ips_text::{RelPath, Text};
use std::alloc::{AllocError, Global};

/// A publisher whose packages an image may take.
#[derive(Drop)]
pub struct Origin {
    /// The publisher.
    pub name: Text,
    /// Whether installed packages stay with it.
    pub sticky: bool,
}

/// What an image records of itself (pkg(7), "Images").
#[derive(Drop)]
pub struct State {
    /// The format of the records: 1 or 2.
    pub format: u8,
    /// The publisher of its packages.
    pub publisher: Text,
    /// Where packages come from, in order; none in format 1.
    pub origins: Vec<Origin>,
    /// The word before the actuators that a change runs, where one is set.
    pub actuator: Option<Text>,
    /// Its variants and facets.
    pub settings: Settings,
    /// The installed packages, by the bytes of their stems.
    pub installed: Vec<Package>,
    /// The stems that group dependencies don't ask for, by their bytes.
    pub avoid: Vec<Text>,
    /// The stems that are kept at a version, by their bytes.
    pub freeze: Vec<Fmri>,
    /// What is set of mediators, by the bytes of their names.
    pub mediators: Vec<SetMediator>,
    /// A line for each request that was carried out.
    pub history: Vec<Text>,
    /// By which words the installed packages are found, where the image keeps that.
    pub index: Option<Index>,
}

/// A file of the records.
#[derive(Drop)]
pub struct Record {
    /// Where it stands.
    pub path: RelPath,
    /// What it holds.
    pub bytes: Vec<u8>,
}

impl State {
    /// The same records.
    pub fn copy(&self, alloc: Global) -> Result<State, AllocError>
        ensures { IfOk result (λ copy. recorded copy ≡ recorded self.now) }
    {
        Ok(State {
            format: self.format,
            publisher: self.publisher.copy(alloc)?,
            origins: copy_origins(alloc, &self.origins)?,
            actuator: copy_text(alloc, &self.actuator)?,
            settings: self.settings.copy(alloc)?,
            installed: copy_packages(alloc, &self.installed)?,
            avoid: copy_texts(alloc, &self.avoid)?,
            freeze: copy_fmris(alloc, &self.freeze)?,
            mediators: copy_mediators(alloc, &self.mediators)?,
            history: copy_texts(alloc, &self.history)?,
            index: copy_index(alloc, &self.index)?,
        })
    }
}
