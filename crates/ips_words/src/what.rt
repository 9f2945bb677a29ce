//! What the words mean.

use ips_fmri::{Fmri, Pattern, Version};
use ips_syntax::{FacetWord, VariantWord, Verb, Why};
use ips_text::Text;

/// Where the words go wrong, and how.
#[derive(Clone, Copy, Debug, PartialEq, Eq, Drop)]
pub struct Usage {
    /// The place of the first word at fault, counted from 0; it is the number of words where a further one is needed.
    pub place: u64,
    /// What is wrong there.
    pub why: Why,
}

/// What a command is to do. Lists are in the order of the words.
#[derive(Drop)]
pub enum What {
    /// Make an image.
    ImageCreate {
        publisher: Text,
        variants: Vec<VariantWord>,
        facets: Vec<FacetWord>,
        actuator: Option<Text>,
    },
    /// Install packages, or newer versions of them.
    Install {
        patterns: Vec<Pattern>,
        reject: Vec<Pattern>,
        accept: bool,
        limit: u64,
    },
    /// Update packages; all of them where no pattern is given.
    Update {
        patterns: Vec<Pattern>,
        reject: Vec<Pattern>,
        accept: bool,
        limit: u64,
    },
    /// Remove packages.
    Uninstall {
        patterns: Vec<Pattern>,
        limit: u64,
    },
    /// Set facets, or take their settings away.
    ChangeFacet {
        facets: Vec<FacetWord>,
        accept: bool,
    },
    /// Set a variant.
    ChangeVariant {
        name: Text,
        value: Text,
        accept: bool,
    },
    /// Choose among mediated links.
    SetMediator {
        name: Text,
        version: Option<Version>,
        implementation: Option<Text>,
    },
    /// Leave the choice among mediated links to the packages.
    UnsetMediator {
        name: Text,
    },
    /// Put stems on the avoid list.
    Avoid {
        stems: Vec<Text>,
    },
    /// Take stems from the avoid list.
    Unavoid {
        stems: Vec<Text>,
    },
    /// Freeze packages at versions.
    Freeze {
        freezes: Vec<Fmri>,
    },
    /// Take freezes away.
    Unfreeze {
        stems: Vec<Text>,
    },
    /// Add a publisher, or change where and how it stands in the list; `sticky` is None where the words don't say it.
    SetPublisher {
        name: Text,
        first: bool,
        sticky: Option<bool>,
    },
    /// Take a publisher from the list.
    UnsetPublisher {
        name: Text,
    },
    /// Move the image's records to the present format.
    UpdateFormat,
    /// Make the index for `search`.
    RebuildIndex,
    /// Repair what differs from the packages, or finish a change that was stopped.
    Fix,
    /// Tell what differs from the packages.
    Verify,
    /// Show the installed packages.
    List,
    /// Show what was done.
    History,
    /// Show what an installed package delivers; `manifest` asks for its manifest.
    Contents {
        pattern: Pattern,
        manifest: bool,
    },
    /// Show where a word stands in the installed packages.
    Search {
        pattern: Text,
    },
    /// Make a repository of so many packages in memory, install it and verify it.
    Gen {
        number: u64,
    },
    /// Show the help, or that of one command.
    Help {
        command: Option<Verb>,
    },
    /// Show the version of the program.
    Version,
}
