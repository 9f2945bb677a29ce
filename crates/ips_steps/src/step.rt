//! Steps as the program holds them.

ghost use Rattle.std.specs.Prelude.{◌≡◌};
ghost use Rattle.ips_steps.specs.Steps.{path_of};
ghost use Rattle.ips_steps.specs.View.{step_of, sort_of};

use crate::target::Target;
use ips_text::RelPath;

/// What is to become of one path. A new directory, file or link takes the place of whatever stands at and below the
/// path. Modes are permission bits, below 0o10000.
#[derive(Drop)]
pub enum Step {
    /// What stands at and below the path goes.
    Gone {
        path: RelPath,
    },
    /// An empty directory.
    Fresh {
        path: RelPath,
        mode: u16,
    },
    /// The mode of the directory or file that stands at the path, which all names of a file have; what has no mode stays.
    Mode {
        path: RelPath,
        mode: u16,
    },
    /// A file of its own with a content, which stands in the stage under the number `stage`.
    Put {
        path: RelPath,
        mode: u16,
        stage: u64,
    },
    /// A symbolic link.
    Link {
        path: RelPath,
        target: Target,
    },
    /// One more name of the file that stands at the path `to`.
    Hard {
        path: RelPath,
        to: RelPath,
    },
}

/// The sorts of steps.
#[derive(Clone, Copy, PartialEq, Drop)]
pub enum Sort {
    Gone,
    Fresh,
    Mode,
    Put,
    Link,
    Hard,
}

impl Step {
    /// The path of the step.
    pub fn path(&self) -> &RelPath
        ensures { result.now.bytes ≡ path_of (step_of self.now) }
    {
        match self {
            Step::Gone { path } => path,
            Step::Fresh { path, .. } => path,
            Step::Mode { path, .. } => path,
            Step::Put { path, .. } => path,
            Step::Link { path, .. } => path,
            Step::Hard { path, .. } => path,
        }
    }

    /// The sort of the step.
    pub fn sort(&self) -> Sort
        ensures { result ≡ sort_of (step_of self.now) }
    {
        match self {
            Step::Gone { .. } => Sort::Gone,
            Step::Fresh { .. } => Sort::Fresh,
            Step::Mode { .. } => Sort::Mode,
            Step::Put { .. } => Sort::Put,
            Step::Link { .. } => Sort::Link,
            Step::Hard { .. } => Sort::Hard,
        }
    }
}
