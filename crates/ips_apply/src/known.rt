//! The directory that was seen last.

ghost use Rattle.std.specs.Prelude.{◌≡◌, ◌&&◌, nat_lt, [], MatchOption, Some, None, length};
ghost use Rattle.ips_text.specs.Ancestry as ancestry;
ghost use Rattle.ips_steps.specs.Steps.{path_of};
ghost use Rattle.ips_steps.specs.View.{step_of};
ghost use Rattle.ips_apply.specs.Judging.{seen_with};

use ips_kinds::Step;
use ips_text::{RelPath, covers};
use std::marker::Model;

/// As many bytes as a path has at most.
const PATH_BYTES: usize = 1_023;

/// The path of a directory that was seen to stand, or none. Contracts see its bytes; of none there are none.
#[derive(Drop)]
pub(crate) struct Known {
    path: [u8; PATH_BYTES],
    length: usize,
}

impl Model for Known {
    ghost use Rattle.std.specs.Prelude.{◌≤◌, ℕ, List, take};

    ghost Value = { List ℕ };

    ghost view = { λ k. take k.length k.path };

    ghost invariant = { λ k. k.length ≤ 1023 };
}

impl Known {
    /// No directory.
    pub(crate) fn none() -> Known
        ensures { result ≡ [] }
    {
        Known {
            path: [0; PATH_BYTES],
            length: 0,
        }
    }

    /// Whether the directory is the known one or stands above that.
    pub(crate) fn tells(&self, dir: &RelPath) -> bool
        ensures { result ≡ (nat_lt 0 (length self.now) && ancestry.covers dir.now.bytes self.now) }
    {
        self.length > 0 && covers(dir.bytes(), &self.path[..self.length])
    }

    /// Goes to the directory that stands behind a step that was laid, with this parent: the one that it made, or else its parent.
    /// Behind one that only takes away none is known.
    pub(crate) fn go_behind(&mut self, step: &Step, above: Option<&RelPath>)
        requires above { MatchOption above (ancestry.parent (path_of (step_of step.now)) ≡ None) (λ p. ancestry.parent (path_of (step_of step.now)) ≡ Some p.now.bytes) }
        ensures { self.new ≡ seen_with (step_of step.now) }
    {
        match (step, above) {
            (Step::Gone { .. }, _) => self.length = 0,
            (Step::Fresh { path, .. }, _) => self.set(path),
            (_, Some(dir)) => self.set(dir),
            (_, None) => self.length = 0,
        }
    }

    fn set(&mut self, path: &RelPath)
        ensures { self.new ≡ path.now.bytes }
    {
        let bytes = path.bytes();
        self.path[..bytes.len()].copy_from_slice(bytes);
        self.length = bytes.len();
    }
}
