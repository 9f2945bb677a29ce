//! A path with what stands there.

ghost use Rattle.std.specs.Prelude.{◌≡◌};
ghost use Rattle.ips_outside.specs.Image.{Image};
ghost use Rattle.ips_after.specs.After as after;
ghost use Rattle.ips_after.specs.Request.{Request};
ghost use Rattle.ips_change.specs.Fitting.{Fits};
ghost use Rattle.ips_change.specs.Told.{change_told, naming};
ghost use Rattle.ips_change.specs.survey.Rows.{HasLooked, IsRowOf, row_pair};

use crate::{Change, Stands, itself};
use ips_meaning::Entry;
use ips_text::RelPath;

/// A path that a request is about, with what was and what is wanted there, and with what stands. Path and entries are lent.
#[derive(Clone, Copy, Drop)]
pub struct Row<'a> {
    /// The path.
    pub path: &'a RelPath,
    /// What was wanted.
    pub old: Option<&'a Entry>,
    /// What is wanted.
    pub new: Option<&'a Entry>,
    /// What stands, as far as a rule asks.
    pub stands: Stands,
}

impl<'a> Row<'a> {
    /// What becomes of the path by itself.
    pub fn itself(&self) -> Change<'a>
        ensures told { (r : Request) (t : Image) → IsRowOf r self.now → HasLooked t self.now → change_told r.bytes result ≡ after.itself (naming r) t self.now.path.now.bytes }
        ensures fits { Fits (row_pair self.now).wanted result }
    {
        itself(self.old, self.new, self.stands)
    }
}
