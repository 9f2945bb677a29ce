//! Notes of what is said of paths.

ghost use Rattle.std.specs.Prelude.{◌≡◌, ◌↔◌, [], List, ℕ, None, Some, OnOk, cond, is_some};
ghost use Rattle.ips_action.specs.Attrs.{is_same};
ghost use Rattle.ips_due.specs.outstanding.Noted as spec;
ghost use Rattle.ips_due.specs.outstanding.Noted.{AreMarked, noted};

use crate::outstanding::marking::mark;
use crate::outstanding::verdict::Verdict;
use ips_text::RelPath;
use std::alloc::{AllocError, Global};
use std::collections::{BTreeMap, BTreeSet};

/// What is said of the due paths that were asked about.
#[derive(Drop)]
pub struct Notes {
    /// What is said of each of them.
    pub verdicts: BTreeMap<Vec<u8>, Option<Verdict>>,
    /// The paths of which something is said, and those above.
    pub keys: BTreeSet<Vec<u8>>,
}

impl Notes {
    /// No notes.
    pub fn new(alloc: Global) -> Notes
        ensures none { (q : List ℕ) → noted result q ≡ None }
        ensures marked { AreMarked result }
    {
        Notes {
            verdicts: BTreeMap::new(alloc),
            keys: BTreeSet::new(alloc),
        }
    }

    /// Whether something is noted of a path.
    pub fn has(&self, path: &RelPath) -> bool
        ensures { result ≡ is_some (noted self.now path.now.bytes) }
    {
        self.verdicts.contains_key(path.bytes())
    }

    /// What is said of a path by its note.
    pub fn told(&self, path: &[u8]) -> Option<Verdict>
        ensures { result ≡ spec.told self.now path.now }
    {
        match self.verdicts.get(path) {
            Some(verdict) => *verdict,
            None => None,
        }
    }

    /// Notes what is said of a path of which nothing is noted.
    pub fn note(
        &mut self,
        alloc: Global,
        path: &RelPath,
        verdict: Option<Verdict>,
    ) -> Result<(), AllocError>
        requires marked { AreMarked self.old }
        requires fresh { noted self.old path.now.bytes ≡ None }
        ensures marked { OnOk result (AreMarked self.new) }
        ensures noted { OnOk result ((q : List ℕ) → noted self.new q ≡ cond (is_same q path.now.bytes) (Some verdict) (noted self.old q)) }
    {
        let key = Vec::from_slice(alloc, path.bytes())?;
        self.verdicts.insert(key, verdict)?;
        if verdict.is_some() {
            mark(alloc, &mut self.keys, path.bytes())?;
        }
        Ok(())
    }
}
