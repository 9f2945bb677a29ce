//! The answer: the paths that account files and records name, with what is said of each.

ghost use Rattle.std.specs.Prelude.{◌≡◌, ℕ, IfOk, List, map};
ghost use Rattle.std.specs.Option.{option_map};
ghost use Rattle.ips_outside.specs.Image.{Image};
ghost use Rattle.ips_after.specs.Request.{Over};
ghost use Rattle.ips_change.specs.wanted.Named.{is_payload_of};
ghost use Rattle.ips_due.specs.Due.{Due, IsOverOf};
ghost use Rattle.ips_change.specs.survey.Tables.{AreSpoken, spoken_paths};
ghost use Rattle.ips_due.specs.outstanding.Outstanding.{AreOutstanding};
ghost use Rattle.ips_due.specs.outstanding.Verdicts.{named_paths};
ghost use Rattle.ips_due.specs.outstanding.Verdicts as spec;

use crate::outstanding::verdict::{Named, said_of};
use ips_change::survey::Spoken;
use std::alloc::{AllocError, Global};

/// The paths that account files and records name, in the order of their bytes.
#[derive(Drop)]
pub struct Outstanding {
    /// The paths, each with what is said of it.
    pub named: Vec<Named>,
}

impl Outstanding {
    /// The paths, each with what is said of it, without what is laid.
    pub fn spoken<'a>(&'a self, alloc: Global) -> Result<Vec<Spoken<'a>>, AllocError>
        ensures paths { IfOk result (λ spoken. spoken_paths spoken.items ≡ named_paths self.now.named.items) }
        ensures said { IfOk result (λ spoken. map (λ s. s.said) spoken.items ≡ map (λ n. option_map spec.said_of n.verdict) self.now.named.items) }
        ensures named { IfOk result (λ spoken. (bytes : List ℕ → List ℕ) (due : Due) (t : Image) (o : Over) → AreOutstanding bytes due t self.now.named.items → IsOverOf bytes is_payload_of due t o → AreSpoken o spoken.items) }
    {
        let mut spoken = Vec::with_capacity(alloc, self.named.len())?;
        for named in &self.named {
            spoken.push(spoken_of(named))?;
        }
        Ok(spoken)
    }
}

// A path with what is said of it, without what is laid.
fn spoken_of<'a>(named: &'a Named) -> Spoken<'a>
    ensures path { result.path.now.bytes ≡ named.now.path.bytes }
    ensures said { result.said ≡ option_map spec.said_of named.now.verdict }
{
    Spoken {
        path: &named.path,
        said: said_of(named.verdict),
    }
}
