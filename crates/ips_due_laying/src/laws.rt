//! Laws of what is laid, each the contract of a function that does nothing.

ghost use Rattle.std.specs.Prelude.{◌≡◌, ℕ, List, None, IsFalse};
ghost use Rattle.ips_outside.specs.Image.{Image};
ghost use Rattle.ips_change.specs.wanted.Named.{is_payload_of};
ghost use Rattle.ips_after.specs.Request.{Over, lays};
ghost use Rattle.ips_due.specs.Due.{Due, IsOverOf};
ghost use Rattle.ips_laying.specs.Laying.{LaysFor};
ghost use Rattle.ips_due.specs.declared.outstanding.verdict.Named.{Named};
ghost use Rattle.ips_due.specs.outstanding.Outstanding.{AreOutstanding};
ghost use Rattle.ips_due_laying.specs.Laying.{laid_at, laid_paths};

/// What is laid is just what account files and records say, whatever the bytes of payloads are; where they lay nothing, nothing is laid.
pub fn due_is_laid()
    ensures laid { (bytes : List ℕ → List ℕ) (due : Due) (t : Image) (o : Over) (named : List Named) → AreOutstanding bytes due t named → IsOverOf bytes is_payload_of due t o → LaysFor bytes (laid_at (laid_paths due named)) o }
    ensures nothing { (bytes : List ℕ → List ℕ) (due : Due) (t : Image) (o : Over) (named : List Named) → AreOutstanding bytes due t named → IsOverOf bytes is_payload_of due t o
        → (q : List ℕ) → IsFalse (lays (o.at q)) → laid_at (laid_paths due named) q ≡ None }
{}
