//! What was gathered of the stems in reach.

ghost use Rattle.std.specs.Prelude.{◌<◌, ◌≤◌, ◌^◌, All, length, vec_len};
ghost use Rattle.ips_request.specs.Manifests.{all_manifests_limit};

use crate::rows::{Numbered, Row};
use indexmap::IndexSet;

/// The stems in reach, as far as they are known, and what was gathered of the first of them.
#[derive(Drop)]
pub struct Gathered {
    /// The stems.
    pub stems: IndexSet<String>,
    /// What is known of those that were gone through.
    pub rows: Vec<Row>,
    /// Their tests.
    pub tests: Vec<Numbered>,
    /// How many bytes of manifests were read from the repository.
    pub total: u64,
    ghost few: { total ≤ all_manifests_limit },
    ghost few_candidates: { All (λ r. vec_len r.candidates < 2 ^ 32) rows.items },
    ghost tests_known: { All (λ n. n.stem < length rows.items) tests.items },
    ghost within: { length rows.items ≤ length stems.keys },
}
