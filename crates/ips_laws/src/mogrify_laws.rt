//! Laws of what words that ask for the transformation of a manifest come to: it is one.

ghost use Rattle.std.specs.Prelude.{◌≡◌, ℕ, List, IsTrue};
ghost use Rattle.ips_mogrify.specs.Outcome.{ComesTo, IsManifestDue, SeenSource};
ghost use Rattle.ips_mogrify.specs.declared.status.MogrifyOutcome.{MogrifyOutcome};
ghost use Rattle.ips_laws.specs.mogrify_laws.Same.{IsSameTransformation};

use ips_rules::rules_are_one;

/// Over a source that tells what it holds, words come to one outcome: to one usage, one refusal with one place, or to the manifest that is due, of which
/// there is one. A fault of the source and want of memory are apart from this: they come at any time.
pub fn one_outcome()
    ensures outcome { (words : List (List ℕ)) (s : SeenSource) (a b : MogrifyOutcome) → IsTrue s.tells → ComesTo words s a → ComesTo words s b → IsSameTransformation a b }
    ensures due { (words : List (List ℕ)) (s : SeenSource) (a b : List ℕ) → IsTrue s.tells → IsManifestDue words s a → IsManifestDue words s b → a ≡ b }
{
    rules_are_one();
}
