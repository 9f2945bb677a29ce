//! The law of rules' texts.

ghost use Rattle.std.specs.Prelude.{◌≡◌, ℕ, List};
ghost use Rattle.ips_manifest.specs.Logical.{lines_of};
ghost use Rattle.ips_rule.specs.declared.line.RuleLine.{RuleLine};
ghost use Rattle.ips_rule.specs.File.{AreRulesOf, IsFirstBad};

/// A text is a file of one list of rules alone, or else has just one first line that is no rule.
pub fn rules_are_one()
    ensures rules { (bytes : List ℕ) (a b : List RuleLine) → AreRulesOf bytes a → AreRulesOf bytes b → a ≡ b }
    ensures bad { (bytes : List ℕ) (a b : ℕ) → IsFirstBad (lines_of bytes) a → IsFirstBad (lines_of bytes) b → a ≡ b }
    ensures either { (bytes : List ℕ) (rules : List RuleLine) (number : ℕ) → AreRulesOf bytes rules → IsFirstBad (lines_of bytes) number → ⊥ }
{}
