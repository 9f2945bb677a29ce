//! Laws of what is asked.

ghost use Rattle.std.specs.Prelude.{◌≡◌, ◌⊎◌, ℕ, List, Option, map, string_bytes};
ghost use Rattle.std.specs.List.{AllByRecursion};
ghost use Rattle.std.specs.Str.{IsUtf8};
ghost use Rattle.std.specs.declared.alloc.Global.{Global};
ghost use Rattle.std.specs.declared.string.String.{String};
ghost use Rattle.ips_fmri.specs.Name.{IsPublisher};
ghost use Rattle.ips_records.specs.Form.{IfWord};
ghost use Rattle.ips_syntax.specs.declared.values.VariantWord.{VariantWord};
ghost use Rattle.ips_syntax.specs.declared.values.FacetWord.{FacetWord};
ghost use Rattle.ips_state.specs.State.{IsOrdered, Recorded};
ghost use Rattle.ips_state.specs.Lawful.{IsLawful};
ghost use Rattle.ips_words.specs.Command.{IsCommand};
ghost use Rattle.ips_words.specs.declared.command.Command.{Command};
ghost use Rattle.ips_words.specs.declared.what.What.{What};
ghost use Rattle.ips_words.specs.declared.what.What.TheVariants.{UpdateFormat};
ghost use Rattle.ips_asked.specs.Asked.{IsAskedBy};
ghost use Rattle.ips_asked.specs.Formed.{AreFacetWords, AreVariantWords, HasVersions, IsFormed, IsFormedCommand};
ghost use Rattle.ips_asked.specs.Founded.{IsFounded};

/// The freezes that a command of the command line asks for have versions.
pub fn commands_have_versions()
    ensures { (words : List (List ℕ)) (c : Command) → IsCommand words c → HasVersions c.what }
{}

/// A command of the command line is formed: what it would record has the form of its record, and its words can stand in a line of the history.
/// Words are texts.
pub fn commands_are_formed()
    ensures formed { (words : List (List ℕ)) (c : Command) → AllByRecursion IsUtf8 words → IsCommand words c → IsFormedCommand c }
    ensures read { (words : List (String Global)) (c : Command) → IsCommand (map string_bytes words) c → IsFormedCommand c }
    ensures versions { (w : What) → IsFormed w → HasVersions w }
{}

/// Records that are in order stay so where a command changes them.
pub fn asked_is_ordered()
    ensures { (w : What) (old new : Recorded) → HasVersions w → IsOrdered old → IsAskedBy w old new → IsOrdered new }
{}

/// Records that have texts still have them where a command changes them in the second format, or moves them to it.
pub fn asked_is_lawful()
    ensures asked { (w : What) (old new : Recorded) → IsFormed w → (old.format ≡ 2) ⊎ (w ≡ UpdateFormat) → IsLawful old → IsAskedBy w old new → IsLawful new }
{}

/// The records of an image that is made have texts.
pub fn founded_is_lawful()
    ensures { (publisher : List ℕ) (variants : List VariantWord) (facets : List FacetWord) (actuator : Option (List ℕ)) (new : Recorded) → IsPublisher publisher → AreVariantWords variants → AreFacetWords facets → IfWord actuator
        → IsFounded publisher variants facets actuator new → IsLawful new }
{}

/// What a command asks of records is one.
pub fn asked_is_one()
    ensures { (w : What) (old a b : Recorded) → IsAskedBy w old a → IsAskedBy w old b → a ≡ b }
{}
