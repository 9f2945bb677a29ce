//! Laws of the words of the command line.

ghost use Rattle.std.specs.Prelude.{◌≡◌, ℕ, List};
ghost use Rattle.ips_words.specs.declared.command.Command.{Command};
ghost use Rattle.ips_words.specs.declared.what.Usage.{Usage};
ghost use Rattle.ips_words.specs.Command.{IsCommand, IsUsage};
ghost use Rattle.ips_laws.specs.next_laws.Commands.{IsSameCommand};

/// The command that words are is one: what is to be done, and the words that the history keeps.
pub fn command_is_one()
    ensures { (words : List (List ℕ)) (c d : Command) → IsCommand words c → IsCommand words d → IsSameCommand c d }
{}

/// Where words go wrong, they do so in one way: at one place, with one cause.
pub fn usage_is_one()
    ensures { (words : List (List ℕ)) (u v : Usage) → IsUsage words u → IsUsage words v → u ≡ v }
{}

/// Words that go wrong are no command.
pub fn usage_excludes_command()
    ensures { (words : List (List ℕ)) (u : Usage) (c : Command) → IsUsage words u → IsCommand words c → ⊥ }
{}
