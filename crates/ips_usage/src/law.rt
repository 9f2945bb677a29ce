//! Which word a usage names, the contract of a function that does nothing.

ghost use Rattle.std.specs.Prelude.{ℕ, List};
ghost use Rattle.ips_words.specs.declared.what.Usage.{Usage};
ghost use Rattle.ips_words.specs.Command.{IsUsage};
ghost use Rattle.ips_usage.specs.FirstWrong.{IsFirstWrong};

/// The usage of words that are no command names the first word that no line continues: some line begins with the words before it, and
/// none begins with these and the word itself. Where all words are such a beginning, a word is missing behind the last.
pub fn usage_names_the_first_wrong_word()
    ensures { (words : List (List ℕ)) (usage : Usage) → IsUsage words usage → IsFirstWrong words usage }
{}
