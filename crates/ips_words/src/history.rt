//! The words of a command as the history keeps them.

ghost use Rattle.std.specs.Prelude.{◌≡◌, ◌++◌, ◌∷◌, ℕ, List, IfOk, OnOk, map, string_bytes};
ghost use Rattle.std.specs.List.{flat_map, slice_split};
ghost use Rattle.percent_encoding.specs.Percent.{percent_decode};
ghost use Rattle.ips_words.specs.History.{AreWords, blank_and_word, history_of, is_blank};

use ips_syntax::next_word;
use ips_text::{Text, quote};
use std::alloc::{AllocError, Global};

/// The quoted words, divided by blanks.
pub fn history_text(alloc: Global, words: &[String]) -> Result<Text, AllocError>
    ensures { IfOk result (λ text. text ≡ history_of (map string_bytes words.now)) }
{
    let Some((first, others)) = next_word(words) else {
        return Text::new(alloc, "");
    };
    let mut out = String::new(alloc);
    out.push_str(quote(alloc, first.as_bytes())?.as_str())?;
    push_words(alloc, &mut out, others)?;
    Ok(Text::from_string(out))
}

// Writes each word, quoted, behind a blank.
fn push_words(alloc: Global, out: &mut String, words: &[String]) -> Result<(), AllocError>
    ensures { OnOk result (string_bytes out.new ≡ string_bytes out.old ++ flat_map blank_and_word (map string_bytes words.now)) }
{
    for word in words {
        let quoted = quote(alloc, word.as_str().as_bytes())?;
        out.push_str(" ")?;
        out.push_str(quoted.as_str())?;
    }
    Ok(())
}

/// The law of the history: cut at its blanks and percent-decoded, it gives the words back, where there are any.
pub fn history_reads_back()
    ensures { (word : List ℕ) → (words : List (List ℕ)) → AreWords (word ∷ words) → map percent_decode (slice_split is_blank (history_of (word ∷ words))) ≡ word ∷ words }
{}
