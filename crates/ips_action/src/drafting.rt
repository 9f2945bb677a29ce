//! Reading lines whose contents aren't known yet.

ghost use Rattle.std.specs.Prelude.{◌≡◌, ℕ, List, Option, IsTrue, IfOk, Ok};
ghost use Rattle.std.specs.List.{AllByRecursion};
ghost use Rattle.std.specs.Option.{option_map};
ghost use Rattle.ips_text.specs.Reading.{Gives, IfBad};
ghost use Rattle.ips_line.specs.declared.words.Pair as line_pair;
ghost use Rattle.ips_line.specs.Line.{IsRunOfBytes, in_key};
ghost use Rattle.ips_line.specs.Seen.{seen};
ghost use Rattle.ips_action.specs.Action.{Fields};
ghost use Rattle.ips_action.specs.Meaning.{IsSaid, FaultOf};
ghost use Rattle.ips_action.specs.Draft.{names_content, drafted, draft_word, MeansDraft, IsFirstDraftFault};

use crate::action::Action;
use crate::fault::ActionFault;
use crate::reading::{action_of, fault_of};
use ips_line::{Word, Words, read_words};
use ips_text::{Or, Text};
use std::alloc::{AllocError, Global};

/// What stands for a content that isn't known.
const NO_CONTENT: &str = "0000000000000000000000000000000000000000";

/// Reads a line as `parse_line` does where the payload word of a file or a license is 40 zeros: any word may stand there, or none,
/// and it is answered beside the action. Places of faults are those of the line as it stands.
pub fn parse_draft(alloc: Global, line: &str) -> Result<(Action, Option<Text>), Or<ActionFault>>
    ensures found { IfOk result (λ draft. MeansDraft line.now draft.0 draft.1) }
    ensures only { (action : Fields) (word : Option (List ℕ)) → MeansDraft line.now action word → Gives (λ x. x) result (Ok (action, word)) }
    ensures first { IfBad result (λ fault. IsFirstDraftFault line.now fault) }
{
    match read_words(alloc, line) {
        Ok(words) => draft_of(alloc, words),
        Err(Or::Bad(fault)) => Err(Or::Bad(fault_of(fault))),
        Err(Or::OutOfMemory) => Err(Or::OutOfMemory),
    }
}

// The action that the words of a line are with 40 zeros for its content, and the word that stands there.
fn draft_of(alloc: Global, words: Words<'_>) -> Result<(Action, Option<Text>), Or<ActionFault>>
    requires { AllByRecursion (λ (p : line_pair.Pair). IsRunOfBytes in_key p.key) words.pairs.items }
    ensures found { IfOk result (λ draft. IsSaid (drafted (seen words.entry)) draft.0 × (draft.1 ≡ draft_word (seen words.entry))) }
    ensures first { IfBad result (λ fault. FaultOf (drafted (seen words.entry)) fault) }
{
    if !has_content(words.name.text) {
        let action = action_of(alloc, words)?;
        return Ok((action, None));
    }
    let word = copied(alloc, words.payload)?;
    match action_of(alloc, blanked(words)) {
        Ok(action) => Ok((action, word)),
        Err(fault) => Err(fault),
    }
}

// The words with 40 zeros for the payload word.
fn blanked<'a>(words: Words<'a>) -> Words<'a>
    requires { IsTrue (names_content words.name.text.now) }
    ensures said { seen result ≡ drafted (seen words.entry) }
    ensures pairs { result.pairs ≡ words.entry.pairs }
{
    let Words { name, pairs, .. } = words;
    Words {
        name,
        payload: Some(Word {
            text: NO_CONTENT,
            place: 0,
        }),
        pairs,
    }
}

// Whether it is the name of an action that has a content.
fn has_content(name: &str) -> bool
    ensures { result ≡ names_content name.now }
{
    name == "file" || name == "license"
}

// The text of the word, where there is one.
fn copied(alloc: Global, word: Option<Word<'_>>) -> Result<Option<Text>, AllocError>
    ensures { IfOk result (λ text. text ≡ option_map (λ w. w.text.now) word.entry) }
{
    match word {
        Some(word) => Ok(Some(Text::new(alloc, word.text)?)),
        None => Ok(None),
    }
}
