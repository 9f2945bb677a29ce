//! Reading lines.

ghost use Rattle.std.specs.Prelude.{◌≡◌, List, ℕ, Option, IfOk, Ok, Err, OnOk, IfSome, map, true};
ghost use Rattle.std.specs.List.{AllByRecursion};
ghost use Rattle.std.specs.Option.{option_map};
ghost use Rattle.ips_text.specs.Reading.{Gives, IfBad};
ghost use Rattle.ips_line.specs.declared.words.Pair as line_pair;
ghost use Rattle.ips_line.specs.Line.{IsRunOfBytes, in_key};
ghost use Rattle.ips_line.specs.Seen.{seen};
ghost use Rattle.ips_digest.specs.Name.{AreNameDigits};
ghost use Rattle.ips_action.specs.Attrs.{Attr};
ghost use Rattle.ips_action.specs.declared.fault.ActionFault as faults;
ghost use Rattle.ips_action.specs.Attrs.{AreAttrs, Gathers};
ghost use Rattle.ips_action.specs.Judging.{FindsFirst, rows_of};
ghost use Rattle.ips_action.specs.Action.{Fields, IsAction, IfTaken, IfName, payload_word};
ghost use Rattle.ips_action.specs.Meaning.{Means, IsSaid, FaultOf, IsFirstFault, IsReadAs, IsRefusedAs, held, word_fault};

use crate::action::Action;
use crate::attrs::Attrs;
use crate::fault::ActionFault;
use crate::holding::hold;
use crate::judging::{judge, takes_payload};
use crate::kind::ActionKind;
use ips_digest::PayloadName;
use ips_line::{Pair, WordFault, Words, read_words};
use ips_text::Or;
use std::alloc::Global;

/// Reads a line of a manifest (pkg(7), "Actions"), which has to be all of the text: the name of an action, its payload's name
/// where it has one, and attributes `key=value`. Leading `/` of a path are dropped. Attributes that the action doesn't know are
/// kept. The first fault is told: of the words; then that the name is none; then a payload word where the action has no
/// payload; then what the rows of the table find, one after the other.
pub fn parse_line(alloc: Global, line: &str) -> Result<Action, Or<ActionFault>>
    ensures found { IfOk result (λ action. Means line.now action) }
    ensures only { (action : Fields) → Means line.now action → Gives (λ x. x) result (Ok action) }
    ensures first { IfBad result (λ fault. IsFirstFault line.now fault) }
    ensures faults { (fault : faults.ActionFault) → IsFirstFault line.now fault → Gives (λ x. x) result (Err fault) }
{
    match read_words(alloc, line) {
        Ok(words) => action_of(alloc, words),
        Err(Or::Bad(fault)) => Err(Or::Bad(fault_of(fault))),
        Err(Or::OutOfMemory) => Err(Or::OutOfMemory),
    }
}

// A fault of words, as one of an action.
pub(crate) fn fault_of(fault: WordFault) -> ActionFault
    ensures { result ≡ word_fault fault }
{
    match fault {
        WordFault::BadWord { place } => ActionFault::BadWord { place },
        WordFault::OpenQuote { place } => ActionFault::OpenQuote { place },
    }
}

// The action that the words of a line are, or their first fault.
pub(crate) fn action_of(alloc: Global, words: Words<'_>) -> Result<Action, Or<ActionFault>>
    requires { AllByRecursion (λ (p : line_pair.Pair). IsRunOfBytes in_key p.key) words.pairs.items }
    ensures found { IfOk result (λ action. IsSaid (seen words.entry) action) }
    ensures first { IfBad result (λ fault. FaultOf (seen words.entry) fault) }
{
    let Words {
        name,
        payload,
        pairs,
    } = words;
    let Some(kind) = ActionKind::named(name.text) else {
        return Err(Or::Bad(ActionFault::UnknownAction { place: name.place }));
    };
    match payload {
        Some(word) if !takes_payload(kind) => {
            Err(Or::Bad(ActionFault::BadWord { place: word.place }))
        }
        Some(word) => judged(alloc, kind, Some(word.text), pairs),
        None => judged(alloc, kind, None, pairs),
    }
}

// The action of this kind, payload word and `key=value`, or the first fault that its rows find.
fn judged(
    alloc: Global,
    kind: ActionKind,
    payload: Option<&str>,
    pairs: Vec<Pair>,
) -> Result<Action, Or<ActionFault>>
    requires keys { AllByRecursion (λ (p : line_pair.Pair). IsRunOfBytes in_key p.key) pairs.items }
    requires taken { IfTaken kind payload }
    ensures found { IfOk result (λ action. IsReadAs kind (option_map (λ w. w.now) payload.entry) pairs.items action) }
    ensures first { IfBad result (λ fault. IsRefusedAs kind (option_map (λ w. w.now) payload.entry) pairs.items fault) }
{
    let attrs = Attrs::gather(alloc, hold(alloc, kind, pairs)?)?;
    judge(alloc, kind, payload, &attrs)?;
    Ok(Action {
        kind,
        payload: name_of(payload),
        attrs,
    })
}

// The name of the payload that the word spells.
fn name_of(payload: Option<&str>) -> Option<PayloadName>
    requires { IfSome payload (λ word. AreNameDigits word.now) }
    ensures word { payload_word result ≡ option_map (λ w. w.now) payload.entry }
    ensures named { IfName result }
{
    match payload {
        Some(word) => PayloadName::parse(word),
        None => None,
    }
}
