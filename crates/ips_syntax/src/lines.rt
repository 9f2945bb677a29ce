//! Lines of words, read from left to right.

ghost use Rattle.std.specs.Prelude.{◌≡◌, ◌<◌, ◌≤◌, ◌∷◌, ℕ, suc, IfNone, IfOk, IfSome, Some, [], map, string_bytes, length};
ghost use Rattle.std.specs.List.{list_any};
ghost use Rattle.ips_text.specs.Reading.{Gives};
ghost use Rattle.ips_syntax.specs.Reading as reading;
ghost use Rattle.ips_syntax.specs.Values as values;

use crate::table::{
    Form, Operands, Role, VERBS, Verb, Why, operands_of, options_of, repeats, required_of,
    role_name, sets, value_form, verb_name,
};
use crate::values::{Given, Value, read_value};
use ips_text::{Or, Stop};
use std::alloc::Global;

/// What a line says.
#[derive(Clone, Copy, Drop)]
pub enum Line {
    /// `--help` alone.
    Help,
    /// `--help` behind a command.
    HelpOf(Verb),
    /// `--version` alone.
    Version,
    /// A command, with what is given to it.
    Does(Verb),
}

/// The next word, and the words behind it.
pub fn next_word(words: &[String]) -> Option<(&str, &[String])>
    ensures some { IfSome result (λ x. map string_bytes words.now ≡ x.0.now ∷ map string_bytes x.1.now) }
    ensures none { IfNone result (map string_bytes words.now ≡ []) }
    ensures shorter { IfSome result (λ x. length x.1.now < length words.now) }
{
    let (first, others) = words.split_first()?;
    Some((first.as_str(), others))
}

// A stop of this kind where these words are left.
fn stop(why: Why, words: &[String]) -> Or<Stop<Why>>
    ensures { result ≡ Or.Bad (reading.stop why (length (map string_bytes words.now))) }
{
    Or::Bad(Stop {
        kind: why,
        left: words.len(),
    })
}

// The command whose word this is.
fn verb_of(verbs: &[Verb], word: &str) -> Option<Verb>
    ensures { result ≡ reading.verb_in verbs.now word.now }
{
    let mut rest = verbs;
    while let [verb, after @ ..] = rest {
        if verb_name(*verb) == word {
            return Some(*verb);
        }
        rest = after;
    }
    None
}

// What a word is on the line of a command with these options.
fn role_in(roles: &[Role], word: &str) -> Role
    ensures { result ≡ reading.role_in roles.now word.now }
{
    let mut rest = roles;
    while let [role, after @ ..] = rest {
        if role_name(*role) == word {
            return *role;
        }
        rest = after;
    }
    Role::Operand
}

/// Whether the option, or one that excludes it, stands.
pub fn stands(role: Role, given: &[Given]) -> bool
    ensures { result ≡ reading.is_given role given.now }
{
    given.iter().any(|g| sets(g.role) == sets(role))
}

// Whether none of the options stands, of which one is required.
fn lacks(roles: &[Role], given: &[Given]) -> bool
    ensures { result ≡ reading.lacks roles.now given.now }
{
    !roles.is_empty() && !any_stands(roles, given)
}

// Whether one of the options stands.
fn any_stands(roles: &[Role], given: &[Given]) -> bool
    ensures { result ≡ list_any (λ r. reading.is_given r given.now) roles.now }
{
    roles.iter().any(|role| stands(*role, given))
}

// Whether a word behind the option is its value.
fn takes(role: Role) -> bool
    ensures { result ≡ reading.takes_value role }
{
    !matches!(value_form(role), Form::Nothing)
}

// The value of a word that stands where these words are left.
fn value_in(alloc: Global, form: Form, word: &str, left: &[String]) -> Result<Value, Or<Stop<Why>>>
    ensures { Gives (λ v. v) result (reading.stopping (length (map string_bytes left.now)) (values.value_at form word.now)) }
{
    match read_value(alloc, form, word) {
        Ok(value) => Ok(value),
        Err(Or::Bad(why)) => Err(stop(why, left)),
        Err(Or::OutOfMemory) => Err(Or::OutOfMemory),
    }
}

// One option is read, whose word stands before these words; the words behind it are left.
fn read_option<'a>(
    alloc: Global,
    role: Role,
    words: &'a [String],
    after: &'a [String],
    given: &mut Vec<Given>,
) -> Result<&'a [String], Or<Stop<Why>>>
    requires { length (map string_bytes words.now) ≡ suc (length (map string_bytes after.now)) }
    ensures gives { Gives (λ rest. (given.new.items, map string_bytes rest.now)) result (reading.option_at role given.old.items (map string_bytes after.now)) }
    ensures shorter { IfOk result (λ rest. length rest.now ≤ length after.now) }
{
    if !repeats(role) && stands(role, given) {
        return Err(stop(Why::Repeated, words));
    }
    if !takes(role) {
        given.push(Given {
            role,
            value: Value::Nothing,
        })?;
        return Ok(after);
    }
    let Some((word, rest)) = next_word(after) else {
        return Err(stop(Why::Missing, after));
    };
    let value = value_in(alloc, value_form(role), word, after)?;
    given.push(Given { role, value })?;
    Ok(rest)
}

// The options are read, up to the first word that is none; the words from there are left.
#[tactic(auto, using(crate::proofs::Steps::options_more, crate::proofs::Steps::options_none))]
fn read_options<'a>(
    alloc: Global,
    verb: Verb,
    words: &'a [String],
    given: &mut Vec<Given>,
) -> Result<&'a [String], Or<Stop<Why>>>
    ensures { Gives (λ rest. (given.new.items, map string_bytes rest.now)) result (reading.options_at verb given.old.items (map string_bytes words.now)) }
{
    let mut rest = words;
    while let Some((word, after)) = next_word(rest) {
        let role = role_in(options_of(verb), word);
        if sets(role) == 0 {
            return Ok(rest);
        }
        rest = read_option(alloc, role, rest, after, given)?;
    }
    Ok(rest)
}

// Whether the word begins with `-`.
fn is_dashed(word: &str) -> bool
    ensures { result ≡ reading.is_dashed word.now }
{
    matches!(word.as_bytes(), [b'-', ..])
}

// Whether both values set one name.
fn is_same_name(value: &Value, other: &Value) -> bool
    ensures { result ≡ reading.is_same_name value.now other.now }
{
    match (value, other) {
        (Value::Facet(a), Value::Facet(b)) => a.name.as_str() == b.name.as_str(),
        (Value::Freeze(a), Value::Freeze(b)) => a.stem.as_str() == b.stem.as_str(),
        _ => false,
    }
}

// Whether the name that a value sets is set already.
fn is_named(value: &Value, given: &[Given]) -> bool
    ensures { result ≡ reading.is_name_given value.now given.now }
{
    given.iter().any(|g| is_same_name(value, &g.value))
}

// One operand is read, which is the first of these words.
fn read_operand(
    alloc: Global,
    form: Form,
    words: &[String],
    word: &str,
    given: &mut Vec<Given>,
) -> Result<(), Or<Stop<Why>>>
    ensures { Gives (λ _. given.new.items) result (reading.operand_at form (length (map string_bytes words.now)) given.old.items word.now) }
{
    let value = value_in(alloc, form, word, words)?;
    if is_named(&value, given) {
        return Err(stop(Why::Repeated, words));
    }
    given.push(Given {
        role: Role::Operand,
        value,
    })?;
    Ok(())
}

// The operands are read to the end of the line.
#[tactic(auto, unfolding(crate::specs::Reading::operands_at))]
fn read_operands(
    alloc: Global,
    operands: Operands,
    words: &[String],
    given: &mut Vec<Given>,
) -> Result<(), Or<Stop<Why>>>
    ensures { Gives (λ _. given.new.items) result (reading.operands_at operands 0 given.old.items (map string_bytes words.now)) }
{
    let mut rest = words;
    let mut count: u64 = 0;
    while let Some((word, after)) = next_word(rest) {
        if operands.most <= count {
            return Err(stop(Why::Extra, rest));
        }
        if is_dashed(word) {
            return Err(stop(Why::Unknown, rest));
        }
        read_operand(alloc, operands.form, rest, word, given)?;
        count += 1;
        rest = after;
    }
    if count < operands.least {
        return Err(stop(Why::Missing, rest));
    }
    Ok(())
}

// What stands behind the options.
fn read_behind(
    alloc: Global,
    verb: Verb,
    words: &[String],
    given: &mut Vec<Given>,
) -> Result<(), Or<Stop<Why>>>
    ensures { Gives (λ _. given.new.items) result (reading.behind_options verb given.old.items (map string_bytes words.now)) }
{
    let lacking = lacks(required_of(verb), given);
    match next_word(words) {
        Some((word, _)) if is_dashed(word) || lacking => return Err(stop(Why::Unknown, words)),
        None if lacking => return Err(stop(Why::Missing, words)),
        _ => {}
    }
    read_operands(alloc, operands_of(verb), words, given)
}

// What stands behind a command.
fn read_rest(
    alloc: Global,
    verb: Verb,
    words: &[String],
    given: &mut Vec<Given>,
) -> Result<(), Or<Stop<Why>>>
    requires { given.old.items ≡ [] }
    ensures { Gives (λ _. given.new.items) result (reading.rest_at verb (map string_bytes words.now)) }
{
    let behind = read_options(alloc, verb, words, given)?;
    read_behind(alloc, verb, behind, given)
}

// A word that stands for this alone.
fn alone(line: Line, words: &[String]) -> Result<Line, Or<Stop<Why>>>
    ensures { Gives (λ l. (l, [])) result (reading.alone line (map string_bytes words.now)) }
{
    match next_word(words) {
        Some(_) => Err(stop(Why::Extra, words)),
        None => Ok(line),
    }
}

// What stands behind a word where a command or a leading word is wanted.
fn read_help(verb: Verb, words: &[String]) -> Result<Line, Or<Stop<Why>>>
    ensures { Gives (λ l. (l, [])) result (reading.help_of verb (map string_bytes words.now)) }
{
    match next_word(words) {
        None => Err(stop(Why::Missing, words)),
        Some((word, after)) if word == "--help" => alone(Line::HelpOf(verb), after),
        Some(_) => Err(stop(Why::Unknown, words)),
    }
}

// What stands behind `-s`.
fn read_repository(
    alloc: Global,
    words: &[String],
    given: &mut Vec<Given>,
) -> Result<Line, Or<Stop<Why>>>
    requires { given.old.items ≡ [] }
    ensures { Gives (λ l. (l, given.new.items)) result (reading.repository_at (map string_bytes words.now)) }
{
    let Some((_, from)) = next_word(words) else {
        return Err(stop(Why::Missing, words));
    };
    let Some((word, after)) = next_word(from) else {
        return Err(stop(Why::Missing, from));
    };
    let Some(verb) = verb_of(&VERBS, word) else {
        return Err(stop(Why::Unknown, from));
    };
    read_rest(alloc, verb, after, given)?;
    Ok(Line::Does(verb))
}

// What stands behind `-R`.
fn read_image(
    alloc: Global,
    words: &[String],
    given: &mut Vec<Given>,
) -> Result<Line, Or<Stop<Why>>>
    requires { given.old.items ≡ [] }
    ensures { Gives (λ l. (l, given.new.items)) result (reading.image_at (map string_bytes words.now)) }
{
    let Some((_, from)) = next_word(words) else {
        return Err(stop(Why::Missing, words));
    };
    match next_word(from) {
        None => Err(stop(Why::Missing, from)),
        Some((word, after)) if word == "-s" => read_repository(alloc, after, given),
        Some(_) => Err(stop(Why::Unknown, from)),
    }
}

/// A whole line, with what is given to its command.
pub fn read_line(
    alloc: Global,
    words: &[String],
    given: &mut Vec<Given>,
) -> Result<Line, Or<Stop<Why>>>
    requires { given.old.items ≡ [] }
    ensures { Gives (λ l. (l, given.new.items)) result (reading.line_of_words (map string_bytes words.now)) }
{
    let Some((word, after)) = next_word(words) else {
        return Err(stop(Why::Missing, words));
    };
    if word == "-R" {
        return read_image(alloc, after, given);
    }
    if word == "--help" {
        return alone(Line::Help, after);
    }
    if word == "--version" {
        return alone(Line::Version, after);
    }
    match verb_of(&VERBS, word) {
        Some(verb) => read_help(verb, after),
        None => Err(stop(Why::Unknown, words)),
    }
}
