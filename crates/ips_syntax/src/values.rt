//! The values of words.

ghost use Rattle.std.specs.Prelude.{◌≡◌, false, IfNone, IfOk, IfSome, Some, None};
ghost use Rattle.std.specs.List.{list_all};
ghost use Rattle.ips_text.specs.Reading.{Gives};
ghost use Rattle.ips_text.specs.Number.{number_at};
ghost use Rattle.ips_fmri.specs.Name as name;
ghost use Rattle.ips_syntax.specs.declared.table.Why.TheVariants as why;
ghost use Rattle.ips_syntax.specs.declared.table.Form.TheVariants as form;
ghost use Rattle.ips_syntax.specs.declared.values.Value.TheVariants as value;
ghost use Rattle.ips_syntax.specs.Values as values;
ghost use Rattle.ips_syntax.specs.Values.{checked, cut, facet_of, value_made_of, same_in_any_case, switch_of, value_at, within};

use crate::table::{Form, Role, Why};
use ips_fmri::{Fmri, Pattern, Version};
use ips_text::{Or, Text, fits_name, number};
use std::alloc::{AllocError, Global};

/// A variant and what it is set to.
#[derive(Drop)]
pub struct VariantWord {
    /// Its name, which begins with `variant.`.
    pub name: Text,
    /// Its value, which isn't empty.
    pub value: Text,
}

/// A facet and what it is set to.
#[derive(Drop)]
pub struct FacetWord {
    /// Its name or pattern, which begins with `facet.`.
    pub name: Text,
    /// Whether it is on; None takes the setting away.
    pub on: Option<bool>,
}

/// The value of a word.
#[derive(Drop)]
pub enum Value {
    /// An option that has no value.
    Nothing,
    Word(Text),
    Number(u64),
    Pattern(Pattern),
    Freeze(Fmri),
    Version(Version),
    Variant(VariantWord),
    Facet(FacetWord),
}

/// What one option or operand gives.
#[derive(Drop)]
pub struct Given {
    /// Which option it is, or an operand.
    pub role: Role,
    /// Its value.
    pub value: Value,
}

/// The value of a word in a form.
pub fn read_value(alloc: Global, form: Form, word: &str) -> Result<Value, Or<Why>>
    ensures { Gives (λ v. v) result (value_at form word.now) }
{
    match form {
        Form::Nothing => Err(Or::Bad(Why::BadValue)),
        Form::Any => text_value(alloc, word, true),
        Form::Filled => text_value(alloc, word, !word.is_empty()),
        Form::Implementation => text_value(alloc, word, !word.is_empty() && word != "-"),
        Form::Publisher => text_value(alloc, word, is_publisher(word.as_bytes())),
        Form::Stem => read_stem(alloc, word),
        Form::Pattern => read_pattern(alloc, word),
        Form::Freeze => read_freeze(alloc, word),
        Form::Version => read_version(alloc, word),
        Form::Limit => read_number(word, 1, u64::MAX),
        Form::Count => read_number(word, 1, 2000),
        Form::Variant => read_variant(alloc, word),
        Form::Switch => read_facet(alloc, word, false),
        Form::Setting => read_facet(alloc, word, true),
    }
}

// The word itself, where it may stand.
fn text_value(alloc: Global, word: &str, may_stand: bool) -> Result<Value, Or<Why>>
    ensures { Gives (λ v. v) result (checked may_stand (value.Word word.now)) }
{
    if !may_stand {
        return Err(Or::Bad(Why::BadValue));
    }
    Ok(Value::Word(Text::new(alloc, word)?))
}

// Whether the bytes are the name of a publisher.
fn is_publisher(bytes: &[u8]) -> bool
    ensures { result ≡ values.is_publisher bytes.now }
{
    match bytes {
        [first, rest @ ..] if first.is_ascii_alphanumeric() => {
            all_may_go_on(rest) && fits_name(bytes)
        }
        _ => false,
    }
}

// Whether a component may go on with all of the bytes.
fn all_may_go_on(bytes: &[u8]) -> bool
    ensures { result ≡ list_all (name.may_go_on false) bytes.now }
{
    bytes.iter().all(|byte| may_go_on(*byte))
}

// Whether a component may go on with the byte.
fn may_go_on(byte: u8) -> bool
    ensures { result ≡ name.may_go_on false byte }
{
    byte.is_ascii_alphanumeric() || matches!(byte, b'_' | b'-' | b'.' | b'+')
}

// A stem.
fn read_stem(alloc: Global, word: &str) -> Result<Value, Or<Why>>
    ensures { Gives (λ v. v) result (value_at form.Stem word.now) }
{
    match Fmri::parse(alloc, word) {
        Ok(fmri) if fmri.stem.as_str() == word => Ok(Value::Word(fmri.stem)),
        Err(Or::OutOfMemory) => Err(Or::OutOfMemory),
        _ => Err(Or::Bad(Why::BadValue)),
    }
}

// A pattern.
fn read_pattern(alloc: Global, word: &str) -> Result<Value, Or<Why>>
    ensures { Gives (λ v. v) result (value_at form.Pattern word.now) }
{
    match Pattern::parse(alloc, word) {
        Ok(pattern) => Ok(Value::Pattern(pattern)),
        Err(Or::OutOfMemory) => Err(Or::OutOfMemory),
        Err(Or::Bad(_)) => Err(Or::Bad(Why::BadValue)),
    }
}

// A stem with a version.
fn read_freeze(alloc: Global, word: &str) -> Result<Value, Or<Why>>
    ensures { Gives (λ v. v) result (value_at form.Freeze word.now) }
{
    match Fmri::parse(alloc, word) {
        Ok(fmri) if has_version_alone(&fmri) && !word.as_bytes().starts_with(b"pkg:") => {
            Ok(Value::Freeze(fmri))
        }
        Err(Or::OutOfMemory) => Err(Or::OutOfMemory),
        _ => Err(Or::Bad(Why::BadValue)),
    }
}

// Whether the name has no publisher and a version.
fn has_version_alone(fmri: &Fmri) -> bool
    ensures { result ≡ values.has_version_alone fmri.now }
{
    fmri.publisher.is_none() && fmri.version.is_some()
}

// Numbers joined by dots.
fn read_version(alloc: Global, word: &str) -> Result<Value, Or<Why>>
    ensures { Gives (λ v. v) result (value_at form.Version word.now) }
{
    match Version::parse(alloc, word) {
        Ok(version) if is_release(&version) => Ok(Value::Version(version)),
        Err(Or::OutOfMemory) => Err(Or::OutOfMemory),
        _ => Err(Or::Bad(Why::BadValue)),
    }
}

// Whether the version is its release alone.
fn is_release(version: &Version) -> bool
    ensures { result ≡ values.is_release version.now }
{
    version.build().is_empty() && version.branch().is_empty() && version.stamp().is_none()
}

// A number from the one to the other.
fn read_number(word: &str, low: u64, high: u64) -> Result<Value, Or<Why>>
    ensures { Gives (λ v. v) result (within low high (number_at why.BadValue word.now)) }
{
    match number(Why::BadValue, word.as_bytes()) {
        Ok((n, rest)) if rest.is_empty() && low <= n && n <= high => Ok(Value::Number(n)),
        _ => Err(Or::Bad(Why::BadValue)),
    }
}

// The name before the first `=`, and the text behind it.
fn cut_word(word: &str) -> Option<(&str, &str)>
    ensures none { IfNone result (cut word.now ≡ None) }
    ensures some { IfSome result (λ x. cut word.now ≡ Some (x.0.now, x.1.now)) }
{
    word.split_once('=')
}

// A variant and its value.
fn read_variant(alloc: Global, word: &str) -> Result<Value, Or<Why>>
    ensures { Gives (λ v. v) result (value_at form.Variant word.now) }
{
    let Some((name, value)) = cut_word(word) else {
        return Err(Or::Bad(Why::BadValue));
    };
    if !goes_on(b"variant.", name.as_bytes()) || value.is_empty() {
        return Err(Or::Bad(Why::BadValue));
    }
    Ok(Value::Variant(variant_word(alloc, name, value)?))
}

// A variant of this name and value.
fn variant_word(alloc: Global, name: &str, value: &str) -> Result<VariantWord, AllocError>
    ensures { IfOk result (λ v. v ≡ record { name = name.now; value = value.now }) }
{
    Ok(VariantWord {
        name: Text::new(alloc, name)?,
        value: Text::new(alloc, value)?,
    })
}

// Whether the text begins with this one and goes on.
fn goes_on(front: &[u8], text: &[u8]) -> bool
    ensures { result ≡ values.goes_on front.now text.now }
{
    text.starts_with(front) && text.len() != front.len()
}

// A facet and what it is set to.
fn read_facet(alloc: Global, word: &str, or_none: bool) -> Result<Value, Or<Why>>
    ensures { Gives (λ v. v) result (value_made_of (facet_of or_none) (cut word.now)) }
{
    let Some((name, setting)) = cut_word(word) else {
        return Err(Or::Bad(Why::BadValue));
    };
    match read_switch(setting) {
        Some(on) if goes_on(b"facet.", name.as_bytes()) && (or_none || on.is_some()) => {
            let name = Text::new(alloc, name)?;
            Ok(Value::Facet(FacetWord { name, on }))
        }
        _ => Err(Or::Bad(Why::BadValue)),
    }
}

// What a facet is set to by a word, in any case of its letters.
fn read_switch(word: &str) -> Option<Option<bool>>
    ensures { result ≡ switch_of word.now }
{
    if is_word(word, "true") {
        Some(Some(true))
    } else if is_word(word, "false") {
        Some(Some(false))
    } else if is_word(word, "none") {
        Some(None)
    } else {
        None
    }
}

// Whether the texts are the same in any case of their letters.
fn is_word(word: &str, wanted: &str) -> bool
    ensures { result ≡ same_in_any_case word.now wanted.now }
{
    word.eq_ignore_ascii_case(wanted)
}
