//! What the words ask for.

ghost use Rattle.std.specs.Prelude.{◌≡◌, ◌≤◌, IfOk, OnOk, IfSome, IfNone, Some, Err, length, map, slice_get, string_bytes};
ghost use Rattle.ips_text.specs.Path.{IsPath};
ghost use Rattle.ips_text.specs.declared.refusal.Or.TheVariants.{Bad};
ghost use Rattle.ips_text.specs.Reading.{IfBad};
ghost use Rattle.ips_mogrify.specs.Outcome.{AsksToTransform, IsWordFault};
ghost use Rattle.ips_mogrify.specs.Reading.{IsWrong};

use ips_syntax::Why;
use ips_text::{Or, RelPath};
use ips_words::Usage;
use std::alloc::Global;

/// The paths of the rules and of the manifest.
#[derive(Drop)]
pub struct Asked {
    pub rules: RelPath,
    pub manifest: RelPath,
}

/// What the words ask for: `mogrify -d <folder> <rules path> <manifest path>`.
pub fn read_asked(alloc: Global, words: &[String]) -> Result<Asked, Or<Usage>>
    ensures found { IfOk result (λ asked. AsksToTransform (map string_bytes words.now) asked.rules.bytes asked.manifest.bytes) }
    ensures bad { IfBad result (λ usage. IsWordFault (map string_bytes words.now) usage.place usage.why) }
{
    check_word(words, 0, "mogrify")?;
    check_word(words, 1, "-d")?;
    if words.len() < 3 {
        return wrong(2, Why::Missing);
    }
    let rules = path_at(alloc, words, 3)?;
    let manifest = path_at(alloc, words, 4)?;
    if words.len() > 5 {
        return wrong(5, Why::Extra);
    }
    Ok(Asked { rules, manifest })
}

// Whether this word stands at the place.
fn check_word(words: &[String], place: usize, wanted: &str) -> Result<(), Or<Usage>>
    ensures found { OnOk result (slice_get (map string_bytes words.now) place ≡ Some wanted.now) }
    ensures bad { IfBad result (IsWrong (map string_bytes words.now) place (λ word. word ≡ wanted.now) Why.Unknown) }
{
    match word_at(words, place) {
        Some(word) if word == wanted => Ok(()),
        Some(_) => wrong(place, Why::Unknown),
        None => wrong(place, Why::Missing),
    }
}

// The path that stands at the place.
fn path_at(alloc: Global, words: &[String], place: usize) -> Result<RelPath, Or<Usage>>
    ensures found { IfOk result (λ path. (slice_get (map string_bytes words.now) place ≡ Some path.bytes) × IsPath path.bytes) }
    ensures bad { IfBad result (IsWrong (map string_bytes words.now) place IsPath Why.BadValue) }
{
    let Some(word) = word_at(words, place) else {
        return wrong(place, Why::Missing);
    };
    match RelPath::parse(alloc, word.as_bytes()) {
        Ok(path) => Ok(path),
        Err(Or::Bad(_)) => wrong(place, Why::BadValue),
        Err(Or::OutOfMemory) => Err(Or::OutOfMemory),
    }
}

// The word at the place, where there is one.
fn word_at(words: &[String], place: usize) -> Option<&str>
    ensures some { IfSome result (λ word. slice_get (map string_bytes words.now) place ≡ Some word.now) }
    ensures none { IfNone result (length (map string_bytes words.now) ≤ place) }
{
    match words.get(place) {
        Some(word) => Some(word.as_str()),
        None => None,
    }
}

// The words go wrong at this place.
fn wrong<T>(place: usize, why: Why) -> Result<T, Or<Usage>>
    ensures { result ≡ Err (Bad (record { place = place; why = why })) }
{
    Err(Or::Bad(Usage {
        place: place as u64,
        why,
    }))
}
