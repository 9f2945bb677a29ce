//! Reading the words.

ghost use Rattle.std.specs.Prelude.{◌≡◌, ◌<◌, ℕ, List, IfOk, IfErr, OnOk, Some, codes, map, slice_get, take, string_bytes};
ghost use Rattle.ips_text.specs.Reading.{IfBad};
ghost use Rattle.ips_send_words.specs.Form.{Begin};
ghost use Rattle.ips_send_words.specs.Words.{Asks, IsUsage, Names, NamesSome, create_form, publish_form};
ghost use Rattle.ips_send_words.specs.Reading.{IsWrong, operand_cause};

use crate::request::Request;
use crate::stamping::{Package, named};
use crate::words::{check_word, missing, path_at, publisher_at, why_bad, word_at};
use ips_syntax::Why;
use ips_text::Or;
use ips_words::Usage;
use std::alloc::Global;

/// What the words ask for at the moment: `send -s <repository> -d <folder> create <publisher>`, or
/// `send -s <repository> -d <folder> publish <fmri> <path>`.
///
/// # Errors
///
/// The first place at which no such words go on, and what is wrong there.
pub fn read_request(alloc: Global, words: &[String], moment: u64) -> Result<Request, Or<Usage>>
    requires { moment < 253370764800 }
    ensures found { IfOk result (Asks moment (map string_bytes words.now)) }
    ensures bad { IfBad result (λ usage. IsUsage moment (map string_bytes words.now) usage.place usage.why) }
{
    match check_front(words) {
        Ok(()) => {}
        Err(usage) => return Err(Or::Bad(usage)),
    }
    match word_at(words, 5) {
        Some("create") => read_create(alloc, words),
        Some("publish") => read_publish(alloc, words, moment),
        Some(_) => Err(Or::Bad(Usage {
            place: 5,
            why: Why::Unknown,
        })),
        None => Err(Or::Bad(missing(words))),
    }
}

// Whether the first five words are those of both forms.
fn check_front(words: &[String]) -> Result<(), Usage>
    ensures found { OnOk result (Begin create_form (take 5 (map string_bytes words.now))) }
    ensures either { OnOk result ((moment : ℕ) → Begin (publish_form moment) (take 5 (map string_bytes words.now))) }
    ensures bad { IfErr result (λ usage. (moment : ℕ) → IsUsage moment (map string_bytes words.now) usage.place usage.why) }
{
    match check_word(words, 0, "send") {
        Ok(()) => {}
        Err(usage) => return Err(usage),
    }
    match check_word(words, 1, "-s") {
        Ok(()) => {}
        Err(usage) => return Err(usage),
    }
    match check_word(words, 3, "-d") {
        Ok(()) => Ok(()),
        Err(usage) => Err(usage),
    }
}

// What is asked for behind `create`.
fn read_create(alloc: Global, words: &[String]) -> Result<Request, Or<Usage>>
    requires front { Begin create_form (take 5 (map string_bytes words.now)) }
    requires verb { slice_get (map string_bytes words.now) 5 ≡ Some (codes "create") }
    ensures found { IfOk result (λ request. (moment : ℕ) → Asks moment (map string_bytes words.now) request) }
    ensures bad { IfBad result (λ usage. (moment : ℕ) → IsUsage moment (map string_bytes words.now) usage.place usage.why) }
{
    let publisher = match publisher_at(alloc, words, 6) {
        Ok(publisher) => publisher,
        Err(fault) => return Err(fault),
    };
    if words.len() > 7 {
        return Err(Or::Bad(Usage {
            place: 7,
            why: Why::Extra,
        }));
    }
    Ok(Request::Create { publisher })
}

// What is asked for behind `publish`.
fn read_publish(alloc: Global, words: &[String], moment: u64) -> Result<Request, Or<Usage>>
    requires moment { moment < 253370764800 }
    requires front { Begin (publish_form moment) (take 5 (map string_bytes words.now)) }
    requires verb { slice_get (map string_bytes words.now) 5 ≡ Some (codes "publish") }
    ensures found { IfOk result (Asks moment (map string_bytes words.now)) }
    ensures bad { IfBad result (λ usage. IsUsage moment (map string_bytes words.now) usage.place usage.why) }
{
    let named = match named_at(alloc, words, 6, moment) {
        Ok(named) => named,
        Err(fault) => return Err(fault),
    };
    let path = match path_at(alloc, words, 7) {
        Ok(path) => path,
        Err(fault) => return Err(fault),
    };
    if words.len() > 8 {
        return Err(Or::Bad(Usage {
            place: 8,
            why: Why::Extra,
        }));
    }
    Ok(Request::Publish {
        publisher: named.publisher,
        stem: named.stem,
        version: named.version,
        path,
    })
}

// The version that the word at the place names.
fn named_at(
    alloc: Global,
    words: &[String],
    place: usize,
    moment: u64,
) -> Result<Package, Or<Usage>>
    requires { moment < 253370764800 }
    ensures found { IfOk result (λ named. (word : List ℕ) × (slice_get (map string_bytes words.now) place ≡ Some word) × Names moment word named.publisher named.stem named.version) }
    ensures bad { IfBad result (IsWrong (map string_bytes words.now) place (NamesSome moment) operand_cause) }
{
    let Some(word) = word_at(words, place) else {
        return Err(Or::Bad(missing(words)));
    };
    match named(alloc, word, moment)? {
        Some(named) => Ok(named),
        None => Err(Or::Bad(Usage {
            place: place as u64,
            why: why_bad(word),
        })),
    }
}
