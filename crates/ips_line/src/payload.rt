//! The payload word of a line.

ghost use Rattle.std.specs.Prelude.{◌≡◌};
ghost use Rattle.ips_text.specs.Reading.{Sees};
ghost use Rattle.ips_line.specs.Reading as reading;
ghost use Rattle.ips_line.specs.Reading.{payload_at};
ghost use Rattle.ips_line.specs.Seen.{seen_gapped};

use crate::classes::{Class, begins_with, run, wrong};
use crate::fault::Part;
use ips_text::Stop;

/// A payload word, and the blanks before it.
#[derive(Clone, Copy, Drop)]
pub struct Payload<'a> {
    pub gap: &'a str,
    pub word: &'a str,
}

/// The payload word, where the next word is one, and what stands behind it. A word before `=` that is no key is wrong at
/// the `=`, since without it the line would go on.
#[tactic(auto, unfolding(crate::specs::Reading::payload_at))]
pub fn read_payload(text: &str) -> Result<(Option<Payload<'_>>, &str), Stop<Part>>
    ensures { Sees (λ x. (seen_gapped x.0, x.1.now)) result (payload_at text.now) }
{
    let (gap, rest) = run(Class::Blank, text);
    let (word, behind) = run(Class::Payload, rest);
    if gap.is_empty() {
        Ok((None, text))
    } else if begins_with(b'=', behind) {
        if is_key(word) {
            Ok((None, text))
        } else {
            Err(wrong(behind))
        }
    } else if word.is_empty() {
        Ok((None, text))
    } else {
        Ok((Some(Payload { gap, word }), behind))
    }
}

// Whether the word is a key.
fn is_key(word: &str) -> bool
    ensures { result ≡ reading.is_key word.now }
{
    let (key, rest) = run(Class::Key, word);
    !key.is_empty() && rest.is_empty()
}
