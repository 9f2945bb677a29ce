//! Words that a program is run with.

use ips_text::Text;
use std::alloc::{AllocError, Global};
use std::marker::Model;

/// The words of one run: the program, a verb and a service. Contracts see the list of their bytes.
#[derive(Drop)]
pub struct Words {
    words: Vec<Text>,
}

impl Model for Words {
    ghost use Rattle.std.specs.Prelude.{ℕ, List};

    ghost Value = { List (List ℕ) };

    ghost view = { λ w. w.words.items };
}

impl Words {
    ghost use Rattle.std.specs.Prelude.{◌≡◌, ◌∷◌, [], IfOk};

    /// The words, in order.
    pub fn as_slice(&self) -> &[Text]
        ensures { result.now ≡ self.now }
    {
        &self.words
    }

    // The words of a run of the program with a verb for a service.
    pub(crate) fn run(
        alloc: Global,
        program: &Text,
        verb: &str,
        service: &Text,
    ) -> Result<Words, AllocError>
        ensures { IfOk result (λ words. words ≡ program.now ∷ verb.now ∷ service.now ∷ []) }
    {
        let mut words = Vec::with_capacity(alloc, 3)?;
        words.push(program.copy(alloc)?)?;
        words.push(Text::new(alloc, verb)?)?;
        words.push(service.copy(alloc)?)?;
        Ok(Words { words })
    }
}
