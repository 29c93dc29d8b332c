//! The letters of one turn.

ghost use Rattle.std.specs.Prelude.{◌≡◌, length};

use crate::letters::SentLetter;
use std::marker::Model;

/// Where the letters of a turn lie.
#[derive(Drop)]
pub(crate) enum LetterStorage {
    Zero,
    // In the value itself.
    One(SentLetter),
    Many(Vec<SentLetter>),
}

/// The letters of one turn. Most turns make one at most, for which there is no list.
#[derive(Drop)]
pub struct NewLetters {
    pub(crate) letters: LetterStorage,
}

impl Model for NewLetters {
    ghost use Rattle.unit_steps.specs.NewLetters.{NewLetters as MadeOf, few_items};

    ghost Value = { MadeOf };

    ghost view = { λ m. record { items = few_items m.letters } };
}

impl NewLetters {
    /// How many there are.
    #[inline(always)]
    pub fn len(&self) -> usize
        ensures { result ≡ length self.now.items }
    {
        match &self.letters {
            LetterStorage::Zero => 0,
            LetterStorage::One(_) => 1,
            LetterStorage::Many(letters) => letters.len(),
        }
    }
}
