//! One letter.

ghost use Rattle.std.specs.Prelude.{◌≡◌};
ghost use Rattle.spent_letters.specs.Stretches.{same_letter};

use model::Unit;

/// What is left of a letter whose content is forgotten: from whom it was, and to whom. Two bytes.
#[derive(Clone, Copy, Debug, PartialEq, Eq)]
pub struct SpentLetter {
    pub source: Unit,
    pub receiver: Unit,
}

impl SpentLetter {
    /// Whether the other one had the same sender and the same receiver.
    pub(crate) fn is_as(&self, other: &SpentLetter) -> bool
        ensures { result ≡ same_letter self.now other.now }
    {
        self.source == other.source && self.receiver == other.receiver
    }
}
