//! In which stretch a letter is.

ghost use Rattle.std.specs.Prelude.{◌≡◌, ◌<◌, ◌≤◌, ◌+◌, ℕ, Some, length, reverse, slice_get};
ghost use Rattle.spent_letters.specs.Stretches.{AreWhole, Stretch as StretchOf, letters_in};
ghost use Rattle.spent_letters.specs.declared.stretch.TheConstants.{HEAD};

use crate::stretch::Stretch;

/// The stretch that has the letter of this number, by halving.
pub(crate) fn stretch_of(stretches: &[Stretch], number: usize) -> usize
    requires whole { AreWhole (reverse stretches.now) }
    requires within { number < length (letters_in (reverse stretches.now)) }
    ensures within { result < length stretches.now }
    ensures has { (s : StretchOf) → slice_get stretches.now result ≡ Some s
        → (s.start ≤ number) × (number < s.start + (HEAD + s.more)) }
{
    let mut low = 0;
    let mut high = stretches.len();
    while high - low > 1 {
        let middle = low + (high - low) / 2;
        if stretches[middle].start() <= number {
            low = middle;
        } else {
            high = middle;
        }
    }
    low
}
