//! A part of a list of letters, which repeats.

ghost use Rattle.std.specs.Prelude.{◌≡◌, ◌<◌, ◌≤◌, ◌+◌, ◌^◌, ℕ, Some, drop, length, slice_get};
ghost use Rattle.spent_letters.specs.Stretches.{agree, grown, next, period, repeats, told};

use crate::letter::SpentLetter;
use std::marker::Model;

/// So many letters of a stretch are kept in full.
pub const HEAD: usize = 128;

/// Letters of which the first `HEAD` are kept in full. Each later one is as the one a period before it.
#[derive(Drop)]
pub struct Stretch {
    start: usize,
    head: Vec<SpentLetter>,
    period: usize,
    more: usize,
}

impl Model for Stretch {
    ghost use Rattle.std.specs.Prelude.{◌≡◌, length};
    ghost use Rattle.spent_letters.specs.Stretches.{Stretch as StretchOf, period as period_of};
    ghost use Rattle.spent_letters.specs.declared.stretch.TheConstants.{HEAD};

    ghost Value = { StretchOf };

    ghost view = { λ s. record { start = s.start; head = s.head.items; more = s.more } };

    ghost invariant = { λ s. (s.period ≡ period_of s.head.items) × (length s.head.items ≡ HEAD) };
}

impl Stretch {
    /// The stretch of these first letters and so many more, before which there were so many.
    pub(crate) fn new(start: usize, head: Vec<SpentLetter>, more: usize) -> Stretch
        requires { length head.items ≡ HEAD }
        ensures { result ≡ record { start = start; head = head.items; more = more } }
    {
        let period = period_of(head.as_slice());
        Stretch {
            start,
            head,
            period,
            more,
        }
    }

    /// How many letters stand before it.
    pub(crate) fn start(&self) -> usize
        ensures { result ≡ self.now.start }
    {
        self.start
    }

    /// Its first letters.
    pub fn head(&self) -> &[SpentLetter]
        ensures { result.now ≡ self.now.head }
    {
        self.head.as_slice()
    }

    /// How many letters follow its first ones.
    pub fn more(&self) -> usize
        ensures { result ≡ self.now.more }
    {
        self.more
    }

    /// Whether the letter that would be its next one is this one.
    pub(crate) fn tells(&self, letter: &SpentLetter) -> bool
        requires { HEAD + self.now.more < 2 ^ 64 }
        ensures { result ≡ told (next self.now) letter.now }
    {
        self.head[(HEAD + self.more) % self.period].is_as(letter)
    }

    /// One more letter follows its first ones.
    pub(crate) fn lengthen(&mut self)
        requires { self.old.more + 1 < 2 ^ 64 }
        ensures { self.new ≡ record { start = self.old.start; head = self.old.head; more = self.old.more + 1 } }
    {
        self.more += 1;
    }

    /// The letter at this place within it.
    pub(crate) fn at(&self, place: usize) -> SpentLetter
        requires { place < HEAD + self.now.more }
        ensures { slice_get (grown self.now.head self.now.more) place ≡ Some result }
    {
        if place < HEAD {
            return self.head[place];
        }
        self.head[place % self.period]
    }
}

/// Whether each of these letters is as the one so many before it.
fn is_repeated(head: &[SpentLetter], period: usize) -> bool
    requires { period ≤ length head.now }
    ensures { result ≡ repeats head.now period }
{
    for at in period..head.len() {
        if !head[at].is_as(&head[at - period]) {
            return false;
        }
    }
    true
}

/// The least distance, up to half of them, at which these letters repeat, else how many they are.
fn period_of(head: &[SpentLetter]) -> usize
    ensures { result ≡ period head.now }
{
    let half = head.len() / 2;
    for at in 0..half {
        if is_repeated(head, at + 1) {
            return at + 1;
        }
    }
    head.len()
}
