//! The starts of a unit's rows, among which the first low one is found in a constant time.

ghost use Rattle.std.specs.Prelude.{◌≡◌, ◌+◌, ◌-◌, ◌<◌, ◌≤◌, ◌^◌, ◌∷◌, [], ◌++◌, ℕ, List, IfOk, IsTrue, OnErr, length};
ghost use Rattle.std.specs.Prelude.{slice_index};
ghost use Rattle.incarnation.specs.Starts.{AllHigh, AreLows, IsBelowLast, IsFirstLow};

use model::NoMemory;
use std::alloc::Global;
use std::marker::Model;

/// The starts in order. Beside them stands the least of each 16, 256 and 4096 in a row, at the place
/// of the last of them, so that a search skips so many at once: it looks at no more than 64 numbers
/// for the 65,535 rows that a unit can have.
#[derive(Drop)]
pub struct Starts {
    starts: Vec<u64>,
    of_16: Vec<u64>,
    of_256: Vec<u64>,
    of_4096: Vec<u64>,
}

impl Model for Starts {
    ghost use Rattle.std.specs.Prelude.{List, ℕ};
    ghost use Rattle.incarnation.specs.Starts.{KeepsAll};

    ghost Value = { List ℕ };

    ghost view = { λ s. s.starts.items };

    ghost invariant = { λ s. KeepsAll s.starts.items s.of_16.items s.of_256.items s.of_4096.items };
}

impl Starts {
    /// No starts.
    #[tactic(auto, using(crate::proofs::StartsLaws::keeps_none))]
    pub(crate) fn new(alloc: Global) -> Starts
        ensures { result ≡ [] }
    {
        Starts {
            starts: Vec::new(alloc),
            of_16: Vec::new(alloc),
            of_256: Vec::new(alloc),
            of_4096: Vec::new(alloc),
        }
    }

    /// The first place from here on whose start is not above the index, or one past the end.
    pub(crate) fn first_low(&self, from: usize, index: u64) -> usize
        ensures { IsFirstLow self.now index from result }
    {
        let after_4096 = skip(self.of_4096.as_slice(), from, 4096, index);
        let after_256 = skip(self.of_256.as_slice(), after_4096, 256, index);
        let after_16 = skip(self.of_16.as_slice(), after_256, 16, index);
        first_from(self.starts.as_slice(), after_16, index)
    }

    /// Adds a start at the end.
    ///
    /// # Errors
    ///
    /// `NoMemory` where it finds no memory; the starts stay as they were.
    pub(crate) fn push(&mut self, start: u64) -> Result<(), NoMemory>
        ensures ok { IfOk result (λ _. self.new ≡ self.old ++ start ∷ []) }
        ensures err { OnErr result (self.new ≡ self.old) }
    {
        let of_16 = low_of(self.starts.as_slice(), start, 1, 16);
        let of_256 = low_of(self.of_16.as_slice(), of_16, 16, 256);
        let of_4096 = low_of(self.of_256.as_slice(), of_256, 256, 4096);
        self.starts.reserve(1)?;
        self.of_16.reserve(1)?;
        self.of_256.reserve(1)?;
        self.of_4096.reserve(1)?;
        self.starts.push_reserved(start);
        self.of_16.push_reserved(of_16);
        self.of_256.push_reserved(of_256);
        self.of_4096.push_reserved(of_4096);
        Ok(())
    }
}

/// Whether there are so many numbers from this place on, and all are above the index.
fn is_high(lows: &[u64], at: usize, size: usize, index: u64) -> bool
    requires { 0 < size }
    ensures { IsTrue result → (at + size ≤ length lows.now) × (index < slice_index lows.now (at + size - 1)) }
{
    if lows.len() < size || lows.len() - size < at {
        return false;
    }
    index < lows[at + size - 1]
}

/// Skips so many numbers at once, as long as all are above the index, and no more than 16 times.
fn skip(lows: &[u64], from: usize, size: usize, index: u64) -> usize
    requires { 0 < size }
    ensures after { from ≤ result }
    ensures high { (xs : List ℕ) → AreLows xs lows.now size → AllHigh xs index from result }
{
    let mut at = from;
    for _ in 0..16 {
        if !is_high(lows, at, size, index) {
            return at;
        }
        at += size;
    }
    at
}

/// The first place from here on that is not above the index, or one past the end.
fn first_from(starts: &[u64], from: usize, index: u64) -> usize
    ensures { IsFirstLow starts.now index from result }
{
    for at in from..starts.len() {
        if starts[at] <= index {
            return at;
        }
    }
    from.max(starts.len())
}

/// The least of the last numbers, so many as are wanted, where `own` is that of the last `size` ones and
/// the lows are those of `size` before.
fn low_of(lows: &[u64], own: u64, size: usize, wanted: usize) -> u64
    requires some { 0 < size }
    requires few { size + wanted < 2 ^ 32 }
    ensures { (xs : List ℕ) → AreLows xs lows.now size → length xs ≡ length lows.now + 1 → IsBelowLast xs own size
        → IsBelowLast xs result wanted }
{
    let mut low = own;
    let mut end = lows.len();
    let mut span = size;
    while span < wanted {
        if end < size {
            return low;
        }
        end -= size;
        low = low.min(lows[end]);
        span += size;
    }
    low
}
