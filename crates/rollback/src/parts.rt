//! What a unit is made of.

ghost use Rattle.std.specs.Prelude.{◌≡◌, ◌+◌, ◌-◌, ◌<◌, ◌≤◌, ◌^◌, ◌↔◌, IsTrue, Some, option_map, length};
ghost use Rattle.checkpoint.specs.Shelves.{tops, Rises};
ghost use Rattle.rollback.specs.Units.{places, stable_places, IsKept, IsOutside, Marked};

use crate::interval::Interval;
use crate::path;
use crate::progress::Progress;
use checkpoint::Shelf;
use model::Seat;
use std::collections::VecDeque;
use std::marker::Model;
use volatile_log::VolatileLog;

/// How many intervals a path has at most: their indices have 32 bits.
const MAX_PLACES: u64 = 4_294_967_296;

/// What a unit is made of, as whoever writes it down and reads it again has it: where it sits, its progress while it
/// is up, the index of its base, how many receipts of its whole path were from outside, its intervals from the base on,
/// the records of those that are volatile, and its shelf of snapshots.
#[derive(Drop)]
pub struct UnitParts<S> {
    pub seat: Seat,
    pub progress: Option<Progress<S>>,
    pub base: u32,
    pub outside: u64,
    pub intervals: VecDeque<Interval>,
    pub volatile: VolatileLog,
    pub shelf: Shelf<Progress<S>>,
}

impl<S> Model for UnitParts<S> {
    ghost use Rattle.rollback.specs.Units.{Recovering};

    ghost Value = { Recovering S };

    ghost view = { λ p. record {
      seat = p.seat;
      progress = p.progress;
      base = p.base;
      outside = p.outside;
      shelf = p.shelf;
      intervals = p.intervals.items;
      volatile = p.volatile.records;
    } };
}

impl<S: Drop> UnitParts<S> {
    /// Whether they are those of a unit: the base is shelved and stable, no snapshot is of an interval that is
    /// volatile, indices fit and rise, records bear them, and receipts from outside are counted.
    #[tactic(auto, using(crate::proofs::Whole::whole_is, crate::proofs::Whole::top_passes))]
    pub(crate) fn are_whole(&self) -> bool
        ensures whole { IsTrue result → IsKept self.now }
        ensures all { IsKept self.now → IsTrue result }
    {
        if !self.is_based() {
            return false;
        }
        if !self.has_stable() {
            return false;
        }
        if !self.is_shelved() {
            return false;
        }
        if !self.are_marked() {
            return false;
        }
        self.is_counted()
    }

    /// Whether the base is shelved.
    fn is_based(&self) -> bool
        ensures based { IsTrue result ↔ (option_map (λ s. s.index) self.now.shelf.base ≡ Some self.now.base) }
        ensures rises { Rises self.now.shelf.base self.now.shelf.others }
    {
        match self.shelf.base() {
            Some(snapshot) => snapshot.index == self.base,
            None => false,
        }
    }

    /// Whether an interval is stable, and the path no longer than a path can be.
    fn has_stable(&self) -> bool
        ensures { IsTrue result
            ↔ (length self.now.volatile < length self.now.intervals) × (places self.now ≤ 2 ^ 32) }
    {
        let kept = self.intervals.len();
        self.volatile.len() < kept && kept as u64 <= MAX_PLACES - u64::from(self.base)
    }

    /// The index behind the last stable interval.
    fn stable_places(&self) -> u64
        requires stable { length self.now.volatile < length self.now.intervals }
        requires few { places self.now ≤ 2 ^ 32 }
        ensures value { result ≡ stable_places self.now }
        ensures some { 0 < result }
        ensures few { result ≤ 2 ^ 32 }
    {
        let stable = self.intervals.len() - self.volatile.len();
        u64::from(self.base) + stable as u64
    }

    /// Whether no snapshot is of an interval that is volatile.
    fn is_shelved(&self) -> bool
        requires stable { length self.now.volatile < length self.now.intervals }
        requires few { places self.now ≤ 2 ^ 32 }
        ensures { result ≡ tops self.now.shelf (stable_places self.now - 1) }
    {
        let last = self.stable_places() - 1;
        self.shelf.is_top(last as u32)
    }

    /// Whether the volatile records bear the indices of their intervals.
    fn are_marked(&self) -> bool
        requires stable { length self.now.volatile < length self.now.intervals }
        requires few { places self.now ≤ 2 ^ 32 }
        ensures { IsTrue result ↔ Marked (stable_places self.now) self.now.volatile }
    {
        bear_indices(&self.volatile, self.stable_places())
    }

    /// Whether the receipts from outside that are kept are counted, and up to the base there are no more than it has
    /// receipts.
    fn is_counted(&self) -> bool
        ensures { IsTrue result ↔ IsOutside self.now.base self.now.outside self.now.intervals }
    {
        let kept = path::count_from_outside(&self.intervals, 1);
        kept <= self.outside && self.outside - kept <= u64::from(self.base)
    }
}

/// Whether the records bear the indices from this one on.
fn bear_indices(volatile: &VolatileLog, from: u64) -> bool
    requires { from + length volatile.now.records ≤ 2 ^ 64 }
    ensures { IsTrue result ↔ Marked from volatile.now.records }
{
    let mut index = from;
    for place in 0..volatile.len() {
        if u64::from(volatile.at(place).mark.index) != index {
            return false;
        }
        index += 1;
    }
    true
}
