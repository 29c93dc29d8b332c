//! What is kept of a path: its intervals from the base on, and the records of the volatile ones.

ghost use Rattle.std.specs.Prelude.{◌≡◌, ◌+◌, ◌<◌, ◌≤◌, ◌^◌, ◌∷◌, [], ◌-◌, IfOk, None, length, drop, cond};
ghost use Rattle.std.specs.Prelude.{slice_index_or};
ghost use Rattle.std.specs.List.{position_or_len};
ghost use Rattle.depvector.specs.Vectors.{begun_vector};
ghost use Rattle.orphan.specs.Tests.{is_orphan_by};
ghost use Rattle.compact.specs.Steps.{from_outside, no_letter};
ghost use Rattle.rollback.specs.Units.{unknown, OrphansAreTail};

use crate::interval::Interval;
use depvector::SharedVector;
use incarnation::StartTable;
use model::{Letter, NoMemory};
use orphan::any_lost;
use std::alloc::Global;
use std::collections::VecDeque;

/// The path of a unit at its beginning.
pub(crate) fn begun_path(alloc: Global, width: usize) -> Result<VecDeque<Interval>, NoMemory>
    requires { width ≤ 256 }
    ensures { IfOk result (λ path. path.items ≡ record { vector = begun_vector width; letter = None } ∷ []) }
{
    let vector = SharedVector::new(alloc, width)?;
    let mut path = VecDeque::new(alloc);
    path.push_back(Interval {
        vector,
        letter: None,
    })?;
    Ok(path)
}

/// The index of the last interval.
pub(crate) fn last_index(base: u32, intervals: &VecDeque<Interval>) -> u32
    requires some { 0 < length intervals.now.items }
    requires few { base + length intervals.now.items ≤ 2 ^ 32 }
    ensures { result ≡ base + length intervals.now.items - 1 }
{
    base + (intervals.len() - 1) as u32
}

/// One for a receipt from outside, which has no letter.
pub(crate) fn one_from_outside(letter: Option<Letter>) -> u64
    ensures value { result ≡ cond (no_letter letter) 1 0 }
    ensures few { result ≤ 1 }
{
    match letter {
        Some(_) => 0,
        None => 1,
    }
}

/// How many intervals from this place on received from outside.
pub(crate) fn count_from_outside(intervals: &VecDeque<Interval>, from: usize) -> u64
    ensures { result ≡ from_outside (drop from intervals.now.items) }
{
    let mut count = 0;
    for place in from..intervals.len() {
        count += one_from_outside(intervals[place].letter);
    }
    count
}

/// How many of the last `volatile` intervals of a path stand up to the target.
pub(crate) fn count_to(places: u64, volatile: usize, target: u32) -> usize
    requires { volatile ≤ places }
    ensures { result ≡ target + 1 - (places - volatile) }
{
    (u64::from(target) + 1).saturating_sub(places - volatile as u64) as usize
}

/// How many intervals stand before the first orphan, where orphans are a tail.
pub(crate) fn count_before_orphan(intervals: &VecDeque<Interval>, table: &StartTable) -> usize
    ensures within { result ≤ length intervals.now.items }
    ensures position { OrphansAreTail table.now intervals.now.items
        → result ≡ position_or_len (λ x. is_orphan_by table.now x.vector) intervals.now.items }
{
    let mut low = 0;
    let mut high = intervals.len();
    while low < high {
        let middle = low + (high - low) / 2;
        if is_orphan_at(intervals, middle, table) {
            high = middle;
        } else {
            low = middle + 1;
        }
    }
    low
}

/// Whether the interval at this place is an orphan.
fn is_orphan_at(intervals: &VecDeque<Interval>, place: usize, table: &StartTable) -> bool
    requires { place < length intervals.now.items }
    ensures { result ≡ is_orphan_by table.now (slice_index_or intervals.now.items place unknown).vector }
{
    any_lost(intervals[place].vector.as_slice(), table, table.len())
}

/// Takes the first `count` intervals away, or all where there are fewer.
pub(crate) fn pop_fronts(intervals: &mut VecDeque<Interval>, count: usize)
    ensures { intervals.new.items ≡ drop count intervals.old.items }
{
    for _ in 0..count {
        let _ = intervals.pop_front();
    }
}
