//! The log and its calls.

ghost use Rattle.std.specs.Prelude.{◌≡◌, ◌+◌, ◌-◌, ◌<◌, ◌≤◌, ◌∷◌, [], ◌++◌, IfOk, MatchOption, OnErr, Some, length};
ghost use Rattle.std.specs.Prelude.{drop, nat_lt, slice_get};
ghost use Rattle.std.specs.List.{prefix_len};
ghost use Rattle.volatile_log.specs.Logs.{records_below};
ghost use Rattle.std.specs.VecDeque.{deque_capacity};

use model::{NoMemory, Record};
use std::alloc::Global;
use std::collections::VecDeque;
use std::marker::Model;

/// The records of a unit that are not on stable storage yet, in the order of their intervals.
///
/// `reserve` makes room for records first, so that a `push` then takes no memory. `push`, `front`
/// and `at` take a constant time; `mark_stable`, `clear` and `cut` take time by the records that they pass.
#[derive(Drop)]
pub struct VolatileLog {
    records: VecDeque<Record>,
}

impl Model for VolatileLog {
    ghost use Rattle.std.specs.Prelude.{◌-◌};
    ghost use Rattle.std.specs.VecDeque.{deque_len, deque_capacity};
    ghost use Rattle.volatile_log.specs.Logs.{Log};

    ghost Value = { Log };

    ghost view = { λ l. record { records = l.records.items; room = deque_capacity l.records - deque_len l.records } };
}

impl VolatileLog {
    /// A log without records.
    pub fn new(alloc: Global) -> VolatileLog
        ensures { result.records ≡ [] }
    {
        VolatileLog {
            records: VecDeque::new(alloc),
        }
    }

    /// How many records there are.
    pub fn len(&self) -> usize
        ensures { result ≡ length self.now.records }
    {
        self.records.len()
    }

    /// Makes room for `k` more records.
    ///
    /// # Errors
    ///
    /// `NoMemory` where they find none; the records stay as they were.
    pub fn reserve(&mut self, k: usize) -> Result<(), NoMemory>
        ensures same { self.new.records ≡ self.old.records }
        ensures room { IfOk result (λ _. k ≤ self.new.room) }
        ensures kept { self.old.room ≤ self.new.room }
    {
        self.records.reserve(k)?;
        Ok(())
    }

    /// Adds a record at the end, where `reserve` made room. Takes no memory.
    pub fn push(&mut self, logged: Record)
        requires { 0 < self.old.room }
        ensures records { self.new.records ≡ self.old.records ++ logged ∷ [] }
        ensures room { self.new.room ≡ self.old.room - 1 }
    {
        self.records.push_back_reserved(logged);
    }

    /// The first record, if there is one.
    pub fn front(&self) -> Option<&Record>
        ensures { MatchOption result (self.now.records ≡ []) (λ r. slice_get self.now.records 0 ≡ Some r.now) }
    {
        self.records.front()
    }

    /// The record at this place, the first at 0. Takes no memory, and a constant time.
    pub fn at(&self, place: usize) -> &Record
        requires { place < length self.now.records }
        ensures { slice_get self.now.records place ≡ Some result.now }
    {
        &self.records[place]
    }

    /// Gives up the first `k` records, which are on stable storage now. Takes no memory.
    pub fn mark_stable(&mut self, k: usize)
        requires { k ≤ length self.old.records }
        ensures records { self.new.records ≡ drop k self.old.records }
        ensures room { self.new.room ≡ self.old.room + k }
    {
        pop_fronts(&mut self.records, k);
    }

    /// Gives up all records, and tells how many there were. Takes no memory.
    pub fn clear(&mut self) -> usize
        ensures count { result ≡ length self.old.records }
        ensures records { self.new.records ≡ [] }
        ensures room { self.old.room ≤ self.new.room }
    {
        let count = self.records.len();
        self.records.truncate(0);
        count
    }

    /// Gives up the records from the first one on whose interval is not below the index. Takes no
    /// memory. Indices rise along a path, so these are all that are not below it.
    pub fn cut(&mut self, index: u32)
        ensures records { self.new.records ≡ records_below self.old.records index }
        ensures room { self.old.room ≤ self.new.room }
    {
        let kept = count_below(&self.records, index);
        self.records.truncate(kept);
    }
}

/// How many records at the front are of intervals below the index.
fn count_below(records: &VecDeque<Record>, index: u32) -> usize
    ensures { result ≡ prefix_len (λ r. nat_lt r.mark.index index) records.now.items }
{
    for at in 0..records.len() {
        if records[at].mark.index >= index {
            return at;
        }
    }
    records.len()
}

/// Takes the first `k` records away.
fn pop_fronts(records: &mut VecDeque<Record>, k: usize)
    requires { k ≤ length records.old.items }
    ensures items { records.new.items ≡ drop k records.old.items }
    ensures capacity { deque_capacity records.new ≡ deque_capacity records.old }
{
    for _ in 0..k {
        let _ = records.pop_front();
    }
}
