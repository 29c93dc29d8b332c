//! The shelf and its calls.

ghost use Rattle.std.specs.Prelude.{◌≡◌, ◌≤◌, [], ◌∷◌, ◌++◌, None, IfOk, IsTrue, OnErr, MatchOption, Some, ◌+◌, ◌<◌};
ghost use Rattle.std.specs.Prelude.{drop, false, true, nat_lt, slice_get, length, IfSome, IsSome, option_map};
ghost use Rattle.std.specs.List.{list_all, list_any, position_or_len, prefix_len};
ghost use Rattle.std.specs.Option.{option_copied, option_map_or};
ghost use Rattle.checkpoint.specs.Shelves.{based_at, cut_at, has_index, is_at, is_within, later_of as later_by};
ghost use Rattle.checkpoint.specs.Shelves.{nearest_of, put_on, tops, making_room, AllAbove, IsNearest, IsTop, Rises};
ghost use Rattle.checkpoint.specs.Shelves.{are_rising, is_index_behind};

use crate::snapshot::Snapshot;
use model::{MAX_CHECKPOINTS, NoMemory};
use std::alloc::Global;
use std::marker::Model;

/// The snapshots of a unit: the base, which never goes, and at most 64 others, of which the one
/// first put goes. Indices rise in the order of putting. Each call takes time by their count at most.
#[derive(Drop)]
pub struct Shelf<S> {
    base: Option<Snapshot<S>>,
    others: Vec<Snapshot<S>>,
}

impl<S> Model for Shelf<S> {
    ghost use Rattle.checkpoint.specs.Shelves.{Shelved, Rises};

    ghost Value = { Shelved S };

    ghost view = { λ s. record { base = s.base; others = s.others.items } };

    ghost invariant = { λ s. Rises s.base s.others.items };
}

impl<S: Drop> Shelf<S> {
    /// A shelf without snapshots.
    pub fn new(alloc: Global) -> Shelf<S>
        ensures { result ≡ record { base = None; others = [] } }
    {
        Shelf {
            base: None,
            others: Vec::new(alloc),
        }
    }

    /// A shelf with this snapshot as its base, and no other. Takes no memory.
    pub fn with_base(alloc: Global, base: Snapshot<S>) -> Shelf<S>
        ensures { result ≡ record { base = Some base; others = [] } }
    {
        Shelf {
            base: Some(base),
            others: Vec::new(alloc),
        }
    }

    /// A shelf with this base and these other snapshots, if each has a greater index than the one before it. Takes no
    /// memory.
    #[tactic(auto, using(crate::proofs::Rising::rises_of, crate::proofs::Rising::of_rises))]
    pub fn of(base: Option<Snapshot<S>>, others: Vec<Snapshot<S>>) -> Option<Shelf<S>>
        ensures made { IfSome result (λ s. s ≡ record { base = base; others = others.items }) }
        ensures rises { Rises base others.items → IsSome result }
    {
        if rise(&base, others.as_slice()) {
            Some(Shelf { base, others })
        } else {
            None
        }
    }

    /// The base, if there is one.
    pub fn base(&self) -> Option<&Snapshot<S>>
        ensures base { option_copied result ≡ self.now.base }
        ensures rises { Rises self.now.base self.now.others }
    {
        self.base.as_ref()
    }

    /// The snapshots beside the base, in the order of putting.
    pub fn others(&self) -> &[Snapshot<S>]
        ensures { result.now ≡ self.now.others }
    {
        self.others.as_slice()
    }

    /// How many snapshots there are beside the base.
    pub fn len(&self) -> usize
        ensures { result ≡ length self.now.others }
    {
        self.others.len()
    }

    /// Whether a snapshot of this index is shelved.
    pub fn has(&self, index: u32) -> bool
        ensures { result ≡ has_index self.now index }
    {
        is_base_at(&self.base, index) || is_some_at(self.others.as_slice(), index)
    }

    /// Whether no snapshot is above the index. For writers of another host: the tenant puts on what it knows to be
    /// the newest.
    pub fn is_top(&self, index: u32) -> bool
        ensures exact { result ≡ tops self.now index }
        ensures top { IsTrue result → IsTop self.now index }
    {
        is_top_of(&self.base, self.others.as_slice(), index)
    }

    /// Shelves a snapshot, which no other is above. One at an index that is shelved leaves the shelf
    /// as it is. Where there are 64 others, the one first put goes.
    ///
    /// # Errors
    ///
    /// `NoMemory` where the snapshot finds no memory; the shelf stays as it was.
    pub fn put(&mut self, snapshot: Snapshot<S>) -> Result<(), NoMemory>
        requires { IsTop self.old snapshot.index }
        ensures ok { IfOk result (λ _. self.new ≡ put_on self.old snapshot) }
        ensures err { OnErr result (self.new ≡ self.old) }
    {
        if self.has(snapshot.index) {
            return Ok(());
        }
        push_last(&mut self.others, snapshot)?;
        Ok(())
    }

    /// The snapshot of the greatest index that is not above this one.
    pub fn nearest(&self, index: u32) -> Option<&Snapshot<S>>
        ensures exact { option_copied result ≡ nearest_of self.now index }
        ensures greatest { MatchOption (option_copied result) (AllAbove self.now index) (λ x.
            IsNearest self.now index x) }
    {
        nearest_among(&self.base, self.others.as_slice(), index)
    }

    /// Gives up the snapshots that are not below the index; the base stays. Takes no memory.
    pub fn cut(&mut self, index: u32)
        ensures { self.new ≡ cut_at self.old index }
    {
        let kept = count_below(self.others.as_slice(), index);
        self.others.truncate(kept);
    }

    /// Makes the snapshot of this index the base; the base before it and those below go. Takes no memory.
    pub fn move_base(&mut self, index: u32)
        requires { IsTrue (list_any (is_at index) self.old.others) }
        ensures { self.new ≡ based_at self.old index }
    {
        let at = place_of(self.others.as_slice(), index);
        let base = take_at(&mut self.others, at);
        self.base = Some(base);
    }
}

/// Adds a snapshot at the end, where at most 64 are kept. Where that finds no memory, all stay.
fn push_last<S: Drop>(others: &mut Vec<Snapshot<S>>, snapshot: Snapshot<S>) -> Result<(), NoMemory>
    ensures ok { IfOk result (λ _. others.new.items ≡ making_room others.old.items ++ snapshot ∷ []) }
    ensures err { OnErr result (others.new.items ≡ others.old.items) }
{
    others.reserve(1)?;
    if others.len() >= MAX_CHECKPOINTS {
        let _ = others.remove(0);
    }
    others.push_reserved(snapshot);
    Ok(())
}

/// The place of the first snapshot of this index.
fn place_of<S>(others: &[Snapshot<S>], index: u32) -> usize
    requires { IsTrue (list_any (is_at index) others.now) }
    ensures place { result ≡ position_or_len (is_at index) others.now }
    ensures within { result < length others.now }
{
    let mut place = 0;
    for x in others {
        if x.index == index {
            return place;
        }
        place += 1;
    }
    unreachable!()
}

/// Takes the snapshot at this place out, and those before it away.
fn take_at<S: Drop>(others: &mut Vec<Snapshot<S>>, at: usize) -> Snapshot<S>
    requires { at < length others.old.items }
    ensures taken { slice_get others.old.items at ≡ Some result }
    ensures rest { others.new.items ≡ drop (at + 1) others.old.items }
{
    for _ in 0..at {
        let _ = others.remove(0);
    }
    others.remove(0)
}

/// Whether each index is greater than the one before it, that of the base before all.
fn rise<S>(base: &Option<Snapshot<S>>, others: &[Snapshot<S>]) -> bool
    ensures { result ≡ are_rising (option_map (λ s. s.index) base.now) others.now }
{
    let mut last = match base {
        Some(base) => Some(base.index),
        None => None,
    };
    for x in others {
        if !is_behind(last, x.index) {
            return false;
        }
        last = Some(x.index);
    }
    true
}

/// Whether the index is greater than this one, if there is one.
fn is_behind(last: Option<u32>, index: u32) -> bool
    ensures { result ≡ is_index_behind last index }
{
    match last {
        Some(last) => last < index,
        None => true,
    }
}

fn is_top_of<S>(base: &Option<Snapshot<S>>, others: &[Snapshot<S>], index: u32) -> bool
    ensures { result ≡ tops (record { base = base.now; others = others.now }) index }
{
    is_base_within(base, index) && are_within(others, index)
}

fn is_base_within<S>(base: &Option<Snapshot<S>>, index: u32) -> bool
    ensures { result ≡ option_map_or (is_within index) base.now true }
{
    match base {
        Some(base) => base.index <= index,
        None => true,
    }
}

fn are_within<S>(others: &[Snapshot<S>], index: u32) -> bool
    ensures { result ≡ list_all (is_within index) others.now }
{
    others.iter().all(|x| x.index <= index)
}

fn is_base_at<S>(base: &Option<Snapshot<S>>, index: u32) -> bool
    ensures { result ≡ option_map_or (is_at index) base.now false }
{
    match base {
        Some(base) => base.index == index,
        None => false,
    }
}

fn is_some_at<S>(others: &[Snapshot<S>], index: u32) -> bool
    ensures { result ≡ list_any (is_at index) others.now }
{
    for x in others {
        if x.index == index {
            return true;
        }
    }
    false
}

/// How many snapshots at the front are below the index.
fn count_below<S>(others: &[Snapshot<S>], index: u32) -> usize
    ensures { result ≡ prefix_len (λ x. nat_lt x.index index) others.now }
{
    let mut count = 0;
    for x in others {
        if x.index >= index {
            return count;
        }
        count += 1;
    }
    count
}

fn nearest_among<'a, S>(
    base: &'a Option<Snapshot<S>>,
    others: &'a [Snapshot<S>],
    index: u32,
) -> Option<&'a Snapshot<S>>
    requires { Rises base.now others.now }
    ensures exact { option_copied result ≡ nearest_of (record { base = base.now; others = others.now }) index }
    ensures greatest { MatchOption (option_copied result)
        (AllAbove (record { base = base.now; others = others.now }) index) (λ x.
        IsNearest (record { base = base.now; others = others.now }) index x) }
{
    let mut best = match base {
        Some(base) => later_of(index, None, base),
        None => None,
    };
    for x in others {
        best = later_of(index, best, x);
    }
    best
}

/// This snapshot, where it is not above the index, else the best so far.
fn later_of<'a, S>(
    index: u32,
    best: Option<&'a Snapshot<S>>,
    other: &'a Snapshot<S>,
) -> Option<&'a Snapshot<S>>
    ensures { option_copied result ≡ later_by index (option_copied best.entry) other.now }
{
    if other.index <= index {
        Some(other)
    } else {
        best
    }
}
