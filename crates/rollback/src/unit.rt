//! The unit and its calls.

ghost use Rattle.std.specs.Prelude.{◌≡◌, ◌+◌, ◌<◌, ◌≤◌, ◌^◌, ◌∷◌, [], ◌++◌, ◌-◌, IfOk, IfSome, IsSome, IsTrue, OnErr};
ghost use Rattle.std.specs.Prelude.{Some};
ghost use Rattle.std.specs.Prelude.{None, option_map, ℕ, List, length, drop, take, slice_get, slice_index_or, false};
ghost use Rattle.std.specs.List.{position};
ghost use Rattle.std.specs.Option.{is_some, option_copied};
ghost use Rattle.model.specs.declared.records.Record.{Record as RecordOf};
ghost use Rattle.checkpoint.specs.Shelves.{has_index, nearest_of};
ghost use Rattle.handler.specs.Inputs.{turn_upon_input};
ghost use Rattle.orphan.specs.Tests.{is_orphan_by};
ghost use Rattle.session.specs.Counts.{widened_counts};
ghost use Rattle.compact.specs.Compact.{Progress as ProgressOf};
ghost use Rattle.compact.specs.Laws.{replayed};
ghost use Rattle.compact.specs.Steps.{from_outside};
ghost use Rattle.rollback.specs.Units.{asking, begun_unit, checkpointed, cut_behind, effects_of, forgotten};
ghost use Rattle.rollback.specs.Units.{killed_recovering, marked_stable, places, recorded, records_to, restored};
ghost use Rattle.rollback.specs.Units.{took, widened_to, BeginsBy, CountsOutside, IsTarget, KeepsShelved};
ghost use Rattle.rollback.specs.Units.{IsKept, IsTurnUpon, OrphansAreTail};

use crate::effects::Effects;
use crate::interval::Interval;
use crate::parts::UnitParts;
use crate::progress::{self, Progress};
use crate::record_draft::RecordDraft;
use crate::{path, replay, shelving};
use checkpoint::Shelf;
use depvector::SharedVector;
use handler::{Done, Handler, Turn};
use incarnation::StartTable;
use model::{NoMemory, Record, Seat, TenantName};
use session::Sessions;
use std::alloc::Global;
use std::collections::VecDeque;
use std::marker::Model;
use volatile_log::VolatileLog;

/// One unit of a tenant: what it needs to go on, and to go back to an earlier interval.
///
/// It keeps its path from its base on, which is a snapshot of a stable interval, and nothing from before.
/// A path has at most 2^32 intervals, and its indices begin at 0. A unit that is down has no progress, and
/// its path has no interval that is not stable.
#[derive(Drop)]
pub struct RecoveryUnit<H: Handler> {
    seat: Seat,
    progress: Option<Progress<H::State>>,
    base: u32,
    // How many receipts of the whole path were from outside.
    outside: u64,
    // From the base on.
    intervals: VecDeque<Interval>,
    volatile: VolatileLog,
    shelf: Shelf<Progress<H::State>>,
}

impl<H: Handler> Model for RecoveryUnit<H> {
    ghost use Rattle.rollback.specs.Units.{Recovering, IsKept};

    ghost Value = { Recovering H.State };

    ghost view = { λ u. record {
      seat = u.seat;
      progress = u.progress;
      base = u.base;
      outside = u.outside;
      shelf = u.shelf;
      intervals = u.intervals.items;
      volatile = u.volatile.records;
    } };

    ghost invariant = { λ u. IsKept (record {
      seat = u.seat;
      progress = u.progress;
      base = u.base;
      outside = u.outside;
      shelf = u.shelf;
      intervals = u.intervals.items;
      volatile = u.volatile.records;
    }) };
}

impl<H: Handler> RecoveryUnit<H> {
    /// A unit at its beginning, which is its base, in a tenant of `width` units.
    ///
    /// # Errors
    ///
    /// `NoMemory` where what it keeps finds no memory.
    pub fn begin(
        alloc: Global,
        handler: &H,
        seat: Seat,
        width: usize,
    ) -> Result<RecoveryUnit<H>, NoMemory>
        requires { width ≤ 256 }
        ensures unit { IfOk result (λ u. u ≡ begun_unit H.meaning width seat) }
        ensures outside { IfOk result (λ u. CountsOutside 0 u) }
    {
        let shelf = shelving::based(alloc, progress::begin(alloc, handler, seat, width)?);
        let progress = progress::begin(alloc, handler, seat, width)?;
        let intervals = path::begun_path(alloc, width)?;
        Ok(RecoveryUnit {
            seat,
            progress: Some(progress),
            base: 0,
            outside: 0,
            intervals,
            volatile: VolatileLog::new(alloc),
            shelf,
        })
    }

    /// The unit of these parts, if they are those of a unit. Takes no memory.
    pub fn of(parts: UnitParts<H::State>) -> Option<RecoveryUnit<H>>
        ensures made { IfSome result (λ u. u ≡ parts) }
        ensures whole { IsKept parts → IsSome result }
    {
        if !parts.are_whole() {
            return None;
        }
        let UnitParts {
            seat,
            progress,
            base,
            outside,
            intervals,
            volatile,
            shelf,
        } = parts;
        Some(RecoveryUnit {
            seat,
            progress,
            base,
            outside,
            intervals,
            volatile,
            shelf,
        })
    }

    /// Its snapshots. `kept` says which units there are.
    pub fn shelf(&self) -> &Shelf<Progress<H::State>>
        ensures shelf { result.now ≡ self.now.shelf }
        ensures kept { IsKept self.now }
    {
        &self.shelf
    }

    /// Where it sits.
    pub fn seat(&self) -> Seat
        ensures { result ≡ self.now.seat }
    {
        self.seat
    }

    /// Whether the unit is up.
    pub fn is_up(&self) -> bool
        ensures { result ≡ is_some self.now.progress }
    {
        self.progress.is_some()
    }

    /// The progress, where the unit is up.
    pub fn progress(&self) -> Option<&Progress<H::State>>
        ensures { option_copied result ≡ self.now.progress }
    {
        self.progress.as_ref()
    }

    /// How many intervals the path has, with those before the base.
    pub fn places(&self) -> u64
        ensures { result ≡ places self.now }
    {
        u64::from(self.base) + self.intervals.len() as u64
    }

    /// The index of the base.
    pub fn base(&self) -> u32
        ensures { result ≡ self.now.base }
    {
        self.base
    }

    /// The index of the last interval, which is the base or behind it.
    pub fn last_index(&self) -> u32
        ensures last { result + 1 ≡ places self.now }
        ensures base { self.now.base ≤ result }
    {
        path::last_index(self.base, &self.intervals)
    }

    /// The interval of this index, which is kept.
    pub fn interval(&self, index: u32) -> &Interval
        requires { IsTarget self.now index }
        ensures { slice_get self.now.intervals (index - self.now.base) ≡ Some result.now }
    {
        &self.intervals[(index - self.base) as usize]
    }

    /// How many receipts of the whole path were from outside.
    pub fn outside(&self) -> u64
        ensures { result ≡ self.now.outside }
    {
        self.outside
    }

    /// How many intervals are volatile.
    pub fn volatile_count(&self) -> usize
        ensures { result ≡ length self.now.volatile }
    {
        self.volatile.len()
    }

    /// The volatile record at this place, the first at 0.
    pub fn volatile_record(&self, place: usize) -> &Record
        requires { place < length self.now.volatile }
        ensures { slice_get self.now.volatile place ≡ Some result.now }
    {
        self.volatile.at(place)
    }

    /// Whether the interval of this index has a snapshot. For writers of another host: the tenant doesn't ask.
    pub fn has_snapshot(&self, index: u32) -> bool
        ensures { result ≡ has_index self.now.shelf index }
    {
        self.shelf.has(index)
    }

    /// How many snapshots are shelved beside the base. Their indices rise, so there are no more of them than a path
    /// can have intervals.
    pub fn shelved(&self) -> usize
        ensures count { result ≡ length self.now.shelf.others }
        ensures few { result ≤ 2 ^ 32 }
    {
        self.shelf.len()
    }

    /// Takes a receipt: its interval with its record, which is volatile, and the turn that was worked
    /// for it. Gives what the turn sends and puts out. It takes memory for the interval's vector, and for
    /// nothing else but that the lists of intervals and records grow now and then.
    ///
    /// # Errors
    ///
    /// `NoMemory` where interval or record find no memory, or where the receipt can't be counted: its
    /// source or one of the record's units has no entry in the sessions, or a count would pass 64 bits.
    /// The unit stays as it was.
    pub fn take(&mut self, logged: Record, done: Done<H>) -> Result<Effects, NoMemory>
        requires few { length logged.vector ≤ 256 }
        requires room { places self.old < 2 ^ 32 }
        requires mark { logged.mark.index ≡ places self.old }
        requires asked { asking self.old logged.source logged.text ≡ Some done.input }
        ensures ok { IfOk result (λ _. self.new ≡ took H.meaning self.old logged) }
        ensures effects { IfOk result (λ e. e ≡ effects_of (turn_upon_input H.meaning done.input)) }
        ensures outside { IfOk result (λ _. (before : ℕ) → CountsOutside before self.old
            → CountsOutside before self.new) }
        ensures err { OnErr result (self.new ≡ self.old) }
    {
        let turn = done.into_turn();
        let Record {
            tenant,
            unit,
            mark,
            source,
            letter,
            number,
            text,
            vector,
        } = logged;
        let vector = SharedVector::of(*self.intervals.allocator(), &vector)?;
        let draft = RecordDraft {
            unit,
            mark,
            source,
            letter,
            number,
            text,
            vector,
        };
        self.take_turn(&tenant, draft, turn)
    }

    /// Takes a receipt as `take` does, by the turn alone, which is that of the unit's own input. The record is of the
    /// tenant of this name, and is made where it is kept.
    ///
    /// # Errors
    ///
    /// `NoMemory` as for `take`; the unit stays as it was.
    pub fn take_turn(
        &mut self,
        tenant: &TenantName,
        logged: RecordDraft,
        turn: Turn<H::State>,
    ) -> Result<Effects, NoMemory>
        requires room { places self.old < 2 ^ 32 }
        requires mark { logged.mark.index ≡ places self.old }
        requires own { IsTurnUpon H.meaning self.old logged.source logged.text turn }
        ensures ok { IfOk result (λ _. self.new ≡ took H.meaning self.old (recorded tenant.now logged)) }
        ensures effects { IfOk result (λ e. e ≡ effects_of turn) }
        ensures outside { IfOk result (λ _. (before : ℕ) → CountsOutside before self.old
            → CountsOutside before self.new) }
        ensures err { OnErr result (self.new ≡ self.old) }
    {
        let progress = match &mut self.progress {
            Some(progress) => progress,
            None => return Err(NoMemory),
        };
        self.intervals.reserve(1)?;
        self.volatile.reserve(1)?;
        let vector = logged.vector.copy(*self.intervals.allocator())?;
        let width = vector.as_slice().len();
        progress::count_receipt(&mut progress.sessions, &logged.source, turn.sends(), width)?;
        let Turn {
            state,
            sends,
            outputs,
        } = turn;
        progress.state = state;
        self.outside += path::one_from_outside(logged.letter);
        self.intervals.push_back_reserved(Interval {
            vector,
            letter: logged.letter,
        });
        self.volatile.push(Record {
            tenant: tenant.copy(),
            unit: logged.unit,
            mark: logged.mark,
            source: logged.source,
            letter: logged.letter,
            number: logged.number,
            text: logged.text,
            vector: logged.vector.into_marks(),
        });
        Ok(Effects { sends, outputs })
    }

    /// So many of the volatile records are on stable storage now. Takes no memory.
    pub fn mark_stable(&mut self, count: usize)
        requires { count ≤ length self.old.volatile }
        ensures { self.new ≡ marked_stable self.old count }
    {
        self.volatile.mark_stable(count);
    }

    /// The unit fails: its progress and all that is not stable are gone. Tells how many intervals were
    /// lost. Takes no memory, and time by the intervals that go.
    pub fn kill(&mut self) -> u64
        ensures lost { result ≡ length self.old.volatile }
        ensures unit { self.new ≡ killed_recovering self.old }
        ensures outside { (before : ℕ) → CountsOutside before self.old → CountsOutside before self.new }
    {
        let lost = self.volatile.clear();
        let kept = self.intervals.len() - lost;
        self.outside -= path::count_from_outside(&self.intervals, kept);
        self.intervals.truncate(kept);
        self.progress = None;
        lost as u64
    }

    /// Adds to what the unit took and sent the entries of units that joined, up to `n` units in all.
    ///
    /// # Errors
    ///
    /// `NoMemory` where they find no memory; the unit stays as it was.
    pub fn widen(&mut self, n: usize) -> Result<(), NoMemory>
        ensures ok { IfOk result (λ _. self.new ≡ widened_to self.old n) }
        ensures err { OnErr result (self.new ≡ self.old) }
    {
        progress::widen(&mut self.progress, n)
    }

    /// What the unit took and sent with entries for `n` units, where it is up, so that `fit` can add them
    /// without memory.
    ///
    /// # Errors
    ///
    /// `NoMemory` where the copy finds no memory.
    pub fn widened_sessions(&self, n: usize) -> Result<Option<Sessions>, NoMemory>
        ensures { IfOk result (λ sessions. sessions ≡ option_map (λ p. widened_counts p.sessions n) self.now.progress) }
    {
        progress::widened_sessions(&self.progress, n)
    }

    /// Adds the entries that `widened_sessions` made. Takes no memory.
    pub fn fit(&mut self, sessions: Option<Sessions>)
        ensures { (n : ℕ) → sessions ≡ option_map (λ p. widened_counts p.sessions n) self.old.progress
            → self.new ≡ widened_to self.old n }
    {
        progress::fit(&mut self.progress, sessions);
    }

    /// Shelves a snapshot of the last interval, which is stable. One that has a snapshot gets no other,
    /// and a unit that is down gets none. Where there are 64 beside the base, the first goes.
    ///
    /// # Errors
    ///
    /// `NoMemory` where the snapshot finds no memory; the unit stays as it was.
    pub fn checkpoint(&mut self, alloc: Global, handler: &H) -> Result<(), NoMemory>
        requires { length self.old.volatile ≡ 0 }
        ensures ok { IfOk result (λ _. self.new ≡ checkpointed self.old) }
        ensures nearest { IfOk result (λ _. IsTrue (is_some self.old.progress)
            → option_map (λ s. s.index) (nearest_of self.new.shelf (places self.old - 1))
            ≡ Some (places self.old - 1)) }
        ensures state { IfOk result (λ _. (p : ProgressOf H.State) → self.old.progress ≡ Some p
            → has_index self.old.shelf (places self.old - 1) ≡ false
            → nearest_of self.new.shelf (places self.old - 1)
            ≡ Some (record { index = places self.old - 1; state = p })) }
        ensures kept { IfOk result (λ _. KeepsShelved self.old.shelf self.new.shelf) }
        ensures err { OnErr result (self.new ≡ self.old) }
    {
        let index = path::last_index(self.base, &self.intervals);
        shelving::shelve(alloc, handler, &mut self.shelf, index, &self.progress)?;
        Ok(())
    }

    /// The index of the first orphan that is kept, by all rows, where orphans are a tail of the path, as
    /// they are in every world. Takes no memory, and looks at one vector for each bit of the count of
    /// intervals that are kept.
    pub fn first_orphan(&self, table: &StartTable) -> Option<u32>
        ensures kept { IfSome result (λ first. IsTarget self.now first) }
        ensures first { OrphansAreTail table.now self.now.intervals
            → result ≡ option_map (λ i.
            self.now.base + i) (position (λ x. is_orphan_by table.now x.vector) self.now.intervals) }
    {
        let place = path::count_before_orphan(&self.intervals, table);
        if place < self.intervals.len() {
            Some(self.base + place as u32)
        } else {
            None
        }
    }

    /// The index of the snapshot from which the unit goes back to the target. The stable records that
    /// `restore` needs are those behind it, up to the target.
    pub fn restart_index(&self, target: u32) -> Option<u32>
        ensures { result ≡ option_map (λ s. s.index) (nearest_of self.now.shelf target) }
    {
        self.shelf.nearest(target).map(|snapshot| snapshot.index)
    }

    /// Goes back to the target, the index of the last interval that is kept, by replay from the nearest
    /// snapshot, in a tenant that has `width` units now: first of these records, the stable ones between
    /// snapshot and target, and then of the unit's own up to the target, which are still volatile. The
    /// unit is up then. For writers of another host: the tenant makes the state by `rebuilt` and enters it by
    /// `return_to`, so that what finds no memory comes before anything changes.
    ///
    /// # Errors
    ///
    /// `NoMemory` where the replay finds no memory, or where a receipt can't be counted, as for `take`;
    /// the unit stays as it was.
    pub fn restore(
        &mut self,
        alloc: Global,
        handler: &H,
        target: u32,
        width: usize,
        records: &[Record],
    ) -> Result<(), NoMemory>
        requires { IsTarget self.old target }
        ensures ok { IfOk result (λ _. self.new ≡ restored H.meaning self.old target width records.now) }
        ensures up { IfOk result (λ _. IsTrue (is_some self.new.progress)) }
        ensures last { IfOk result (λ _. places self.new ≡ target + 1) }
        ensures fold { IfOk result (λ _. (p : ProgressOf H.State) (before : List RecordOf)
            → BeginsBy H.meaning self.old target width p before
            → self.new.progress
            ≡ Some (replayed H.meaning self.old.seat p (before ++ records_to self.old target records.now))) }
        ensures outside { IfOk result (λ _. (before : ℕ) → CountsOutside before self.old
            → CountsOutside before self.new) }
        ensures err { OnErr result (self.new ≡ self.old) }
    {
        let progress = self.rebuilt(alloc, handler, target, width, records)?;
        self.return_to(target, progress);
        Ok(())
    }

    /// Goes back to the target, the index of the last interval that is kept, where this is the progress
    /// there, as `rebuilt` gives it. Takes no memory.
    pub fn return_to(&mut self, target: u32, progress: Option<Progress<H::State>>)
        requires { IsTarget self.old target }
        ensures unit { self.new ≡ record (cut_behind self.old target) { progress = progress } }
        ensures outside { (before : ℕ) → CountsOutside before self.old → CountsOutside before self.new }
    {
        self.cut(target);
        self.progress = progress;
    }

    /// The progress at the target, by replay, as `restore` gives it to the unit.
    ///
    /// # Errors
    ///
    /// `NoMemory` where the replay finds no memory, or where a receipt can't be counted, as for `take`.
    pub fn rebuilt(
        &self,
        alloc: Global,
        handler: &H,
        target: u32,
        width: usize,
        records: &[Record],
    ) -> Result<Option<Progress<H::State>>, NoMemory>
        requires { IsTarget self.now target }
        ensures progress { IfOk result (λ p. p ≡ (restored H.meaning self.now target width records.now).progress) }
        ensures up { IfOk result (λ p. IsTrue (is_some p)) }
        ensures fold { IfOk result (λ p. (from : ProgressOf H.State) (before : List RecordOf)
            → BeginsBy H.meaning self.now target width from before
            → p ≡ Some (replayed H.meaning self.now.seat from (before ++ records_to self.now target records.now))) }
    {
        let count = path::count_to(self.places(), self.volatile.len(), target);
        let nearest = self.shelf.nearest(target);
        let seat = &self.seat;
        let volatile = &self.volatile;
        let progress = replay::rebuild(
            alloc, handler, seat, nearest, width, records, volatile, count,
        )?;
        Ok(progress)
    }

    /// Gives up the intervals, records and snapshots behind the target. Takes no memory.
    fn cut(&mut self, target: u32)
        requires { IsTarget self.old target }
        ensures unit { self.new ≡ cut_behind self.old target }
        ensures outside { (before : ℕ) → CountsOutside before self.old → CountsOutside before self.new }
    {
        if target < path::last_index(self.base, &self.intervals) {
            let kept = (target - self.base) as usize + 1;
            self.outside -= path::count_from_outside(&self.intervals, kept);
            self.intervals.truncate(kept);
            self.volatile.cut(target + 1);
            self.shelf.cut(target + 1);
        }
    }

    /// Makes the snapshot of this index the base, and gives up the intervals and snapshots before it.
    /// Takes no memory, and time by what goes.
    pub fn forget(&mut self, base: u32)
        requires { IsTrue (has_index self.old.shelf base) }
        ensures unit { self.new ≡ forgotten self.old base }
        ensures outside { (before : ℕ) → CountsOutside before self.old
            → CountsOutside
            (before + from_outside (take (base - self.old.base) (drop 1 self.old.intervals))) self.new }
    {
        if base != self.base {
            self.shelf.move_base(base);
            path::pop_fronts(&mut self.intervals, base.saturating_sub(self.base) as usize);
            self.base = base;
        }
    }
}
