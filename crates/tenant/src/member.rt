//! One unit of a tenant.

ghost use Rattle.std.specs.Prelude.{◌≡◌, ◌≢◌, ◌++◌, ◌+◌, ◌-◌, ◌<◌, ◌≤◌, ℕ, IfErr, IfOk, IfSome, None, OnErr};
ghost use Rattle.std.specs.Prelude.{Some, length, min, option_map, slice_index, true};
ghost use Rattle.std.specs.Option.{is_some};
ghost use Rattle.model.specs.declared.refusals.Refusal.TheVariants.{Down};
ghost use Rattle.output_commit.specs.Holds.{gone_of as count_of, room_of, line_texts};
ghost use Rattle.compact.specs.Compact.{CompactUnit};
ghost use Rattle.compact.specs.Steps.{last_mark as last_mark_of};
ghost use Rattle.checkpoint.specs.declared.snapshot.Snapshot.{Snapshot as SnapshotOf};
ghost use Rattle.checkpoint.specs.Shelves.{has_index, nearest_of};
ghost use Rattle.compact.specs.Compact.{Progress as ProgressOf};
ghost use Rattle.rollback.specs.Units.{asking, IsKept, IsTarget, OrphansAreTail, places, recorded, restored};
ghost use Rattle.rollback.specs.Units.{stable_places};
ghost use Rattle.session.specs.Counts.{widened_counts};
ghost use Rattle.rollback_laws.specs.Seen.{IsSeen};
ghost use Rattle.tenant.specs.Bases.{next_base, rebased_member};
ghost use Rattle.tenant.specs.Past.{shelved_count};
ghost use Rattle.tenant.specs.Kept.{begun_member, checkpointed_member, firm_texts, flushed_member, killed_member};
ghost use Rattle.tenant.specs.Kept.{outputs_to, released_member, fitted_member, kept_length, live_count};
ghost use Rattle.tenant.specs.Kept.{returned_member, IsNext, received_member};

use crate::releasing;
use handler::{AskRef, Handler, Turn};
use incarnation::StartTable;
use model::{Mark, NoMemory, Record, Refusal, Seat, Source, TenantName, Text, Unit};
use output_commit::{Hold, Outlet};
use rollback::{Progress, RecordDraft, RecoveryUnit};
use session::Sessions;
use std::alloc::Global;
use std::marker::Model;

/// What it needs to go on and to go back, its held outputs, how many rows of the table it knows, and whether a
/// checkpoint of its beginning was put.
#[derive(Drop)]
pub struct Member<H: Handler> {
    unit_state: RecoveryUnit<H>,
    unit: Unit,
    hold: Hold,
    known: usize,
    first_put: bool,
}

impl<H: Handler> Model for Member<H> {
    ghost use Rattle.std.specs.Prelude.{◌≡◌};
    ghost use Rattle.tenant.specs.Kept.{Member as MemberOf};

    ghost Value = { MemberOf H.State };

    ghost view = { λ m. record {
      unit_state = m.unit_state;
      unit = m.unit;
      outputs = m.hold.outputs;
      known = m.known;
      first_put = m.first_put;
    } };

    ghost invariant = { λ m. m.hold.unit ≡ m.unit };
}

/// Gives up the outputs that are not of the first so many intervals.
fn cut_hold(hold: &mut Hold, places: u64)
    ensures unit { hold.new.unit ≡ hold.old.unit }
    ensures outputs { hold.new.outputs ≡ outputs_to hold.old.outputs places }
{
    if let Ok(index) = u32::try_from(places) {
        hold.cut(index);
    }
}

impl<H: Handler> Member<H> {
    /// A unit at its beginning, in a tenant of `width` units, which knows so many rows.
    ///
    /// # Errors
    ///
    /// `NoMemory` where what it keeps finds no memory.
    pub(crate) fn begin(
        alloc: Global,
        handler: &H,
        seat: Seat,
        width: usize,
        known: usize,
    ) -> Result<Member<H>, NoMemory>
        requires { width ≤ 256 }
        ensures { IfOk result (λ m. m ≡ begun_member H.meaning width seat known) }
    {
        let unit = seat.unit;
        let hold = Hold::new(alloc, unit);
        let unit_state = RecoveryUnit::begin(alloc, handler, seat, width)?;
        Ok(Member {
            unit_state,
            unit,
            hold,
            known,
            first_put: false,
        })
    }

    /// The member that keeps this of its unit, these outputs, knows so many rows, and had a checkpoint of its beginning
    /// or not. Takes no memory.
    pub fn of(unit_state: RecoveryUnit<H>, hold: Hold, known: usize, first_put: bool) -> Member<H>
        ensures { result ≡ record {
          unit_state = unit_state;
          unit = hold.unit;
          outputs = hold.outputs;
          known = known;
          first_put = first_put;
        } }
    {
        let unit = hold.unit();
        Member {
            unit_state,
            unit,
            hold,
            known,
            first_put,
        }
    }

    /// Whether a checkpoint of its beginning was put.
    pub fn first_put(&self) -> bool
        ensures { result ≡ self.now.first_put }
    {
        self.first_put
    }

    /// Its held outputs.
    pub fn hold(&self) -> &Hold
        ensures unit { result.now.unit ≡ self.now.unit }
        ensures outputs { result.now.outputs ≡ self.now.outputs }
    {
        &self.hold
    }

    /// What it needs to go on and to go back.
    pub fn unit_state(&self) -> &RecoveryUnit<H>
        ensures { result.now ≡ self.now.unit_state }
    {
        &self.unit_state
    }

    /// Whether the unit is up.
    pub(crate) fn is_up(&self) -> bool
        ensures { result ≡ is_some self.now.unit_state.progress }
    {
        self.unit_state.is_up()
    }

    /// Which unit it is.
    pub(crate) fn unit(&self) -> Unit
        ensures { result ≡ self.now.unit }
    {
        self.unit
    }

    /// Its seat.
    pub(crate) fn seat(&self) -> Seat
        ensures { result ≡ self.now.unit_state.seat }
    {
        self.unit_state.seat()
    }

    /// The turn that it has upon this text from this source, or that it is down. Takes no memory.
    pub(crate) fn ask<'a>(
        &'a self,
        source: Source,
        text: &'a Text,
    ) -> Result<AskRef<'a, H>, Refusal>
        ensures asked { IfOk result (λ input. asking self.now.unit_state source text.now ≡ Some input) }
        ensures down { IfErr result (λ refusal. (refusal ≡ Down) × (self.now.unit_state.progress ≡ None)) }
    {
        match self.unit_state.progress() {
            Some(progress) => Ok(AskRef {
                seat: self.unit_state.seat(),
                state: &progress.state,
                source,
                text,
            }),
            None => Err(Refusal::Down),
        }
    }

    /// How many outputs are held.
    pub(crate) fn held_count(&self) -> usize
        ensures { result ≡ length self.now.outputs }
    {
        self.hold.len()
    }

    /// How many rows the unit knows.
    pub fn known(&self) -> usize
        ensures { result ≡ self.now.known }
    {
        self.known
    }

    /// How many receipts of its path were from outside.
    pub(crate) fn outside(&self) -> u64
        ensures { result ≡ self.now.unit_state.outside }
    {
        self.unit_state.outside()
    }

    /// How many of its intervals are kept: those from the base on.
    pub(crate) fn interval_count(&self) -> u64
        ensures { result ≡ length self.now.unit_state.intervals }
    {
        let base = u64::from(self.unit_state.base());
        self.unit_state.places().saturating_sub(base)
    }

    /// How many of its intervals are not stable.
    pub(crate) fn volatile_count(&self) -> usize
        ensures { result ≡ length self.now.unit_state.volatile }
    {
        self.unit_state.volatile_count()
    }

    /// How many are.
    pub(crate) fn stable_count(&self) -> u64
        ensures { result ≡ stable_places self.now.unit_state }
    {
        let volatile = self.unit_state.volatile_count() as u64;
        self.unit_state.places().saturating_sub(volatile)
    }

    /// The mark of its last interval.
    pub(crate) fn last_mark(&self, unit: Unit) -> Mark
        ensures { (x : CompactUnit H.State) → IsKept self.now.unit_state → IsSeen self.now.unit_state x
            → result ≡ last_mark_of unit x }
    {
        let index = self.unit_state.last_index();
        let interval = self.unit_state.interval(index);
        interval.vector.get(unit)
    }

    /// Takes a receipt: its interval with its record, and what its turn puts out.
    ///
    /// # Errors
    ///
    /// `NoMemory` where it finds no memory or can't be counted; the unit stays as it was.
    pub(crate) fn receive(
        &mut self,
        tenant: &TenantName,
        logged: RecordDraft,
        turn: Turn<H::State>,
    ) -> Result<(), NoMemory>
        requires next { IsNext H.meaning self.old (recorded tenant.now logged) turn }
        ensures ok { IfOk result (λ _. self.new ≡ received_member H.meaning self.old (recorded tenant.now logged)
            turn.outputs) }
        ensures err { OnErr result (self.new ≡ self.old) }
    {
        let mark = logged.mark;
        self.hold.reserve(turn.outputs().len())?;
        let effects = self.unit_state.take_turn(tenant, logged, turn)?;
        self.hold.add_reserved(mark, effects.outputs);
        Ok(())
    }

    /// The unit fails: what is not stable is gone. Tells how many intervals were lost.
    pub(crate) fn kill(&mut self) -> u64
        ensures lost { result ≡ length self.old.unit_state.volatile }
        ensures member { self.new ≡ killed_member self.old }
    {
        let lost = self.unit_state.kill();
        let places = self.unit_state.places();
        cut_hold(&mut self.hold, places);
        lost
    }

    /// Shelves a snapshot of the last interval, which is stable.
    ///
    /// # Errors
    ///
    /// `NoMemory` where the snapshot finds no memory; the unit stays as it was.
    pub(crate) fn checkpoint(&mut self, alloc: Global, handler: &H) -> Result<(), NoMemory>
        requires { length self.old.unit_state.volatile ≡ 0 }
        ensures ok { IfOk result (λ _. self.new ≡ checkpointed_member self.old) }
        ensures err { OnErr result (self.new ≡ self.old) }
    {
        let is_first = self.unit_state.last_index() == 0;
        self.unit_state.checkpoint(alloc, handler)?;
        self.first_put = self.first_put || is_first;
        Ok(())
    }

    /// What it took and sent with entries for `n` units, where it is up.
    pub(crate) fn widened_sessions(&self, n: usize) -> Result<Option<Sessions>, NoMemory>
        ensures { IfOk result (λ sessions.
            sessions ≡ option_map (λ p. widened_counts p.sessions n) self.now.unit_state.progress) }
    {
        self.unit_state.widened_sessions(n)
    }

    /// Adds the entries that `widened_sessions` made. Takes no memory.
    pub(crate) fn fit(&mut self, sessions: Option<Sessions>)
        ensures { (n : ℕ) → sessions ≡ option_map (λ p. widened_counts p.sessions n) self.old.unit_state.progress
            → self.new ≡ fitted_member n self.old }
    {
        self.unit_state.fit(sessions);
    }

    /// Copies of the texts of the outputs at the front that are of the first so many intervals.
    pub(crate) fn firm_texts(&self, alloc: Global, frontier: u64) -> Result<Vec<Text>, NoMemory>
        ensures { IfOk result (λ texts. texts.items ≡ firm_texts self.now.outputs frontier) }
    {
        releasing::copy_firm(alloc, &self.hold, frontier)
    }

    /// Lets the firm outputs at the front out, for which the outlet has room.
    pub(crate) fn release(&mut self, outlet: &mut Outlet, frontiers: &[u64])
        requires front { self.old.unit < length frontiers.now }
        requires line { self.old.unit < length outlet.old }
        requires room { length self.old.outputs ≤ room_of outlet.old self.old.unit }
        ensures member { self.new ≡ released_member self.old (slice_index frontiers.now self.old.unit) }
        ensures texts { line_texts outlet.new self.old.unit ≡ line_texts outlet.old self.old.unit
            ++ firm_texts self.old.outputs (slice_index frontiers.now self.old.unit) }
        ensures others { (u : ℕ) → u ≢ self.old.unit → line_texts outlet.new u ≡ line_texts outlet.old u }
        ensures gone { (u : ℕ) → count_of outlet.new u ≡ count_of outlet.old u }
        ensures len { length outlet.new ≡ length outlet.old }
    {
        releasing::release_all(&mut self.hold, outlet, frontiers);
    }

    /// So many more of its intervals are stable. Takes no memory.
    pub(crate) fn mark_stable(&mut self, count: usize)
        requires { count ≤ length self.old.unit_state.volatile }
        ensures { self.new ≡ flushed_member self.old count }
    {
        self.unit_state.mark_stable(count);
    }

    /// The index of its last interval.
    pub(crate) fn last_index(&self) -> u32
        ensures { result + 1 ≡ places self.now.unit_state }
    {
        self.unit_state.last_index()
    }

    /// The index of the last interval before its first orphan, by all rows, and never one before the base. The base
    /// itself is firm, and so no orphan, where the tenant stands for a world.
    pub(crate) fn rollback_target(&self, table: &StartTable) -> u32
        ensures target { IsTarget self.now.unit_state result }
        ensures kept { OrphansAreTail table.now self.now.unit_state.intervals
            → self.now.unit_state.base < kept_length table.now self.now.unit_state
            → result + 1 ≡ kept_length table.now self.now.unit_state }
    {
        match self.unit_state.first_orphan(table) {
            None => self.unit_state.last_index(),
            Some(first) => first.saturating_sub(1).max(self.unit_state.base()),
        }
    }

    /// The first position among its live records that it needs to go back to the target, and the position behind the
    /// last.
    pub(crate) fn replay_range(&self, target: u32) -> (usize, usize)
        ensures first { (s : SnapshotOf (ProgressOf H.State)) → nearest_of self.now.unit_state.shelf target ≡ Some s
            → result.0 ≡ s.index - self.now.unit_state.base }
        ensures last { result.1 ≡ min (target + 1) (stable_places self.now.unit_state) - 1 - self.now.unit_state.base }
    {
        let base = self.unit_state.base();
        let from = match self.unit_state.restart_index(target) {
            Some(index) => index,
            None => base,
        };
        let kept = (u64::from(target) + 1).min(self.stable_count());
        let last = kept.saturating_sub(1).saturating_sub(u64::from(base));
        (from.saturating_sub(base) as usize, last as usize)
    }

    /// How many of its live records stand up to the target.
    pub(crate) fn live_records_until(&self, target: u32) -> usize
        ensures { result ≡ target - self.now.unit_state.base }
    {
        target.saturating_sub(self.unit_state.base()) as usize
    }

    /// The index of its greatest snapshot below the frontier, if there is one.
    pub(crate) fn next_base(&self, frontier: u64) -> Option<u32>
        ensures base { result ≡ next_base self.now.unit_state frontier }
        ensures within { IfSome result (λ b. b < places self.now.unit_state) }
    {
        let last = u64::from(self.unit_state.last_index());
        let target = frontier.saturating_sub(1).min(last);
        self.unit_state.restart_index(target as u32)
    }

    /// Its base moves to the snapshot of this index. Takes no memory.
    pub(crate) fn move_base(&mut self, base: u32)
        requires { has_index self.old.unit_state.shelf base ≡ true }
        ensures { self.new ≡ rebased_member self.old base }
    {
        self.unit_state.forget(base);
    }

    /// How many of its records are live: those of its stable intervals behind the base.
    pub(crate) fn live_count(&self) -> usize
        ensures { result ≡ live_count self.now.unit_state }
    {
        let stable = self.stable_count().saturating_sub(1);
        stable.saturating_sub(u64::from(self.unit_state.base())) as usize
    }

    /// How many checkpoints it has, with its base, but for a beginning at which none was put.
    pub(crate) fn shelved_count(&self) -> usize
        ensures { result ≡ shelved_count self.now }
    {
        let others = self.unit_state.shelved();
        if self.unit_state.base() == 0 && !self.first_put {
            others
        } else {
            others + 1
        }
    }

    /// Its progress at the target, by replay of these records and then of its own volatile ones.
    ///
    /// # Errors
    ///
    /// `NoMemory` where the replay finds no memory.
    pub(crate) fn rebuilt(
        &self,
        alloc: Global,
        handler: &H,
        target: u32,
        width: usize,
        records: &[Record],
    ) -> Result<Option<Progress<H::State>>, NoMemory>
        requires { IsTarget self.now.unit_state target }
        ensures { IfOk result (λ p. p ≡ (restored H.meaning self.now.unit_state target width records.now).progress) }
    {
        let progress = self
            .unit_state
            .rebuilt(alloc, handler, target, width, records)?;
        Ok(progress)
    }

    /// It goes back to the target with this progress, and knows so many rows. Takes no memory.
    pub(crate) fn return_to(
        &mut self,
        target: u32,
        progress: Option<Progress<H::State>>,
        known: usize,
    )
        requires { IsTarget self.old.unit_state target }
        ensures { self.new ≡ returned_member self.old target progress known }
    {
        self.unit_state.return_to(target, progress);
        cut_hold(&mut self.hold, u64::from(target) + 1);
        self.known = known;
    }

    /// It knows so many rows.
    pub(crate) fn learn(&mut self, known: usize)
        ensures { self.new ≡ record self.old { known = known } }
    {
        self.known = known;
    }
}
