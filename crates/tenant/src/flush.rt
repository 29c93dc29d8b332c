//! The step `flush`.

ghost use Rattle.std.specs.Prelude.{◌≡◌, ◌≢◌, ◌⊎◌, ◌<◌, ◌≤◌, ◌++◌, ◌∷◌, [], ◌↔◌, All, IfOk, IfErr, IsOkAnd, IsTrue};
ghost use Rattle.std.specs.Prelude.{MatchOption, None, OnOk, OnErr, length, map, take, slice_get, slice_set, Some};
ghost use Rattle.std.specs.Prelude.{true, false, List, ℕ, ◌+◌, bytes_eq};
ghost use Rattle.model.specs.Failures.{HasRisen};
ghost use Rattle.model.specs.Steps.{flush_reply as flush_reply_of};
ghost use Rattle.model.specs.World.{World};
ghost use Rattle.model.specs.declared.replies.End.TheVariants.{Whole, Device, Memory};
ghost use Rattle.model.specs.declared.records.Record.{Record as RecordOf};
ghost use Rattle.model.specs.declared.steps.TenantStep.TheVariants.{Flush};
ghost use Rattle.rollback.specs.Units.{stable_places};
ghost use Rattle.unit_steps.specs.Receipts.{IsFrontier, frontier_of};
ghost use Rattle.tenant.specs.Answers.{IsSpareOf, spare_none};
ghost use Rattle.tenant.specs.Past.{KeepsOn};
ghost use Rattle.tenant.specs.Kept.{GoOn, MakesStable, Member as MemberOf, flushed_member};
ghost use Rattle.tenant.specs.Live.{OthersLive, StaysJust};
ghost use Rattle.tenant.specs.Stands.{Did, OthersStand, Stands};

use crate::answer::Answer;
use crate::member::Member;
use crate::tenant::Tenant;
use handler::Handler;
use incarnation::StartTable;
use model::{End, NoMemory, Refusal, Reply, Said, TenantName, Unit};
use rollback::RecoveryUnit;
use shared_log::{SharedLog, Store, StoreFault};
use unit_steps::frontier_after;

fn flush_reply(end: End, count: u64) -> Reply
    ensures value { result ≡ flush_reply_of end count }
    ensures small { IsSpareOf spare_none result }
{
    match end {
        End::Whole => Reply::Flushed { count },
        End::Device => Reply::Stopped {
            count,
            refusal: Refusal::Store,
        },
        End::Memory => Reply::Stopped {
            count,
            refusal: Refusal::Memory,
        },
    }
}

/// Logs the volatile record at this place. One of another tenant, which no unit has, is not logged.
fn append_at<H: Handler, S: Store>(
    tenant: &TenantName,
    unit_state: &RecoveryUnit<H>,
    place: usize,
    log: &mut SharedLog<S>,
) -> Result<(), End>
    requires { place < length unit_state.now.volatile }
    ensures ok { OnOk result ((r : RecordOf) → slice_get unit_state.now.volatile place ≡ Some r
        → (log.new.records ≡ log.old.records ++ Some r ∷ []) × (bytes_eq r.tenant tenant.now ≡ true)) }
    ensures err { OnErr result (log.new.records ≡ log.old.records) }
    ensures end { IfErr result (λ e. e ≡ Whole → ⊥) }
    ensures device { IfErr result (λ e. e ≡ Device → HasRisen log.old.failures log.new.failures) }
    ensures up { log.old.failures ≤ log.new.failures }
    ensures steady { result ≢ Err Device → log.new.failures ≡ log.old.failures }
    ensures once { log.new.failures ≤ log.old.failures + 1 }
{
    let logged = unit_state.volatile_record(place);
    if logged.tenant != *tenant {
        return Err(End::Memory);
    }
    match log.append(logged) {
        Ok(()) => Ok(()),
        Err(StoreFault::Device) => Err(End::Device),
        Err(StoreFault::NoMemory) => Err(End::Memory),
    }
}

/// Logs the volatile records of a unit of this tenant, from the front, until one is refused.
fn append_all<H: Handler, S: Store>(
    tenant: &TenantName,
    unit_state: &RecoveryUnit<H>,
    log: &mut SharedLog<S>,
) -> Said
    ensures records { log.new.records ≡ log.old.records ++ map Some (take result.appended unit_state.now.volatile) }
    ensures own { (k : ℕ) (r : RecordOf) → k < result.appended → slice_get unit_state.now.volatile k ≡ Some r
        → bytes_eq r.tenant tenant.now ≡ true }
    ensures within { result.appended ≤ length unit_state.now.volatile }
    ensures whole { (result.end ≡ Whole) ↔ (result.appended ≡ length unit_state.now.volatile) }
    ensures device { result.end ≡ Device → HasRisen log.old.failures log.new.failures }
    ensures up { log.old.failures ≤ log.new.failures }
    ensures steady { result.end ≢ Device → log.new.failures ≡ log.old.failures }
    ensures once { log.new.failures ≤ log.old.failures + 1 }
{
    for i in 0..unit_state.volatile_count() {
        match append_at(tenant, unit_state, i, log) {
            Ok(()) => {}
            Err(end) => {
                return Said {
                    appended: i as u64,
                    end,
                };
            }
        }
    }
    Said {
        appended: unit_state.volatile_count() as u64,
        end: End::Whole,
    }
}

/// Whether there was no memory for the first record.
fn nothing_logged_for_memory(said: Said) -> bool
    ensures none { IsTrue result → said.appended ≡ 0 }
    ensures memory { IsTrue result → said.end ≡ Memory }
    ensures some { result ≡ false → said.end ≡ Memory → 0 < said.appended }
{
    match said.end {
        End::Memory => said.appended == 0,
        _ => false,
    }
}

/// So many more intervals of the unit at this place are stable.
fn mark_stable<H: Handler>(
    members: &mut Vec<Member<H>>,
    stable_lengths: &mut Vec<u64>,
    at: usize,
    count: usize,
)
    requires within { at < length members.old.items }
    requires few { (m : MemberOf H.State) → slice_get members.old.items at ≡ Some m
        → count ≤ length m.unit_state.volatile }
    ensures members { (m : MemberOf H.State) → slice_get members.old.items at ≡ Some m
        → members.new.items ≡ slice_set members.old.items at (flushed_member m count) }
    ensures lengths { (m : MemberOf H.State) → slice_get members.old.items at ≡ Some m
        → stable_lengths.new.items
        ≡ slice_set stable_lengths.old.items at (stable_places (flushed_member m count).unit_state) }
{
    let member = &mut members[at];
    member.mark_stable(count);
    let stable = member.stable_count();
    if at < stable_lengths.len() {
        stable_lengths[at] = stable;
    }
}

/// The unit at this place.
fn member_at<H: Handler>(members: &[Member<H>], at: usize) -> Option<&Member<H>>
    ensures { MatchOption result (slice_get members.now at ≡ None) (λ m. slice_get members.now at ≡ Some m.now) }
{
    members.get(at)
}

/// How many intervals of the unit at this place are firm, where so many were.
fn front_of<H: Handler>(
    table: &StartTable,
    stable_lengths: &[u64],
    members: &[Member<H>],
    at: usize,
    frontier: u64,
) -> u64
    ensures { (m : MemberOf H.State) → slice_get members.now at ≡ Some m
        → IsFrontier (length stable_lengths.now) m.unit_state frontier
        → result ≡ frontier_of table.now stable_lengths.now m.unit_state frontier }
{
    match member_at(members, at) {
        Some(member) => frontier_after(table, stable_lengths, member.unit_state(), frontier),
        None => frontier,
    }
}

/// Each unit's frontier goes on as far as the vectors behind it are firm. Takes time by the intervals that become firm,
/// and by the units.
fn advance_frontiers<H: Handler>(
    table: &StartTable,
    stable_lengths: &[u64],
    members: &[Member<H>],
    frontiers: &mut Vec<u64>,
)
    ensures len { length frontiers.new.items ≡ length frontiers.old.items }
    ensures fronts { GoOn table.now stable_lengths.now members.now frontiers.old.items frontiers.new.items }
{
    for at in 0..frontiers.len() {
        let frontier = frontiers[at];
        frontiers[at] = front_of(table, stable_lengths, members, at, frontier);
    }
}

impl<H: Handler> Tenant<H> {
    /// So many more intervals of the unit, which is there, are stable, and the frontiers go on.
    fn enter_stable(&mut self, unit: Unit, count: usize)
        requires within { unit < length self.old.members }
        requires few { (m : MemberOf H.State) → slice_get self.old.members unit ≡ Some m
            → count ≤ length m.unit_state.volatile }
        ensures makes { (m : MemberOf H.State) → slice_get self.old.members unit ≡ Some m
            → MakesStable self.old unit count m self.new }
        ensures gone { self.new.gone ≡ self.old.gone }
        ensures released { self.new.released ≡ self.old.released }
    {
        mark_stable(
            &mut self.members,
            &mut self.stable_lengths,
            usize::from(unit.number()),
            count,
        );
        advance_frontiers(
            &self.table,
            self.stable_lengths.as_slice(),
            self.members.as_slice(),
            &mut self.frontiers,
        );
    }

    /// Logs the unit's volatile records, from the front, and the frontiers of all units go on. Where a record was
    /// added, each unit forgets what is firm for good. Where there was no memory for the first record, nothing is
    /// changed.
    ///
    /// # Errors
    ///
    /// `NoMemory` where there was none for the first record; the tenant and the records of the log stay as they were.
    pub(crate) fn flush<S: Store>(
        &mut self,
        tenant: &TenantName,
        unit: Unit,
        log: &mut SharedLog<S>,
    ) -> Result<Answer, NoMemory>
        ensures did { IfOk result (λ a. (w : World) → Stands H.meaning tenant.now self.old w log.old.records
            → Did H.meaning tenant.now w self.new (Flush unit) a.said a.reply log.old log.new) }
        ensures keeps_on { IfOk result (λ a.
            KeepsOn H.meaning tenant.now self.old (Flush unit) a.said a.reply self.new log.old.records) }
        ensures just { IfOk result (λ _.
            StaysJust H.meaning tenant.now self.old log.old.records self.new log.new.records) }
        ensures others { OthersStand H.meaning tenant.now log.old.records log.new.records }
        ensures others_live { OthersLive tenant.now log.old.records log.new.records }
        ensures up { log.old.failures ≤ log.new.failures }
        ensures steady { (log.new.failures ≡ log.old.failures) ⊎ IsOkAnd result (λ a. a.said.end ≡ Device) }
        ensures once { log.new.failures ≤ log.old.failures + 1 }
        ensures err { OnErr result (self.new ≡ self.old) }
        ensures err_log { OnErr result (log.new.records ≡ log.old.records) }
        ensures gone { self.new.gone ≡ self.old.gone }
        ensures released { self.new.released ≡ self.old.released }
    {
        let member = match self.up_member(unit) {
            Ok(member) => member,
            Err(refusal) => return Ok(Answer::refused(refusal)),
        };
        let said = append_all(tenant, member.unit_state(), log);
        if nothing_logged_for_memory(said) {
            return Err(NoMemory);
        }
        self.enter_stable(unit, said.appended as usize);
        self.forget_after(tenant, said.appended, log);
        Ok(Answer::small(said, flush_reply(said.end, said.appended)))
    }
}
