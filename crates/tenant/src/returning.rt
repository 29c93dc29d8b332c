//! A unit goes back: what a restart, and a notice that cuts, have in common.

ghost use Rattle.std.specs.Prelude.{◌≡◌, ◌≢◌, ◌⊎◌, ◌<◌, ◌≤◌, ◌+◌, ◌-◌, ◌∷◌, [], ◌++◌, IfOk, IfNone, IfSome, IsOkAnd};
ghost use Rattle.std.specs.Prelude.{OnOk, OnErr, Err, MatchOption, None, Option, Some, List, ℕ, drop, length, nat_le};
ghost use Rattle.std.specs.Prelude.{slice_get, slice_set, take};
ghost use Rattle.model.specs.Failures.{HasRisen};
ghost use Rattle.model.specs.World.{incarnation_of};
ghost use Rattle.model.specs.declared.replies.End.TheVariants.{Device};
ghost use Rattle.rollback.specs.Units.{IsTarget, OrphansAreTail, stable_places};
ghost use Rattle.shared_log.specs.Logged.{Grows, OthersKept, places_of};
ghost use Rattle.tenant.specs.Kept.{AreFetched, IsReplayed, Member as MemberOf, returned_kept, kept_length, returned};
ghost use Rattle.tenant.specs.Kept.{returned_member};
ghost use Rattle.tenant.specs.Returns.{Returns};

use crate::answer::Answer;
use crate::member::Member;
use crate::tenant::Tenant;
use handler::Handler;
use model::{MAX_INCARNATION, NoMemory, Record, Reply, Row, Start, TenantName, Unit};
use rollback::Progress;
use shared_log::{SharedLog, Store, StoreFault};
use std::alloc::Global;

/// How many of the unit's live records stand before its last `count`. They are none of a tenant whose name had no other
/// owner.
fn predecessor_records<S: Store>(
    tenant: &TenantName,
    unit: Unit,
    count: usize,
    log: &SharedLog<S>,
) -> usize
    ensures { result ≡ length (places_of tenant.now unit log.now) - count }
{
    log.of(tenant, unit).len().saturating_sub(count)
}

/// Fetches the unit's live record at this position behind those that are skipped, if there is one.
fn fetch_at<S: Store>(
    tenant: &TenantName,
    unit: Unit,
    skipped: usize,
    position: usize,
    log: &mut SharedLog<S>,
) -> Result<Option<Record>, StoreFault>
    ensures records { log.new.records ≡ log.old.records }
    ensures places { places_of tenant.now unit log.new ≡ places_of tenant.now unit log.old }
    ensures none { IfOk result (λ o. IfNone o (length (places_of tenant.now unit log.old) ≤ skipped + position)) }
    ensures some { IfOk result (λ o. IfSome o (λ r. (p : ℕ)
        × (slice_get (places_of tenant.now unit log.old) (skipped + position) ≡ Some p)
        × (slice_get log.old.records p ≡ Some (Some r)))) }
    ensures device { result ≡ Err StoreFault.Device → HasRisen log.old.failures log.new.failures }
    ensures up { log.old.failures ≤ log.new.failures }
    ensures steady { result ≢ Err StoreFault.Device → log.new.failures ≡ log.old.failures }
    ensures once { log.new.failures ≤ log.old.failures + 1 }
{
    let places = log.of(tenant, unit);
    if position >= places.len().saturating_sub(skipped) {
        return Ok(None);
    }
    let place = places[skipped + position];
    let record = log.fetch(place)?;
    Ok(Some(record))
}

/// The first `keep` of the unit's live records behind those that are skipped stay, and all before them.
#[tactic(auto, using(shared_log::proofs::LeftLaws::same_grows))]
fn cut_behind<S: Store>(
    tenant: &TenantName,
    unit: Unit,
    skipped: usize,
    keep: usize,
    log: &mut SharedLog<S>,
)
    ensures own { places_of tenant.now unit log.new ≡ take (skipped + keep) (places_of tenant.now unit log.old) }
    ensures others { OthersKept tenant.now unit log.old log.new }
    ensures grows { Grows log.old.records [] log.new.records }
    ensures failures { log.new.failures ≡ log.old.failures }
{
    let count = log.of(tenant, unit).len();
    if keep < count.saturating_sub(skipped) {
        log.cut(tenant, unit, skipped + keep);
    }
}

/// One more at the end.
fn add(records: &mut Vec<Record>, one: Record) -> Result<(), NoMemory>
    ensures { OnOk result (records.new.items ≡ records.old.items ++ one ∷ []) }
{
    records.push(one)?;
    Ok(())
}

/// Fetches the unit's live records, behind those that are skipped, from the first of these positions to before the
/// last, in order.
fn fetch_some<S: Store>(
    alloc: Global,
    tenant: &TenantName,
    unit: Unit,
    skipped: usize,
    first: usize,
    last: usize,
    log: &mut SharedLog<S>,
) -> Result<Vec<Record>, StoreFault>
    ensures records { log.new.records ≡ log.old.records }
    ensures fetched { IfOk result (λ rs.
        AreFetched log.old.records (drop skipped (places_of tenant.now unit log.old)) first last rs.items) }
    ensures device { result ≡ Err StoreFault.Device → HasRisen log.old.failures log.new.failures }
    ensures up { log.old.failures ≤ log.new.failures }
    ensures steady { result ≢ Err StoreFault.Device → log.new.failures ≡ log.old.failures }
    ensures once { log.new.failures ≤ log.old.failures + 1 }
{
    let mut fetched = Vec::new(alloc);
    for position in first..last {
        match fetch_at(tenant, unit, skipped, position, log)? {
            Some(record) => add(&mut fetched, record)?,
            None => return Ok(fetched),
        }
    }
    Ok(fetched)
}

/// The unit at this place goes back to the target.
fn return_member<H: Handler>(
    members: &mut Vec<Member<H>>,
    stable_lengths: &mut Vec<u64>,
    at: usize,
    target: u32,
    progress: Option<Progress<H::State>>,
    known: usize,
)
    requires within { at < length members.old.items }
    requires target { (m : MemberOf H.State) → slice_get members.old.items at ≡ Some m → IsTarget m.unit_state target }
    ensures members { (m : MemberOf H.State) → slice_get members.old.items at ≡ Some m
        → members.new.items ≡ slice_set members.old.items at (returned_member m target progress known) }
    ensures lengths { (m : MemberOf H.State) → slice_get members.old.items at ≡ Some m
        → stable_lengths.new.items
        ≡ slice_set stable_lengths.old.items at (stable_places (returned m.unit_state target progress)) }
{
    let member = &mut members[at];
    member.return_to(target, progress, known);
    let stable = member.stable_count();
    if at < stable_lengths.len() {
        stable_lengths[at] = stable;
    }
}

impl<H: Handler> Tenant<H> {
    /// The progress of the unit at the target, by replay of the records behind its nearest snapshot, which the store
    /// gives.
    fn progress_at<S: Store>(
        &self,
        alloc: Global,
        handler: &H,
        tenant: &TenantName,
        member: &Member<H>,
        unit: Unit,
        target: u32,
        log: &mut SharedLog<S>,
    ) -> Result<Option<Progress<H::State>>, StoreFault>
        requires { IsTarget member.now.unit_state target }
        ensures records { log.new.records ≡ log.old.records }
        ensures replayed { IfOk result (λ p.
            IsReplayed H.meaning log.old.records (places_of tenant.now unit log.old) member.now.unit_state target
            (length self.now.members) p) }
        ensures device { result ≡ Err StoreFault.Device → HasRisen log.old.failures log.new.failures }
        ensures up { log.old.failures ≤ log.new.failures }
        ensures steady { result ≢ Err StoreFault.Device → log.new.failures ≡ log.old.failures }
        ensures once { log.new.failures ≤ log.old.failures + 1 }
    {
        let (first, last) = member.replay_range(target);
        let skipped = predecessor_records(tenant, unit, member.live_count(), log);
        let fetched = fetch_some(alloc, tenant, unit, skipped, first, last, log)?;
        let width = self.members.len();
        let progress = member.rebuilt(alloc, handler, target, width, fetched.as_slice())?;
        Ok(progress)
    }

    /// The unit, which is there, goes back to the target with this progress, and its row is appended.
    fn enter_back(
        &mut self,
        unit: Unit,
        target: u32,
        progress: Option<Progress<H::State>>,
    ) -> Result<(), NoMemory>
        requires within { unit < length self.old.members }
        requires target { (m : MemberOf H.State) → slice_get self.old.members unit ≡ Some m
            → IsTarget m.unit_state target }
        requires room { incarnation_of self.old.table unit < MAX_INCARNATION }
        ensures ok { OnOk result ((m : MemberOf H.State) → slice_get self.old.members unit ≡ Some m
            → self.new ≡ returned_kept self.old unit m target (incarnation_of self.old.table unit + 1) progress) }
        ensures err { OnErr result (self.new ≡ self.old) }
        ensures gone { self.new.gone ≡ self.old.gone }
        ensures released { self.new.released ≡ self.old.released }
    {
        self.table.append(Row {
            unit,
            incarnation: self.table.latest(unit) + 1,
            start: u64::from(target) + 1,
        })?;
        let known = self.table.len();
        return_member(
            &mut self.members,
            &mut self.stable_lengths,
            usize::from(unit.number()),
            target,
            progress,
            known,
        );
        Ok(())
    }

    /// The unit, which is there.
    pub(crate) fn member_there(&self, unit: Unit) -> &Member<H>
        requires { unit < length self.now.members }
        ensures { slice_get self.now.members unit ≡ Some result.now }
    {
        &self.members[usize::from(unit.number())]
    }

    /// The unit, which is there, goes back to the target, if the store gives the records that this needs. Those behind
    /// the target are forgotten.
    pub(crate) fn return_to<S: Store>(
        &mut self,
        alloc: Global,
        handler: &H,
        tenant: &TenantName,
        unit: Unit,
        target: u32,
        reply: Reply,
        log: &mut SharedLog<S>,
    ) -> Result<Answer, NoMemory>
        requires within { unit < length self.old.members }
        requires target { (m : MemberOf H.State) → slice_get self.old.members unit ≡ Some m
            → IsTarget m.unit_state target }
        requires room { incarnation_of self.old.table unit < MAX_INCARNATION }
        ensures returns { IfOk result (λ a. (m : MemberOf H.State) → slice_get self.old.members unit ≡ Some m
            → Returns H.meaning tenant.now self.old unit m target reply a self.new log.old log.new) }
        ensures beside { IfOk result (λ _. Grows log.old.records [] log.new.records
            × OthersKept tenant.now unit log.old log.new) }
        ensures up { log.old.failures ≤ log.new.failures }
        ensures steady { (log.new.failures ≡ log.old.failures) ⊎ IsOkAnd result (λ a. a.said.end ≡ Device) }
        ensures once { log.new.failures ≤ log.old.failures + 1 }
        ensures err { OnErr result (self.new ≡ self.old) }
        ensures err_log { OnErr result (log.new.records ≡ log.old.records) }
        ensures gone { self.new.gone ≡ self.old.gone }
        ensures released { self.new.released ≡ self.old.released }
    {
        let member = self.member_there(unit);
        let keep = member.live_records_until(target);
        let skipped = predecessor_records(tenant, unit, member.live_count(), log);
        let progress = match self.progress_at(alloc, handler, tenant, member, unit, target, log) {
            Ok(progress) => progress,
            Err(StoreFault::Device) => return Ok(Answer::device_failed()),
            Err(StoreFault::NoMemory) => return Err(NoMemory),
        };
        let answer = Answer::plain(alloc, reply)?;
        self.enter_back(unit, target, progress)?;
        cut_behind(tenant, unit, skipped, keep, log);
        Ok(answer)
    }

    /// Where the unit's next incarnation starts, if this is the last interval that it keeps.
    pub(crate) fn start_behind(&self, unit: Unit, target: u32) -> Start
        requires { incarnation_of self.now.table unit < MAX_INCARNATION }
        ensures { result ≡ record { incarnation = incarnation_of self.now.table unit + 1; index = target + 1 } }
    {
        Start {
            incarnation: self.table.latest(unit) + 1,
            index: u64::from(target) + 1,
        }
    }

    /// The index of the last interval that the unit, which is there, keeps.
    pub(crate) fn rollback_target(&self, unit: Unit) -> u32
        requires { unit < length self.now.members }
        ensures target { (m : MemberOf H.State) → slice_get self.now.members unit ≡ Some m
            → IsTarget m.unit_state result }
        ensures kept { (m : MemberOf H.State) → slice_get self.now.members unit ≡ Some m
            → OrphansAreTail self.now.table m.unit_state.intervals
            → m.unit_state.base < kept_length self.now.table m.unit_state
            → result + 1 ≡ kept_length self.now.table m.unit_state }
    {
        let member = self.member_there(unit);
        member.rollback_target(&self.table)
    }

    /// Whether the unit has all the incarnations that there can be.
    pub(crate) fn incarnations_exhausted(&self, unit: Unit) -> bool
        ensures { result ≡ nat_le MAX_INCARNATION (incarnation_of self.now.table unit) }
    {
        self.table.latest(unit) >= MAX_INCARNATION
    }
}
