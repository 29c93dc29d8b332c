//! The step `checkpoint`.

ghost use Rattle.std.specs.Prelude.{◌≡◌, ◌≤◌, ◌<◌, IfOk, List, OnErr, Some, length, slice_get};
ghost use Rattle.std.specs.Prelude.{slice_set, ℕ};
ghost use Rattle.model.specs.World.{World};
ghost use Rattle.model.specs.declared.steps.TenantStep.TheVariants.{Checkpoint};
ghost use Rattle.tenant.specs.Past.{KeepsOn};
ghost use Rattle.tenant.specs.Kept.{Member as MemberOf, checkpointed_member};
ghost use Rattle.tenant.specs.Live.{OthersLive, StaysJust};
ghost use Rattle.tenant.specs.Stands.{Did, OthersStand, Stands};

use crate::answer::Answer;
use crate::member::Member;
use crate::tenant::Tenant;
use handler::Handler;
use model::{NoMemory, Refusal, Reply, TenantName, Unit};
use shared_log::{SharedLog, Store};
use std::alloc::Global;

/// Shelves a snapshot of the unit at this place, of which all is stable.
fn checkpoint_member<H: Handler>(
    alloc: Global,
    handler: &H,
    members: &mut Vec<Member<H>>,
    at: usize,
) -> Result<(), NoMemory>
    requires within { at < length members.old.items }
    requires whole { (m : MemberOf H.State) → slice_get members.old.items at ≡ Some m
        → length m.unit_state.volatile ≡ 0 }
    ensures ok { IfOk result (λ _. (m : MemberOf H.State) → slice_get members.old.items at ≡ Some m
        → members.new.items ≡ slice_set members.old.items at (checkpointed_member m)) }
    ensures err { OnErr result (members.new.items ≡ members.old.items) }
{
    let member = &mut members[at];
    member.checkpoint(alloc, handler)?;
    Ok(())
}

impl<H: Handler> Tenant<H> {
    /// Shelves a snapshot of a unit, which is there, and of which all is stable.
    fn checkpoint_at(&mut self, alloc: Global, handler: &H, unit: Unit) -> Result<(), NoMemory>
        requires within { unit < length self.old.members }
        requires whole { (m : MemberOf H.State) → slice_get self.old.members unit ≡ Some m
            → length m.unit_state.volatile ≡ 0 }
        ensures ok { IfOk result (λ _. (m : MemberOf H.State) → slice_get self.old.members unit ≡ Some m
            → self.new ≡ record self.old { members = slice_set self.old.members unit (checkpointed_member m) }) }
        ensures err { OnErr result (self.new ≡ self.old) }
        ensures gone { self.new.gone ≡ self.old.gone }
        ensures released { self.new.released ≡ self.old.released }
    {
        checkpoint_member(
            alloc,
            handler,
            &mut self.members,
            usize::from(unit.number()),
        )?;
        Ok(())
    }

    /// Shelves a snapshot of a unit that is up and has nothing volatile, from which it can go back later. Then each
    /// unit forgets what is firm for good.
    ///
    /// # Errors
    ///
    /// `NoMemory` where the snapshot finds no memory; the tenant and the records of the log stay as they were.
    pub(crate) fn checkpoint<S: Store>(
        &mut self,
        alloc: Global,
        handler: &H,
        tenant: &TenantName,
        unit: Unit,
        log: &mut SharedLog<S>,
    ) -> Result<Answer, NoMemory>
        ensures did { IfOk result (λ a. (w : World) → Stands H.meaning tenant.now self.old w log.old.records
            → Did H.meaning tenant.now w self.new (Checkpoint unit) a.said a.reply log.old log.new) }
        ensures keeps_on { IfOk result (λ a.
            KeepsOn H.meaning tenant.now self.old (Checkpoint unit) a.said a.reply self.new log.old.records) }
        ensures just { IfOk result (λ _.
            StaysJust H.meaning tenant.now self.old log.old.records self.new log.new.records) }
        ensures others { OthersStand H.meaning tenant.now log.old.records log.new.records }
        ensures others_live { OthersLive tenant.now log.old.records log.new.records }
        ensures up { log.old.failures ≤ log.new.failures }
        ensures failures { log.new.failures ≡ log.old.failures }
        ensures err { OnErr result (self.new ≡ self.old) }
        ensures err_log { OnErr result (log.new.records ≡ log.old.records) }
        ensures gone { self.new.gone ≡ self.old.gone }
        ensures released { self.new.released ≡ self.old.released }
    {
        let member = match self.up_member(unit) {
            Ok(member) => member,
            Err(refusal) => return Ok(Answer::refused(refusal)),
        };
        if member.volatile_count() > 0 {
            return Ok(Answer::refused(Refusal::Unlogged));
        }
        let at = member.last_mark(unit);
        self.checkpoint_at(alloc, handler, unit)?;
        self.forget_firm(tenant, log);
        Ok(Answer::quiet(Reply::Checkpointed { at }))
    }
}
