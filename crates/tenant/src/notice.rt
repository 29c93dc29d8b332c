//! The step `notice`.

ghost use Rattle.std.specs.Prelude.{◌≡◌, ◌⊎◌, ◌≤◌, ◌<◌, IfOk, IsOkAnd, OnErr, List, ℕ, Some, ◌+◌};
ghost use Rattle.std.specs.Prelude.{length, nat_le, slice_get, slice_set};
ghost use Rattle.rollback.specs.Units.{places};
ghost use Rattle.model.specs.World.{World};
ghost use Rattle.model.specs.declared.replies.End.TheVariants.{Device};
ghost use Rattle.model.specs.declared.steps.TenantStep.TheVariants.{Notice};
ghost use Rattle.model.specs.Keeping.{after_return};
ghost use Rattle.tenant.specs.Past.{Shelves};
ghost use Rattle.tenant.specs.Kept.{Member as MemberOf};
ghost use Rattle.tenant.specs.Live.{OthersLive, StaysJust};
ghost use Rattle.tenant.specs.Stands.{Did, OthersStand, Stands};

use crate::answer::Answer;
use crate::member::Member;
use crate::tenant::Tenant;
use handler::Handler;
use model::{NoMemory, Refusal, Reply, TenantName, Unit};
use shared_log::{SharedLog, Store};
use std::alloc::Global;

/// The unit at this place knows so many rows.
fn learn<H: Handler>(members: &mut Vec<Member<H>>, at: usize, known: usize)
    requires { at < length members.old.items }
    ensures { (m : MemberOf H.State) → slice_get members.old.items at ≡ Some m
        → members.new.items ≡ slice_set members.old.items at (record m { known = known }) }
{
    let member = &mut members[at];
    member.learn(known);
}

impl<H: Handler> Tenant<H> {
    /// The unit, which is there, knows all rows.
    fn learn_rows(&mut self, unit: Unit)
        requires { unit < length self.old.members }
        ensures learned { (m : MemberOf H.State) → slice_get self.old.members unit ≡ Some m
            → self.new ≡ record self.old {
              members = slice_set self.old.members unit
                  (record m { known = length self.old.table });
            } }
        ensures gone { self.new.gone ≡ self.old.gone }
        ensures released { self.new.released ≡ self.old.released }
    {
        let known = self.table.len();
        learn(&mut self.members, usize::from(unit.number()), known);
    }

    /// Whether no interval of the unit, which is there, is behind this index.
    fn is_last(&self, unit: Unit, index: u32) -> bool
        requires { unit < length self.now.members }
        ensures { (m : MemberOf H.State) → slice_get self.now.members unit ≡ Some m
            → result ≡ nat_le (places m.unit_state) (index + 1) }
    {
        let member = self.member_there(unit);
        member.last_index() <= index
    }

    /// A unit that is up learns the rows, and goes back where its path has an orphan. Only then is the store asked; a
    /// device that failed is answered `store`, with nothing changed.
    ///
    /// # Errors
    ///
    /// `NoMemory` where records or replay find no memory; the tenant and the records of the log stay as they were.
    pub(crate) fn notice<S: Store>(
        &mut self,
        alloc: Global,
        handler: &H,
        tenant: &TenantName,
        unit: Unit,
        log: &mut SharedLog<S>,
    ) -> Result<Answer, NoMemory>
        ensures did { IfOk result (λ a. (w : World) → Stands H.meaning tenant.now self.old w log.old.records
            → Did H.meaning tenant.now w self.new (Notice unit) a.said a.reply log.old log.new) }
        ensures shelves { IfOk result (λ a. Shelves (after_return unit a.reply) self.old self.new) }
        ensures just { IfOk result (λ _.
            StaysJust H.meaning tenant.now self.old log.old.records self.new log.new.records) }
        ensures others { OthersStand H.meaning tenant.now log.old.records log.new.records }
        ensures others_live { OthersLive tenant.now log.old.records log.new.records }
        ensures up { log.old.failures ≤ log.new.failures }
        ensures steady { (log.new.failures ≡ log.old.failures) ⊎ IsOkAnd result (λ a. a.said.end ≡ Device) }
        ensures once { log.new.failures ≤ log.old.failures + 1 }
        ensures err { OnErr result (self.new ≡ self.old) }
        ensures err_log { OnErr result (log.new.records ≡ log.old.records) }
        ensures gone { self.new.gone ≡ self.old.gone }
        ensures released { self.new.released ≡ self.old.released }
    {
        match self.up_member(unit) {
            Ok(_) => {}
            Err(refusal) => return Ok(Answer::refused(refusal)),
        }
        let target = self.rollback_target(unit);
        if self.is_last(unit, target) {
            self.learn_rows(unit);
            return Ok(Answer::quiet(Reply::Noticed { row: None }));
        }
        if self.incarnations_exhausted(unit) {
            return Ok(Answer::refused(Refusal::Limit));
        }
        let row = Some(self.start_behind(unit, target));
        let reply = Reply::Noticed { row };
        self.return_to(alloc, handler, tenant, unit, target, reply, log)
    }
}
