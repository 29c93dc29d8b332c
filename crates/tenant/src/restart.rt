//! The step `restart`.

ghost use Rattle.std.specs.Prelude.{◌≡◌, ◌⊎◌, ◌≤◌, ◌<◌, ◌+◌, IfNone, IfOk, IsOkAnd, OnErr, List, ℕ};
ghost use Rattle.std.specs.Prelude.{length, slice_get};
ghost use Rattle.model.specs.World.{World, incarnation_of};
ghost use Rattle.model.specs.declared.replies.End.TheVariants.{Device};
ghost use Rattle.model.specs.declared.steps.TenantStep.TheVariants.{Restart};
ghost use Rattle.model.specs.Keeping.{after_return};
ghost use Rattle.tenant.specs.Past.{Shelves};
ghost use Rattle.tenant.specs.Kept.{restart_refusal as restart_refusal_of};
ghost use Rattle.tenant.specs.Live.{OthersLive, StaysJust};
ghost use Rattle.tenant.specs.Stands.{Did, OthersStand, Stands};

use crate::answer::Answer;
use crate::tenant::Tenant;
use handler::Handler;
use model::{MAX_INCARNATION, NoMemory, Refusal, Reply, TenantName, Unit};
use shared_log::{SharedLog, Store};
use std::alloc::Global;

impl<H: Handler> Tenant<H> {
    /// Why a unit can't restart, whatever the store says.
    fn restart_refusal(&self, unit: Unit) -> Option<Refusal>
        ensures refusal { result ≡ restart_refusal_of self.now.table unit (slice_get self.now.members unit) }
        ensures there { IfNone result (unit < length self.now.members) }
        ensures room { IfNone result (incarnation_of self.now.table unit < MAX_INCARNATION) }
    {
        let member = match self.member(unit) {
            Some(member) => member,
            None => return Some(Refusal::NoUnit),
        };
        if member.is_up() {
            Some(Refusal::Up)
        } else if self.incarnations_exhausted(unit) {
            Some(Refusal::Limit)
        } else {
            None
        }
    }

    /// A unit that is down goes back to its last interval that is no orphan, by replay of what the store gives, and is
    /// up again. A device that failed is answered `store`, with nothing changed.
    ///
    /// # Errors
    ///
    /// `NoMemory` where records or replay find no memory; the tenant and the records of the log stay as they were.
    pub(crate) fn restart<S: Store>(
        &mut self,
        alloc: Global,
        handler: &H,
        tenant: &TenantName,
        unit: Unit,
        log: &mut SharedLog<S>,
    ) -> Result<Answer, NoMemory>
        ensures did { IfOk result (λ a. (w : World) → Stands H.meaning tenant.now self.old w log.old.records
            → Did H.meaning tenant.now w self.new (Restart unit) a.said a.reply log.old log.new) }
        ensures shelves { IfOk result (λ a. Shelves (after_return unit a.reply) self.old self.new) }
        ensures just { IfOk result (λ _.
            StaysJust H.meaning tenant.now self.old log.old.records self.new log.new.records) }
        ensures others { OthersStand H.meaning tenant.now log.old.records log.new.records }
        ensures others_live { OthersLive tenant.now log.old.records log.new.records }
        ensures up { log.old.failures ≤ log.new.failures }
        ensures steady { (log.new.failures ≡ log.old.failures) ⊎ IsOkAnd result (λ a. a.said.end ≡ Device) }
        ensures once { log.new.failures ≤ log.old.failures + 1 }
        ensures err { OnErr result (self.new ≡ self.old) }
        ensures err_log { OnErr result (log.new.records ≡ log.old.records) }
        ensures gone { self.new.gone ≡ self.old.gone }
        ensures released { self.new.released ≡ self.old.released }
    {
        match self.restart_refusal(unit) {
            Some(refusal) => return Ok(Answer::refused(refusal)),
            None => {}
        }
        let target = self.rollback_target(unit);
        let row = self.start_behind(unit, target);
        let reply = Reply::Restarted { row };
        self.return_to(alloc, handler, tenant, unit, target, reply, log)
    }
}
