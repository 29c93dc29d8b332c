//! One step of an open tenant.

ghost use Rattle.std.specs.Prelude.{◌≡◌, ◌⊎◌, ◌≤◌, ◌+◌, IfNone, IfOk, IfSome, IsOk, IsOkAnd, IsSomeAnd, OnErr, List, ℕ};
ghost use Rattle.std.specs.Prelude.{false, bytes_eq};
ghost use Rattle.model.specs.World.{World};
ghost use Rattle.model.specs.declared.replies.End.TheVariants.{Device};
ghost use Rattle.tenant.specs.Past.{KeepsOn};
ghost use Rattle.tenant.specs.Kept.{KeepsNoText, KeepsNoTextBut, KeepsTexts, TenantState};
ghost use Rattle.tenant.specs.Live.{KeepsJust, OthersLive};
ghost use Rattle.tenant.specs.Needs.{WasFresh, needs};
ghost use Rattle.tenant.specs.Stands.{Did, Stands};

use crate::answer::Answer;
use crate::tenant::Tenant;
use handler::{Done, Handler};
use model::{NoMemory, Refusal, TenantName, TenantStep};
use shared_log::{SharedLog, Store};
use std::alloc::Global;

impl<H: Handler> Tenant<H> {
    /// Does a step of the tenant of this name. Where no memory was found, nothing is changed; the
    /// log then has the records that it had.
    pub fn step<S: Store>(
        &mut self,
        alloc: Global,
        handler: &H,
        name: &TenantName,
        step: TenantStep,
        log: &mut SharedLog<S>,
    ) -> Result<Answer, NoMemory>
        ensures did { IfOk result (λ a. (w : World) → Stands H.meaning name.now self.old w log.old.records
            → Did H.meaning name.now w self.new step a.said a.reply log.old log.new) }
        // It keeps of its past what the rules of keeping leave.
        ensures keeps_on { IfOk result (λ a.
            KeepsOn H.meaning name.now self.old step a.said a.reply self.new log.old.records) }
        // The log then has of each of its units just the live records that those rules leave, and no others.
        ensures just { IfOk result (λ a. KeepsJust H.meaning name.now self.old step a.said a.reply
            log.old.records log.new.records) }
        // What other tenants stand for stays.
        ensures others { (k : TenantState H.State) (w : World) (other : List ℕ) → bytes_eq other name.now ≡ false
            → Stands H.meaning other k w log.old.records → Stands H.meaning other k w log.new.records }
        ensures others_live { OthersLive name.now log.old.records log.new.records }
        // The count of the device's failures never falls.
        ensures up { log.old.failures ≤ log.new.failures }
        // It stays, unless the answer says that the device failed: a call of it that did isn't made again.
        ensures steady { (log.new.failures ≡ log.old.failures) ⊎ IsOkAnd result (λ a. a.said.end ≡ Device) }
        ensures once { log.new.failures ≤ log.old.failures + 1 }
        // A kill takes no memory.
        ensures kill { (unit : ℕ) → step ≡ TenantStep.Kill unit → IsOk result }
        ensures err { OnErr result (self.new ≡ self.old) }
        ensures err_log { OnErr result (log.new.records ≡ log.old.records) }
        // A unit that gave up no text still has all of them.
        ensures texts { KeepsTexts self.old → KeepsTexts self.new }
        // Where no unit kept a text that it released, none does but the one that the step released.
        ensures none { KeepsNoText self.old → KeepsNoTextBut step self.new }
    {
        match step {
            TenantStep::Open { .. } => Ok(Answer::refused(Refusal::AlreadyOpen)),
            TenantStep::Join { kind } => self.join(alloc, handler, kind.as_str()),
            TenantStep::Post { unit, number, text } => {
                self.post(alloc, handler, name, unit, number, text)
            }
            TenantStep::Deliver { letter } => self.deliver(alloc, handler, name, letter),
            TenantStep::Flush { unit } => self.flush(name, unit, log),
            TenantStep::Checkpoint { unit } => self.checkpoint(alloc, handler, name, unit, log),
            TenantStep::Kill { unit } => Ok(self.kill(unit)),
            TenantStep::Restart { unit } => self.restart(alloc, handler, name, unit, log),
            TenantStep::Notice { unit } => self.notice(alloc, handler, name, unit, log),
            TenantStep::Release { unit } => self.release(alloc, unit),
            TenantStep::Status { unit } => Ok(self.answer_status(unit)),
        }
    }

    /// Does a step of the tenant of this name by a turn that was worked, as `step` does. There is no
    /// answer, and nothing has changed, exactly where the step now needs a turn of another input.
    /// Where no memory was found, nothing is changed; the log then has the records that it had.
    pub fn step_with<S: Store>(
        &mut self,
        alloc: Global,
        handler: &H,
        name: &TenantName,
        step: TenantStep,
        worked: Done<H>,
        log: &mut SharedLog<S>,
    ) -> Result<Option<Answer>, NoMemory>
        ensures fresh { IfOk result (λ o. (w : World) → Stands H.meaning name.now self.old w log.old.records
            → WasFresh (needs H.meaning w step) worked.input o) }
        ensures did { IfOk result (λ o. IfSome o (λ a. (w : World)
            → Stands H.meaning name.now self.old w log.old.records
            → Did H.meaning name.now w self.new step a.said a.reply log.old log.new)) }
        ensures keeps_on { IfOk result (λ o.
            IfSome o (λ a. KeepsOn H.meaning name.now self.old step a.said a.reply self.new log.old.records)) }
        ensures stale { IfOk result (λ o. IfNone o (self.new ≡ self.old)) }
        ensures stale_log { IfOk result (λ o. IfNone o (log.new ≡ log.old)) }
        // The log then has of each of its units just the live records that the rules of keeping leave, and no others.
        ensures just { IfOk result (λ o. IfSome o (λ a. KeepsJust H.meaning name.now self.old step a.said a.reply
            log.old.records log.new.records)) }
        // What other tenants stand for stays.
        ensures others { (k : TenantState H.State) (w : World) (other : List ℕ) → bytes_eq other name.now ≡ false
            → Stands H.meaning other k w log.old.records → Stands H.meaning other k w log.new.records }
        ensures others_live { OthersLive name.now log.old.records log.new.records }
        // The count of the device's failures never falls.
        ensures up { log.old.failures ≤ log.new.failures }
        // It stays, unless the answer says that the device failed: a call of it that did isn't made again.
        ensures steady { (log.new.failures ≡ log.old.failures)
            ⊎ IsOkAnd result (λ o. IsSomeAnd o (λ a. a.said.end ≡ Device)) }
        ensures once { log.new.failures ≤ log.old.failures + 1 }
        // A kill takes no memory.
        ensures kill { (unit : ℕ) → step ≡ TenantStep.Kill unit → IsOk result }
        ensures err { OnErr result (self.new ≡ self.old) }
        ensures err_log { OnErr result (log.new.records ≡ log.old.records) }
        // A unit that gave up no text still has all of them.
        ensures texts { KeepsTexts self.old → KeepsTexts self.new }
        // Where no unit kept a text that it released, none does but the one that the step released.
        ensures none { KeepsNoText self.old → KeepsNoTextBut step self.new }
    {
        match step {
            TenantStep::Post { unit, number, text } => {
                self.post_with(alloc, name, unit, number, text, worked)
            }
            TenantStep::Deliver { letter } => self.deliver_with(alloc, name, letter, worked),
            _ => {
                let answer = self.step(alloc, handler, name, step, log)?;
                Ok(Some(answer))
            }
        }
    }
}
