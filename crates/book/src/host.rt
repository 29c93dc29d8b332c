//! All tenants, without a history.

ghost use Rattle.std.specs.Prelude.{◌≡◌, [], IfNone, IfOk, IfSome, IsOk, MatchOption, OnErr, List, None, Some, ℕ};
ghost use Rattle.model.specs.Addresses.{addressed};
ghost use Rattle.model.specs.declared.replies.Entry.{Entry};
ghost use Rattle.model.specs.declared.replies.Reply.{Reply as ReplyOf};
ghost use Rattle.model.specs.declared.replies.Who.{Who};
ghost use Rattle.model.specs.declared.steps.TenantStep.{TenantStep};
ghost use Rattle.tenant.specs.Needs.{WasFresh};
ghost use Rattle.tenant.specs.Stands.{StandsAt};
ghost use Rattle.model.specs.World.{World};
ghost use Rattle.std.specs.Prelude.{Option};
ghost use Rattle.book.specs.Commits.{needed, needs_at};
ghost use Rattle.book.specs.Entries.{IsAdded};
ghost use Rattle.book.specs.History.{HoldsAsBefore, IsAnswered, IsAnsweredAt, opened, receiver_at, world_of};
ghost use Rattle.book.specs.Past.{FootprintAfter, kept_after};
ghost use Rattle.book.specs.Standing.{Carries, CommitsHonestly, EntersHonestly, HostReplays, IsHostOf, KeepNoTexts};
ghost use Rattle.book.specs.Standing.{KeepNoTextsBut, KeepTexts, Releases, ReplaysAsWell, held_by};

use crate::answer::{
    Tenants, answer_unopened, ask, give_up, is_flush, memory_reply, memory_reply_to, released_unit,
    step_within, unit_released,
};
use crate::committed::Committed;
use handler::{Ask, Done, Handler};
use indexmap::IndexMap;
use model::{AddressedStep, Kept, Letter, NoMemory, Reply, Step, TenantName, TenantStep, Unit};
use shared_log::{SharedLog, Store};
use std::alloc::Global;
use std::marker::Model;
use std::mem;
use tenant::{Answer, Footprint, Tenant};

/// All tenants, and the log of all of them. It stores no history of their steps. Contracts see a host as its tenants
/// and its log, and say what is true of each history that it is the replay of: a new host is that of the empty one,
/// and a step makes it that of the same history with one entry more.
#[derive(Drop)]
pub struct Host<H: Handler, S: Store> {
    alloc: Global,
    handler: H,
    log: SharedLog<S>,
    tenants: Tenants<H>,
}

impl<H: Handler, S: Store> Model for Host<H, S> {
    ghost use Rattle.book.specs.Standing.{Hosted};
    ghost use Rattle.tenant.specs.Stands.{TenantState};

    ghost Value = { Hosted (TenantState H.State) };

    ghost view = { λ h. record { entries = h.tenants.entries; log = h.log } };
}

impl<H: Handler, S: Store> Host<H, S> {
    /// A host with no tenants, over a store that acknowledged nothing yet. It takes no memory.
    #[tactic(auto, using(crate::proofs::Live::just_none))]
    pub fn new(alloc: Global, handler: H, store: S) -> Host<H, S>
        requires { S.log store ≡ [] }
        ensures replay { HostReplays H.meaning result [] }
        ensures records { result.log.records ≡ [] }
        ensures failures { result.log.failures ≡ S.failures store }
        ensures texts { KeepTexts (held_by result).at }
        ensures none { KeepNoTexts (held_by result).at }
    {
        Host {
            alloc,
            handler,
            log: SharedLog::new(alloc, store),
            tenants: IndexMap::new(alloc),
        }
    }

    /// Leaves it as it is, where the process ends with it: to let go of all that it keeps takes a while.
    pub fn forget(self) {
        mem::forget(self);
    }

    /// The host of these tenants, in the order of opening, and this log. Takes no memory.
    pub fn of(
        alloc: Global,
        handler: H,
        log: SharedLog<S>,
        tenants: IndexMap<TenantName, Tenant<H>>,
    ) -> Host<H, S>
        ensures { result ≡ record { entries = tenants.entries; log = log } }
    {
        Host {
            alloc,
            handler,
            log,
            tenants,
        }
    }

    /// Its tenants under their names, in the order of opening.
    pub fn by_name(&self) -> &IndexMap<TenantName, Tenant<H>>
        ensures { result.now.entries ≡ self.now.entries }
    {
        &self.tenants
    }

    /// The log of all of them.
    pub fn log(&self) -> &SharedLog<S>
        ensures { result.now ≡ self.now.log }
    {
        &self.log
    }

    /// Its allocator.
    pub(crate) fn alloc(&self) -> Global {
        self.alloc
    }

    /// Its handler.
    pub(crate) fn handler(&self) -> &H {
        &self.handler
    }

    /// Does a step of the tenant of this name. Where no memory was found nothing is changed; a kill takes none.
    #[inline(always)]
    pub(crate) fn answer_own(
        &mut self,
        name: &TenantName,
        step: TenantStep,
    ) -> Result<Answer, NoMemory>
        ensures answered { IfOk result (λ a. IsAnsweredAt H.meaning name.now step a.said a.reply
            (held_by self.old) (held_by self.new)) }
        ensures kill { (unit : ℕ) → step ≡ TenantStep.Kill unit → IsOk result }
        ensures err { OnErr result (HoldsAsBefore (held_by self.old) (held_by self.new)) }
        ensures texts { KeepTexts (held_by self.old).at → KeepTexts (held_by self.new).at }
        ensures none { KeepNoTexts (held_by self.old).at → KeepNoTextsBut name.now step (held_by self.new).at }
    {
        let alloc = self.alloc;
        if let Some(tenant) = self.tenants.get_mut(name) {
            return tenant.step(alloc, &self.handler, name, step, &mut self.log);
        }
        answer_unopened(alloc, &self.handler, &mut self.tenants, name, step)
    }

    /// Does a step of any tenant by a turn that was worked, if it needs no other. Where there is no
    /// answer, or no memory was found, nothing is changed.
    pub(crate) fn answer_with(
        &mut self,
        step: &Step,
        worked: Done<H>,
    ) -> Result<Option<Answer>, NoMemory>
        ensures fresh { IfOk result (λ o. (w : Option World)
            → StandsAt H.meaning (addressed step.now).0
            ((held_by self.old).at (addressed step.now).0) w self.old.log.records
            → WasFresh (needs_at H.meaning w (addressed step.now).1) worked.input o) }
        ensures answered { IfOk result (λ o.
            IfSome o (λ a. IsAnswered H.meaning step.now a.said a.reply (held_by self.old) (held_by self.new))) }
        ensures stale { IfOk result (λ o. IfNone o (HoldsAsBefore (held_by self.old) (held_by self.new))) }
        ensures stale_log { IfOk result (λ o. IfNone o (self.new.log ≡ self.old.log)) }
        ensures kill { (tenant : List ℕ) (unit : ℕ) → step.now ≡ Step.Kill tenant unit → IsOk result }
        ensures err { OnErr result (HoldsAsBefore (held_by self.old) (held_by self.new)) }
        ensures texts { KeepTexts (held_by self.old).at → KeepTexts (held_by self.new).at }
        ensures none { KeepNoTexts (held_by self.old).at
            → KeepNoTextsBut (addressed step.now).0 (addressed step.now).1 (held_by self.new).at }
    {
        let own_step = step_within(step)?;
        let name = step.tenant();
        let alloc = self.alloc;
        if let Some(tenant) = self.tenants.get_mut(name) {
            return tenant.step_with(alloc, &self.handler, name, own_step, worked, &mut self.log);
        }
        let answer = answer_unopened(alloc, &self.handler, &mut self.tenants, name, own_step)?;
        Ok(Some(answer))
    }

    /// Does a step. Whichever book the host stood for, and whoever gave the step: it is entered there with its reply,
    /// and the host stands for that book then; or there was no memory for it, and tenants and records are as they
    /// were. A kill takes no memory, and is always entered.
    pub fn step(&mut self, step: AddressedStep) -> Reply
        ensures entered { (who : Who)
            → Carries (IsHostOf H.meaning) (EntersHonestly H.meaning who step result) self.old self.new }
        ensures kill { (who : Who) (tenant : List ℕ) (unit : ℕ) → step ≡ Step.Kill tenant unit
            → Carries (IsHostOf H.meaning) (λ before after. IsAdded before who step result after) self.old self.new }
        // Where it kept no text that was released, it keeps none.
        ensures none { KeepNoTexts (held_by self.old).at → KeepNoTexts (held_by self.new).at }
    {
        let AddressedStep { tenant, own } = step;
        let flush = is_flush(&own);
        let released = released_unit(&own);
        match self.answer_own(&tenant, own) {
            Err(_) => memory_reply_to(flush),
            Ok(answer) => {
                self.give_up_after(&tenant, released);
                answer.into_reply()
            }
        }
    }

    /// Gives up the texts that a step of the tenant of this name released, if it released a unit. They are in its
    /// reply: of a host nobody may ask for them.
    pub(crate) fn give_up_after(&mut self, name: &TenantName, released: Option<Unit>)
        ensures log { self.new.log ≡ self.old.log }
        ensures replay { ReplaysAsWell H.meaning self.old self.new }
        ensures none { (step : TenantStep) → Releases step released
            → KeepNoTextsBut name.now step (held_by self.old).at → KeepNoTexts (held_by self.new).at }
    {
        if let Some(unit) = released {
            give_up(&mut self.tenants, name, unit);
        }
    }

    /// The whole input of the turn that the step now needs, if it needs one: a post or a delivery
    /// needs one, unless it is refused before its turn. Whoever works it may do so beside the host,
    /// and commit it with `step_with`. `NoMemory` comes where there is none for the copies.
    pub fn prepare(&self, step: &Step) -> Result<Option<Ask<H>>, NoMemory>
        ensures { (history : List Entry) → HostReplays H.meaning self.now history
            → IfOk result (λ a. a ≡ needed H.meaning history step.now) }
    {
        ask(self.alloc, &self.handler, &self.tenants, step)
    }

    /// Does a step by a turn that was worked, as `step` does. The step is given back, with nothing changed, exactly
    /// where it now needs a turn of another whole input (seat, state, source and text). A kill takes no memory, so that
    /// one with a reply was entered.
    pub fn step_with(&mut self, step: Step, worked: Done<H>) -> Committed
        ensures commits { (who : Who)
            → Carries (IsHostOf H.meaning) (CommitsHonestly H.meaning who step worked.input result) self.old self.new }
        ensures kill { (who : Who) (tenant : List ℕ) (unit : ℕ) (reply : ReplyOf)
            → step ≡ Step.Kill tenant unit → result ≡ Committed.Reply reply
            → Carries (IsHostOf H.meaning) (λ before after. IsAdded before who step reply after) self.old self.new }
        // Where it kept no text that was released, it keeps none.
        ensures none { KeepNoTexts (held_by self.old).at → KeepNoTexts (held_by self.new).at }
    {
        match self.answer_with(&step, worked) {
            Err(_) => Committed::Reply(memory_reply(&step)),
            Ok(None) => Committed::Stale(step),
            Ok(Some(answer)) => {
                self.give_up_after(step.tenant(), unit_released(&step));
                Committed::Reply(answer.into_reply())
            }
        }
    }

    /// The open tenant of this name.
    pub(crate) fn tenant(&self, name: &TenantName) -> Option<&Tenant<H>>
        ensures { MatchOption result ((held_by self.now).at name.now ≡ None) (λ t.
            (held_by self.now).at name.now ≡ Some t.now) }
    {
        self.tenants.get(name)
    }

    /// The names of the open tenants, in the order of opening. `NoMemory` comes where there is none
    /// for the copies.
    pub fn tenants(&self) -> Result<Vec<TenantName>, NoMemory>
        ensures { (history : List Entry) → HostReplays H.meaning self.now history
            → IfOk result (λ names. names.items ≡ opened history) }
    {
        self.names()
    }

    fn names(&self) -> Result<Vec<TenantName>, NoMemory>
        ensures { IfOk result (λ names. names.items ≡ (held_by self.now).names) }
    {
        names_of(self.alloc, self.tenants.keys().as_slice())
    }

    /// How much the host keeps of the past of a unit of the tenant, if the tenant is open and has the unit: what the
    /// rules of keeping leave of the tenant's own entries. Takes no memory, and time by the number of its letters.
    pub fn kept(&self, tenant: &TenantName, unit: Unit) -> Option<Kept>
        ensures { (history : List Entry) → HostReplays H.meaning self.now history
            → result ≡ kept_after H.meaning tenant.now history unit }
    {
        match self.tenants.get(tenant) {
            Some(open) => open.kept(unit),
            None => None,
        }
    }

    /// How long the lists are that the host keeps of a unit of the tenant, if the tenant is open and has the unit. None
    /// of them grows with the steps done, but by what the tenant's quotas and limits allow, the intervals behind the
    /// unit's base, and what it counts (`released`). Takes no memory, and time by the number of its letters.
    pub fn footprint(&self, tenant: &TenantName, unit: Unit) -> Option<Footprint>
        ensures lengths { (history : List Entry) → HostReplays H.meaning self.now history
            → FootprintAfter H.meaning tenant.now history unit result }
        // A host that keeps no text that was released tells so.
        ensures none { KeepNoTexts (held_by self.now).at → IfSome result (λ f. f.texts ≡ 0) }
    {
        match self.tenants.get(tenant) {
            Some(open) => open.footprint(unit),
            None => None,
        }
    }

    /// The unit that a letter of the tenant is to, if the tenant is open and made the letter. Takes no memory.
    pub fn receiver(&self, tenant: &TenantName, letter: Letter) -> Option<Unit>
        ensures { (history : List Entry) → HostReplays H.meaning self.now history
            → result ≡ receiver_at H.meaning (world_of H.meaning tenant.now history) letter }
    {
        match self.tenants.get(tenant) {
            Some(open) => open.receiver(letter),
            None => None,
        }
    }
}

/// Equal names.
fn names_of(alloc: Global, names: &[TenantName]) -> Result<Vec<TenantName>, NoMemory>
    ensures { IfOk result (λ copies. copies.items ≡ names.now) }
{
    let mut copies = Vec::new(alloc);
    for name in names {
        copies.push(name.copy())?;
    }
    Ok(copies)
}
