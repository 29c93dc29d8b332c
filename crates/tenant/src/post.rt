//! The step `post`.

ghost use Rattle.std.specs.Prelude.{◌≡◌, ℕ, List, IfOk, OnErr, Some, slice_get};
ghost use Rattle.model.specs.declared.names.Source.TheVariants.{Outside};
ghost use Rattle.model.specs.declared.records.Record.{Record as RecordOf};
ghost use Rattle.model.specs.Steps.{post as post_of};
ghost use Rattle.model.specs.World.{World};
ghost use Rattle.unit_steps.specs.Receipts.{post_refused};
ghost use Rattle.tenant.specs.Past.{SameShelves};
ghost use Rattle.tenant.specs.Kept.{IsAsking, IsTurn, Member as MemberOf};
ghost use Rattle.tenant.specs.Needs.{IsAsked, post_needs};
ghost use Rattle.tenant.specs.Outcomes.{IsPlain};
ghost use Rattle.tenant.specs.Represents.{DoesAs, StandsFor};

use crate::answer::Answer;
use crate::receipts::Incoming;
use crate::tenant::Tenant;
use handler::{AskRef, Handler, Turn};
use model::{NoMemory, Refusal, Source, TenantName, Text, Unit};
use std::alloc::Global;
use unit_steps::arrival_refusal;

impl<H: Handler> Tenant<H> {
    /// The turn that a post needs, or why it needs none.
    pub(crate) fn ask_post<'a>(
        &'a self,
        unit: Unit,
        number: u32,
        text: &'a Text,
    ) -> Result<AskRef<'a, H>, Refusal>
        ensures asked { (name : List ℕ) (live : ℕ → List ℕ) (w : World) (log : List RecordOf)
            → StandsFor H.meaning name live self.now w log
            → IsAsked (post_needs H.meaning w unit number text.now) (post_of H.meaning w unit number text.now) w
            result }
        ensures input { IfOk result (λ input. (m : MemberOf H.State) → slice_get self.now.members unit ≡ Some m
            → IsAsking (post_refused self.now.quota.volatile m.unit_state number text.now)
            m.unit_state Outside text.now input) }
    {
        let member = match self.member(unit) {
            Some(member) => member,
            None => {
                return Err(Refusal::NoUnit);
            }
        };
        match arrival_refusal(
            self.quota.volatile,
            member.unit_state(),
            Source::Outside,
            u64::from(number),
            text,
        ) {
            Some(refusal) => return Err(refusal),
            None => {}
        }
        member.ask(Source::Outside, text)
    }

    /// A unit receives a text from outside, by the turn that this needs.
    pub(crate) fn take_post(
        &mut self,
        alloc: Global,
        name: &TenantName,
        unit: Unit,
        number: u32,
        text: Text,
        turn: Turn<H::State>,
    ) -> Result<Answer, NoMemory>
        requires own { (m : MemberOf H.State) → slice_get self.old.members unit ≡ Some m
            → IsTurn H.meaning (post_refused self.old.quota.volatile m.unit_state number text)
            m.unit_state Outside text turn }
        ensures done { IfOk result (λ a.
            DoesAs H.meaning name.now (λ w. post_of H.meaning w unit number text) self.old a.reply self.new) }
        ensures plain { IfOk result IsPlain }
        ensures shelves { IfOk result (λ _. SameShelves self.old self.new) }
        ensures err { OnErr result (self.new ≡ self.old) }
        ensures gone { self.new.gone ≡ self.old.gone }
        ensures released { self.new.released ≡ self.old.released }
    {
        let member = match self.member(unit) {
            Some(member) => member,
            None => {
                return Ok(Answer::refused(Refusal::NoUnit));
            }
        };
        let arrival = Incoming {
            source: Source::Outside,
            letter: None,
            number: u64::from(number),
            text,
            vector: &[],
        };
        match self.plan(alloc, unit, member, arrival, &turn)? {
            Err(refusal) => Ok(Answer::refused(refusal)),
            Ok(plan) => {
                let answer = self.apply(name, unit, plan, turn)?;
                Ok(answer)
            }
        }
    }

    /// A unit receives a text from outside.
    ///
    /// # Errors
    ///
    /// `NoMemory` where the turn or what the receipt adds finds no memory; the tenant stays as it was.
    pub(crate) fn post(
        &mut self,
        alloc: Global,
        handler: &H,
        name: &TenantName,
        unit: Unit,
        number: u32,
        text: Text,
    ) -> Result<Answer, NoMemory>
        ensures done { IfOk result (λ a.
            DoesAs H.meaning name.now (λ w. post_of H.meaning w unit number text) self.old a.reply self.new) }
        ensures plain { IfOk result IsPlain }
        ensures shelves { IfOk result (λ _. SameShelves self.old self.new) }
        ensures err { OnErr result (self.new ≡ self.old) }
        ensures gone { self.new.gone ≡ self.old.gone }
        ensures released { self.new.released ≡ self.old.released }
    {
        match self.ask_post(unit, number, &text) {
            Err(refusal) => Ok(Answer::refused(refusal)),
            Ok(ask) => {
                let turn = ask.work(alloc, handler)?;
                self.take_post(alloc, name, unit, number, text, turn)
            }
        }
    }
}
