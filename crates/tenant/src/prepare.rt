//! A step whose turn is worked elsewhere.

ghost use Rattle.std.specs.Prelude.{◌≡◌, ℕ, List, Option, IfNone, IfOk, IfSome, OnErr};
ghost use Rattle.model.specs.declared.records.Record.{Record as RecordOf};
ghost use Rattle.model.specs.Steps.{deliver as deliver_of, post as post_of};
ghost use Rattle.model.specs.World.{World};
ghost use Rattle.tenant.specs.Past.{SameShelves};
ghost use Rattle.tenant.specs.Needs.{WasFresh, deliver_needs, needs, post_needs};
ghost use Rattle.tenant.specs.Outcomes.{IsPlain};
ghost use Rattle.tenant.specs.Represents.{DoesAs, StandsFor};
ghost use Rattle.tenant.specs.Stands.{Stands};

use crate::answer::Answer;
use crate::tenant::Tenant;
use handler::{Ask, Done, Handler};
use model::{Letter, NoMemory, TenantName, TenantStep, Text, Unit};
use std::alloc::Global;

impl<H: Handler> Tenant<H> {
    /// The whole input of the turn that the step now needs, if it needs one: a post or a delivery
    /// needs one, unless it is refused before its turn.
    ///
    /// # Errors
    ///
    /// `NoMemory` where the copies find none.
    pub fn prepare(
        &self,
        alloc: Global,
        handler: &H,
        step: &TenantStep,
    ) -> Result<Option<Ask<H>>, NoMemory>
        ensures { IfOk result (λ a. (name : List ℕ) (w : World) (records : List (Option RecordOf))
            → Stands H.meaning name self.now w records → a ≡ needs H.meaning w step.now) }
    {
        self.needed(alloc, handler, step)
    }

    fn needed(
        &self,
        alloc: Global,
        handler: &H,
        step: &TenantStep,
    ) -> Result<Option<Ask<H>>, NoMemory>
        ensures { IfOk result (λ a. (name : List ℕ) (live : ℕ → List ℕ) (w : World) (log : List RecordOf)
            → StandsFor H.meaning name live self.now w log → a ≡ needs H.meaning w step.now) }
    {
        match step {
            TenantStep::Post { unit, number, text } => {
                match self.ask_post(*unit, *number, text) {
                    Ok(ask) => Ok(Some(ask.to_ask(alloc, handler)?)),
                    Err(_) => Ok(None),
                }
            }
            TenantStep::Deliver { letter } => match self.ask_letter(*letter) {
                Ok(ask) => Ok(Some(ask.to_ask(alloc, handler)?)),
                Err(_) => Ok(None),
            },
            _ => Ok(None),
        }
    }

    /// A unit receives a text from outside by a turn that was worked, if it is of the input that
    /// this needs, or needs none.
    pub(crate) fn post_with(
        &mut self,
        alloc: Global,
        name: &TenantName,
        unit: Unit,
        number: u32,
        text: Text,
        worked: Done<H>,
    ) -> Result<Option<Answer>, NoMemory>
        ensures fresh { IfOk result (λ o. (live : ℕ → List ℕ) (w : World) (log : List RecordOf)
            → StandsFor H.meaning name.now live self.old w log
            → WasFresh (post_needs H.meaning w unit number text) worked.input o) }
        ensures done { IfOk result (λ o.
            IfSome o (λ a.
            DoesAs H.meaning name.now (λ w. post_of H.meaning w unit number text) self.old a.reply self.new)) }
        ensures plain { IfOk result (λ o. IfSome o IsPlain) }
        ensures shelves { IfOk result (λ o. IfSome o (λ _. SameShelves self.old self.new)) }
        ensures stale { IfOk result (λ o. IfNone o (self.new ≡ self.old)) }
        ensures err { OnErr result (self.new ≡ self.old) }
        ensures gone { self.new.gone ≡ self.old.gone }
        ensures released { self.new.released ≡ self.old.released }
    {
        match self.ask_post(unit, number, &text) {
            Err(refusal) => Ok(Some(Answer::refused(refusal))),
            Ok(ask) => {
                if !ask.is_same(worked.input()) {
                    return Ok(None);
                }
                let turn = worked.into_turn();
                let answer = self.take_post(alloc, name, unit, number, text, turn)?;
                Ok(Some(answer))
            }
        }
    }

    /// A unit receives a letter by a turn that was worked, if it is of the input that this needs,
    /// or needs none.
    pub(crate) fn deliver_with(
        &mut self,
        alloc: Global,
        name: &TenantName,
        letter: Letter,
        worked: Done<H>,
    ) -> Result<Option<Answer>, NoMemory>
        ensures fresh { IfOk result (λ o. (live : ℕ → List ℕ) (w : World) (log : List RecordOf)
            → StandsFor H.meaning name.now live self.old w log
            → WasFresh (deliver_needs H.meaning w letter) worked.input o) }
        ensures done { IfOk result (λ o.
            IfSome o (λ a.
            DoesAs H.meaning name.now (λ w. deliver_of H.meaning w letter) self.old a.reply self.new)) }
        ensures plain { IfOk result (λ o. IfSome o IsPlain) }
        ensures shelves { IfOk result (λ o. IfSome o (λ _. SameShelves self.old self.new)) }
        ensures stale { IfOk result (λ o. IfNone o (self.new ≡ self.old)) }
        ensures err { OnErr result (self.new ≡ self.old) }
        ensures gone { self.new.gone ≡ self.old.gone }
        ensures released { self.new.released ≡ self.old.released }
    {
        match self.ask_letter(letter) {
            Err(refusal) => Ok(Some(Answer::refused(refusal))),
            Ok(ask) => {
                if !ask.is_same(worked.input()) {
                    return Ok(None);
                }
                let turn = worked.into_turn();
                let answer = self.take_letter(alloc, name, letter, turn)?;
                Ok(Some(answer))
            }
        }
    }
}
