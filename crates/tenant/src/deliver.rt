//! The step `deliver`.

ghost use Rattle.std.specs.Prelude.{◌≡◌, ◌<◌, ◌^◌, ℕ, List, IfNone, IfOk, MatchOption, None, OnErr, Some, is_some};
ghost use Rattle.std.specs.Prelude.{length, slice_get, true};
ghost use Rattle.model.specs.declared.records.Record.{Record as RecordOf};
ghost use Rattle.model.specs.Steps.{deliver as deliver_of};
ghost use Rattle.model.specs.World.{World};
ghost use Rattle.compact.specs.Compact.{CompactLetter};
ghost use Rattle.rollback.specs.Units.{places};
ghost use Rattle.unit_steps.specs.Receipts.{IsWithin};
ghost use Rattle.tenant.specs.Past.{SameShelves};
ghost use Rattle.tenant.specs.Kept.{IsAskingBy, IsTurnBy, Member as MemberOf, letter_refusal_of};
ghost use Rattle.tenant.specs.Needs.{IsAsked, deliver_needs};
ghost use Rattle.tenant.specs.Outcomes.{IsPlain};
ghost use Rattle.tenant.specs.Represents.{DoesAs, StandsFor};

use crate::answer::Answer;
use crate::member::Member;
use crate::receipts::Incoming;
use crate::tenant::Tenant;
use handler::{AskRef, Handler, Turn};
use model::{Letter, NoMemory, Refusal, Source, TenantName};
use std::alloc::Global;
use unit_steps::{LetterRef, TenantView, letter_refusal};

impl<H: Handler> Tenant<H> {
    /// The letter of this number.
    pub(crate) fn letter(&self, letter: Letter) -> Option<LetterRef<'_>>
        ensures { MatchOption result (slice_get self.now.letters letter ≡ None) (λ l.
            slice_get self.now.letters letter ≡ Some l) }
    {
        self.letters.get(letter.number() as usize)
    }

    /// Why a letter is refused before its turn.
    fn letter_refusal(&self, member: &Member<H>, sent: &LetterRef<'_>) -> Option<Refusal>
        ensures refusal { IsWithin (length self.now.stable_lengths) sent.now.content
            → result ≡ letter_refusal_of self.now member.now sent.now }
        ensures within { IfNone result (IsWithin (length self.now.stable_lengths) sent.now.content) }
        ensures content { IfNone result (is_some sent.now.content ≡ true) }
        ensures room { IfNone result (places member.now.unit_state < 2 ^ 32) }
    {
        let known = TenantView {
            table: &self.table,
            rows: member.known(),
            stable_lengths: self.stable_lengths.as_slice(),
        };
        letter_refusal(
            &known,
            self.optimism,
            self.quota.volatile,
            member.unit_state(),
            sent,
        )
    }

    /// The turn that a delivery needs, or why it needs none.
    pub(crate) fn ask_letter(&self, letter: Letter) -> Result<AskRef<'_, H>, Refusal>
        ensures asked { (name : List ℕ) (live : ℕ → List ℕ) (w : World) (log : List RecordOf)
            → StandsFor H.meaning name live self.now w log
            → IsAsked (deliver_needs H.meaning w letter) (deliver_of H.meaning w letter) w result }
        ensures input { IfOk result (λ input. (c : CompactLetter) (m : MemberOf H.State)
            → slice_get self.now.letters letter ≡ Some c → slice_get self.now.members c.receiver ≡ Some m
            → IsAskingBy self.now m c c.content input) }
    {
        let sent = match self.letter(letter) {
            Some(sent) => sent,
            None => {
                return Err(Refusal::NoLetter);
            }
        };
        let member = match self.member(sent.receiver) {
            Some(member) => member,
            None => {
                return Err(Refusal::NoUnit);
            }
        };
        match self.letter_refusal(member, &sent) {
            Some(refusal) => return Err(refusal),
            None => {}
        }
        let content = match sent.content {
            Some(content) => content,
            // One that is forgotten is refused before.
            None => {
                return Err(Refusal::Repeat);
            }
        };
        member.ask(Source::Unit(sent.source), content.text())
    }

    /// A unit receives a letter, by the turn that this needs.
    pub(crate) fn take_letter(
        &mut self,
        alloc: Global,
        name: &TenantName,
        letter: Letter,
        turn: Turn<H::State>,
    ) -> Result<Answer, NoMemory>
        requires own { (c : CompactLetter) (m : MemberOf H.State) → slice_get self.old.letters letter ≡ Some c
            → slice_get self.old.members c.receiver ≡ Some m → IsTurnBy H.meaning self.old m c c.content turn }
        ensures done { IfOk result (λ a.
            DoesAs H.meaning name.now (λ w. deliver_of H.meaning w letter) self.old a.reply self.new) }
        ensures plain { IfOk result IsPlain }
        ensures shelves { IfOk result (λ _. SameShelves self.old self.new) }
        ensures err { OnErr result (self.new ≡ self.old) }
        ensures gone { self.new.gone ≡ self.old.gone }
        ensures released { self.new.released ≡ self.old.released }
    {
        let sent = match self.letter(letter) {
            Some(sent) => sent,
            None => {
                return Ok(Answer::refused(Refusal::NoLetter));
            }
        };
        let unit = sent.receiver;
        let member = match self.member(unit) {
            Some(member) => member,
            None => {
                return Ok(Answer::refused(Refusal::NoUnit));
            }
        };
        let content = match sent.content {
            Some(content) => content,
            // One that is forgotten needs no turn.
            None => {
                return Ok(Answer::refused(Refusal::Repeat));
            }
        };
        let text = content.text().copy()?;
        let arrival = Incoming {
            source: Source::Unit(sent.source),
            letter: Some(letter),
            number: content.number(),
            text,
            vector: content.vector().as_slice(),
        };
        match self.plan(alloc, unit, member, arrival, &turn)? {
            Err(refusal) => Ok(Answer::refused(refusal)),
            Ok(plan) => {
                let answer = self.apply(name, unit, plan, turn)?;
                Ok(answer)
            }
        }
    }

    /// A unit receives a letter.
    ///
    /// # Errors
    ///
    /// `NoMemory` where the turn or what the receipt adds finds no memory; the tenant stays as it was.
    pub(crate) fn deliver(
        &mut self,
        alloc: Global,
        handler: &H,
        name: &TenantName,
        letter: Letter,
    ) -> Result<Answer, NoMemory>
        ensures done { IfOk result (λ a.
            DoesAs H.meaning name.now (λ w. deliver_of H.meaning w letter) self.old a.reply self.new) }
        ensures plain { IfOk result IsPlain }
        ensures shelves { IfOk result (λ _. SameShelves self.old self.new) }
        ensures err { OnErr result (self.new ≡ self.old) }
        ensures gone { self.new.gone ≡ self.old.gone }
        ensures released { self.new.released ≡ self.old.released }
    {
        match self.ask_letter(letter) {
            Err(refusal) => Ok(Answer::refused(refusal)),
            Ok(ask) => {
                let turn = ask.work(alloc, handler)?;
                self.take_letter(alloc, name, letter, turn)
            }
        }
    }
}
