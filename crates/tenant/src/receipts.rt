//! A receipt, once its turn is worked: what it adds and answers.

ghost use Rattle.std.specs.Prelude.{◌≡◌, ◌+◌, ◌<◌, ◌≤◌, ◌^◌, IfOk, OnErr, Some, length, slice_get};
ghost use Rattle.std.specs.Prelude.{true};
ghost use Rattle.std.specs.Option.{is_some};
ghost use Rattle.model.specs.Lists.{numbers_from};
ghost use Rattle.model.specs.Nodes.{sends_within};
ghost use Rattle.model.specs.declared.refusals.Refusal.TheVariants.{Down};
ghost use Rattle.rollback.specs.Units.{asking, places, recorded};
ghost use Rattle.tenant.specs.Kept.{IsNext, Member as MemberOf, next_mark_of, next_reply_of};
ghost use Rattle.tenant.specs.Kept.{received_kept};
ghost use Rattle.tenant.specs.Outcomes.{IsPlain};
ghost use Rattle.tenant.specs.Plans.{IsPlan, IsPlanned, arrived};

use crate::answer::{Answer, PendingAccept, Spare, quiet};
use crate::member::Member;
use crate::tenant::Tenant;
use handler::{AskRef, Handler, Turn};
use model::{Letter, Letters, Mark, NoMemory, Refusal, Reply, Source, TenantName, Text, Unit};
use rollback::RecordDraft;
use std::alloc::Global;
use unit_steps::{NewLetters, letters_by, mark_upon, turn_refusal, vector_upon};

/// What a unit receives: from whom, which letter under which number, its text and its vector.
#[derive(Drop)]
pub(crate) struct Incoming<'a> {
    pub(crate) source: Source,
    pub(crate) letter: Option<Letter>,
    pub(crate) number: u64,
    pub(crate) text: Text,
    pub(crate) vector: &'a [Mark],
}

/// What a receipt adds and answers. The unit makes the record where it keeps it.
#[derive(Drop)]
pub(crate) struct Plan {
    pub(crate) logged: RecordDraft,
    pub(crate) made: NewLetters,
    pub(crate) answer: PendingAccept,
}

impl<H: Handler> Tenant<H> {
    /// What a receipt adds and answers that passed the tests before its turn, or why it is refused for what its turn
    /// makes.
    pub(crate) fn plan(
        &self,
        alloc: Global,
        unit: Unit,
        member: &Member<H>,
        arrival: Incoming<'_>,
        turn: &Turn<H::State>,
    ) -> Result<Result<Plan, Refusal>, NoMemory>
        requires room { places member.now.unit_state < 2 ^ 32 }
        requires up { is_some member.now.unit_state.progress ≡ true }
        requires there { unit < length self.now.members }
        ensures { IfOk result (IsPlanned self.now unit member.now (arrived arrival.entry) turn.now) }
    {
        let held = member.held_count();
        let letters = self.letters.len();
        let width = self.member_count();
        match turn_refusal(self.quota, held, letters, width, turn) {
            Some(refusal) => return Ok(Err(refusal)),
            None => {}
        }
        let unit_state = member.unit_state();
        // The tests before the turn refuse a unit that is down.
        let progress = match unit_state.progress() {
            Some(progress) => progress,
            None => unreachable!(),
        };
        let mark = mark_upon(&self.table, unit, unit_state);
        let vector = vector_upon(alloc, width, unit, unit_state, mark, arrival.vector)?;
        let made = letters_by(
            alloc,
            unit,
            &vector,
            &progress.sessions,
            arrival.source,
            turn.sends(),
            width,
        )?;
        let numbers = Letters::from_first(alloc, letters, made.len())?;
        let held = held as u64 + turn.outputs().len() as u64;
        let spare = numbers.copy(alloc)?;
        let answer = PendingAccept {
            at: mark,
            held,
            letters: numbers,
            spare,
        };
        let logged = RecordDraft {
            unit,
            mark,
            source: arrival.source,
            letter: arrival.letter,
            number: arrival.number,
            text: arrival.text,
            vector,
        };
        Ok(Ok(Plan {
            logged,
            made,
            answer,
        }))
    }

    /// Takes a receipt as it was planned, with the turn that it was planned for.
    #[inline(always)]
    pub(crate) fn apply(
        &mut self,
        name: &TenantName,
        unit: Unit,
        plan: Plan,
        turn: Turn<H::State>,
    ) -> Result<Answer, NoMemory>
        requires within { unit < length self.old.members }
        requires next { (m : MemberOf H.State) → slice_get self.old.members unit ≡ Some m
            → IsNext H.meaning m (recorded name.now plan.logged) turn }
        ensures answer { IfOk result (λ a. a ≡ plan.answer) }
        ensures ok { IfOk result (λ _. (m : MemberOf H.State) → slice_get self.old.members unit ≡ Some m
            → self.new ≡ received_kept H.meaning self.old unit m (recorded name.now plan.logged) turn.outputs
            plan.made.items) }
        ensures err { OnErr result (self.new ≡ self.old) }
        ensures gone { self.new.gone ≡ self.old.gone }
        ensures released { self.new.released ≡ self.old.released }
    {
        let Plan {
            logged,
            made,
            answer,
        } = plan;
        self.letters.reserve(made.len())?;
        let member = &mut self.members[usize::from(unit.number())];
        member.receive(name, logged, turn)?;
        self.letters.add(made);
        let PendingAccept {
            at,
            held,
            letters,
            spare,
        } = answer;
        Ok(Answer {
            said: quiet(),
            reply: Reply::Accepted { at, held, letters },
            spare: Spare::Letters(spare),
        })
    }
}
