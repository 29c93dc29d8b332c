//! The book of all tenants.

ghost use Rattle.std.specs.Prelude.{◌≡◌, ◌+◌, ◌≤◌, [], ◌∷◌, ◌++◌, IfOk, OnOk, OnErr, MatchOption, None, Some, vec_len};
ghost use Rattle.std.specs.Prelude.{vec_capacity};
ghost use Rattle.model.specs.Addresses.{addressed};
ghost use Rattle.model.specs.Alone.{alone};
ghost use Rattle.model.specs.History.{IsLegal, own, pairs, replies_to};
ghost use Rattle.model.specs.declared.replies.Who.TheVariants.{Caller};
ghost use Rattle.book.specs.Certificates.{CertifiesAt, IsHeadline, certificate_at, seats_at};
ghost use Rattle.book.specs.Commits.{Commits, needed};
ghost use Rattle.book.specs.Entries.{CountsDevice, IsEntered};
ghost use Rattle.book.specs.Past.{FootprintAfter, LiveAfter, kept_after};
ghost use Rattle.book.specs.Standing.{IsHostOf};
ghost use Rattle.book.specs.History.{IsIsolated, IsRecordedIn, IsSaidHonestly, Ran, entries_of, opened, released_at};
ghost use Rattle.book.specs.History.{table_at, world_of};

use crate::answer::{is_flush, memory_reply, memory_reply_to, step_within, whole_copy};
use crate::committed::Committed;
use crate::host::Host;
use handler::{Ask, Done, Handler};
use model::{
    AddressedStep, Entry, Kept, Move, NoMemory, Reply, Row, Seat, Step, TenantName, TenantStep,
    Text, Unit, Who,
};
use shared_log::Store;
use std::alloc::Global;
use std::marker::Model;
use std::mem;
use tenant::{Answer, Footprint};

/// A host of all tenants with the log of all of them, and the history of their steps. Contracts see a book as its
/// history and its log. It is always the replay of its history.
#[derive(Drop)]
pub struct Book<H: Handler, S: Store> {
    host: Host<H, S>,
    history: Vec<Entry>,
}

impl<H: Handler, S: Store> Model for Book<H, S> {
    ghost use Rattle.book.specs.Entries.{Ledger};
    ghost use Rattle.book.specs.Standing.{IsBook};

    ghost Value = { Ledger };

    ghost view = { λ b. record { history = b.history.items; log = b.host.log } };

    ghost invariant = { λ b. IsBook H.meaning b.host b.history.items };
}

impl<H: Handler, S: Store> Book<H, S> {
    /// A book with no tenants and an empty history, over a store that acknowledged nothing yet.
    /// It takes no memory.
    pub fn new(alloc: Global, handler: H, store: S) -> Book<H, S>
        requires { S.log store ≡ [] }
        ensures history { result.history ≡ [] }
        ensures records { result.log.records ≡ [] }
        ensures failures { result.log.failures ≡ S.failures store }
    {
        Book {
            host: Host::new(alloc, handler, store),
            history: Vec::new(alloc),
        }
    }

    /// Leaves it as it is, where the process ends with it: to let go of all that it keeps takes a while.
    pub fn forget(self) {
        mem::forget(self);
    }

    /// The host that the book is, without its history.
    pub fn host(&self) -> &Host<H, S>
        ensures { IsHostOf H.meaning result.now self.now }
    {
        &self.host
    }

    /// The entries, in order. To each tenant the replies are those that it gets alone, and the
    /// records of the log are those that the entries acknowledged, honestly, but for the places whose
    /// records were forgotten. No more entries say that the device failed than it counted failures.
    /// Of each unit the log has just the records of the stable intervals behind its base: all others
    /// are forgotten.
    pub fn history(&self) -> &[Entry]
        ensures entries { result.now ≡ self.now.history }
        ensures legal { IsLegal H.meaning self.now.history }
        ensures recorded { IsRecordedIn H.meaning self.now.history self.now.log.records }
        ensures device { CountsDevice self.now.history self.now.log.failures }
        ensures live { LiveAfter H.meaning self.now.history self.now.log.records }
    {
        self.history.as_slice()
    }

    /// Does a step that this one gave, and enters it with its reply.
    ///
    /// Where there is no memory for the step it is answered `memory` (a flush: stopped after no
    /// record), it is not entered, and history, tenants and records are as they were. A flush that
    /// is stopped later has had its effect, and is entered. The history keeps the step, and its tenant
    /// does a copy.
    pub fn step_as(&mut self, who: Who, step: Step) -> Reply
        ensures entered { IsEntered self.old who step result self.new }
        ensures honest { IsSaidHonestly H.meaning self.old self.new }
    {
        match step_within(&step) {
            Err(_) => memory_reply(&step),
            Ok(own_step) => self.enter_own(who, step, own_step),
        }
    }

    /// Does a step of a caller that is apart, and enters it with its reply, as `step` does. Its tenant does the step
    /// itself, and the history keeps a copy.
    #[tactic(auto, using(model::proofs::Apart::addressed_of_whole))]
    pub fn step_addressed(&mut self, step: AddressedStep) -> Reply
        ensures entered { IsEntered self.old Caller step result self.new }
        ensures honest { IsSaidHonestly H.meaning self.old self.new }
    {
        let AddressedStep { tenant, own } = step;
        match whole_copy(&tenant, &own) {
            Err(_) => memory_reply_to(is_flush(&own)),
            Ok(step) => self.enter_own(Who::Caller, step, own),
        }
    }

    /// Has its tenant do a tenant's own step, and enters it as the step that it is, with the reply.
    fn enter_own(&mut self, who: Who, step: Step, own_step: TenantStep) -> Reply
        requires { (addressed step).1 ≡ own_step }
        ensures entered { IsEntered self.old who step result self.new }
        ensures honest { IsSaidHonestly H.meaning self.old self.new }
    {
        if reserve_place(&mut self.history).is_err() {
            return memory_reply(&step);
        }
        match self.host.answer_own(step.tenant(), own_step) {
            Err(_) => memory_reply(&step),
            Ok(answer) => enter(&mut self.history, who, step, answer),
        }
    }

    /// The whole input of the turn that the step now needs, if it needs one: a post or a delivery
    /// needs one, unless it is refused before its turn. Whoever works it may do so beside the book,
    /// and commit it with `step_with`. `NoMemory` comes where there is none for the copies.
    pub fn prepare(&self, step: &Step) -> Result<Option<Ask<H>>, NoMemory>
        ensures { IfOk result (λ a. a ≡ needed H.meaning self.now.history step.now) }
    {
        self.host.prepare(step)
    }

    /// Does a step that this one gave by a turn that was worked, and enters it with its reply, as
    /// `step_as` does.
    ///
    /// The step is given back, with nothing changed, exactly where it now needs a turn of another
    /// whole input (seat, state, source and text). Where there is no memory for it the answer is as
    /// that of `step_as`.
    pub fn step_with(&mut self, who: Who, step: Step, worked: Done<H>) -> Committed
        ensures commits { Commits H.meaning self.old who step worked.input result self.new }
        ensures honest { IsSaidHonestly H.meaning self.old self.new }
    {
        if reserve_place(&mut self.history).is_err() {
            return Committed::Reply(memory_reply(&step));
        }
        let done = self.host.answer_with(&step, worked);
        match done {
            Err(_) => Committed::Reply(memory_reply(&step)),
            Ok(None) => Committed::Stale(step),
            Ok(Some(answer)) => Committed::Reply(enter(&mut self.history, who, step, answer)),
        }
    }

    /// Does a step of a caller, and enters it with its reply, as `step_as` does.
    pub fn step(&mut self, step: Step) -> Reply
        ensures entered { IsEntered self.old Caller step result self.new }
        ensures honest { IsSaidHonestly H.meaning self.old self.new }
    {
        self.step_as(Who::Caller, step)
    }

    /// Does an equal step of a caller. Where it cannot be copied there is no memory for it.
    fn step_copy(&mut self, step: &Step) -> Reply
        ensures { IsEntered self.old Caller step.now result self.new }
    {
        match step.copy() {
            Ok(own_step) => self.step(own_step),
            Err(_) => memory_reply(step),
        }
    }

    /// Does steps of a caller in order, and gives their replies, one for each step.
    ///
    /// `NoMemory` comes where there is none for the list of replies, before the first step: nothing
    /// has changed then. A step for which there is no memory is answered so in its place, and the
    /// steps after it are still done.
    pub fn run(&mut self, steps: &[Step]) -> Result<Vec<Reply>, NoMemory>
        ensures ran { IfOk result (λ replies. Ran self.old steps.now replies.items self.new) }
        ensures err { OnErr result (self.new ≡ self.old) }
    {
        let alloc = self.host.alloc();
        let Ok(mut replies) = Vec::with_capacity(alloc, steps.len()) else {
            return Err(NoMemory);
        };
        for step in steps {
            replies.push_reserved(self.step_copy(step));
        }
        Ok(replies)
    }

    /// The names of the open tenants, in the order of opening. `NoMemory` comes where there is none
    /// for the copies.
    pub fn tenants(&self) -> Result<Vec<TenantName>, NoMemory>
        ensures { IfOk result (λ names. names.items ≡ opened self.now.history) }
    {
        self.host.tenants()
    }

    /// The replies to a tenant so far, in order: none where no step named it. They are those that
    /// the tenant gets alone. `NoMemory` comes where there is none for the copies.
    pub fn replies_of(&self, tenant: &TenantName) -> Result<Vec<Reply>, NoMemory>
        ensures replies { IfOk result (λ replies. replies.items ≡ replies_to tenant.now self.now.history) }
        ensures alone { IfOk result (λ replies.
            replies.items ≡ (alone H.meaning (own tenant.now (pairs self.now.history))).replies) }
    {
        replies_in(self.host.alloc(), self.history(), tenant)
    }

    /// The outputs that a unit of the tenant has released so far, if the tenant is open and has the
    /// unit. They follow from the tenant's own entries.
    pub fn released(&self, tenant: &TenantName, unit: Unit) -> Option<&[Text]>
        ensures { MatchOption result (released_at (world_of H.meaning tenant.now self.now.history) unit
            ≡ None) (λ texts. released_at (world_of H.meaning tenant.now self.now.history) unit ≡ Some texts.now) }
    {
        match self.host.tenant(tenant) {
            Some(open) => open.released(unit),
            None => None,
        }
    }

    /// The rows of the tenant's table, which say where its units went back to, in order, if the
    /// tenant is open. They follow from the tenant's own entries.
    pub fn rollbacks(&self, tenant: &TenantName) -> Option<&[Row]>
        ensures { MatchOption result (table_at (world_of H.meaning tenant.now self.now.history) ≡ None) (λ rows.
            table_at (world_of H.meaning tenant.now self.now.history) ≡ Some rows.now) }
    {
        match self.host.tenant(tenant) {
            Some(open) => Some(open.rollbacks()),
            None => None,
        }
    }

    /// How much the book keeps of the past of a unit of the tenant, if the tenant is open and has the unit: what the
    /// rules of keeping leave of the tenant's own entries. Takes no memory, and time by the number of its letters.
    pub fn kept(&self, tenant: &TenantName, unit: Unit) -> Option<Kept>
        ensures { result ≡ kept_after H.meaning tenant.now self.now.history unit }
    {
        self.host.kept(tenant, unit)
    }

    /// How long the lists are that the book keeps of a unit of the tenant beside its history, if the tenant is open and
    /// has the unit. Takes no memory, and time by the number of its letters.
    pub fn footprint(&self, tenant: &TenantName, unit: Unit) -> Option<Footprint>
        ensures { FootprintAfter H.meaning tenant.now self.now.history unit result }
    {
        self.host.footprint(tenant, unit)
    }
}

impl<H: Handler, S: Store> Book<H, S> {
    /// The seats that the tenant was opened with, unit 0 first; none for a tenant that is not open.
    pub fn seats(&self, tenant: &TenantName) -> Result<Vec<Seat>, NoMemory>
        ensures { IfOk result (λ seats. seats.items ≡ seats_at (world_of H.meaning tenant.now self.now.history)) }
    {
        match self.host.tenant(tenant) {
            Some(open) => open.opening_seats(self.host.alloc()),
            None => Ok(Vec::new(self.host.alloc())),
        }
    }

    /// The moves of the certificate of the tenant's world, read off a history in which the tenant's
    /// events are those of the book's, and which is legal as that is.
    fn moves_by(&self, tenant: &TenantName, history: &[Entry]) -> Result<Vec<Move>, NoMemory>
        requires own { own tenant.now (pairs history.now) ≡ own tenant.now (pairs self.now.history) }
        requires legal { IsLegal H.meaning self.now.history → IsLegal H.meaning history.now }
        ensures { IfOk result (λ moves. moves.items ≡ certificate_at (world_of H.meaning tenant.now self.now.history)) }
    {
        let alloc = self.host.alloc();
        match self.host.tenant(tenant) {
            Some(open) => open.certificate(alloc, self.host.handler(), history, tenant),
            None => Ok(Vec::new(alloc)),
        }
    }

    /// The moves of the certificate of the tenant's world.
    fn certificate_moves(&self, tenant: &TenantName) -> Result<Vec<Move>, NoMemory>
        ensures { IfOk result (λ moves. moves.items ≡ certificate_at (world_of H.meaning tenant.now self.now.history)) }
    {
        self.moves_by(tenant, self.history())
    }

    /// The certificate of the tenant: the receipts of all its firm intervals and the joins, in order
    /// of creation. They are a run without failures of the seats that it was opened with, over a
    /// beginning of each unit's logged receipts, and each unit's outputs in that run begin with what
    /// the unit released. There are no moves for a tenant that is not open.
    ///
    /// It goes over the whole history: for more than a few tenants, part that once, and ask
    /// `certificate_by`.
    pub fn certificate(&self, tenant: &TenantName) -> Result<Vec<Move>, NoMemory>
        ensures { IfOk result (λ moves.
            CertifiesAt H.meaning (world_of H.meaning tenant.now self.now.history) moves.items) }
    {
        self.certificate_moves(tenant)
    }

    /// The same certificate, by the tenant's own entries of the history, in time by their number.
    /// `NoMemory` comes where `certificate` has it.
    pub fn certificate_by(
        &self,
        tenant: &TenantName,
        entries: &[Entry],
    ) -> Result<Vec<Move>, NoMemory>
        requires { entries.now ≡ entries_of tenant.now self.now.history }
        ensures { IfOk result (λ moves.
            CertifiesAt H.meaning (world_of H.meaning tenant.now self.now.history) moves.items) }
    {
        self.moves_by(tenant, entries)
    }
}

/// Room for one more entry. `NoMemory` comes where there is none.
fn reserve_place(history: &mut Vec<Entry>) -> Result<(), NoMemory>
    ensures same { history.new.items ≡ history.old.items }
    ensures room { OnOk result (vec_len history.new + 1 ≤ vec_capacity history.new) }
{
    history.reserve(1)?;
    Ok(())
}

/// Enters a step with its answer in reserved room, and gives the reply.
fn enter(history: &mut Vec<Entry>, who: Who, step: Step, answer: Answer) -> Reply
    requires { vec_len history.old + 1 ≤ vec_capacity history.old }
    ensures entered { history.new.items ≡ history.old.items
        ++ record { who = who; step = step; said = answer.said; reply = answer.reply } ∷ [] }
    ensures reply { result ≡ answer.reply }
{
    let said = answer.said();
    let (reply, entered) = answer.into_both();
    history.push_reserved(Entry {
        who,
        step,
        said,
        reply: entered,
    });
    reply
}

/// The replies to a tenant in a history.
fn replies_in(alloc: Global, history: &[Entry], tenant: &TenantName) -> Result<Vec<Reply>, NoMemory>
    ensures { IfOk result (λ replies. replies.items ≡ replies_to tenant.now history.now) }
{
    let mut replies = Vec::new(alloc);
    for entry in history {
        if *tenant == *entry.step.tenant() {
            replies.push(entry.reply.copy(alloc)?)?;
        }
    }
    Ok(replies)
}

/// Tenants are isolated: in any two legal histories in which a tenant has the same steps, with the
/// same answers of the store, the replies to it are the same, and so is its world. Hence so are its
/// rows and its released outputs, which by the contracts of `Book::rollbacks` and `Book::released`
/// are read off that world. A book's history is legal by the contract of `Book::history`.
#[tactic(auto, using(crate::proofs::Replays::isolated))]
pub fn isolated<H: Handler>()
    ensures { IsIsolated H.meaning }
{}

/// The headline. For any two legal histories (so, of any two books) that agree on a tenant's own
/// steps and on what the store said to them: the replies to the tenant, its rollbacks and its
/// released outputs are equal, whatever other tenants do; and some run without failures of its
/// units over a beginning of their logged receipts gives, unit by unit, outputs that begin with
/// exactly those released, none withdrawn or repeated: what was released at any earlier moment is a
/// beginning of what is released at the end, and of what that run puts out.
pub fn headline<H: Handler>()
    ensures { IsHeadline H.meaning }
{}
