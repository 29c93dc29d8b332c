//! What is firm for good is forgotten: each unit's base moves to its greatest snapshot below its frontier.

ghost use Rattle.std.specs.Prelude.{◌≡◌, ◌<◌, List, Some, length, slice_get, slice_set};
ghost use Rattle.model.specs.World.{World};
ghost use Rattle.rollback.specs.Units.{places};
ghost use Rattle.tenant.specs.Bases.{IsBeside, LetsGo, emptied_all, emptied_by, given_up, moved_kept, moved_letters};
ghost use Rattle.tenant.specs.Bases.{moved_member, next_base, passed};
ghost use Rattle.tenant.specs.Past.{Bases, KeepsPast, based_one};
ghost use Rattle.tenant.specs.Kept.{Member as MemberOf};
ghost use Rattle.tenant.specs.Live.{StaysJust};
ghost use Rattle.model.specs.Keeping.{Shelf, where_added};
ghost use Rattle.tenant.specs.Stands.{Stands};

use crate::member::Member;
use crate::tenant::Tenant;
use handler::Handler;
use model::{Letter, TenantName};
use rollback::RecoveryUnit;
use shared_log::{SharedLog, Store};
use unit_steps::SentLetters;

/// The letter of this number gives up its content, if there is one.
fn empty_letter(letters: &mut SentLetters, letter: Option<Letter>)
    ensures { letters.new.items ≡ emptied_by letters.old.items letter }
{
    match letter {
        Some(letter) => letters.forget(letter.number() as usize),
        None => {}
    }
}

/// So do those that the unit received behind its base, up to the interval of this index.
fn empty_passed<H: Handler>(letters: &mut SentLetters, unit_state: &RecoveryUnit<H>, base: u32)
    requires { base < places unit_state.now }
    ensures { letters.new.items ≡ emptied_all letters.old.items (passed unit_state.now base) }
{
    for index in unit_state.base()..base {
        empty_letter(letters, unit_state.interval(index + 1).letter);
    }
}

/// The unit's base moves on as far as it is firm: the records, the intervals and the snapshots before it go, and the
/// contents of the letters that they received. Takes time by what goes.
fn forget_member<H: Handler, S: Store>(
    tenant: &TenantName,
    member: &mut Member<H>,
    letters: &mut SentLetters,
    frontier: u64,
    log: &mut SharedLog<S>,
)
    ensures member { member.new ≡ moved_member member.old (next_base member.old.unit_state frontier) }
    ensures letters { letters.new.items
        ≡ moved_letters letters.old.items member.old.unit_state (next_base member.old.unit_state frontier) }
    ensures log { LetsGo tenant.now member.old.unit
        (given_up member.old.unit_state (next_base member.old.unit_state frontier)) log.old log.new }
{
    let base = match member.next_base(frontier) {
        Some(base) => base,
        None => return,
    };
    empty_passed(letters, member.unit_state(), base);
    log.forget(tenant, member.unit(), member.live_records_until(base));
    member.move_base(base);
}

/// So does that of the unit at this place.
fn forget_at<H: Handler, S: Store>(
    tenant: &TenantName,
    members: &mut Vec<Member<H>>,
    letters: &mut SentLetters,
    at: usize,
    frontier: u64,
    log: &mut SharedLog<S>,
)
    requires { at < length members.old.items }
    ensures members { (m : MemberOf H.State) → slice_get members.old.items at ≡ Some m
        → members.new.items ≡ slice_set members.old.items at (moved_member m (next_base m.unit_state frontier)) }
    ensures letters { (m : MemberOf H.State) → slice_get members.old.items at ≡ Some m
        → letters.new.items ≡ moved_letters letters.old.items m.unit_state (next_base m.unit_state frontier) }
    ensures log { (m : MemberOf H.State) → slice_get members.old.items at ≡ Some m
        → LetsGo tenant.now m.unit (given_up m.unit_state (next_base m.unit_state frontier)) log.old log.new }
{
    let member = &mut members[at];
    forget_member(tenant, member, letters, frontier, log);
}

impl<H: Handler> Tenant<H> {
    /// So does that of the unit at this place of this tenant.
    fn forget_unit<S: Store>(
        &mut self,
        tenant: &TenantName,
        at: usize,
        frontier: u64,
        log: &mut SharedLog<S>,
    )
        requires { at < length self.old.members }
        ensures kept { (m : MemberOf H.State) → slice_get self.old.members at ≡ Some m
            → self.new ≡ moved_kept self.old at m (next_base m.unit_state frontier) }
        ensures log { (m : MemberOf H.State) → slice_get self.old.members at ≡ Some m
            → LetsGo tenant.now m.unit (given_up m.unit_state (next_base m.unit_state frontier)) log.old log.new }
        ensures gone { self.new.gone ≡ self.old.gone }
        ensures released { self.new.released ≡ self.old.released }
    {
        forget_at(
            tenant,
            &mut self.members,
            &mut self.letters,
            at,
            frontier,
            log,
        );
    }

    /// The unit at this place forgets what is firm for good.
    fn forget_one<S: Store>(&mut self, tenant: &TenantName, at: usize, log: &mut SharedLog<S>)
        ensures stands { (w : World) → Stands H.meaning tenant.now self.old w log.old.records
            → Stands H.meaning tenant.now self.new w log.new.records }
        ensures beside { IsBeside tenant.now log.old log.new }
        ensures just { StaysJust H.meaning tenant.now self.old log.old.records self.new log.new.records }
        ensures bases { (w : World) (shelves : List Shelf) → Stands H.meaning tenant.now self.old w log.old.records
            → KeepsPast self.old w shelves → KeepsPast self.new w (based_one w at (slice_get w.members at) shelves) }
        ensures gone { self.new.gone ≡ self.old.gone }
        ensures released { self.new.released ≡ self.old.released }
    {
        if at < self.members.len() && at < self.frontiers.len() {
            let frontier = self.frontiers[at];
            self.forget_unit(tenant, at, frontier, log);
        }
    }

    /// Each unit forgets what is firm for good. Takes no memory, and time by what is forgotten and by the units.
    pub(crate) fn forget_firm<S: Store>(&mut self, tenant: &TenantName, log: &mut SharedLog<S>)
        ensures stands { (w : World) → Stands H.meaning tenant.now self.old w log.old.records
            → Stands H.meaning tenant.now self.new w log.new.records }
        ensures beside { IsBeside tenant.now log.old log.new }
        ensures just { StaysJust H.meaning tenant.now self.old log.old.records self.new log.new.records }
        ensures bases { Bases H.meaning tenant.now self.old log.old.records self.new }
        ensures gone { self.new.gone ≡ self.old.gone }
        ensures released { self.new.released ≡ self.old.released }
    {
        for at in 0..self.member_count() {
            self.forget_one(tenant, at, log);
        }
    }

    /// So it does where so many records were added, if there are any.
    pub(crate) fn forget_after<S: Store>(
        &mut self,
        tenant: &TenantName,
        added: u64,
        log: &mut SharedLog<S>,
    )
        ensures stands { (w : World) → Stands H.meaning tenant.now self.old w log.old.records
            → Stands H.meaning tenant.now self.new w log.new.records }
        ensures beside { IsBeside tenant.now log.old log.new }
        ensures just { StaysJust H.meaning tenant.now self.old log.old.records self.new log.new.records }
        ensures bases { (w : World) (shelves : List Shelf) → Stands H.meaning tenant.now self.old w log.old.records
            → KeepsPast self.old w shelves → KeepsPast self.new w (where_added w added shelves) }
        ensures gone { self.new.gone ≡ self.old.gone }
        ensures released { self.new.released ≡ self.old.released }
    {
        if added > 0 {
            self.forget_firm(tenant, log);
        }
    }
}
