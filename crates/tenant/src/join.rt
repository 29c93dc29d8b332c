//! The step `join`.

ghost use Rattle.std.specs.Prelude.{◌≡◌, ◌<◌, ◌+◌, ◌∷◌, [], ◌++◌, ℕ, IfOk, OnErr, OnOk, Some, length, option_map};
ghost use Rattle.std.specs.Prelude.{slice_get, slice_set};
ghost use Rattle.session.specs.Counts.{widened_counts};
ghost use Rattle.model.specs.Steps.{join as join_of};
ghost use Rattle.model.specs.Keeping.{after_join};
ghost use Rattle.tenant.specs.Past.{Shelves};
ghost use Rattle.tenant.specs.Kept.{KeepsNoText, KeepsTexts, Member as MemberOf, NoTexts, NoneGone, fitted_from};
ghost use Rattle.tenant.specs.Kept.{fitted_member, gone_of, joined_kept, released_of};
ghost use Rattle.tenant.specs.Outcomes.{IsPlain};
ghost use Rattle.tenant.specs.Represents.{Does};

use crate::answer::Answer;
use crate::member::Member;
use crate::tenant::Tenant;
use handler::Handler;
use model::{Kind, MAX_UNITS, NoMemory, Refusal, Reply, Seat, Unit};
use output_commit::Outlet;
use session::Sessions;
use std::alloc::Global;

/// What the unit at this place took and sent, with entries for so many units.
fn sessions_at<H: Handler>(
    members: &Vec<Member<H>>,
    at: usize,
    width: usize,
) -> Result<Option<Sessions>, NoMemory>
    requires { at < length members.now.items }
    ensures { IfOk result (λ sessions. (m : MemberOf H.State) → slice_get members.now.items at ≡ Some m
        → sessions ≡ option_map (λ p. widened_counts p.sessions width) m.unit_state.progress) }
{
    members[at].widened_sessions(width)
}

/// Adds the entries that `sessions_at` made.
fn fit_at<H: Handler>(members: &mut Vec<Member<H>>, at: usize, sessions: Option<Sessions>)
    requires { at < length members.old.items }
    ensures { (n : ℕ) (m : MemberOf H.State) → slice_get members.old.items at ≡ Some m
        → sessions ≡ option_map (λ p. widened_counts p.sessions n) m.unit_state.progress
        → members.new.items ≡ slice_set members.old.items at (fitted_member n m) }
{
    let member = &mut members[at];
    member.fit(sessions);
}

/// One unit more, and a line in the outlet for it.
fn add_unit<H: Handler>(
    members: &mut Vec<Member<H>>,
    outlet: &mut Outlet,
    member: Member<H>,
    width: usize,
) -> Result<(), NoMemory>
    ensures members { OnOk result (members.new.items ≡ members.old.items ++ member ∷ []) }
    ensures lines { OnOk result (length outlet.old + 1 ≡ width
        → released_of outlet.new ≡ released_of outlet.old ++ [] ∷ []) }
    ensures gone { OnOk result (length outlet.old + 1 ≡ width → gone_of outlet.new ≡ gone_of outlet.old ++ 0 ∷ []) }
    ensures err_members { OnErr result (members.new.items ≡ members.old.items) }
    ensures err_lines { OnErr result (released_of outlet.new ≡ released_of outlet.old) }
    ensures err_gone { OnErr result (gone_of outlet.new ≡ gone_of outlet.old) }
    ensures texts { NoneGone (gone_of outlet.old) → NoneGone (gone_of outlet.new) }
    ensures none { NoTexts (released_of outlet.old) → NoTexts (released_of outlet.new) }
{
    members.reserve(1)?;
    outlet.widen(width)?;
    members.push_reserved(member);
    Ok(())
}

/// Fits the units from this place on for so many units, and adds one more. What may find no memory is
/// made on the way to the last one, before any changes.
fn widen_from<H: Handler>(
    members: &mut Vec<Member<H>>,
    outlet: &mut Outlet,
    member: Member<H>,
    at: usize,
    width: usize,
) -> Result<(), NoMemory>
    ensures members { OnOk result (members.new.items ≡ fitted_from width members.old.items at ++ member ∷ []) }
    ensures lines { OnOk result (length outlet.old + 1 ≡ width
        → released_of outlet.new ≡ released_of outlet.old ++ [] ∷ []) }
    ensures gone { OnOk result (length outlet.old + 1 ≡ width → gone_of outlet.new ≡ gone_of outlet.old ++ 0 ∷ []) }
    ensures err_members { OnErr result (members.new.items ≡ members.old.items) }
    ensures err_lines { OnErr result (released_of outlet.new ≡ released_of outlet.old) }
    ensures err_gone { OnErr result (gone_of outlet.new ≡ gone_of outlet.old) }
    ensures texts { NoneGone (gone_of outlet.old) → NoneGone (gone_of outlet.new) }
    ensures none { NoTexts (released_of outlet.old) → NoTexts (released_of outlet.new) }
{
    if at >= members.len() {
        return add_unit(members, outlet, member, width);
    }
    let sessions = sessions_at(members, at, width)?;
    widen_from(members, outlet, member, at + 1, width)?;
    fit_at(members, at, sessions);
    Ok(())
}

impl<H: Handler> Tenant<H> {
    /// One unit more of this kind, at its beginning.
    fn enter_unit(&mut self, alloc: Global, handler: &H, kind: Kind) -> Result<(), NoMemory>
        requires { length self.old.members < MAX_UNITS }
        ensures ok { OnOk result (length self.old.released ≡ length self.old.members
            → self.new ≡ joined_kept H.meaning self.old kind) }
        ensures err { OnErr result (self.new ≡ self.old) }
        ensures texts { KeepsTexts self.old → KeepsTexts self.new }
        ensures none { KeepsNoText self.old → KeepsNoText self.new }
    {
        let count = self.member_count();
        let width = count + 1;
        let seat = Seat {
            unit: Unit::new(count as u8),
            kind,
            home: width as u8,
        };
        self.stable_lengths.reserve(1)?;
        self.frontiers.reserve(1)?;
        let member = Member::begin(alloc, handler, seat, width, self.rows())?;
        widen_from(&mut self.members, &mut self.outlet, member, 0, width)?;
        self.stable_lengths.push_reserved(1);
        self.frontiers.push_reserved(1);
        Ok(())
    }

    /// One more unit of this kind, at its beginning, which knows all rows. It is refused where the handler
    /// doesn't know the kind (`bad-open`), and where there are as many units as may be (`limit`).
    ///
    /// # Errors
    ///
    /// `NoMemory` where what it keeps finds no memory; the tenant stays as it was.
    pub(crate) fn join(
        &mut self,
        alloc: Global,
        handler: &H,
        name: &str,
    ) -> Result<Answer, NoMemory>
        ensures done { IfOk result (λ a. Does H.meaning (λ w. join_of H.meaning w name.now) self.old a.reply self.new) }
        ensures plain { IfOk result IsPlain }
        ensures shelves { IfOk result (λ a. length self.old.released ≡ length self.old.members
            → Shelves (after_join a.reply) self.old self.new) }
        ensures err { OnErr result (self.new ≡ self.old) }
        ensures texts { KeepsTexts self.old → KeepsTexts self.new }
        ensures none { KeepsNoText self.old → KeepsNoText self.new }
    {
        let kind = match handler.kind(name) {
            Some(kind) => kind,
            None => return Ok(Answer::refused(Refusal::BadOpen)),
        };
        let count = self.member_count();
        if count >= MAX_UNITS {
            return Ok(Answer::refused(Refusal::Limit));
        }
        let unit = Unit::new(count as u8);
        let answer = Answer::quiet(Reply::Joined { unit });
        self.enter_unit(alloc, handler, kind)?;
        Ok(answer)
    }
}
