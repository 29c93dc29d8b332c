//! The step `kill`.

ghost use Rattle.std.specs.Prelude.{◌≡◌, ◌<◌, Some, length, slice_get, slice_set};
ghost use Rattle.model.specs.Steps.{kill as kill_of};
ghost use Rattle.tenant.specs.Past.{SameShelves};
ghost use Rattle.tenant.specs.Kept.{Member as MemberOf, killed_member};
ghost use Rattle.tenant.specs.Outcomes.{IsPlain};
ghost use Rattle.tenant.specs.Represents.{Does};

use crate::answer::Answer;
use crate::member::Member;
use crate::tenant::Tenant;
use handler::Handler;
use model::{Reply, Unit};

/// The unit at this place fails.
fn kill_member<H: Handler>(members: &mut Vec<Member<H>>, at: usize) -> u64
    requires { at < length members.old.items }
    ensures lost { (m : MemberOf H.State) → slice_get members.old.items at ≡ Some m
        → result ≡ length m.unit_state.volatile }
    ensures members { (m : MemberOf H.State) → slice_get members.old.items at ≡ Some m
        → members.new.items ≡ slice_set members.old.items at (killed_member m) }
{
    let member = &mut members[at];
    member.kill()
}

impl<H: Handler> Tenant<H> {
    /// The unit, which is there, fails.
    fn kill_at(&mut self, unit: Unit) -> u64
        requires { unit < length self.old.members }
        ensures lost { (m : MemberOf H.State) → slice_get self.old.members unit ≡ Some m
            → result ≡ length m.unit_state.volatile }
        ensures tenant { (m : MemberOf H.State) → slice_get self.old.members unit ≡ Some m
            → self.new ≡ record self.old { members = slice_set self.old.members unit (killed_member m) } }
        ensures gone { self.new.gone ≡ self.old.gone }
        ensures released { self.new.released ≡ self.old.released }
    {
        kill_member(&mut self.members, usize::from(unit.number()))
    }

    /// The unit fails: its progress and its intervals that are not stable are gone. Takes no memory.
    pub(crate) fn kill(&mut self, unit: Unit) -> Answer
        ensures done { Does H.meaning (λ w. kill_of w unit) self.old result.reply self.new }
        ensures plain { IsPlain result }
        ensures shelves { SameShelves self.old self.new }
        ensures gone { self.new.gone ≡ self.old.gone }
        ensures released { self.new.released ≡ self.old.released }
    {
        match self.up_member(unit) {
            Ok(_) => {}
            Err(refusal) => return Answer::refused(refusal),
        }
        let lost = self.kill_at(unit);
        Answer::quiet(Reply::Killed { lost })
    }
}
