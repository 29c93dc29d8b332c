//! The step `release`.

ghost use Rattle.std.specs.Prelude.{◌≡◌, ◌≢◌, ◌<◌, ℕ, List, IfOk, None, OnErr, Option, Some, length, slice_get};
ghost use Rattle.model.specs.Steps.{release as release_of};
ghost use Rattle.model.specs.World.{World};
ghost use Rattle.model.specs.declared.records.Record.{Record};
ghost use Rattle.tenant.specs.Past.{SameShelves};
ghost use Rattle.tenant.specs.Stands.{Stands};
ghost use Rattle.tenant.specs.Kept.{AreOut, Member as MemberOf, firm_texts, gone_of, released_of, with_firm_released};
ghost use Rattle.tenant.specs.Outcomes.{IsPlain};
ghost use Rattle.tenant.specs.Represents.{Does};

use crate::answer::Answer;
use crate::member::Member;
use crate::tenant::Tenant;
use handler::Handler;
use model::{NoMemory, Reply, Text, Texts, Unit};
use output_commit::Outlet;
use std::alloc::Global;

/// Lets the firm outputs of the unit at its place out. Without its number, a frontier and a line in the outlet, which
/// each unit has, none leave.
fn release_member<H: Handler>(
    members: &mut Vec<Member<H>>,
    outlet: &mut Outlet,
    frontiers: &[u64],
    unit: Unit,
) -> Result<(), NoMemory>
    requires { unit < length members.old.items }
    ensures ok { IfOk result (λ _. (m : MemberOf H.State) (frontier : ℕ) (texts : List (List ℕ))
        → slice_get members.old.items unit ≡ Some m → m.unit ≡ unit → slice_get frontiers.now unit ≡ Some frontier
        → slice_get (released_of outlet.old) unit ≡ Some texts
        → AreOut unit m frontier texts members.old.items (released_of outlet.old)
        members.new.items (released_of outlet.new)) }
    ensures err_members { OnErr result (members.new.items ≡ members.old.items) }
    ensures gone { gone_of outlet.new ≡ gone_of outlet.old }
    ensures others { (u : ℕ) → u ≢ unit → slice_get (released_of outlet.new) u ≡ slice_get (released_of outlet.old) u }
    ensures err_outlet { OnErr result (released_of outlet.new ≡ released_of outlet.old) }
{
    let at = usize::from(unit.number());
    let member = &mut members[at];
    if member.unit().number() != unit.number() || outlet.len() <= at || frontiers.len() <= at {
        return Ok(());
    }
    outlet.reserve(unit, member.held_count())?;
    member.release(outlet, frontiers);
    Ok(())
}

impl<H: Handler> Tenant<H> {
    fn release_at(&mut self, unit: Unit) -> Result<(), NoMemory>
        requires { unit < length self.old.members }
        ensures ok { IfOk result (λ _. (m : MemberOf H.State) (frontier : ℕ) (texts : List (List ℕ))
            → slice_get self.old.members unit ≡ Some m → m.unit ≡ unit
            → slice_get self.old.frontiers unit ≡ Some frontier → slice_get self.old.released unit ≡ Some texts
            → self.new ≡ with_firm_released self.old unit m frontier texts) }
        ensures err { OnErr result (self.new ≡ self.old) }
        ensures gone { self.new.gone ≡ self.old.gone }
        ensures others { (u : ℕ) → u ≢ unit → slice_get self.new.released u ≡ slice_get self.old.released u }
    {
        release_member(
            &mut self.members,
            &mut self.outlet,
            self.frontiers.as_slice(),
            unit,
        )?;
        Ok(())
    }

    /// Copies of the texts of the unit's outputs at the front that are firm.
    fn firm_texts(&self, alloc: Global, unit: Unit) -> Result<Vec<Text>, NoMemory>
        requires { unit < length self.now.members }
        ensures { IfOk result (λ texts. (m : MemberOf H.State) (frontier : ℕ)
            → slice_get self.now.members unit ≡ Some m → slice_get self.now.frontiers unit ≡ Some frontier
            → texts.items ≡ firm_texts m.outputs frontier) }
    {
        let at = usize::from(unit.number());
        let member = &self.members[at];
        match self.frontiers.get(at) {
            Some(frontier) => member.firm_texts(alloc, *frontier),
            None => Ok(Vec::new(alloc)),
        }
    }

    /// Releases the unit's held outputs from the front, as long as they are firm. The list of their
    /// texts is made before any of them leaves.
    ///
    /// # Errors
    ///
    /// `NoMemory` where this list, or that of what the unit released, finds none; the tenant stays as it was.
    pub(crate) fn release(&mut self, alloc: Global, unit: Unit) -> Result<Answer, NoMemory>
        ensures done { IfOk result (λ a. Does H.meaning (λ w. release_of H.meaning w unit) self.old a.reply self.new) }
        ensures plain { IfOk result IsPlain }
        ensures shelves { IfOk result (λ _. (name : List ℕ) (w : World) (records : List (Option Record))
            → Stands H.meaning name self.old w records → SameShelves self.old self.new) }
        ensures err { OnErr result (self.new ≡ self.old) }
        ensures gone { self.new.gone ≡ self.old.gone }
        ensures others { (u : ℕ) → u ≢ unit → slice_get self.new.released u ≡ slice_get self.old.released u }
    {
        match self.up_member(unit) {
            Ok(_) => {}
            Err(refusal) => return Ok(Answer::refused(refusal)),
        }
        let outputs = Texts::new(self.firm_texts(alloc, unit)?)?;
        let answer = Answer::plain(alloc, Reply::Released { outputs })?;
        self.release_at(unit)?;
        Ok(answer)
    }
}
