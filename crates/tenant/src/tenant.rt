//! An open tenant.

ghost use Rattle.std.specs.Prelude.{◌≡◌, ◌+◌, ℕ, List, IfOk, IfErr, MatchOption, None, Some, length, slice_get, true};
ghost use Rattle.std.specs.Option.{is_some};
ghost use Rattle.tenant.specs.Kept.{up_refusal};

use crate::member::Member;
use handler::Handler;
use incarnation::StartTable;
use model::{Quota, Refusal, Unit};
use output_commit::Outlet;
use std::marker::Model;
use unit_steps::SentLetters;

/// An open tenant: its units with the counts of their stable and of their firm intervals, what they released, the
/// letters, and the table of rows. Whoever writes a tenant down and reads it again makes it of these parts: which world
/// it stands for is said of them alone.
#[derive(Drop)]
pub struct Tenant<H: Handler> {
    pub quota: Quota,
    pub optimism: u32,
    pub table: StartTable,
    pub members: Vec<Member<H>>,
    pub stable_lengths: Vec<u64>,
    pub frontiers: Vec<u64>,
    pub outlet: Outlet,
    pub letters: SentLetters,
}

impl<H: Handler> Model for Tenant<H> {
    ghost use Rattle.tenant.specs.Kept.{TenantState, gone_of, released_of};

    ghost Value = { TenantState H.State };

    ghost view = { λ t. record {
      quota = t.quota;
      optimism = t.optimism;
      table = t.table;
      members = t.members.items;
      stable_lengths = t.stable_lengths.items;
      frontiers = t.frontiers.items;
      gone = gone_of t.outlet;
      released = released_of t.outlet;
      letters = t.letters.items;
    } };
}

impl<H: Handler> Tenant<H> {
    /// The unit of this number.
    pub(crate) fn member(&self, unit: Unit) -> Option<&Member<H>>
        ensures { MatchOption result (slice_get self.now.members unit ≡ None) (λ m.
            slice_get self.now.members unit ≡ Some m.now) }
    {
        self.members.get(usize::from(unit.number()))
    }

    /// The unit of this number, if it is there and up.
    pub(crate) fn up_member(&self, unit: Unit) -> Result<&Member<H>, Refusal>
        ensures found { IfOk result (λ m. slice_get self.now.members unit ≡ Some m.now) }
        ensures up { IfOk result (λ m. is_some m.now.unit_state.progress ≡ true) }
        ensures refused { IfErr result (λ r. up_refusal (slice_get self.now.members unit) ≡ Some r) }
    {
        match self.member(unit) {
            None => Err(Refusal::NoUnit),
            Some(member) => {
                if member.is_up() {
                    Ok(member)
                } else {
                    Err(Refusal::Down)
                }
            }
        }
    }

    /// How many units there are.
    pub(crate) fn member_count(&self) -> usize
        ensures { result ≡ length self.now.members }
    {
        self.members.len()
    }

    /// How many rows there are.
    pub(crate) fn rows(&self) -> usize
        ensures { result ≡ length self.now.table }
    {
        self.table.len()
    }

    /// How many outputs the unit released.
    pub(crate) fn released_count(&self, unit: Unit) -> u64
        ensures { (gone : ℕ) (texts : List (List ℕ)) → slice_get self.now.gone unit ≡ Some gone
            → slice_get self.now.released unit ≡ Some texts → result ≡ gone + length texts }
    {
        if usize::from(unit.number()) < self.outlet.len() {
            self.outlet.count(unit)
        } else {
            0
        }
    }
}
