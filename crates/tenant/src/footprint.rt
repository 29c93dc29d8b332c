//! How long the lists are that are kept of a unit.

ghost use Rattle.std.specs.Prelude.{◌≡◌, ℕ, IfSome, List, MatchOption, None, Option, Some, length, slice_get};
ghost use Rattle.model.specs.Keeping.{Shelf};
ghost use Rattle.model.specs.World.{Member as MemberOf, World};
ghost use Rattle.model.specs.declared.records.Record.{Record};
ghost use Rattle.tenant.specs.Footprint.{IsFootprint, IsLengths};
ghost use Rattle.tenant.specs.Past.{KeepsPast};
ghost use Rattle.tenant.specs.Kept.{KeepsNoText, Member as MemberState};
ghost use Rattle.tenant.specs.Stands.{Stands};

use crate::tenant::Tenant;
use handler::Handler;
use model::Unit;

/// How long the lists are that are kept of a unit, beside those that `Kept` counts: its live records, its checkpoints
/// and the letters to it whose texts are kept. None of them is longer than its quota or limit allows, as
/// `laws::stays_within` says, but for the intervals behind the base and the letters, which the tenant's steps make.
#[derive(Clone, Copy, Debug, PartialEq, Eq)]
pub struct Footprint {
    /// Its intervals, from the base on.
    pub intervals: u64,
    /// Its volatile records: at most the quota of volatile records.
    pub volatile: u64,
    /// The outputs that it holds: at most the quota of held outputs.
    pub held: u64,
    /// Its rows of the table of incarnations: at most 65,535.
    pub rows: u64,
    /// The letters to it whose texts are given up: with those whose texts are kept, at most the quota of letters.
    pub spent: u64,
    /// The outputs that it released.
    pub released: u64,
    /// The texts of those outputs that are kept: none in a host, all in a book.
    pub texts: u64,
}

impl<H: Handler> Tenant<H> {
    /// The lengths of the unit's lists, if the unit is there.
    fn lengths(&self, unit: Unit) -> Option<Footprint>
        ensures lengths { MatchOption result (slice_get self.now.members unit ≡ None)
            (λ f. (m : MemberState H.State) → slice_get self.now.members unit ≡ Some m
            → IsLengths self.now unit m f) }
        ensures none { KeepsNoText self.now → IfSome result (λ f. f.texts ≡ 0) }
    {
        match self.member(unit) {
            Some(member) => Some(Footprint {
                intervals: member.interval_count(),
                volatile: member.volatile_count() as u64,
                held: member.held_count() as u64,
                rows: self.table.rows_of(unit).len() as u64,
                spent: self.letters.count_spent_to(unit) as u64,
                released: self.released_count(unit),
                texts: self.text_count(unit) as u64,
            }),
            None => None,
        }
    }

    /// How long the lists are that are kept of this unit, if the unit is there, by whichever world the tenant stands
    /// for, and whatever checkpoints it has. Takes no memory, and time by the number of letters.
    pub fn footprint(&self, unit: Unit) -> Option<Footprint>
        ensures lengths { (name : List ℕ) (w : World) (records : List (Option Record)) (shelves : List Shelf)
            → Stands H.meaning name self.now w records → KeepsPast self.now w shelves
            → MatchOption result (slice_get w.members unit ≡ None) (λ f. (m : MemberOf) (s : Shelf)
            → slice_get w.members unit ≡ Some m → slice_get shelves unit ≡ Some s
            → IsFootprint H.meaning w unit m s f) }
        // A tenant that keeps no text that was released tells so.
        ensures none { KeepsNoText self.now → IfSome result (λ f. f.texts ≡ 0) }
    {
        self.lengths(unit)
    }
}
