//! How much is kept of a unit's past.

ghost use Rattle.std.specs.Prelude.{◌≡◌, ℕ, List, Option};
ghost use Rattle.model.specs.Keeping.{Shelf, kept_in};
ghost use Rattle.model.specs.World.{World};
ghost use Rattle.model.specs.declared.records.Record.{Record};
ghost use Rattle.tenant.specs.Past.{KeepsPast, kept_by};
ghost use Rattle.tenant.specs.Stands.{Stands};

use crate::tenant::Tenant;
use handler::Handler;
use model::{Kept, Unit};

impl<H: Handler> Tenant<H> {
    /// How much it has of this unit's past, if the unit is there.
    fn amount(&self, unit: Unit) -> Option<Kept>
        ensures { result ≡ kept_by self.now unit }
    {
        match self.member(unit) {
            Some(member) => Some(Kept {
                records: member.live_count() as u64,
                shelved: member.shelved_count() as u64,
                letters: self.letters.count_whole_to(unit) as u64,
            }),
            None => None,
        }
    }

    /// How much is kept of this unit's past, if the unit is there: what the rules of keeping leave of the steps that
    /// the tenant did. Takes no memory, and time by the number of letters.
    pub fn kept(&self, unit: Unit) -> Option<Kept>
        ensures { (name : List ℕ) (w : World) (records : List (Option Record)) (shelves : List Shelf)
            → Stands H.meaning name self.now w records → KeepsPast self.now w shelves
            → result ≡ kept_in H.meaning w shelves unit }
    {
        self.amount(unit)
    }
}
