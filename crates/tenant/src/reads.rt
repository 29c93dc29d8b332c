//! What is read off a tenant by whoever stands above it.

ghost use Rattle.std.specs.Prelude.{◌≡◌, ℕ, List, Option, IfOk, MatchOption, None, Some, length, slice_get};
ghost use Rattle.model.specs.FailureFree.{opening_seats as opening_seats_of};
ghost use Rattle.model.specs.World.{World};
ghost use Rattle.model.specs.declared.records.Record.{Record};
ghost use Rattle.model.specs.declared.steps.TenantStep.{TenantStep};
ghost use Rattle.tenant.specs.Reads.{opening_count as opening_count_of, opening_of, seats_of};
ghost use Rattle.model.specs.Keeping.{Shelf};
ghost use Rattle.tenant.specs.Past.{KeepsPast};
ghost use Rattle.tenant.specs.Kept.{KeepsNoText, KeepsNoTextBut, KeepsTexts};
ghost use Rattle.tenant.specs.Stands.{Stands, receiver_in, released_in};

use crate::member::Member;
use crate::tenant::Tenant;
use handler::Handler;
use model::{Letter, NoMemory, Row, Seat, Text, Unit};
use std::alloc::Global;

/// The seats of all of these.
fn seats<H: Handler>(alloc: Global, members: &[Member<H>]) -> Result<Vec<Seat>, NoMemory>
    ensures { IfOk result (λ seats. seats.items ≡ seats_of members.now) }
{
    let mut seats = Vec::new(alloc);
    for member in members {
        seats.push(member.seat())?;
    }
    Ok(seats)
}

/// How many units the tenant of these was opened with.
fn opening_count<H: Handler>(members: &[Member<H>]) -> usize
    ensures { result ≡ opening_count_of (seats_of members.now) }
{
    match members.first() {
        Some(member) => usize::from(member.seat().home),
        None => 0,
    }
}

/// The seats at the front that the tenant of these was opened with.
fn first_seats<H: Handler>(alloc: Global, members: &[Member<H>]) -> Result<Vec<Seat>, NoMemory>
    ensures { IfOk result (λ seats. seats.items ≡ opening_of (seats_of members.now)) }
{
    let mut seats = seats(alloc, members)?;
    seats.truncate(opening_count(members));
    Ok(seats)
}

impl<H: Handler> Tenant<H> {
    /// How many texts of what the unit released are kept.
    pub(crate) fn text_count(&self, unit: Unit) -> usize
        ensures count { (texts : List (List ℕ)) → slice_get self.now.released unit ≡ Some texts
            → result ≡ length texts }
        ensures none { KeepsNoText self.now → result ≡ 0 }
    {
        match self.released_texts(unit) {
            Some(texts) => texts.len(),
            None => 0,
        }
    }

    /// What is kept of what the unit released.
    fn released_texts(&self, unit: Unit) -> Option<&[Text]>
        ensures { MatchOption result (slice_get self.now.released unit ≡ None) (λ texts.
            slice_get self.now.released unit ≡ Some texts.now) }
    {
        if usize::from(unit.number()) < self.outlet.len() {
            Some(self.outlet.released(unit))
        } else {
            None
        }
    }

    /// The outputs that the unit has released so far, if the unit is there, and no text was given up. Takes no memory.
    pub fn released(&self, unit: Unit) -> Option<&[Text]>
        ensures { (name : List ℕ) (w : World) (records : List (Option Record))
            → Stands H.meaning name self.now w records → KeepsTexts self.now
            → MatchOption result (released_in w unit ≡ None) (λ texts. released_in w unit ≡ Some texts.now) }
    {
        self.released_texts(unit)
    }

    /// The unit that the letter is to, if it was made. Takes no memory.
    pub fn receiver(&self, letter: Letter) -> Option<Unit>
        ensures { (name : List ℕ) (w : World) (records : List (Option Record))
            → Stands H.meaning name self.now w records → result ≡ receiver_in H.meaning w letter }
    {
        match self.letter(letter) {
            Some(sent) => Some(sent.receiver),
            None => None,
        }
    }

    /// Gives up the texts that the unit released, if it is there. Their count stays. Takes no memory.
    pub fn give_up(&mut self, unit: Unit)
        ensures stands { (name : List ℕ) (w : World) (records : List (Option Record))
            → Stands H.meaning name self.old w records → Stands H.meaning name self.new w records }
        ensures past { (w : World) (shelves : List Shelf) → KeepsPast self.old w shelves
            → KeepsPast self.new w shelves }
        // Where the unit alone kept texts, none does then.
        ensures none { KeepsNoTextBut (TenantStep.Release unit) self.old → KeepsNoText self.new }
    {
        if usize::from(unit.number()) < self.outlet.len() {
            self.outlet.give_up(unit);
        }
    }

    /// The rows of the table: where units went back to, in order. Takes no memory.
    #[tactic(auto, unfolding(crate::specs::Stands::Stands))]
    pub fn rollbacks(&self) -> &[Row]
        ensures { (name : List ℕ) (w : World) (records : List (Option Record))
            → Stands H.meaning name self.now w records → result.now ≡ w.table }
    {
        self.table.known(self.table.len())
    }

    /// The seats that the tenant was opened with, unit 0 first.
    ///
    /// # Errors
    ///
    /// `NoMemory` where their list finds none.
    pub fn opening_seats(&self, alloc: Global) -> Result<Vec<Seat>, NoMemory>
        ensures { IfOk result (λ seats. (name : List ℕ) (w : World) (records : List (Option Record))
            → Stands H.meaning name self.now w records → seats.items ≡ opening_seats_of w) }
    {
        let members = self.members.as_slice();
        let seats = first_seats(alloc, members)?;
        Ok(seats)
    }
}
