//! The counts and their calls.

ghost use Rattle.std.specs.Prelude.{◌≡◌, ◌+◌, ◌<◌, ◌≤◌, ◌^◌, ◌↔◌, ℕ, IfOk, IsTrue, OnErr, length, slice_index_or};
ghost use Rattle.session.specs.Arrivals.{arrival_of};
ghost use Rattle.model.specs.Lists.{padded};
ghost use Rattle.session.specs.Counts.{advanced, no_counts, nothing, sent_one, sent_to, taken_from, widened_counts};
ghost use Rattle.session.specs.Counts.{HasRoom, IsCounted, NoneSentMore};

use crate::arrival::Arrival;
use crate::exchange::Exchange;
use model::{NoMemory, Source, Unit};
use std::alloc::Global;
use std::marker::Model;

/// How many receipts a unit took from each source, and how many letters it sent to each unit.
///
/// A unit that joined the tenant after the counts were made has no entry, and counts as one with
/// which nothing was exchanged. `taken`, `test`, `advance`, `number_to` and `sent` take a constant
/// time, whatever was received; the other calls take time by the count of units.
#[derive(Drop)]
pub struct Sessions {
    outside: u64,
    units: Vec<Exchange>,
    // No unit was sent more letters than so many, by which mostly no count need be looked at.
    most_sent: u64,
}

impl Model for Sessions {
    ghost use Rattle.session.specs.Counts.{Counts, NoneSentMore};

    ghost Value = { Counts };

    ghost view = { λ s. record { outside = s.outside; units = s.units.items } };

    ghost invariant = { λ s. NoneSentMore s.units.items s.most_sent };
}

impl Sessions {
    /// The counts of a unit at its beginning, in a tenant of `n` units.
    ///
    /// # Errors
    ///
    /// `NoMemory` where the entries find no memory.
    pub fn new(alloc: Global, n: usize) -> Result<Sessions, NoMemory>
        ensures { IfOk result (λ s. s ≡ no_counts n) }
    {
        let units = vec![in alloc; Exchange::none(); n]?;
        Ok(Sessions {
            outside: 0,
            units,
            most_sent: 0,
        })
    }

    /// The counts of a unit that took so many receipts from outside and exchanged these letters with each unit, unit 0
    /// first. Takes no memory.
    pub fn of(outside: u64, units: Vec<Exchange>) -> Sessions
        ensures { result ≡ record { outside = outside; units = units.items } }
    {
        let most_sent = most_sent(units.as_slice());
        Sessions {
            outside,
            units,
            most_sent,
        }
    }

    /// What was exchanged with each unit, unit 0 first.
    pub fn units(&self) -> &[Exchange]
        ensures { result.now ≡ self.now.units }
    {
        self.units.as_slice()
    }

    /// How many units have an entry.
    pub fn len(&self) -> usize
        ensures { result ≡ length self.now.units }
    {
        self.units.len()
    }

    /// How many receipts from this source were taken, which is the number that the next one must have.
    pub fn taken(&self, source: Source) -> u64
        ensures { result ≡ taken_from self.now source }
    {
        match source {
            Source::Outside => self.outside,
            Source::Unit(unit) => entry(&self.units, usize::from(unit.number())).taken,
        }
    }

    /// Whether a receipt of this number is the next one from the source. Takes no memory. For writers of another host:
    /// the tenant compares the number with `taken`, among its other tests.
    pub fn test(&self, source: Source, number: u64) -> Arrival
        ensures { result ≡ arrival_of (taken_from self.now source) number }
    {
        let taken = self.taken(source);
        if number == taken {
            Arrival::Next
        } else if number < taken {
            Arrival::Repeat
        } else {
            Arrival::Gap
        }
    }

    /// Whether one more receipt from the source and so many letters to each unit can be counted: the
    /// source is the outside or has an entry, and no count passes the 64 bits that it has. Takes no
    /// memory.
    pub fn has_room(&self, source: Source, letters: usize) -> bool
        ensures { IsTrue result ↔ HasRoom self.now source letters }
    {
        let letters = letters as u64;
        if self.most_sent > u64::MAX - letters && !have_room(self.units.as_slice(), letters) {
            return false;
        }
        match source {
            Source::Outside => self.outside < u64::MAX,
            Source::Unit(unit) => {
                let unit = usize::from(unit.number());
                unit < self.units.len() && self.units[unit].taken < u64::MAX
            }
        }
    }

    /// Counts one more receipt from the outside, or from a unit that has an entry. Takes no memory.
    pub fn advance(&mut self, source: Source)
        requires counted { IsCounted self.old source }
        requires room { taken_from self.old source + 1 < 2 ^ 64 }
        ensures { self.new ≡ advanced self.old source }
    {
        match source {
            Source::Outside => self.outside += 1,
            Source::Unit(unit) => {
                let exchange = &mut self.units[usize::from(unit.number())];
                exchange.taken += 1;
            }
        }
    }

    /// The number of the next letter to this unit. Takes no memory.
    pub fn number_to(&self, unit: Unit) -> u64
        ensures { result ≡ sent_to self.now unit }
    {
        entry(&self.units, usize::from(unit.number())).sent
    }

    /// Counts one more letter to a unit that has an entry. Takes no memory.
    pub fn sent(&mut self, unit: Unit)
        requires counted { unit < length self.old.units }
        requires room { sent_to self.old unit + 1 < 2 ^ 64 }
        ensures { self.new ≡ sent_one self.old unit }
    {
        let exchange = &mut self.units[usize::from(unit.number())];
        exchange.sent += 1;
        self.most_sent = self.most_sent.saturating_add(1);
    }

    /// Cuts every count back to those of an earlier snapshot. Units that joined since then are again
    /// ones with which nothing was exchanged. Takes no memory.
    pub fn cut(&mut self, snapshot: &Sessions)
        requires { length snapshot.now.units ≤ length self.old.units }
        ensures { self.new ≡ widened_counts snapshot.now (length self.old.units) }
    {
        self.outside = snapshot.outside;
        self.most_sent = snapshot.most_sent;
        cut_all(self.units.as_mut_slice(), snapshot.units.as_slice());
    }

    /// Adds entries for units that joined, up to `n` units in all. Counts that have as many stay as
    /// they are.
    ///
    /// # Errors
    ///
    /// `NoMemory` where the entries find no memory; the counts stay as they were.
    pub fn widen(&mut self, n: usize) -> Result<(), NoMemory>
        ensures ok { IfOk result (λ _. self.new ≡ widened_counts self.old n) }
        ensures err { OnErr result (self.new ≡ self.old) }
    {
        if self.units.len() < n {
            self.units.resize(n, Exchange::none())?;
        }
        Ok(())
    }

    /// Equal counts.
    ///
    /// # Errors
    ///
    /// `NoMemory` where the copy finds no memory.
    pub fn copy(&self) -> Result<Sessions, NoMemory>
        ensures { IfOk result (λ s. s ≡ self.now) }
    {
        let units = self.units.clone()?;
        Ok(Sessions {
            outside: self.outside,
            units,
            most_sent: self.most_sent,
        })
    }
}

/// What was exchanged with a unit; nothing where it has no entry.
fn entry(units: &[Exchange], unit: usize) -> Exchange
    ensures { result ≡ slice_index_or units.now unit nothing }
{
    match units.get(unit) {
        Some(exchange) => *exchange,
        None => Exchange::none(),
    }
}

/// The most letters that were sent to one unit.
fn most_sent(units: &[Exchange]) -> u64
    ensures { NoneSentMore units.now result }
{
    let mut most = 0;
    for exchange in units {
        most = exchange.sent.max(most);
    }
    most
}

/// Whether so many more letters to each unit can be counted.
fn have_room(units: &[Exchange], letters: u64) -> bool
    ensures { IsTrue result ↔ ((unit : ℕ) → (slice_index_or units.now unit nothing).sent + letters < 2 ^ 64) }
{
    for exchange in units {
        if exchange.sent > u64::MAX - letters {
            return false;
        }
    }
    true
}

/// Cuts the entries back to these; behind them nothing is left.
fn cut_all(units: &mut [Exchange], earlier: &[Exchange])
    requires { length earlier.now ≤ length units.old }
    ensures { units.new ≡ padded nothing earlier.now (length units.old) }
{
    for unit in 0..units.len() {
        units[unit] = entry(earlier, unit);
    }
}
