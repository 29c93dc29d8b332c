//! Names of units, kinds, letters and intervals.

ghost use Rattle.std.specs.Prelude.{◌≡◌, ◌+◌, ◌*◌};
ghost use Rattle.model.specs.World.{greater_mark};

use std::marker::Model;

/// The number of a recovery unit within its tenant.
#[derive(Clone, Copy, Debug, PartialEq, Eq, PartialOrd, Ord, Hash)]
pub struct Unit {
    number: u8,
}

impl Model for Unit {
    ghost use Rattle.std.specs.Prelude.{ℕ};

    ghost Value = { ℕ };

    ghost view = { λ u. u.number };

    ghost inverse = { λ n. record { number = n } };
}

/// The number of a kind of unit.
#[derive(Clone, Copy, Debug, PartialEq, Eq, PartialOrd, Ord, Hash)]
pub struct Kind {
    number: u8,
}

impl Model for Kind {
    ghost use Rattle.std.specs.Prelude.{ℕ};

    ghost Value = { ℕ };

    ghost view = { λ k. k.number };

    ghost inverse = { λ n. record { number = n } };
}

/// The number of a letter within its tenant.
#[derive(Clone, Copy, Debug, Default, PartialEq, Eq, PartialOrd, Ord, Hash)]
pub struct Letter {
    number: u32,
}

impl Model for Letter {
    ghost use Rattle.std.specs.Prelude.{ℕ};

    ghost Value = { ℕ };

    ghost view = { λ l. l.number };

    ghost inverse = { λ n. record { number = n } };
}

impl Unit {
    pub fn new(number: u8) -> Unit
        ensures { result ≡ number }
    {
        Unit { number }
    }

    pub fn number(self) -> u8
        ensures { result ≡ self }
    {
        let Unit { number } = self;
        number
    }
}

impl Kind {
    pub fn new(number: u8) -> Kind
        ensures { result ≡ number }
    {
        Kind { number }
    }

    pub fn number(self) -> u8
        ensures { result ≡ self }
    {
        let Kind { number } = self;
        number
    }
}

impl Letter {
    pub fn new(number: u32) -> Letter
        ensures { result ≡ number }
    {
        Letter { number }
    }

    pub fn number(self) -> u32
        ensures { result ≡ self }
    {
        let Letter { number } = self;
        number
    }
}

/// Where a unit sits: its number, its kind, and how many units the tenant had when it was made.
#[derive(Clone, Copy, Debug, PartialEq, Eq)]
pub struct Seat {
    pub unit: Unit,
    pub kind: Kind,
    pub home: u8,
}

/// Who sent what a unit receives.
#[derive(Clone, Copy, Debug, PartialEq, Eq)]
pub enum Source {
    Outside,
    Unit(Unit),
}

/// The name of a state interval within its unit. The later incarnation is the greater.
#[derive(Clone, Copy, Debug, Default, PartialEq, Eq, PartialOrd, Ord)]
pub struct Mark {
    pub incarnation: u32,
    pub index: u32,
}

/// How many indices 32 bits have.
const INDICES: u64 = 4_294_967_296;

impl Mark {
    /// The later of two marks: by incarnation, then by index.
    #[tactic(auto, using(crate::proofs::Later::order_tells))]
    #[inline(always)]
    pub fn later(self, other: Mark) -> Mark
        ensures { result ≡ greater_mark self other }
    {
        if self.order() <= other.order() {
            other
        } else {
            self
        }
    }

    /// A number that is greater where the mark is later, so that one comparison tells.
    #[inline(always)]
    fn order(self) -> u64
        ensures { result ≡ self.incarnation * INDICES + self.index }
    {
        u64::from(self.incarnation) * INDICES + u64::from(self.index)
    }
}

/// A unit began this incarnation at this index: its intervals of earlier incarnations from there on are lost.
#[derive(Clone, Copy, Debug, PartialEq, Eq)]
pub struct Row {
    pub unit: Unit,
    pub incarnation: u32,
    pub start: u64,
}

/// Where an incarnation starts: its number and its first index, which may be one past the greatest.
#[derive(Clone, Copy, Debug, PartialEq, Eq)]
pub struct Start {
    pub incarnation: u32,
    pub index: u64,
}

/// How much a tenant may hold.
#[derive(Clone, Copy, Debug, PartialEq, Eq)]
pub struct Quota {
    pub volatile: u32,
    pub held: u32,
    pub letters: u32,
}
