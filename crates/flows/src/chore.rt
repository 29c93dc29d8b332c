//! The steps that the driver gives.

ghost use Rattle.std.specs.Prelude.{◌≡◌, ℕ, List};
ghost use Rattle.model.specs.Addresses.{addressed};
ghost use Rattle.flows.specs.Chores.{chore_step};

use model::{Letter, TenantStep, Unit};

/// A step that the driver gives, of the tenant that it carries on for.
#[derive(Clone, Copy, Debug, PartialEq, Eq)]
pub enum Chore {
    /// The letter's receiver, which is this unit, receives it.
    Deliver { letter: Letter, unit: Unit },
    /// Logs the unit's volatile records.
    Flush { unit: Unit },
    /// The unit learns the rows of the table, and goes back where it has an orphan.
    Notice { unit: Unit },
    /// Releases the unit's held outputs, as long as they are firm.
    Release { unit: Unit },
}

impl Default for Chore {
    /// What a list without steps has in each place.
    fn default() -> Chore {
        Chore::Flush { unit: Unit::new(0) }
    }
}

impl Chore {
    /// The unit that it is about.
    pub fn unit(&self) -> Unit {
        match self {
            Chore::Deliver { unit, .. } => *unit,
            Chore::Flush { unit } => *unit,
            Chore::Notice { unit } => *unit,
            Chore::Release { unit } => *unit,
        }
    }

    /// The step of the tenant that it carries on for.
    pub fn own_step(&self) -> TenantStep
        ensures { (tenant : List ℕ) → addressed (chore_step tenant self.now) ≡ (tenant, result) }
    {
        match self {
            Chore::Deliver { letter, .. } => TenantStep::Deliver { letter: *letter },
            Chore::Flush { unit } => TenantStep::Flush { unit: *unit },
            Chore::Notice { unit } => TenantStep::Notice { unit: *unit },
            Chore::Release { unit } => TenantStep::Release { unit: *unit },
        }
    }
}
