//! Steps of tenants.

ghost use Rattle.std.specs.Prelude.{◌≡◌, IfOk};
ghost use Rattle.model.specs.Addresses.{addressed};

use crate::fault::NoMemory;
use crate::names::{Letter, Quota, Unit};
use crate::text::{TenantName, Text, Texts};

/// A step of one tenant.
#[derive(Drop)]
pub enum TenantStep {
    /// Opens the tenant with these kinds of units, unit 0 first.
    Open {
        kinds: Texts,
        quota: Quota,
        optimism: u32,
    },
    /// One more unit joins.
    Join {
        kind: Text,
    },
    /// A unit receives this text from outside, under this session number.
    Post {
        unit: Unit,
        number: u32,
        text: Text,
    },
    /// The letter's receiver receives it.
    Deliver {
        letter: Letter,
    },
    /// Logs the unit's volatile records.
    Flush {
        unit: Unit,
    },
    /// Shelves a snapshot of the unit.
    Checkpoint {
        unit: Unit,
    },
    /// The unit fails: its volatile intervals are lost.
    Kill {
        unit: Unit,
    },
    /// The unit that is down goes back to its last interval that is no orphan.
    Restart {
        unit: Unit,
    },
    /// The unit learns the rows of the table, and goes back where it has an orphan.
    Notice {
        unit: Unit,
    },
    /// Releases the unit's held outputs, as long as they are firm.
    Release {
        unit: Unit,
    },
    /// Tells what the unit is at.
    Status {
        unit: Unit,
    },
}

impl TenantStep {
    /// An equal step, which takes no memory.
    ///
    /// # Errors
    ///
    /// `NoMemory` where there are 2^63 - 1 copies of its texts already.
    pub fn copy(&self) -> Result<TenantStep, NoMemory>
        ensures { IfOk result (λ s. s ≡ self.now) }
    {
        match self {
            TenantStep::Open {
                kinds,
                quota,
                optimism,
            } => Ok(TenantStep::Open {
                kinds: kinds.copy()?,
                quota: *quota,
                optimism: *optimism,
            }),
            TenantStep::Join { kind } => Ok(TenantStep::Join { kind: kind.copy()? }),
            TenantStep::Post { unit, number, text } => Ok(TenantStep::Post {
                unit: *unit,
                number: *number,
                text: text.copy()?,
            }),
            TenantStep::Deliver { letter } => Ok(TenantStep::Deliver { letter: *letter }),
            TenantStep::Flush { unit } => Ok(TenantStep::Flush { unit: *unit }),
            TenantStep::Checkpoint { unit } => Ok(TenantStep::Checkpoint { unit: *unit }),
            TenantStep::Kill { unit } => Ok(TenantStep::Kill { unit: *unit }),
            TenantStep::Restart { unit } => Ok(TenantStep::Restart { unit: *unit }),
            TenantStep::Notice { unit } => Ok(TenantStep::Notice { unit: *unit }),
            TenantStep::Release { unit } => Ok(TenantStep::Release { unit: *unit }),
            TenantStep::Status { unit } => Ok(TenantStep::Status { unit: *unit }),
        }
    }
}

/// A step, with the tenant that it names.
#[derive(Debug, PartialEq, Eq, Drop)]
pub enum Step {
    /// Opens the tenant with these kinds of units, unit 0 first.
    Open {
        tenant: TenantName,
        kinds: Texts,
        quota: Quota,
        optimism: u32,
    },
    /// One more unit joins.
    Join {
        tenant: TenantName,
        kind: Text,
    },
    /// A unit receives this text from outside, under this session number.
    Post {
        // The small ones first, between which the others would leave gaps.
        unit: Unit,
        number: u32,
        tenant: TenantName,
        text: Text,
    },
    /// The letter's receiver receives it.
    Deliver {
        tenant: TenantName,
        letter: Letter,
    },
    /// Logs the unit's volatile records.
    Flush {
        tenant: TenantName,
        unit: Unit,
    },
    /// Shelves a snapshot of the unit.
    Checkpoint {
        tenant: TenantName,
        unit: Unit,
    },
    /// The unit fails: its volatile intervals are lost.
    Kill {
        tenant: TenantName,
        unit: Unit,
    },
    /// The unit that is down goes back to its last interval that is no orphan.
    Restart {
        tenant: TenantName,
        unit: Unit,
    },
    /// The unit learns the rows of the table, and goes back where it has an orphan.
    Notice {
        tenant: TenantName,
        unit: Unit,
    },
    /// Releases the unit's held outputs, as long as they are firm.
    Release {
        tenant: TenantName,
        unit: Unit,
    },
    /// Tells what the unit is at.
    Status {
        tenant: TenantName,
        unit: Unit,
    },
}

impl Step {
    /// The tenant that the step names.
    pub fn tenant(&self) -> &TenantName
        ensures { result.now ≡ (addressed self.now).0 }
    {
        match self {
            Step::Open { tenant, .. } => tenant,
            Step::Join { tenant, .. } => tenant,
            Step::Post { tenant, .. } => tenant,
            Step::Deliver { tenant, .. } => tenant,
            Step::Flush { tenant, .. } => tenant,
            Step::Checkpoint { tenant, .. } => tenant,
            Step::Kill { tenant, .. } => tenant,
            Step::Restart { tenant, .. } => tenant,
            Step::Notice { tenant, .. } => tenant,
            Step::Release { tenant, .. } => tenant,
            Step::Status { tenant, .. } => tenant,
        }
    }

    /// The step without the tenant's name, which takes no memory.
    ///
    /// # Errors
    ///
    /// `NoMemory` where there are 2^63 - 1 copies of its texts already.
    pub fn tenant_step(&self) -> Result<TenantStep, NoMemory>
        ensures { IfOk result (λ s. s ≡ (addressed self.now).1) }
    {
        match self {
            Step::Open {
                kinds,
                quota,
                optimism,
                ..
            } => Ok(TenantStep::Open {
                kinds: kinds.copy()?,
                quota: *quota,
                optimism: *optimism,
            }),
            Step::Join { kind, .. } => Ok(TenantStep::Join { kind: kind.copy()? }),
            Step::Post {
                unit,
                number,
                text,
                ..
            } => Ok(TenantStep::Post {
                unit: *unit,
                number: *number,
                text: text.copy()?,
            }),
            Step::Deliver { letter, .. } => Ok(TenantStep::Deliver { letter: *letter }),
            Step::Flush { unit, .. } => Ok(TenantStep::Flush { unit: *unit }),
            Step::Checkpoint { unit, .. } => Ok(TenantStep::Checkpoint { unit: *unit }),
            Step::Kill { unit, .. } => Ok(TenantStep::Kill { unit: *unit }),
            Step::Restart { unit, .. } => Ok(TenantStep::Restart { unit: *unit }),
            Step::Notice { unit, .. } => Ok(TenantStep::Notice { unit: *unit }),
            Step::Release { unit, .. } => Ok(TenantStep::Release { unit: *unit }),
            Step::Status { unit, .. } => Ok(TenantStep::Status { unit: *unit }),
        }
    }
}
