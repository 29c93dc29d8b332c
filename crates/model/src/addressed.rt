//! A step, apart.

ghost use Rattle.std.specs.Prelude.{◌≡◌, IfOk};
ghost use Rattle.model.specs.Addresses.{addressed, whole};

use crate::fault::NoMemory;
use crate::steps::{Step, TenantStep};
use crate::text::TenantName;
use std::marker::Model;

/// A step, apart: the name of its tenant, and the tenant's own step. Contracts see it as the step.
#[derive(Drop)]
pub struct AddressedStep {
    pub tenant: TenantName,
    pub own: TenantStep,
}

impl Model for AddressedStep {
    ghost use Rattle.model.specs.declared.steps.Step.{Step as StepOf};
    ghost use Rattle.model.specs.Addresses.{whole};

    ghost Value = { StepOf };

    ghost view = { λ s. whole s.tenant s.own };
}

impl AddressedStep {
    /// The name of its tenant.
    #[tactic(auto, using(crate::proofs::Apart::addressed_of_whole))]
    pub fn tenant(&self) -> &TenantName
        ensures { result.now ≡ (addressed self.now).0 }
    {
        &self.tenant
    }

    /// The step without that name.
    #[tactic(auto, using(crate::proofs::Apart::addressed_of_whole))]
    pub fn own(&self) -> &TenantStep
        ensures { result.now ≡ (addressed self.now).1 }
    {
        &self.own
    }

    /// The step, in one piece. Takes no memory.
    pub fn into_step(self) -> Step
        ensures { result ≡ self }
    {
        let AddressedStep { tenant, own } = self;
        match own {
            TenantStep::Open {
                kinds,
                quota,
                optimism,
            } => Step::Open {
                tenant,
                kinds,
                quota,
                optimism,
            },
            TenantStep::Join { kind } => Step::Join { tenant, kind },
            TenantStep::Post { unit, number, text } => Step::Post {
                tenant,
                unit,
                number,
                text,
            },
            TenantStep::Deliver { letter } => Step::Deliver { tenant, letter },
            TenantStep::Flush { unit } => Step::Flush { tenant, unit },
            TenantStep::Checkpoint { unit } => Step::Checkpoint { tenant, unit },
            TenantStep::Kill { unit } => Step::Kill { tenant, unit },
            TenantStep::Restart { unit } => Step::Restart { tenant, unit },
            TenantStep::Notice { unit } => Step::Notice { tenant, unit },
            TenantStep::Release { unit } => Step::Release { tenant, unit },
            TenantStep::Status { unit } => Step::Status { tenant, unit },
        }
    }
}

impl Step {
    /// An equal step, which takes no memory.
    ///
    /// # Errors
    ///
    /// `NoMemory` where there are 2^63 - 1 copies of its texts already.
    #[tactic(auto, using(crate::proofs::Apart::whole_of_addressed))]
    pub fn copy(&self) -> Result<Step, NoMemory>
        ensures { IfOk result (λ s. s ≡ self.now) }
    {
        let own = self.tenant_step()?;
        let tenant = self.tenant().copy();
        Ok(AddressedStep { tenant, own }.into_step())
    }
}
