//! Why a line gave no step.

ghost use Rattle.std.specs.Prelude.{◌≡◌};

use model::NoMemory;
use std::alloc::{AllocError, AllocFailed};
use thiserror::Error;

/// Why a line gave no step.
#[derive(Clone, Copy, Debug, PartialEq, Eq, Error)]
pub enum LineFault {
    /// The line is no step.
    #[error("the line is no step")]
    Bad,
    /// A growth was refused before that was known.
    #[error("no memory")]
    NoMemory,
}

impl From<NoMemory> for LineFault {
    ghost use Rattle.forms.specs.declared.fault.LineFault.TheVariants.{NoMemory};

    ghost from_gives = { λ _ e. e ≡ NoMemory };

    fn from(_error: NoMemory) -> LineFault {
        LineFault::NoMemory
    }
}

impl From<AllocError> for LineFault {
    ghost use Rattle.forms.specs.declared.fault.LineFault.TheVariants.{NoMemory};

    ghost from_gives = { λ _ e. e ≡ NoMemory };

    fn from(_error: AllocError) -> LineFault {
        LineFault::NoMemory
    }
}

impl<T: Drop> From<AllocFailed<T>> for LineFault {
    ghost use Rattle.forms.specs.declared.fault.LineFault.TheVariants.{NoMemory};

    ghost from_gives = { λ _ e. e ≡ NoMemory };

    fn from(_error: AllocFailed<T>) -> LineFault {
        LineFault::NoMemory
    }
}
