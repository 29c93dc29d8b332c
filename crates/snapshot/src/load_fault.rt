//! Why a snapshot was not loaded.

use codec::DecodeFault;
use model::NoMemory;
use thiserror::Error;

/// Why bytes could not be loaded.
#[derive(Clone, Copy, Debug, PartialEq, Eq, Error)]
pub enum LoadFault {
    #[error("not a snapshot")]
    NotASnapshot,
    #[error("a snapshot of another version")]
    AnotherVersion,
    #[error("a snapshot about another handler")]
    AnotherHandler,
    #[error("cut short")]
    Cut,
    #[error("damaged")]
    Damaged,
    #[error("no memory")]
    NoMemory,
}

impl From<NoMemory> for LoadFault {
    ghost use Rattle.std.specs.Prelude.{◌≡◌};
    ghost use Rattle.snapshot.specs.declared.load_fault.LoadFault.TheVariants.{NoMemory};

    ghost from_gives = { λ _ e. e ≡ NoMemory };

    fn from(_error: NoMemory) -> LoadFault {
        LoadFault::NoMemory
    }
}

impl From<DecodeFault> for LoadFault {
    ghost use Rattle.std.specs.Prelude.{◌≡◌};
    ghost use Rattle.snapshot.specs.Faults.{of_part};

    ghost from_gives = { λ fault e. e ≡ of_part fault };

    fn from(fault: DecodeFault) -> LoadFault {
        match fault {
            DecodeFault::Cut => LoadFault::Cut,
            DecodeFault::Damaged => LoadFault::Damaged,
            DecodeFault::NoMemory => LoadFault::NoMemory,
        }
    }
}
