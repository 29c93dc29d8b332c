//! Why bytes aren't those of a value.

use model::NoMemory;
use thiserror::Error;

/// Why bytes could not be decoded.
#[derive(Clone, Copy, Debug, PartialEq, Eq, Error)]
pub enum DecodeFault {
    #[error("cut short")]
    Cut,
    #[error("damaged")]
    Damaged,
    #[error("no memory")]
    NoMemory,
}

impl From<NoMemory> for DecodeFault {
    ghost use Rattle.std.specs.Prelude.{◌≡◌};
    ghost use Rattle.codec.specs.declared.fault.DecodeFault.TheVariants.{NoMemory};

    ghost from_gives = { λ _ e. e ≡ NoMemory };

    fn from(_error: NoMemory) -> DecodeFault {
        DecodeFault::NoMemory
    }
}
