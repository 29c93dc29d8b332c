//! Why a run gave no book.

ghost use Rattle.std.specs.Prelude.{◌≡◌};

use model::NoMemory;
use thiserror::Error;

/// Why a run gave no book.
#[derive(Clone, Copy, Debug, PartialEq, Eq, Error)]
pub enum RunFault {
    /// There was no memory for a list or for a step of a feed.
    #[error("no memory")]
    NoMemory,
    /// A thread could not be started.
    #[error("no thread")]
    NoThread,
    /// The history does not have each feed's steps as the feed has them, or its replies to them are
    /// not the receipts that the feed's thread kept.
    #[error("the history is not that of the feeds")]
    Unmatched,
}

impl From<NoMemory> for RunFault {
    ghost use Rattle.workers.specs.declared.fault.RunFault.TheVariants.{NoMemory};

    ghost from_gives = { λ _ e. e ≡ NoMemory };

    fn from(_error: NoMemory) -> RunFault {
        RunFault::NoMemory
    }
}
