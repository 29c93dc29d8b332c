//! Stores.

ghost use Rattle.std.specs.Prelude.{◌≡◌, ◌≢◌, ◌<◌, ◌≤◌, ◌+◌, ◌++◌, ◌∷◌, [], IfOk, OnOk, OnErr, List, length, slice_get};
ghost use Rattle.std.specs.Prelude.{slice_set, Some, None};
ghost use Rattle.model.specs.Failures.{HasRisen};
ghost use Rattle.shared_log.specs.Logged.{IsHeld};

use model::{NoMemory, Record};
use thiserror::Error;

/// Why an append or a fetch was refused.
#[derive(Clone, Copy, Debug, PartialEq, Eq, Error)]
pub enum StoreFault {
    #[error("the device failed")]
    Device,
    #[error("no memory")]
    NoMemory,
}

impl From<NoMemory> for StoreFault {
    ghost use Rattle.shared_log.specs.declared.store.StoreFault.TheVariants.{NoMemory};

    ghost from_gives = { λ _ e. e ≡ NoMemory };

    fn from(_error: NoMemory) -> StoreFault {
        StoreFault::NoMemory
    }
}

/// Keeps records. The n-th record that was acknowledged has place n, from 0, and keeps it; a place
/// whose record was forgotten is empty.
pub trait Store: Drop {
    ghost use Rattle.std.specs.Prelude.{List, Option, ℕ};
    ghost use Rattle.model.specs.declared.records.Record.{Record};

    /// The acknowledged records, in order, and empty places for those that were forgotten.
    ghost log: { Self → List (Option Record) };

    /// How often the device failed. The count stays at its greatest, where it passes as risen. A call that isn't
    /// answered `Device` leaves it as it was, and one that is raises it by one at most: it isn't tried again.
    ghost failures: { Self → ℕ };

    /// Keeps a record, or leaves all as it was.
    fn append(&mut self, logged: &model::Record) -> Result<(), StoreFault>
        ensures ok { OnOk result (log self.new ≡ log self.old ++ Some logged.now ∷ []) }
        ensures err { OnErr result (log self.new ≡ log self.old) }
        ensures device { result ≡ Err StoreFault.Device → HasRisen (failures self.old) (failures self.new) }
        ensures up { failures self.old ≤ failures self.new }
        ensures steady { result ≢ Err StoreFault.Device → failures self.new ≡ failures self.old }
        ensures once { failures self.new ≤ failures self.old + 1 };

    /// Gives the record of a place back, which must not be forgotten.
    fn fetch(&mut self, place: u64) -> Result<model::Record, StoreFault>
        requires { IsHeld (log self.old) place }
        ensures found { IfOk result (λ r. slice_get (log self.old) place ≡ Some (Some r)) }
        ensures same { log self.new ≡ log self.old }
        ensures device { result ≡ Err StoreFault.Device → HasRisen (failures self.old) (failures self.new) }
        ensures up { failures self.old ≤ failures self.new }
        ensures steady { result ≢ Err StoreFault.Device → failures self.new ≡ failures self.old }
        ensures once { failures self.new ≤ failures self.old + 1 };

    /// Gives up the record of a place, whose place stays as an empty one. It takes no memory and
    /// cannot fail. What a device has of the record may stay there.
    fn forget(&mut self, place: u64)
        requires { place < length (log self.old) }
        ensures emptied { log self.new ≡ slice_set (log self.old) place None }
        ensures same { failures self.new ≡ failures self.old };
}
