//! A store that fails.

ghost use Rattle.std.specs.Prelude.{◌≡◌, ◌≢◌, ◌<◌, ◌≤◌, ◌+◌, ◌-◌, ◌^◌, ◌++◌, ◌∷◌, [], IfOk, OnOk, OnErr, None, length};
ghost use Rattle.std.specs.Prelude.{slice_get, slice_set, Some, true, false};
ghost use Rattle.model.specs.Failures.{HasRisen};
ghost use Rattle.shared_log.specs.Logged.{IsHeld};
ghost use Rattle.stable_log.specs.Fuses.{is_one_of};

use model::Record;
use shared_log::{MemoryStore, Store, StoreFault};
use std::alloc::Global;
use std::marker::Model;

/// A store in memory that fails the appends and the fetches of given numbers, each counted from 0.
/// For tests.
#[derive(Drop)]
pub struct FuseStore {
    inner: MemoryStore,
    bad_appends: Vec<u64>,
    bad_fetches: Vec<u64>,
    appends: u64,
    fetches: u64,
    failures: u64,
}

impl Model for FuseStore {
    ghost use Rattle.stable_log.specs.Fuses.{Fused};

    ghost Value = { Fused };

    ghost view = { λ s. record {
      records = ⟦<MemoryStore as Store>⟧.log s.inner;
      bad_appends = s.bad_appends.items;
      bad_fetches = s.bad_fetches.items;
      appends = s.appends;
      fetches = s.fetches;
      failures = s.failures;
    } };
}

/// Whether this number is one of those.
fn is_in(numbers: &[u64], number: u64) -> bool
    ensures { result ≡ is_one_of number numbers.now }
{
    numbers.iter().any(|n| *n == number)
}

impl FuseStore {
    /// A store with no records that fails the appends and the fetches of these numbers.
    pub fn new(alloc: Global, bad_appends: Vec<u64>, bad_fetches: Vec<u64>) -> FuseStore
        ensures { result ≡ record {
          records = [];
          bad_appends = bad_appends.items;
          bad_fetches = bad_fetches.items;
          appends = 0;
          fetches = 0;
          failures = 0;
        } }
    {
        FuseStore {
            inner: MemoryStore::new(alloc),
            bad_appends,
            bad_fetches,
            appends: 0,
            fetches: 0,
            failures: 0,
        }
    }
}

impl Store for FuseStore {
    ghost log = { λ s. s.records };

    ghost failures = { λ s. s.failures };

    fn append(&mut self, logged: &Record) -> Result<(), StoreFault>
        ensures ok { OnOk result (self.new.records ≡ self.old.records ++ Some logged.now ∷ []) }
        ensures err { OnErr result (self.new.records ≡ self.old.records) }
        ensures device { result ≡ Err StoreFault.Device → HasRisen self.old.failures self.new.failures }
        ensures up { self.old.failures ≤ self.new.failures }
        ensures steady { result ≢ Err StoreFault.Device → self.new.failures ≡ self.old.failures }
        ensures once { self.new.failures ≤ self.old.failures + 1 }
        ensures fails { is_one_of self.old.appends self.old.bad_appends ≡ true → result ≡ Err StoreFault.Device }
        ensures works { is_one_of self.old.appends self.old.bad_appends ≡ false → result ≢ Err StoreFault.Device }
        ensures counted { self.old.appends < 2 ^ 64 - 1 → self.new.appends ≡ self.old.appends + 1 }
    {
        let number = self.appends;
        self.appends = self.appends.saturating_add(1);
        if is_in(self.bad_appends.as_slice(), number) {
            self.failures = self.failures.saturating_add(1);
            return Err(StoreFault::Device);
        }
        self.inner.append(logged)
    }

    fn fetch(&mut self, place: u64) -> Result<Record, StoreFault>
        requires { IsHeld self.old.records place }
        ensures found { IfOk result (λ r. slice_get self.old.records place ≡ Some (Some r)) }
        ensures same { self.new.records ≡ self.old.records }
        ensures device { result ≡ Err StoreFault.Device → HasRisen self.old.failures self.new.failures }
        ensures up { self.old.failures ≤ self.new.failures }
        ensures steady { result ≢ Err StoreFault.Device → self.new.failures ≡ self.old.failures }
        ensures once { self.new.failures ≤ self.old.failures + 1 }
        ensures fails { is_one_of self.old.fetches self.old.bad_fetches ≡ true → result ≡ Err StoreFault.Device }
        ensures works { is_one_of self.old.fetches self.old.bad_fetches ≡ false → result ≢ Err StoreFault.Device }
        ensures counted { self.old.fetches < 2 ^ 64 - 1 → self.new.fetches ≡ self.old.fetches + 1 }
    {
        let number = self.fetches;
        self.fetches = self.fetches.saturating_add(1);
        if is_in(self.bad_fetches.as_slice(), number) {
            self.failures = self.failures.saturating_add(1);
            return Err(StoreFault::Device);
        }
        self.inner.fetch(place)
    }

    /// Gives up the record of a place, which stays as an empty one. It is not counted.
    fn forget(&mut self, place: u64)
        requires { place < length self.old.records }
        ensures emptied { self.new ≡ record self.old { records = slice_set self.old.records place None } }
        ensures same { self.new.failures ≡ self.old.failures }
    {
        self.inner.forget(place);
    }
}
