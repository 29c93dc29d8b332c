//! The log of all tenants.

ghost use Rattle.std.specs.Prelude.{◌≡◌, ◌≢◌, ◌<◌, ◌≤◌, ◌+◌, ◌++◌, ◌∷◌, [], ℕ, All, IfOk, OnOk, OnErr, Some};
ghost use Rattle.std.specs.Prelude.{None, bytes_eq, length, replicate, slice_get, slice_set, take, drop, true};
ghost use Rattle.std.specs.List.{IsDistinct};
ghost use Rattle.model.specs.Failures.{HasRisen};
ghost use Rattle.shared_log.specs.Filled.{IsPast, NamesAllTenants};
ghost use Rattle.shared_log.specs.Index.{listed, OtherLists, SameLists};
ghost use Rattle.shared_log.specs.Logged.{places_of, AllKept, OthersKept, IsHeld, Grows, KeepsContents, emptied};

use crate::index::{self, Index};
use crate::memory_store::MemoryStore;
use crate::store::{Store, StoreFault};
use indexmap::IndexMap;
use model::{NoMemory, Record, TenantName, Unit};
use std::alloc::Global;
use std::marker::Model;
use thiserror::Error;

/// Why a place was not filled.
#[derive(Clone, Copy, Debug, PartialEq, Eq, Error)]
pub enum FillFault {
    /// The place isn't there, or isn't empty, or the record's unit has a place that isn't below it.
    #[error("the record can't have this place")]
    Misplaced,
    #[error("no memory")]
    NoMemory,
}

impl From<NoMemory> for FillFault {
    ghost use Rattle.shared_log.specs.declared.shared_log.FillFault.TheVariants.{NoMemory};

    ghost from_gives = { λ _ e. e ≡ NoMemory };

    fn from(_error: NoMemory) -> FillFault {
        FillFault::NoMemory
    }
}

/// The one log of all tenants over a store, seen as the records that were acknowledged, with empty
/// places for those that were forgotten, and the count of the device's failures. A record has its
/// place, from 0, by the order of acknowledgement. It is live until a `cut` or a `forget` of its
/// unit takes it, which both make the store forget it.
///
/// The places of each unit's live records are kept in memory, by tenant and unit, and nothing else
/// for each record: no call takes time by the number of all records.
#[derive(Drop)]
pub struct SharedLog<S: Store> {
    alloc: Global,
    store: S,
    count: u64,
    index: Index,
}

impl<S: Store> Model for SharedLog<S> {
    ghost use Rattle.std.specs.Prelude.{◌≡◌, length};
    ghost use Rattle.shared_log.specs.Index.{IsIndexOf};
    ghost use Rattle.shared_log.specs.Logged.{Logged};

    ghost Value = { Logged };

    ghost view = { λ l. record { records = S.log l.store; failures = S.failures l.store } };

    ghost invariant = { λ l. (l.count ≡ length (S.log l.store)) × IsIndexOf l.index (S.log l.store) };
}

impl<S: Store> SharedLog<S> {
    /// The log over a store that acknowledged nothing yet. It takes no memory.
    pub fn new(alloc: Global, store: S) -> SharedLog<S>
        requires { S.log store ≡ [] }
        ensures { result ≡ record { records = []; failures = S.failures store } }
    {
        SharedLog {
            alloc,
            store,
            count: 0,
            index: IndexMap::new(alloc),
        }
    }

    /// The store under the log.
    pub fn store(&self) -> &S
        ensures records { S.log result.now ≡ self.now.records }
        ensures failures { S.failures result.now ≡ self.now.failures }
    {
        &self.store
    }

    /// How many records were acknowledged, with those that were forgotten: the place of the next one.
    pub fn len(&self) -> u64
        ensures { result ≡ length self.now.records }
    {
        self.count
    }

    /// How many units of a tenant may have live records: none whose number is this or a greater one has any. It takes
    /// no memory.
    pub fn unit_count(&self, tenant: &TenantName) -> usize
        ensures most { result ≤ 256 }
        ensures rest { (unit : ℕ) → result ≤ unit → places_of tenant.now unit self.now ≡ [] }
    {
        index::unit_count(&self.index, tenant)
    }

    /// The tenants that may have live records, each once. So who asks `of` for each of these names and each number
    /// below its `unit_count` meets each live record. It takes no memory.
    pub fn tenants(&self) -> &[TenantName]
        ensures all { NamesAllTenants self.now.records result.now }
        ensures once { IsDistinct bytes_eq result.now }
    {
        index::tenants(&self.index)
    }

    /// Logs a record, which is live then. The index grows before the store is asked, so that what
    /// the store acknowledged is always counted.
    ///
    /// # Errors
    ///
    /// `Device` comes only where the device failed in this call, which is not tried again; after an
    /// error the records and the live ones are as they were.
    pub fn append(&mut self, logged: &Record) -> Result<(), StoreFault>
        ensures ok { OnOk result (self.new.records ≡ self.old.records ++ Some logged.now ∷ []) }
        ensures err { OnErr result (self.new.records ≡ self.old.records) }
        ensures device { result ≡ Err StoreFault.Device → HasRisen self.old.failures self.new.failures }
        ensures up { self.old.failures ≤ self.new.failures }
        ensures steady { result ≢ Err StoreFault.Device → self.new.failures ≡ self.old.failures }
        ensures once { self.new.failures ≤ self.old.failures + 1 }
        ensures own { OnOk result (places_of logged.now.tenant logged.now.unit self.new
            ≡ places_of logged.now.tenant logged.now.unit self.old ++ length self.old.records ∷ []) }
        ensures others { OthersKept logged.now.tenant logged.now.unit self.old self.new }
        ensures kept { OnErr result (AllKept self.old self.new) }
        ensures grows { OnOk result (Grows self.old.records (logged.now ∷ []) self.new.records) }
    {
        append_to(
            self.alloc,
            &mut self.store,
            &mut self.count,
            &mut self.index,
            logged,
        )
    }

    /// The places of the unit's live records, in the order of acknowledgement. It takes no memory.
    pub fn of(&self, tenant: &TenantName, unit: Unit) -> &[u64]
        ensures places { result.now ≡ places_of tenant.now unit self.now }
        ensures held { All (IsHeld self.now.records) result.now }
    {
        index::of(&self.index, tenant, unit)
    }

    /// Gives the record of a place back, which must be live.
    ///
    /// # Errors
    ///
    /// `Device` comes only where the device failed in this call, `NoMemory` where the record finds
    /// no memory. The records and the live ones are as they were in any case.
    pub fn fetch(&mut self, place: u64) -> Result<Record, StoreFault>
        requires { IsHeld self.old.records place }
        ensures found { IfOk result (λ r. slice_get self.old.records place ≡ Some (Some r)) }
        ensures records { self.new.records ≡ self.old.records }
        ensures kept { AllKept self.old self.new }
        ensures device { result ≡ Err StoreFault.Device → HasRisen self.old.failures self.new.failures }
        ensures up { self.old.failures ≤ self.new.failures }
        ensures steady { result ≢ Err StoreFault.Device → self.new.failures ≡ self.old.failures }
        ensures once { self.new.failures ≤ self.old.failures + 1 }
    {
        self.store.fetch(place)
    }

    /// The unit's live records past the first `keep` are live no more, all of them where `keep` is 0:
    /// the store forgets them. It takes no memory and cannot fail.
    pub fn cut(&mut self, tenant: &TenantName, unit: Unit, keep: usize)
        ensures own { places_of tenant.now unit self.new ≡ take keep (places_of tenant.now unit self.old) }
        ensures others { OthersKept tenant.now unit self.old self.new }
        ensures records { self.new.records ≡ emptied (drop keep (places_of tenant.now unit self.old)) self.old.records }
        ensures grows { Grows self.old.records [] self.new.records }
        ensures contents { KeepsContents self.old.records self.new.records }
        ensures failures { self.new.failures ≡ self.old.failures }
    {
        cut_in(&mut self.store, &mut self.index, tenant, unit, keep);
    }

    /// The first `count` of the unit's live records are live no more, all of them where it has no
    /// more: the store forgets them. It takes no memory and cannot fail.
    pub fn forget(&mut self, tenant: &TenantName, unit: Unit, count: usize)
        ensures own { places_of tenant.now unit self.new ≡ drop count (places_of tenant.now unit self.old) }
        ensures others { OthersKept tenant.now unit self.old self.new }
        ensures records { self.new.records
            ≡ emptied (take count (places_of tenant.now unit self.old)) self.old.records }
        ensures grows { Grows self.old.records [] self.new.records }
        ensures contents { KeepsContents self.old.records self.new.records }
        ensures failures { self.new.failures ≡ self.old.failures }
    {
        forget_in(&mut self.store, &mut self.index, tenant, unit, count);
    }
}

impl SharedLog<MemoryStore> {
    /// A log in memory of so many records that are all forgotten. Those that are live in another log can be put into
    /// it by `fill`. It takes no memory, and no time by their number.
    pub fn vacant(alloc: Global, count: u64) -> SharedLog<MemoryStore>
        ensures { result ≡ record { records = replicate count None; failures = 0 } }
    {
        SharedLog {
            alloc,
            store: MemoryStore::vacant(alloc, count),
            count,
            index: IndexMap::new(alloc),
        }
    }

    /// Puts a record into an empty place that is past all those that its unit has. It is live then.
    ///
    /// # Errors
    ///
    /// `Misplaced` where the place isn't there, isn't empty, or isn't past those of the record's unit; `NoMemory` where
    /// the record finds no room. The records and the live ones are as they were then.
    pub fn fill(&mut self, place: u64, logged: Record) -> Result<(), FillFault>
        ensures ok { OnOk result (self.new.records ≡ slice_set self.old.records place (Some logged)) }
        ensures empty { OnOk result (slice_get self.old.records place ≡ Some None) }
        ensures past { OnOk result (All (λ p. p < place) (places_of logged.tenant logged.unit self.old)) }
        ensures err { OnErr result (self.new.records ≡ self.old.records) }
        ensures own { OnOk result (places_of logged.tenant logged.unit self.new
            ≡ places_of logged.tenant logged.unit self.old ++ place ∷ []) }
        ensures others { OthersKept logged.tenant logged.unit self.old self.new }
        ensures kept { OnErr result (AllKept self.old self.new) }
        ensures failures { self.new.failures ≡ self.old.failures }
        ensures succeeds { slice_get self.old.records place ≡ Some None
            → All (λ p. p < place) (places_of logged.tenant logged.unit self.old)
            → result ≢ Err FillFault.Misplaced }
    {
        fill_in(self.alloc, &mut self.store, &mut self.index, place, logged)
    }
}

/// Keeps a record in the store, counts it and lists its place. The index grows before the store is
/// asked; where the store refuses, the place is taken off the list again.
fn append_to<S: Store>(
    alloc: Global,
    store: &mut S,
    count: &mut u64,
    index: &mut Index,
    logged: &Record,
) -> Result<(), StoreFault>
    requires { count.old ≡ length (S.log store.old) }
    ensures ok { OnOk result (S.log store.new ≡ S.log store.old ++ Some logged.now ∷ []) }
    ensures err { OnErr result (S.log store.new ≡ S.log store.old) }
    ensures count { count.new ≡ length (S.log store.new) }
    ensures own { OnOk result (listed index.new logged.now.tenant logged.now.unit
        ≡ listed index.old logged.now.tenant logged.now.unit ++ count.old ∷ []) }
    ensures others { OtherLists logged.now.tenant logged.now.unit index.old index.new }
    ensures same { OnErr result (SameLists index.old index.new) }
    ensures device { result ≡ Err StoreFault.Device → HasRisen (S.failures store.old) (S.failures store.new) }
    ensures up { S.failures store.old ≤ S.failures store.new }
    ensures steady { result ≢ Err StoreFault.Device → S.failures store.new ≡ S.failures store.old }
    ensures once { S.failures store.new ≤ S.failures store.old + 1 }
{
    let Some(next) = count.checked_add(1) else {
        return Err(StoreFault::NoMemory);
    };
    index::add(alloc, index, &logged.tenant, logged.unit, *count)?;
    match store.append(logged) {
        Ok(()) => {
            *count = next;
            Ok(())
        }
        Err(fault) => {
            let had = index::of(index, &logged.tenant, logged.unit).len() - 1;
            index::cut(index, &logged.tenant, logged.unit, had);
            Err(fault)
        }
    }
}

/// The items past the first `keep`.
fn past(places: &[u64], keep: usize) -> &[u64]
    ensures { result.now ≡ drop keep places.now }
{
    if keep >= places.len() {
        return &[];
    }
    &places[keep..]
}

/// The first `count` items, or all where there are no more.
fn first(places: &[u64], count: usize) -> &[u64]
    ensures { result.now ≡ take count places.now }
{
    if count >= places.len() {
        return places;
    }
    &places[..count]
}

/// Makes the store forget the records of these places.
fn forget_all<S: Store>(store: &mut S, places: &[u64])
    requires { All (λ p. p < length (S.log store.old)) places.now }
    ensures emptied { S.log store.new ≡ emptied places.now (S.log store.old) }
    ensures failures { S.failures store.new ≡ S.failures store.old }
{
    for place in places {
        store.forget(*place);
    }
}

/// Makes the store forget the records of a unit past the first `keep`, and takes them off its list.
fn cut_in<S: Store>(store: &mut S, index: &mut Index, tenant: &TenantName, unit: Unit, keep: usize)
    requires { All (λ p. p < length (S.log store.old)) (listed index.old tenant.now unit) }
    ensures emptied { S.log store.new ≡ emptied (drop keep (listed index.old tenant.now unit)) (S.log store.old) }
    ensures own { listed index.new tenant.now unit ≡ take keep (listed index.old tenant.now unit) }
    ensures others { OtherLists tenant.now unit index.old index.new }
    ensures failures { S.failures store.new ≡ S.failures store.old }
{
    forget_all(store, past(index::of(index, tenant, unit), keep));
    index::cut(index, tenant, unit, keep);
}

/// Makes the store forget the first records of a unit, and takes them off its list.
fn forget_in<S: Store>(
    store: &mut S,
    index: &mut Index,
    tenant: &TenantName,
    unit: Unit,
    count: usize,
)
    requires { All (λ p. p < length (S.log store.old)) (listed index.old tenant.now unit) }
    ensures emptied { S.log store.new ≡ emptied (take count (listed index.old tenant.now unit)) (S.log store.old) }
    ensures own { listed index.new tenant.now unit ≡ drop count (listed index.old tenant.now unit) }
    ensures others { OtherLists tenant.now unit index.old index.new }
    ensures failures { S.failures store.new ≡ S.failures store.old }
{
    if count == 0 {
        return;
    }
    forget_all(store, first(index::of(index, tenant, unit), count));
    index::forget(index, tenant, unit, count);
}

/// Whether a place is past the last of these.
fn is_past(places: &[u64], place: u64) -> bool
    ensures past { result ≡ true → IsPast place places.now }
    ensures found { All (λ p. p < place) places.now → result ≡ true }
{
    match places.last() {
        Some(last) => *last < place,
        None => true,
    }
}

/// Puts a record into a place of the store and lists the place. The index grows before the store is asked; where the
/// store finds no room, the place is taken off the list again.
fn put_in(
    alloc: Global,
    store: &mut MemoryStore,
    index: &mut Index,
    place: u64,
    logged: Record,
) -> Result<(), NoMemory>
    requires { place < length (⟦<MemoryStore as Store>⟧.log store.old) }
    ensures ok { OnOk result (⟦<MemoryStore as Store>⟧.log store.new
        ≡ slice_set (⟦<MemoryStore as Store>⟧.log store.old) place (Some logged)) }
    ensures err { OnErr result (⟦<MemoryStore as Store>⟧.log store.new ≡ ⟦<MemoryStore as Store>⟧.log store.old) }
    ensures own { OnOk result (listed index.new logged.tenant logged.unit
        ≡ listed index.old logged.tenant logged.unit ++ place ∷ []) }
    ensures others { OtherLists logged.tenant logged.unit index.old index.new }
    ensures same { OnErr result (SameLists index.old index.new) }
{
    let tenant = logged.tenant.copy();
    let unit = logged.unit;
    index::add(alloc, index, &tenant, unit, place)?;
    match store.fill(place, logged) {
        Ok(()) => Ok(()),
        Err(fault) => {
            let had = index::of(index, &tenant, unit).len() - 1;
            index::cut(index, &tenant, unit, had);
            Err(fault)
        }
    }
}

/// Whether a place of the store is empty and past all those that the index lists for the record's unit.
fn may_fill(store: &MemoryStore, index: &Index, place: u64, logged: &Record) -> bool
    ensures empty { result ≡ true → slice_get (⟦<MemoryStore as Store>⟧.log store.now) place ≡ Some None }
    ensures past { result ≡ true → IsPast place (listed index.now logged.now.tenant logged.now.unit) }
    ensures found { slice_get (⟦<MemoryStore as Store>⟧.log store.now) place ≡ Some None
        → All (λ p. p < place) (listed index.now logged.now.tenant logged.now.unit) → result ≡ true }
{
    if !store.is_vacant(place) {
        return false;
    }
    is_past(index::of(index, &logged.tenant, logged.unit), place)
}

/// Puts a record into a place of the store and lists the place, where it is empty and past those of the record's unit.
fn fill_in(
    alloc: Global,
    store: &mut MemoryStore,
    index: &mut Index,
    place: u64,
    logged: Record,
) -> Result<(), FillFault>
    ensures ok { OnOk result (⟦<MemoryStore as Store>⟧.log store.new
        ≡ slice_set (⟦<MemoryStore as Store>⟧.log store.old) place (Some logged)) }
    ensures err { OnErr result (⟦<MemoryStore as Store>⟧.log store.new ≡ ⟦<MemoryStore as Store>⟧.log store.old) }
    ensures empty { OnOk result (slice_get (⟦<MemoryStore as Store>⟧.log store.old) place ≡ Some None) }
    ensures past { OnOk result (IsPast place (listed index.old logged.tenant logged.unit)) }
    ensures own { OnOk result (listed index.new logged.tenant logged.unit
        ≡ listed index.old logged.tenant logged.unit ++ place ∷ []) }
    ensures others { OtherLists logged.tenant logged.unit index.old index.new }
    ensures same { OnErr result (SameLists index.old index.new) }
    ensures succeeds { slice_get (⟦<MemoryStore as Store>⟧.log store.old) place ≡ Some None
        → All (λ p. p < place) (listed index.old logged.tenant logged.unit) → result ≢ Err FillFault.Misplaced }
{
    if !may_fill(store, index, place, &logged) {
        return Err(FillFault::Misplaced);
    }
    put_in(alloc, store, index, place, logged)?;
    Ok(())
}
