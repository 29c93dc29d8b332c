//! The places of each unit's live records.

ghost use Rattle.std.specs.Prelude.{◌≡◌, ◌<◌, ◌≤◌, ◌++◌, ◌∷◌, [], ℕ, List, IfOk, OnOk, OnErr, None, take, drop};
ghost use Rattle.std.specs.Prelude.{bytes_eq, false, length};
ghost use Rattle.std.specs.List.{IsDistinct};
ghost use Rattle.indexmap.specs.IndexMap.{get, keys};
ghost use Rattle.shared_log.specs.Index.{of_unit, listed, OtherUnits, SameLists, OtherLists};

use indexmap::IndexMap;
use model::{NoMemory, TenantName, Unit};
use std::alloc::Global;
use std::marker::Model;

/// Places, in rising order.
#[derive(Drop)]
pub(crate) struct Places {
    places: Vec<u64>,
}

impl Model for Places {
    ghost use Rattle.std.specs.Prelude.{List, ℕ};

    ghost Value = { List ℕ };

    ghost view = { λ p. p.places.items };
}

impl Places {
    fn new(alloc: Global) -> Places
        ensures { result ≡ [] }
    {
        Places {
            places: Vec::new(alloc),
        }
    }

    fn as_slice(&self) -> &[u64]
        ensures { result.now ≡ self.now }
    {
        self.places.as_slice()
    }

    fn push(&mut self, place: u64) -> Result<(), NoMemory>
        ensures ok { OnOk result (self.new ≡ self.old ++ place ∷ []) }
        ensures err { OnErr result (self.new ≡ self.old) }
    {
        match self.places.push(place) {
            Ok(()) => Ok(()),
            Err(_) => Err(NoMemory),
        }
    }

    /// Leaves the first `keep`.
    fn cut(&mut self, keep: usize)
        ensures { self.new ≡ take keep self.old }
    {
        self.places.truncate(keep);
    }

    /// Gives up the first `count`.
    fn forget(&mut self, count: usize)
        ensures { self.new ≡ drop count self.old }
    {
        if count >= self.places.len() {
            self.places.clear();
        } else {
            self.places.drain(..count);
        }
    }
}

/// The places of each unit of a tenant, by the unit's number, of which there are 256. A unit past the end has none.
#[derive(Drop)]
pub(crate) struct Units {
    units: Vec<Places>,
}

impl Model for Units {
    ghost use Rattle.std.specs.Prelude.{◌≤◌, List, ℕ, length};

    ghost Value = { List (List ℕ) };

    ghost view = { λ u. u.units.items };

    ghost invariant = { λ u. length u.units.items ≤ 256 };
}

impl Units {
    fn new(alloc: Global) -> Units
        ensures { result ≡ [] }
    {
        Units {
            units: Vec::new(alloc),
        }
    }

    fn of(&self, unit: Unit) -> &[u64]
        ensures { result.now ≡ of_unit self.now unit }
    {
        match self.units.get(usize::from(unit.number())) {
            Some(places) => places.as_slice(),
            None => &[],
        }
    }

    /// How many units have lists: none of this number or a greater one has places.
    fn count(&self) -> usize
        ensures most { result ≤ 256 }
        ensures rest { (unit : ℕ) → result ≤ unit → of_unit self.now unit ≡ [] }
    {
        self.units.len()
    }

    /// Makes lists for the units up to this one.
    fn widen(&mut self, alloc: Global, unit: Unit) -> Result<(), NoMemory>
        ensures lists { (u : ℕ) → of_unit self.new u ≡ of_unit self.old u }
        ensures long { OnOk result (unit < length self.new) }
    {
        let count = usize::from(unit.number()) + 1;
        while self.units.len() < count {
            self.units.push(Places::new(alloc))?;
        }
        Ok(())
    }

    /// Adds a place to a unit's list.
    fn add(&mut self, alloc: Global, unit: Unit, place: u64) -> Result<(), NoMemory>
        ensures own { OnOk result (of_unit self.new unit ≡ of_unit self.old unit ++ place ∷ []) }
        ensures others { OtherUnits unit self.old self.new }
        ensures err { OnErr result ((u : ℕ) → of_unit self.new u ≡ of_unit self.old u) }
    {
        self.widen(alloc, unit)?;
        self.units[usize::from(unit.number())].push(place)
    }

    /// Leaves the first `keep` places of a unit.
    fn cut(&mut self, unit: Unit, keep: usize)
        ensures own { of_unit self.new unit ≡ take keep (of_unit self.old unit) }
        ensures others { OtherUnits unit self.old self.new }
    {
        if let Some(places) = self.units.get_mut(usize::from(unit.number())) {
            places.cut(keep);
        }
    }

    /// Gives up the first `count` places of a unit.
    fn forget(&mut self, unit: Unit, count: usize)
        ensures own { of_unit self.new unit ≡ drop count (of_unit self.old unit) }
        ensures others { OtherUnits unit self.old self.new }
    {
        if let Some(places) = self.units.get_mut(usize::from(unit.number())) {
            places.forget(count);
        }
    }
}

/// The places of each unit of each tenant.
pub(crate) type Index = IndexMap<TenantName, Units>;

/// The places of a unit.
pub(crate) fn of<'a>(index: &'a Index, tenant: &TenantName, unit: Unit) -> &'a [u64]
    ensures { result.now ≡ listed index.now tenant.now unit }
{
    match index.get(tenant) {
        Some(units) => units.of(unit),
        None => &[],
    }
}

/// How many units of a tenant have lists: none of this number or a greater one has places.
pub(crate) fn unit_count(index: &Index, tenant: &TenantName) -> usize
    ensures most { result ≤ 256 }
    ensures rest { (unit : ℕ) → result ≤ unit → listed index.now tenant.now unit ≡ [] }
{
    match index.get(tenant) {
        Some(units) => units.count(),
        None => 0,
    }
}

/// The tenants that have lists, each once. All lists of one of them may be empty.
pub(crate) fn tenants(index: &Index) -> &[TenantName]
    ensures names { result.now ≡ keys index.now }
    ensures once { IsDistinct bytes_eq result.now }
{
    index.keys().as_slice()
}

/// Puts a tenant in that is not there, with these places.
fn enter(index: &mut Index, tenant: &TenantName, units: Units) -> Result<(), NoMemory>
    requires { get bytes_eq index.old tenant.now ≡ None }
    ensures own { OnOk result ((u : ℕ) → listed index.new tenant.now u ≡ of_unit units u) }
    ensures others { (t : List ℕ) (u : ℕ) → bytes_eq t tenant.now ≡ false
        → listed index.new t u ≡ listed index.old t u }
    ensures err { OnErr result (SameLists index.old index.new) }
{
    let name = tenant.copy();
    match index.insert(name, units) {
        Ok(_) => Ok(()),
        Err(_) => Err(NoMemory),
    }
}

/// Adds a place to the list of a unit.
pub(crate) fn add(
    alloc: Global,
    index: &mut Index,
    tenant: &TenantName,
    unit: Unit,
    place: u64,
) -> Result<(), NoMemory>
    ensures own { OnOk result (listed index.new tenant.now unit ≡ listed index.old tenant.now unit ++ place ∷ []) }
    ensures others { OtherLists tenant.now unit index.old index.new }
    ensures err { OnErr result (SameLists index.old index.new) }
{
    if let Some(units) = index.get_mut(tenant) {
        return units.add(alloc, unit, place);
    }
    let mut units = Units::new(alloc);
    units.add(alloc, unit, place)?;
    enter(index, tenant, units)
}

/// Leaves the first `keep` places of a unit.
pub(crate) fn cut(index: &mut Index, tenant: &TenantName, unit: Unit, keep: usize)
    ensures own { listed index.new tenant.now unit ≡ take keep (listed index.old tenant.now unit) }
    ensures others { OtherLists tenant.now unit index.old index.new }
{
    if let Some(units) = index.get_mut(tenant) {
        units.cut(unit, keep);
    }
}

/// Gives up the first `count` places of a unit.
pub(crate) fn forget(index: &mut Index, tenant: &TenantName, unit: Unit, count: usize)
    ensures own { listed index.new tenant.now unit ≡ drop count (listed index.old tenant.now unit) }
    ensures others { OtherLists tenant.now unit index.old index.new }
{
    if let Some(units) = index.get_mut(tenant) {
        units.forget(unit, count);
    }
}
