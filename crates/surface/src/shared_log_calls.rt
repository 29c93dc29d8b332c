use crate::receipts::receipt;
use model::{Letter, Mark, NoMemory, Record, Source, TenantName, Unit};
use shared_log::{MemoryStore, SharedLog, StoreFault};
use std::alloc::Global;
use std::test::Fail;

fn name(alloc: Global, text: &str) -> Result<TenantName, NoMemory> {
    TenantName::new(text).ok_or(NoMemory)
}

/// The n-th record of a tenant's unit.
fn record_of(alloc: Global, tenant: &str, unit: u8, number: u32) -> Result<Record, NoMemory> {
    let mark = Mark {
        incarnation: 0,
        index: number,
    };
    let source = Source::Unit(Unit::new(0));
    let letter = Some(Letter::new(number));
    receipt(
        alloc,
        tenant,
        unit,
        source,
        letter,
        u64::from(number),
        &[mark],
    )
}

/// Appends a record.
fn put(
    alloc: Global,
    log: &mut SharedLog<MemoryStore>,
    tenant: &str,
    unit: u8,
    number: u32,
) -> Result<(), StoreFault> {
    let logged = record_of(alloc, tenant, unit, number)?;
    log.append(&logged)
}

/// A log of two tenants: a's unit 1 has the places 0, 3 and 4, its unit 2 has 1, and b's unit 1
/// has 2 and 5. The numbers are 7 to 12.
fn two_tenants(alloc: Global) -> Result<SharedLog<MemoryStore>, StoreFault> {
    let mut log = SharedLog::new(alloc, MemoryStore::new(alloc));
    let owners = [
        ("a", 1, 7),
        ("a", 2, 8),
        ("b", 1, 9),
        ("a", 1, 10),
        ("a", 1, 11),
        ("b", 1, 12),
    ];
    for (tenant, unit, number) in owners {
        put(alloc, &mut log, tenant, unit, number)?;
    }
    Ok(log)
}

/// The number of the record at this position of a unit's list, fetched from the store.
fn number_at(
    log: &mut SharedLog<MemoryStore>,
    tenant: &TenantName,
    unit: u8,
    position: usize,
) -> Result<u64, StoreFault> {
    let places = log.of(tenant, Unit::new(unit));
    if position >= places.len() {
        return Err(StoreFault::NoMemory);
    }
    let place = places[position];
    let logged = log.fetch(place)?;
    Ok(logged.number)
}

/// Whether the live records of the unit have these places.
fn has(log: &SharedLog<MemoryStore>, tenant: &TenantName, unit: u8, places: &[u64]) -> bool {
    log.of(tenant, Unit::new(unit)) == places
}

fn cut(log: &mut SharedLog<MemoryStore>, tenant: &TenantName, unit: u8, keep: usize) {
    log.cut(tenant, Unit::new(unit), keep);
}

fn forget(log: &mut SharedLog<MemoryStore>, tenant: &TenantName, unit: u8, count: usize) {
    log.forget(tenant, Unit::new(unit), count);
}

/// Whether a list is there, and another is empty.
fn are_listed(log: &SharedLog<MemoryStore>, a: &TenantName, b: &TenantName) -> bool {
    has(log, a, 1, &[0, 3, 4]) && has(log, b, 2, &[])
}

/// Whether a cut takes the records behind the first of its own unit alone.
fn is_cut(log: &mut SharedLog<MemoryStore>, a: &TenantName) -> bool {
    cut(log, a, 1, 1);
    has(log, a, 1, &[0]) && has(log, a, 2, &[1])
}

/// Whether the first record of the unit is forgotten.
fn is_forgotten(log: &mut SharedLog<MemoryStore>, b: &TenantName) -> bool {
    forget(log, b, 1, 1);
    has(log, b, 1, &[5])
}

/// Whether the log goes on behind what was cut, and gives what was not forgotten.
fn goes_on(
    alloc: Global,
    log: &mut SharedLog<MemoryStore>,
    a: &TenantName,
    b: &TenantName,
) -> Result<bool, StoreFault> {
    put(alloc, log, "a", 1, 13)?;
    Ok(has(log, a, 1, &[0, 6]) && number_at(log, b, 1, 0)? == 12)
}

fn serves_two(alloc: Global, log: &mut SharedLog<MemoryStore>) -> Result<bool, StoreFault> {
    let (a, b) = (name(alloc, "a")?, name(alloc, "b")?);
    let is_changed = are_listed(log, &a, &b) && is_cut(log, &a) && is_forgotten(log, &b);
    Ok(is_changed && goes_on(alloc, log, &a, &b)?)
}

#[test]
fn a_log_lists_cuts_forgets_and_fetches(rt: HostRuntime) -> Result<(), Fail> {
    let alloc = rt.alloc();
    let mut log = two_tenants(alloc)?;
    assert!(rt; serves_two(alloc, &mut log)?);
    Ok(())
}
