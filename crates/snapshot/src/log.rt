//! The log of a host that keeps its records in memory.

ghost use Rattle.std.specs.Prelude.{◌≡◌, ℕ, ◌++◌, All, Contains, IfErr, IfOk, OnOk};
ghost use Rattle.shared_log.specs.Filled.{filled, pairs_at, AreLiveIn, HaveAllLive, HaveAllLivePlaces};
ghost use Rattle.shared_log.specs.Logged.{places_of, IsHeld};
ghost use Rattle.codec.specs.Codes.{Decodes, Encodes, Unless};
ghost use Rattle.snapshot.specs.Logs.{log_code, unit_places, AreWithin, FitsLog, LeaveRoom, ReadsLog, UnlessLog};
ghost use Rattle.snapshot.specs.Logs.{WritesLog};
ghost use Rattle.codec.specs.declared.fault.DecodeFault.{DecodeFault as FaultOf};

use codec::{Coded, DecodeFault, Input, decode_list, encode_list};
use model::{NoMemory, Record, TenantName, Unit};
use shared_log::{FillFault, MemoryStore, SharedLog};
use std::alloc::Global;

/// Adds the places of a unit's live records.
fn add_unit(
    log: &SharedLog<MemoryStore>,
    tenant: &TenantName,
    unit: Unit,
    places: &mut Vec<u64>,
) -> Result<(), NoMemory>
    ensures more { OnOk result (places.new.items ≡ places.old.items ++ places_of tenant.now unit log.now) }
    ensures held { All (IsHeld log.now.records) (places_of tenant.now unit log.now) }
{
    places.extend_from_slice(log.of(tenant, unit))?;
    Ok(())
}

/// Adds the places of a tenant's live records, unit by unit. A tenant has 256 units at most.
fn add_tenant(
    log: &SharedLog<MemoryStore>,
    tenant: &TenantName,
    places: &mut Vec<u64>,
) -> Result<(), NoMemory>
    ensures grown { OnOk result ((place : ℕ) → Contains places.old.items place → Contains places.new.items place) }
    ensures met { OnOk result ((unit place : ℕ) → Contains (places_of tenant.now unit log.now) place
        → Contains places.new.items place) }
    ensures held { OnOk result (All (IsHeld log.now.records) places.old.items
        → All (IsHeld log.now.records) places.new.items) }
    ensures walk { OnOk result (places.new.items ≡ places.old.items ++ unit_places tenant.now 256 log.now) }
{
    let count = log.unit_count(tenant);
    for number in 0..count {
        add_unit(log, tenant, Unit::new(number as u8), places)?;
    }
    Ok(())
}

/// The places of all live records of a log, so that each record leaves room for those behind it.
fn live_places(alloc: Global, log: &SharedLog<MemoryStore>) -> Result<Vec<u64>, NoMemory>
    ensures all { IfOk result (λ places. HaveAllLivePlaces log.now.records places.items) }
    ensures held { IfOk result (λ places. All (IsHeld log.now.records) places.items) }
    ensures room { IfOk result (λ places. LeaveRoom (pairs_at log.now.records places.items)) }
{
    let mut places = Vec::new(alloc);
    let names = log.tenants();
    for tenant in names {
        add_tenant(log, tenant, &mut places)?;
    }
    Ok(places)
}

/// The records of these places, each with its place. A store in memory counts no failures.
fn pairs_of(
    alloc: Global,
    log: &SharedLog<MemoryStore>,
    places: &[u64],
) -> Result<Vec<(u64, Record)>, NoMemory>
    requires { All (IsHeld log.now.records) places.now }
    ensures pairs { IfOk result (λ pairs. pairs.items ≡ pairs_at log.now.records places.now) }
    ensures failures { log.now.failures ≡ 0 }
{
    let store = log.store();
    let mut pairs = Vec::new(alloc);
    for place in places {
        let logged = store.copy_of(*place)?;
        pairs.push((*place, logged))?;
    }
    Ok(pairs)
}

/// A log of these records at their places.
fn refilled(
    alloc: Global,
    count: u64,
    pairs: Vec<(u64, Record)>,
) -> Result<SharedLog<MemoryStore>, FillFault>
    ensures records { IfOk result (λ made. made.records ≡ filled count pairs.items) }
    ensures failures { IfOk result (λ made. made.failures ≡ 0) }
    ensures err { IfErr result (λ e. LeaveRoom pairs.items → AreWithin count pairs.items
        → e ≡ FillFault.NoMemory) }
{
    let mut made = SharedLog::vacant(alloc, count);
    for (place, logged) in pairs {
        made.fill(place, logged)?;
    }
    Ok(made)
}

/// The live records of a log, each with its place, so that each leaves room for those behind it.
fn live_pairs(alloc: Global, log: &SharedLog<MemoryStore>) -> Result<Vec<(u64, Record)>, NoMemory>
    ensures live { IfOk result (λ pairs. AreLiveIn log.now.records pairs.items) }
    ensures all { IfOk result (λ pairs. HaveAllLive log.now.records pairs.items) }
    ensures room { IfOk result (λ pairs. LeaveRoom pairs.items) }
    ensures failures { IfOk result (λ _. log.now.failures ≡ 0) }
{
    let places = live_places(alloc, log)?;
    let pairs = pairs_of(alloc, log, &places)?;
    Ok(pairs)
}

/// Appends the bytes of a log of so many places with these live records.
fn encode_pairs(count: u64, pairs: &[(u64, Record)], out: &mut Vec<u8>) -> Result<(), NoMemory>
    ensures code { IfOk result (λ _. Encodes log_code (count, pairs.now) out.old.items out.new.items) }
    ensures fits { IfOk result (λ _. FitsLog (count, pairs.now)) }
{
    count.encode(out)?;
    encode_list(pairs, out)
}

/// Appends the bytes of a log: how many places it has, and its live records, each with its place, unit by unit.
pub(crate) fn encode_log(
    alloc: Global,
    log: &SharedLog<MemoryStore>,
    out: &mut Vec<u8>,
) -> Result<(), NoMemory>
    ensures written { IfOk result (λ _. WritesLog log.now.records out.old.items out.new.items) }
    ensures failures { IfOk result (λ _. log.now.failures ≡ 0) }
{
    let pairs = live_pairs(alloc, log)?;
    encode_pairs(log.len(), pairs.as_slice(), out)?;
    Ok(())
}

/// Takes how many places a log has, and its live records, off the input.
fn decode_pairs(alloc: Global, input: &mut Input) -> Result<(u64, Vec<(u64, Record)>), DecodeFault>
    ensures ok { IfOk result (λ p. Decodes log_code FitsLog input.old (p.0, p.1.items) input.new) }
    ensures err { IfErr result (λ e. Unless log_code FitsLog input.old (e ≡ FaultOf.NoMemory)) }
{
    let count = u64::decode(alloc, input)?;
    let pairs = decode_list::<(u64, Record)>(alloc, input)?;
    Ok((count, pairs))
}

/// A log of these records at their places.
fn made(
    alloc: Global,
    count: u64,
    pairs: Vec<(u64, Record)>,
) -> Result<SharedLog<MemoryStore>, DecodeFault>
    ensures records { IfOk result (λ log. log.records ≡ filled count pairs.items) }
    ensures failures { IfOk result (λ log. log.failures ≡ 0) }
    ensures err { IfErr result (λ e. LeaveRoom pairs.items → AreWithin count pairs.items → e ≡ FaultOf.NoMemory) }
{
    match refilled(alloc, count, pairs) {
        Ok(log) => Ok(log),
        Err(FillFault::Misplaced) => Err(DecodeFault::Damaged),
        Err(FillFault::NoMemory) => Err(DecodeFault::NoMemory),
    }
}

/// Takes the bytes of a log off the input. Where the bytes are those of a log its records are read back equal.
///
/// # Errors
///
/// `Cut` and `Damaged` where the bytes are those of no log, `NoMemory` where the log finds no memory: of bytes that
/// were encoded there is no other.
pub(crate) fn decode_log(
    alloc: Global,
    input: &mut Input,
) -> Result<SharedLog<MemoryStore>, DecodeFault>
    ensures records { IfOk result (λ log. ReadsLog input.old log.records input.new) }
    ensures failures { IfOk result (λ log. log.failures ≡ 0) }
    ensures err { IfErr result (λ e. UnlessLog input.old (e ≡ FaultOf.NoMemory)) }
{
    let (count, pairs) = decode_pairs(alloc, input)?;
    let log = made(alloc, count, pairs)?;
    Ok(log)
}
