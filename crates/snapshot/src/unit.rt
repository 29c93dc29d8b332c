//! Units.

ghost use Rattle.std.specs.Prelude.{◌≡◌, ◌+◌, ◌∷◌, [], ◌++◌, IfErr, IfOk, drop, length};
ghost use Rattle.rollback.specs.Units.{places};
ghost use Rattle.codec.specs.Codes.{each_code, list_code, record_code, AllFit, Decodes, Encodes, FitEach};
ghost use Rattle.codec.specs.Codes.{FitsRecord};
ghost use Rattle.codec.specs.Codes.{Unless};
ghost use Rattle.codec.specs.Layers.{interval_code, FitsInterval};
ghost use Rattle.snapshot.specs.Parts.{unit_code, FitsUnit};
ghost use Rattle.codec.specs.declared.fault.DecodeFault.{DecodeFault as FaultOf};

use crate::progress::{decode_shelf, decode_some, encode_shelf, encode_some};
use codec::{Coded, DecodeFault, Input, Portable, decode_list};
use handler::Handler;
use model::{NoMemory, Record, Seat};
use rollback::{Interval, RecoveryUnit, UnitParts};
use std::alloc::Global;
use std::collections::VecDeque;
use volatile_log::VolatileLog;

/// Appends the bytes of each interval that is kept.
fn encode_each_interval<H: Handler>(
    unit: &RecoveryUnit<H>,
    count: usize,
    last: u32,
    out: &mut Vec<u8>,
) -> Result<(), NoMemory>
    requires count { count ≡ length unit.now.intervals }
    requires last { last + 1 ≡ places unit.now }
    ensures code { IfOk result (λ _.
        Encodes (each_code interval_code) unit.now.intervals out.old.items out.new.items) }
    ensures fits { IfOk result (λ _. AllFit FitsInterval unit.now.intervals) }
{
    let base = unit.base();
    for place in 0..count {
        unit.interval(base + place as u32).encode(out)?;
    }
    Ok(())
}

/// Appends the bytes of the intervals that are kept.
fn encode_intervals<H: Handler>(unit: &RecoveryUnit<H>, out: &mut Vec<u8>) -> Result<(), NoMemory>
    ensures code { IfOk result (λ _.
        Encodes (list_code interval_code) unit.now.intervals out.old.items out.new.items) }
    ensures fits { IfOk result (λ _. FitEach FitsInterval unit.now.intervals) }
{
    let last = unit.last_index();
    let count = (last - unit.base()) as usize + 1;
    count.encode(out)?;
    encode_each_interval(unit, count, last, out)
}

/// Appends the bytes of each record that is volatile.
fn encode_each_record<H: Handler>(
    unit: &RecoveryUnit<H>,
    count: usize,
    out: &mut Vec<u8>,
) -> Result<(), NoMemory>
    requires { count ≡ length unit.now.volatile }
    ensures code { IfOk result (λ _.
        Encodes (each_code record_code) unit.now.volatile out.old.items out.new.items) }
    ensures fits { IfOk result (λ _. AllFit FitsRecord unit.now.volatile) }
{
    for place in 0..count {
        unit.volatile_record(place).encode(out)?;
    }
    Ok(())
}

/// Appends the bytes of the records that are volatile.
fn encode_volatile<H: Handler>(unit: &RecoveryUnit<H>, out: &mut Vec<u8>) -> Result<(), NoMemory>
    ensures code { IfOk result (λ _.
        Encodes (list_code record_code) unit.now.volatile out.old.items out.new.items) }
    ensures fits { IfOk result (λ _. FitEach FitsRecord unit.now.volatile) }
{
    let count = unit.volatile_count();
    count.encode(out)?;
    encode_each_record(unit, count, out)
}

/// Adds an interval at the end.
fn put_last(queue: &mut VecDeque<Interval>, interval: Interval) -> Result<(), NoMemory>
    ensures { IfOk result (λ _. queue.new.items ≡ queue.old.items ++ interval ∷ []) }
{
    queue.push_back(interval)?;
    Ok(())
}

/// The intervals in a queue.
fn queued(alloc: Global, intervals: Vec<Interval>) -> Result<VecDeque<Interval>, NoMemory>
    ensures { IfOk result (λ q. q.items ≡ intervals.items) }
{
    let mut queue = VecDeque::new(alloc);
    for interval in intervals {
        put_last(&mut queue, interval)?;
    }
    Ok(queue)
}

/// Adds a record at the end.
fn log_last(log: &mut VolatileLog, logged: Record) -> Result<(), NoMemory>
    ensures { IfOk result (λ _. log.new.records ≡ log.old.records ++ logged ∷ []) }
{
    log.reserve(1)?;
    log.push(logged);
    Ok(())
}

/// The records in a log.
fn logged(alloc: Global, records: Vec<Record>) -> Result<VolatileLog, NoMemory>
    ensures { IfOk result (λ log. log.records ≡ records.items) }
{
    let mut log = VolatileLog::new(alloc);
    for record in records {
        log_last(&mut log, record)?;
    }
    Ok(log)
}

/// Appends the bytes of a unit.
pub(crate) fn encode_unit<H: Portable>(
    handler: &H,
    unit: &RecoveryUnit<H>,
    out: &mut Vec<u8>,
) -> Result<(), NoMemory>
    ensures code { IfOk result (λ _. Encodes (unit_code H.state_code) unit.now out.old.items out.new.items) }
    ensures fits { IfOk result (λ _. FitsUnit H.state_fits unit.now) }
{
    unit.seat().encode(out)?;
    encode_some(handler, unit.progress(), out)?;
    unit.base().encode(out)?;
    unit.outside().encode(out)?;
    encode_intervals(unit, out)?;
    encode_volatile(unit, out)?;
    encode_shelf(handler, unit.shelf(), out)
}

/// Takes the bytes of a unit's parts off the input.
fn decode_parts<H: Portable>(
    handler: &H,
    alloc: Global,
    input: &mut Input,
) -> Result<UnitParts<H::State>, DecodeFault>
    ensures ok { IfOk result (λ u. Decodes (unit_code H.state_code) (FitsUnit H.state_fits) input.old u input.new) }
    ensures err { IfErr result (λ e.
        Unless (unit_code H.state_code) (FitsUnit H.state_fits) input.old (e ≡ FaultOf.NoMemory)) }
{
    let seat = Seat::decode(alloc, input)?;
    let progress = decode_some(handler, alloc, input)?;
    let base = u32::decode(alloc, input)?;
    let outside = u64::decode(alloc, input)?;
    let intervals = decode_list::<Interval>(alloc, input)?;
    let volatile = decode_list::<Record>(alloc, input)?;
    let shelf = decode_shelf(handler, alloc, input)?;
    let intervals = queued(alloc, intervals)?;
    let volatile = logged(alloc, volatile)?;
    Ok(UnitParts {
        seat,
        progress,
        base,
        outside,
        intervals,
        volatile,
        shelf,
    })
}

/// Takes the bytes of a unit off the input.
pub(crate) fn decode_unit<H: Portable>(
    handler: &H,
    alloc: Global,
    input: &mut Input,
) -> Result<RecoveryUnit<H>, DecodeFault>
    ensures ok { IfOk result (λ u. Decodes (unit_code H.state_code) (FitsUnit H.state_fits) input.old u input.new) }
    ensures err { IfErr result (λ e.
        Unless (unit_code H.state_code) (FitsUnit H.state_fits) input.old (e ≡ FaultOf.NoMemory)) }
{
    let parts = decode_parts(handler, alloc, input)?;
    match RecoveryUnit::of(parts) {
        Some(unit) => Ok(unit),
        None => Err(DecodeFault::Damaged),
    }
}
