//! What is timed.

use crate::receipts::{counted, records_behind, seat, take};
use handler::Sample;
use model::NoMemory;
use rollback::RecoveryUnit;
use std::alloc::Global;
use std::mem;

const FLUSH_EACH: u32 = 100;

const CHECKPOINT_EACH: u32 = 1000;

/// How far the unit has counted after so many receipts and restarts.
pub(crate) fn run(alloc: Global, receipts: u32, restarts: u32) -> Result<Option<u64>, NoMemory> {
    let mut unit = RecoveryUnit::begin(alloc, &Sample, seat(), 1)?;
    let done = take_all(alloc, &mut unit, receipts, restarts);
    let found = counted(&unit);
    // The program ends soon, and the proof of what a unit lets go of is long.
    mem::forget(unit);
    done?;
    Ok(found)
}

/// Takes so many receipts, and then restarts so many times.
fn take_all(
    alloc: Global,
    unit: &mut RecoveryUnit<Sample>,
    receipts: u32,
    restarts: u32,
) -> Result<(), NoMemory> {
    for taken in 0..receipts {
        let _ = take(alloc, unit)?;
        if taken % FLUSH_EACH == FLUSH_EACH - 1 {
            flush(unit);
        }
        if taken % CHECKPOINT_EACH == CHECKPOINT_EACH - 1 {
            shelve(alloc, unit)?;
        }
    }
    flush(unit);
    restart(alloc, unit, restarts)
}

/// Fails and is restored so many times.
fn restart(alloc: Global, unit: &mut RecoveryUnit<Sample>, times: u32) -> Result<(), NoMemory> {
    let behind = unit.last_index().saturating_sub(unit.base());
    let records = records_behind(alloc, unit.base(), behind)?;
    for _ in 0..times {
        let _ = unit.kill();
        let target = unit.last_index();
        unit.restore(alloc, &Sample, target, 1, records.as_slice())?;
    }
    Ok(())
}

/// Marks all intervals stable.
fn flush(unit: &mut RecoveryUnit<Sample>) {
    let count = unit.volatile_count();
    unit.mark_stable(count);
}

/// Shelves a snapshot of the last interval and forgets what is before it.
fn shelve(alloc: Global, unit: &mut RecoveryUnit<Sample>) -> Result<(), NoMemory> {
    if unit.volatile_count() == 0 {
        unit.checkpoint(alloc, &Sample)?;
    }
    let last = unit.last_index();
    if unit.has_snapshot(last) {
        unit.forget(last);
    }
    Ok(())
}
