ghost use Rattle.std.specs.Prelude.{◌<◌};

use crate::receipts::receipt;
use model::{Mark, NoMemory, Source};
use std::alloc::Global;
use std::test::Fail;
use volatile_log::{Record, VolatileLog};

fn logged(alloc: Global, index: u32) -> Result<Record, NoMemory> {
    let mark = Mark {
        incarnation: 0,
        index,
    };
    receipt(alloc, "a", 0, Source::Outside, None, 0, &[mark])
}

/// Puts a record behind the others, once there is room for so many.
fn put(alloc: Global, log: &mut VolatileLog, index: u32, room: usize) -> Result<(), NoMemory>
    requires { 0 < room }
{
    let record = logged(alloc, index)?;
    log.reserve(room)?;
    log.push(record);
    Ok(())
}

fn front(log: &VolatileLog) -> Option<u32> {
    match log.front() {
        Some(record) => Some(record.mark.index),
        None => None,
    }
}

/// The index of the record at this place, if there is one.
fn index_at(log: &VolatileLog, place: usize) -> Option<u32> {
    if place < log.len() {
        Some(log.at(place).mark.index)
    } else {
        None
    }
}

/// So many of the first are stable, if there are so many.
fn mark_stable(log: &mut VolatileLog, count: usize) {
    if count <= log.len() {
        log.mark_stable(count);
    }
}

fn cut(log: &mut VolatileLog, index: u32) {
    log.cut(index);
}

fn clear(log: &mut VolatileLog) -> usize {
    log.clear()
}

fn put_three(alloc: Global, log: &mut VolatileLog) -> Result<(), NoMemory> {
    put(alloc, log, 1, 3)?;
    put(alloc, log, 2, 2)?;
    put(alloc, log, 3, 1)
}

/// Whether a cut takes the last of three.
fn is_cut(log: &mut VolatileLog) -> bool {
    let was = front(log);
    cut(log, 3);
    was == Some(1) && log.len() == 2 && index_at(log, 1) == Some(2)
}

/// Whether the first of two goes once it is stable, and then the other.
fn goes_in_order(log: &mut VolatileLog) -> bool {
    mark_stable(log, 1);
    let is_second = front(log) == Some(2);
    let count = clear(log);
    is_second && count == 1 && log.len() == 0
}

#[test]
fn keeps_records_in_order(rt: HostRuntime) -> Result<(), Fail> {
    let alloc = rt.alloc();
    let mut log = VolatileLog::new(alloc);
    put_three(alloc, &mut log)?;
    assert!(rt; is_cut(&mut log));
    assert!(rt; goes_in_order(&mut log));
    Ok(())
}
