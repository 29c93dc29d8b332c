//! Receipts from outside of one unit that counts.

ghost use Rattle.std.specs.Prelude.{◌≡◌, IfOk, length};

use handler::{Ask, Sample};
use model::{Kind, Mark, Marks, NoMemory, Record, Seat, Source, TenantName, Text, Unit};
use rollback::RecoveryUnit;
use std::alloc::Global;

/// A unit that counts.
pub(crate) fn seat() -> Seat {
    Seat {
        unit: Unit::new(0),
        kind: Kind::new(2),
        home: 1,
    }
}

/// The record of a receipt from outside, at this index.
pub(crate) fn logged(alloc: Global, index: u32) -> Result<Record, NoMemory>
    ensures mark { IfOk result (λ r. r.mark.index ≡ index) }
    ensures vector { IfOk result (λ r. length r.vector ≡ 1) }
{
    let Some(tenant) = TenantName::new("a") else {
        return Err(NoMemory);
    };
    let mark = Mark {
        incarnation: 0,
        index,
    };
    Ok(Record {
        tenant,
        unit: Unit::new(0),
        mark,
        source: Source::Outside,
        letter: None,
        number: u64::from(index).saturating_sub(1),
        text: Text::of(alloc, "a text of sixteen")?,
        vector: Marks::of(alloc, &[mark])?,
    })
}

/// The records of so many intervals behind this one.
pub(crate) fn records_behind(
    alloc: Global,
    index: u32,
    count: u32,
) -> Result<Vec<Record>, NoMemory> {
    let mut records = Vec::new(alloc);
    for more in 0..count {
        records.push(logged(alloc, index.saturating_add(more).saturating_add(1))?)?;
    }
    Ok(records)
}

/// Takes a receipt from outside, where the unit is up and the path has room for it. Tells how many texts its turn
/// puts out.
pub(crate) fn take(alloc: Global, unit: &mut RecoveryUnit<Sample>) -> Result<usize, NoMemory> {
    let last = unit.last_index();
    if last == u32::MAX {
        return Ok(0);
    }
    let record = logged(alloc, last + 1)?;
    let ask = match unit.progress() {
        Some(progress) => Ask::new(
            unit.seat(),
            progress.state,
            record.source,
            record.text.copy()?,
        ),
        None => return Ok(0),
    };
    let done = ask.work(alloc, &Sample)?;
    Ok(unit.take(record, done)?.outputs.len())
}

/// How far the unit has counted, where it is up.
pub(crate) fn counted(unit: &RecoveryUnit<Sample>) -> Option<u64> {
    match unit.progress() {
        Some(progress) => progress.state,
        None => None,
    }
}
