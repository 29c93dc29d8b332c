//! Calls of one unit, a line each.
//!
//! | line | call |
//! |---|---|
//! | `begin` | a new unit in a tenant of one, and an empty table |
//! | `take COUNT` | so many receipts from outside |
//! | `stable COUNT` | so many volatile records are on stable storage |
//! | `checkpoint` | a snapshot of the last interval, where nothing is volatile |
//! | `forget INDEX` | the snapshot there becomes the base |
//! | `kill` | the unit fails |
//! | `restore INDEX COUNT` | back to the interval there, with so many records behind the nearest snapshot |
//! | `row START` | one more row of the unit in the table |
//! | `widen COUNT`, `fit COUNT` | a tenant of so many units now, in one call or in two |

use crate::receipts::{counted, records_behind, seat, take};
use anyhow::{Context, bail};
use handler::Sample;
use incarnation::StartTable;
use model::{MAX_INCARNATION, NoMemory, Row, Unit};
use rollback::RecoveryUnit;
use std::alloc::Global;
use std::mem;

/// A unit, and the table of its tenant.
#[derive(Drop)]
pub(crate) struct Bench {
    unit: RecoveryUnit<Sample>,
    table: StartTable,
}

impl Bench {
    /// A new unit and an empty table.
    pub(crate) fn begin(alloc: Global) -> Result<Bench, NoMemory> {
        let unit = RecoveryUnit::begin(alloc, &Sample, seat(), 1)?;
        Ok(Bench {
            unit,
            table: StartTable::new(alloc),
        })
    }
}

/// Makes the call of a line, and tells what it gave.
pub(crate) fn obey(alloc: Global, bench: &mut Bench, line: &str) -> anyhow::Result<String> {
    let words: Vec<&str> = line.split_whitespace().collect(alloc)?;
    match words.as_slice() {
        [call] => obey_word(alloc, bench, call),
        [call, count] => obey_number(alloc, bench, call, number(count)?),
        ["restore", index, count] => {
            restore(alloc, &mut bench.unit, number(index)?, number(count)?)
        }
        _ => bail!("no such call"),
    }
}

/// Makes a call without numbers.
fn obey_word(alloc: Global, bench: &mut Bench, call: &str) -> anyhow::Result<String> {
    match call {
        "begin" => mem::forget(mem::replace(bench, Bench::begin(alloc)?)),
        "checkpoint" => checkpoint(alloc, &mut bench.unit)?,
        "kill" => return kill(alloc, &mut bench.unit),
        _ => bail!("no such call"),
    }
    done(alloc)
}

/// Makes a call with one number.
fn obey_number(alloc: Global, bench: &mut Bench, call: &str, count: u32) -> anyhow::Result<String> {
    match call {
        "take" => take_all(alloc, &mut bench.unit, count),
        "row" => append(alloc, bench, count),
        _ => {
            change(&mut bench.unit, call, count)?;
            done(alloc)
        }
    }
}

/// Makes a call with one number that tells nothing.
fn change(unit: &mut RecoveryUnit<Sample>, call: &str, count: u32) -> anyhow::Result<()> {
    match call {
        "stable" => mark_stable(unit, count as usize),
        "forget" => forget(unit, count),
        "widen" => unit.widen(count as usize)?,
        "fit" => fit(unit, count as usize)?,
        _ => bail!("no such call"),
    }
    Ok(())
}

fn done(alloc: Global) -> anyhow::Result<String> {
    Ok("done".to_string(alloc)?)
}

fn kill(alloc: Global, unit: &mut RecoveryUnit<Sample>) -> anyhow::Result<String> {
    Ok(format!(in alloc; "lost {}", unit.kill())?)
}

/// What the unit is now.
pub(crate) fn state(alloc: Global, bench: &Bench) -> anyhow::Result<String> {
    let unit = &bench.unit;
    let up = if unit.is_up() { "up" } else { "down" };
    Ok(format!(in alloc;
        "{up}, counted {:?}, intervals {} to {}, {} volatile from {:?}, {} from outside, {} sessions, snapshot at the last {}",
        counted(unit),
        unit.base(),
        unit.last_index(),
        unit.volatile_count(),
        first_volatile(unit),
        unit.outside(),
        sessions(unit),
        unit.has_snapshot(unit.last_index())
    )?)
}

/// The index of the first volatile record.
fn first_volatile(unit: &RecoveryUnit<Sample>) -> Option<u32> {
    if unit.volatile_count() == 0 {
        None
    } else {
        Some(unit.volatile_record(0).mark.index)
    }
}

/// For how many units there are sessions, none where the unit is down.
fn sessions(unit: &RecoveryUnit<Sample>) -> usize {
    match unit.progress() {
        Some(progress) => progress.sessions.len(),
        None => 0,
    }
}

/// The number that a word is.
pub(crate) fn number(word: &str) -> anyhow::Result<u32> {
    word.parse::<u32>().context("a number is wanted")
}

fn take_all(alloc: Global, unit: &mut RecoveryUnit<Sample>, count: u32) -> anyhow::Result<String> {
    let mut outputs = 0u64;
    for _ in 0..count {
        outputs = outputs.saturating_add(take(alloc, unit)? as u64);
    }
    Ok(format!(in alloc; "{outputs} outputs")?)
}

fn mark_stable(unit: &mut RecoveryUnit<Sample>, count: usize) {
    let count = count.min(unit.volatile_count());
    unit.mark_stable(count);
}

fn checkpoint(alloc: Global, unit: &mut RecoveryUnit<Sample>) -> Result<(), NoMemory> {
    if unit.volatile_count() == 0 {
        unit.checkpoint(alloc, &Sample)?;
    }
    Ok(())
}

fn forget(unit: &mut RecoveryUnit<Sample>, index: u32) {
    if unit.has_snapshot(index) {
        unit.forget(index);
    }
}

/// Goes back to this interval, and tells from which snapshot, and which letter it received.
fn restore(
    alloc: Global,
    unit: &mut RecoveryUnit<Sample>,
    index: u32,
    count: u32,
) -> anyhow::Result<String> {
    if index < unit.base() || unit.last_index() < index {
        bail!("no such interval");
    }
    let from = unit.restart_index(index);
    let records = records_behind(alloc, from.unwrap_or(0), count)?;
    unit.restore(alloc, &Sample, index, 1, records.as_slice())?;
    Ok(format!(in alloc; "from the snapshot at {from:?}")?)
}

/// Appends a row of the unit's next incarnation, and tells the first orphan.
fn append(alloc: Global, bench: &mut Bench, start: u32) -> anyhow::Result<String> {
    let unit = Unit::new(0);
    let latest = bench.table.latest(unit);
    if latest >= MAX_INCARNATION {
        bail!("no incarnation is left");
    }
    bench.table.append(Row {
        unit,
        incarnation: latest + 1,
        start: u64::from(start),
    })?;
    let first = bench.unit.first_orphan(&bench.table);
    Ok(format!(in alloc; "first orphan {first:?}")?)
}

fn fit(unit: &mut RecoveryUnit<Sample>, count: usize) -> Result<(), NoMemory> {
    let sessions = unit.widened_sessions(count)?;
    unit.fit(sessions);
    Ok(())
}
