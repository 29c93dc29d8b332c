//! How a progress is rebuilt by replay of records.

ghost use Rattle.std.specs.Prelude.{◌≡◌, ◌≤◌, ◌++◌, IfOk, length, option_map, take};
ghost use Rattle.std.specs.Option.{option_copied};
ghost use Rattle.compact.specs.Compact.{fitted};
ghost use Rattle.compact.specs.Laws.{replayed, replayed_one};

use crate::progress::{self, Progress};
use checkpoint::Snapshot;
use handler::Handler;
use model::{NoMemory, Record, Seat};
use std::alloc::Global;
use volatile_log::VolatileLog;

/// Goes on by the receipt of a record.
///
/// # Errors
///
/// `NoMemory` where the handler finds no memory, or where the receipt or its sends can't be counted.
fn replay_one<H: Handler>(
    alloc: Global,
    handler: &H,
    seat: &Seat,
    progress: &mut Progress<H::State>,
    logged: &Record,
) -> Result<(), NoMemory>
    ensures { IfOk result (λ _. progress.new ≡ replayed_one H.meaning seat.now progress.old logged.now) }
{
    let turn = handler.handle(
        alloc,
        *seat,
        &progress.state,
        logged.source,
        logged.text.as_str(),
    )?;
    let width = logged.vector.as_slice().len();
    progress::count_receipt(&mut progress.sessions, &logged.source, turn.sends(), width)?;
    progress.state = turn.state;
    Ok(())
}

/// Goes on by these records, one after another.
fn replay_all<H: Handler>(
    alloc: Global,
    handler: &H,
    seat: &Seat,
    progress: &mut Progress<H::State>,
    records: &[Record],
) -> Result<(), NoMemory>
    ensures { IfOk result (λ _. progress.new ≡ replayed H.meaning seat.now progress.old records.now) }
{
    for logged in records {
        replay_one(alloc, handler, seat, progress, logged)?;
    }
    Ok(())
}

/// Goes on by the first `count` volatile records.
fn replay_volatile<H: Handler>(
    alloc: Global,
    handler: &H,
    seat: &Seat,
    progress: &mut Progress<H::State>,
    volatile: &VolatileLog,
    count: usize,
) -> Result<(), NoMemory>
    requires { count ≤ length volatile.now.records }
    ensures { IfOk result (λ _.
        progress.new ≡ replayed H.meaning seat.now progress.old (take count volatile.now.records)) }
{
    for place in 0..count {
        replay_one(alloc, handler, seat, progress, volatile.at(place))?;
    }
    Ok(())
}

/// The progress after these records and then the first `count` volatile ones, from an earlier one, in a
/// tenant that has `width` units now.
fn replay<H: Handler>(
    alloc: Global,
    handler: &H,
    seat: &Seat,
    from: &Progress<H::State>,
    width: usize,
    records: &[Record],
    volatile: &VolatileLog,
    count: usize,
) -> Result<Progress<H::State>, NoMemory>
    requires { count ≤ length volatile.now.records }
    ensures { IfOk result (λ p.
        p ≡ replayed H.meaning seat.now (fitted width from.now) (records.now ++ take count volatile.now.records)) }
{
    let mut progress = progress::copy(alloc, handler, from)?;
    progress.sessions.widen(width)?;
    replay_all(alloc, handler, seat, &mut progress, records)?;
    replay_volatile(alloc, handler, seat, &mut progress, volatile, count)?;
    Ok(progress)
}

/// The same from the nearest snapshot, where there is one.
pub(crate) fn rebuild<H: Handler>(
    alloc: Global,
    handler: &H,
    seat: &Seat,
    nearest: Option<&Snapshot<Progress<H::State>>>,
    width: usize,
    records: &[Record],
    volatile: &VolatileLog,
    count: usize,
) -> Result<Option<Progress<H::State>>, NoMemory>
    requires { count ≤ length volatile.now.records }
    ensures { IfOk result (λ p.
        p ≡ option_map (λ s.
        replayed H.meaning seat.now (fitted width s.state) (records.now ++ take count volatile.now.records))
        (option_copied nearest.entry)) }
{
    match nearest {
        Some(nearest) => {
            let from = &nearest.state;
            let progress = replay(alloc, handler, seat, from, width, records, volatile, count)?;
            Ok(Some(progress))
        }
        None => Ok(None),
    }
}
