//! The lines of a block are read, dealt to the shards, and answered.

ghost use Rattle.std.specs.Prelude.{◌≡◌, ◌≢◌, ◌<◌, ◌≤◌, ◌*◌, ◌⊎◌, ℕ, List, [], All, Option, Bool, OnOk, OnErr};
ghost use Rattle.std.specs.Prelude.{Ok, Err, Result, length, map, min, slice_index_or, vec_capacity};
ghost use Rattle.std.specs.Io.KnownBytes.{Appends};
ghost use Rattle.model.specs.Failures.{HasRisen};
ghost use Rattle.model.specs.declared.steps.Step.{Step as StepOf};
ghost use Rattle.forms.specs.declared.fault.LineFault.{LineFault as FaultOf};
ghost use Rattle.dealing.specs.Dealing.{OneDoes, dealt};
ghost use Rattle.written.specs.Beginnings.{AppendsBeginning};
ghost use Rattle.shards.specs.Blocks.{AnswersEachBy, AnswersLines, AreDealtTo, AreIdle, DealsMore, IsBelow, IsReadOr};
ghost use Rattle.shards.specs.Blocks.{RanShard, Tells, Told, merged};
ghost use Rattle.shards.specs.Kept.{AreReadFrom};

use crate::deal::shard_of;
use crate::desk::Desk;
use crate::kept::{Lines, MOST_LINES};
use crate::place::Place;
use crate::reading::{Reader, read_shares, share_start};
use crate::shard::Shard;
use crate::writing::write_all;
use handler::Handler;
use lines::{Counted, LineFault, ServeFault};
use model::AddressedStep;
use shared_log::Store;
use std::alloc::Global;
use std::io::Write;
use std::thread;
use std::thread::Threads;

/// From how many lines on a block is read and stepped in threads: starting them takes as long as some tens of lines.
const THREADED: usize = 64;

/// Answers these lines, and carries on behind each where the hosts are driven.
///
/// `Write` comes only where the writer failed, and `NoMemory` where there was none for an answer. All steps are done
/// then too, and a beginning of the answers may be written.
pub(crate) fn answer<T: Threads + Sync, W: Write, H: Handler + Send, S: Store + Send>(
    rt: &T,
    alloc: Global,
    writer: &mut Counted<W>,
    shards: &mut [Shard<H, S>],
    lines: &Lines,
    desk: &mut Desk,
    drives: bool,
) -> Result<(), ServeFault>
    requires some { 0 < length shards.old }
    requires idle { AreIdle (map (λ s. s.steps.items) shards.old) }
    ensures ok { OnOk result (AnswersLines (OneDoes (Tells H.meaning drives) (dealt (length shards.old))) lines.now
        (map (λ s. s.host) shards.old) (map (λ s. s.host) shards.new)
        (Appends (W.contents writer.old.inner) (W.contents writer.new.inner))) }
    ensures err { OnErr result (AnswersLines (OneDoes (Tells H.meaning drives) (dealt (length shards.old))) lines.now
        (map (λ s. s.host) shards.old) (map (λ s. s.host) shards.new)
        (AppendsBeginning (W.contents writer.old.inner) (W.contents writer.new.inner))) }
    ensures idle { AreIdle (map (λ s. s.steps.items) shards.new) }
    ensures write { result ≡ Err ServeFault.Write → HasRisen writer.old.failed writer.new.failed }
    ensures read { result ≢ Err ServeFault.Read }
    ensures same { result ≢ Err ServeFault.Write → writer.new.failed ≡ writer.old.failed }
{
    step_lines(rt, shards, lines, desk, drives);
    write_all(alloc, writer, shards, desk.places.as_slice(), &desk.faults)
}

/// Reads these lines and does their steps, and writes no answer. Where there are enough of them, they are read in
/// threads, and each shard does its steps in a thread of its own.
pub(crate) fn step_lines<T: Threads + Sync, H: Handler + Send, S: Store + Send>(
    rt: &T,
    shards: &mut [Shard<H, S>],
    lines: &Lines,
    desk: &mut Desk,
    drives: bool,
)
    requires some { 0 < length shards.old }
    requires idle { AreIdle (map (λ s. s.steps.items) shards.old) }
    ensures stepped { (readings : List (Result StepOf FaultOf)) × (answers : ℕ → List (List ℕ))
        × AreReadFrom lines.now 0 readings × (length readings ≡ length lines.now)
        × AnswersEachBy (OneDoes (Tells H.meaning drives) (dealt (length shards.old))) readings
        (map (λ s. s.host) shards.old)
        (merged desk.new.places.items answers) (map (λ s. s.host) shards.new)
        × All (IsBelow (length shards.new)) desk.new.places.items
        × ((i : ℕ) (d : _) → i < length shards.new → Told (answers i) (slice_index_or shards.new i d).bytes.items
        (slice_index_or shards.new i d).lens.items 0 0) }
    ensures idle { AreIdle (map (λ s. s.steps.items) shards.new) }
{
    desk.places.clear();
    read_and_deal(
        rt,
        lines,
        desk.readers.as_mut_slice(),
        shards,
        &mut desk.places,
    );
    let threads = threads_for(shards);
    run_all(rt, shards, threads, drives);
}

/// Reads these lines, and deals what was read.
fn read_and_deal<T: Threads + Sync, H: Handler, S: Store>(
    rt: &T,
    lines: &Lines,
    readers: &mut [Reader],
    shards: &mut [Shard<H, S>],
    places: &mut Vec<Place>,
)
    requires some { 0 < length shards.old }
    requires readers { 0 < length readers.old }
    requires room { MOST_LINES ≤ vec_capacity places.old }
    requires none { places.old.items ≡ [] }
    requires idle { AreIdle (map (λ s. s.steps.items) shards.old) }
    ensures hosts { map (λ s. s.host) shards.new ≡ map (λ s. s.host) shards.old }
    ensures dealt { AreDealtTo (dealt (length shards.old)) lines.now (length lines.now) places.new.items
        (map (λ s. s.steps.items) shards.new) }
    ensures capacity { vec_capacity places.new ≡ vec_capacity places.old }
{
    let count = lines.len();
    let size = count / readers.len() + 1;
    let threads = if count < THREADED { 1 } else { readers.len() };
    read_shares(rt, lines, readers, size, threads);
    deal_shares(lines, size, readers, shards, places);
}

/// Deals what the readers read of their shares.
fn deal_shares<H: Handler, S: Store>(
    lines: &Lines,
    size: usize,
    readers: &mut [Reader],
    shards: &mut [Shard<H, S>],
    places: &mut Vec<Place>,
)
    requires some { 0 < length shards.old }
    requires enough { length lines.now ≤ length readers.old * size }
    requires room { MOST_LINES ≤ vec_capacity places.old }
    requires read { (i : ℕ) (d : _) → i < length readers.old
        → AreReadFrom lines.now (min (i * size) (length lines.now)) (slice_index_or readers.old i d).found.items }
    requires dealt { AreDealtTo (dealt (length shards.old)) lines.now 0 places.old.items
        (map (λ s. s.steps.items) shards.old) }
    ensures hosts { map (λ s. s.host) shards.new ≡ map (λ s. s.host) shards.old }
    ensures dealt { AreDealtTo (dealt (length shards.old)) lines.now (length lines.now) places.new.items
        (map (λ s. s.steps.items) shards.new) }
    ensures capacity { vec_capacity places.new ≡ vec_capacity places.old }
{
    let count = lines.len();
    for at in 0..readers.len() {
        let from = share_start(size, at, count);
        let to = share_start(size, at + 1, count);
        deal_share(lines, from, to, &mut readers[at], shards, places);
    }
}

/// Deals what a reader read of the lines from one place up to another.
fn deal_share<H: Handler, S: Store>(
    lines: &Lines,
    from: usize,
    to: usize,
    reader: &mut Reader,
    shards: &mut [Shard<H, S>],
    places: &mut Vec<Place>,
)
    requires some { 0 < length shards.old }
    requires order { from ≤ to }
    requires within { to ≤ length lines.now }
    requires most { to ≤ MOST_LINES }
    requires room { MOST_LINES ≤ vec_capacity places.old }
    requires read { AreReadFrom lines.now from reader.old.found.items }
    requires dealt { AreDealtTo (dealt (length shards.old)) lines.now from places.old.items
        (map (λ s. s.steps.items) shards.old) }
    ensures hosts { map (λ s. s.host) shards.new ≡ map (λ s. s.host) shards.old }
    ensures dealt { AreDealtTo (dealt (length shards.old)) lines.now to places.new.items
        (map (λ s. s.steps.items) shards.new) }
    ensures capacity { vec_capacity places.new ≡ vec_capacity places.old }
{
    for at in from..to {
        let read = reader.next(lines, at);
        let place = deal_one(shards, read);
        places.push_reserved(place);
    }
}

/// In how many threads the steps that wait are done: in one for each shard where there are enough of them, and no shard
/// has most of them. A step in a thread of its own takes up to a half longer than in the one that was there before.
fn threads_for<H: Handler, S: Store>(shards: &[Shard<H, S>]) -> usize
    requires { 0 < length shards.now }
    ensures { 0 < result }
{
    let mut all = 0usize;
    let mut most = 0usize;
    for shard in shards {
        let own = shard.steps.len();
        all = all.saturating_add(own);
        most = most.max(own);
    }
    if all < THREADED || most / 2 > all / 3 {
        1
    } else {
        shards.len()
    }
}

/// Deals what was read of a line, and tells where it is answered. A step for which there is no memory is one that was
/// not read.
fn deal_one<H: Handler, S: Store>(
    shards: &mut [Shard<H, S>],
    read: Result<AddressedStep, LineFault>,
) -> Place
    requires { 0 < length shards.old }
    ensures hosts { map (λ s. s.host) shards.new ≡ map (λ s. s.host) shards.old }
    ensures dealt { (reading : Result StepOf FaultOf) × IsReadOr read reading
        × DealsMore (dealt (length shards.old)) reading result (map (λ s. s.steps.items) shards.old)
        (map (λ s. s.steps.items) shards.new) }
{
    match read {
        Ok(step) => {
            let at = shard_of(step.tenant(), shards.len());
            match shards[at].take(step) {
                Ok(()) => Place::Dealt(at),
                Err(_) => Place::Here(LineFault::NoMemory),
            }
        }
        Err(fault) => Place::Here(fault),
    }
}

/// Does each shard's steps, in at most so many threads.
fn run_all<T: Threads + Sync, H: Handler + Send, S: Store + Send>(
    rt: &T,
    shards: &mut [Shard<H, S>],
    threads: usize,
    drives: bool,
)
    requires { 0 < threads }
    ensures ran { (i : ℕ) (d : _) → i < length shards.old
        → RanShard (Tells H.meaning drives) (slice_index_or shards.old i d).steps.items
        (slice_index_or shards.old i d).host
        (slice_index_or shards.new i d).host (slice_index_or shards.new i d).bytes.items
        (slice_index_or shards.new i d).lens.items }
    ensures steps { (i : ℕ) (d : _) → i < length shards.old → (slice_index_or shards.new i d).steps.items ≡ [] }
{
    thread::for_each_mut(
        rt,
        shards,
        threads,
        &|_at, shard: &mut Shard<H, S>|
            ensures ran { RanShard (Tells H.meaning drives) shard.entry.now.steps.items shard.entry.now.host
                shard.exit.now.host shard.exit.now.bytes.items shard.exit.now.lens.items }
            ensures steps { shard.exit.now.steps.items ≡ [] }
        { shard.run(drives) },
    );
}
