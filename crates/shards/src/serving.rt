//! Answering by shards.

ghost use Rattle.std.specs.Prelude.{◌≡◌, ◌≢◌, ◌<◌, ◌≤◌, ◌+◌, ◌^◌, ℕ, List, [], Option, IfOk, OnOk, OnErr, Ok, Err};
ghost use Rattle.std.specs.Prelude.{false, true, length, map, vec_capacity};
ghost use Rattle.model.specs.Failures.{HasRisen};
ghost use Rattle.book.specs.Standing.{HostState};
ghost use Rattle.lines.specs.Serving.{ServedAllBy, ServedSomeBy};
ghost use Rattle.dealing.specs.Dealing.{OneDoes, ShardsServe, dealt};
ghost use Rattle.driver.specs.Driving.{DroveAllBy, DroveSomeBy};
ghost use Rattle.shards.specs.Blocks.{AreIdle, Tells};
ghost use Rattle.shards.specs.Driven.{ShardsDrive};
ghost use Rattle.shards.specs.Underway.{AnsweredAll, AnsweredSome, Ends, Stopped, Turns, Underway};

use crate::answering::{answer, step_lines};
use crate::block::{Block, take_part};
use crate::desk::Desk;
use crate::kept::MOST_LINES;
use crate::shard::Shard;
use crate::shards::Shards;
use handler::Handler;
use lines::{Counted, ServeFault, flush_unless};
use model::MAX_LINE_BYTES;
use shared_log::Store;
use std::alloc::Global;
use std::io::{BufRead, Write};
use std::thread::Threads;

/// Answers each line of the input, in order, and tells how many there were, as `lines::serve_host` does by one host:
/// whichever book the shards stood for before, what is written are the replies of that book, and the shards then
/// stand for the book after them.
///
/// The lines that the reader shows at once are a block, as long as they aren't too many. Where there are enough of them
/// and a thread can be started, they are read in as many threads as there are shards, and each shard does its own steps
/// in a thread. Then the replies are written in the order of the lines. Before a read that may wait all lines are
/// answered, and their replies flushed.
///
/// `Read` comes only where the reader failed, `Write` only where the writer failed, and `NoMemory` where there was no
/// memory for a buffer or for a reply's text. After each the shards hold the steps so far, and what is written is a
/// beginning of the replies to the lines read so far. Where the reader fails though it showed more, the replies of
/// that block are not written.
pub fn serve_shards<T: Threads + Sync, R: BufRead, W: Write, H: Handler + Send, S: Store + Send>(
    rt: &T,
    alloc: Global,
    reader: &mut Counted<R>,
    writer: &mut Counted<W>,
    shards: &mut Shards<H, S>,
) -> Result<u64, ServeFault>
    ensures all { IfOk result (λ count. ServedAllBy (ShardsServe H.meaning) (R.remaining reader.old.inner)
        (W.contents writer.old.inner) (W.contents writer.new.inner) shards.old shards.new count) }
    ensures some { OnErr result (ServedSomeBy (ShardsServe H.meaning)
        (R.remaining reader.old.inner) (R.remaining reader.new.inner)
        (W.contents writer.old.inner) (W.contents writer.new.inner) shards.old shards.new) }
    ensures read { result ≡ Err ServeFault.Read → HasRisen reader.old.failed reader.new.failed }
    ensures write { result ≡ Err ServeFault.Write → HasRisen writer.old.failed writer.new.failed }
    ensures read_same { result ≢ Err ServeFault.Read → reader.new.failed ≡ reader.old.failed }
    ensures write_same { result ≢ Err ServeFault.Write → writer.new.failed ≡ writer.old.failed }
{
    answer_by_shards(rt, alloc, reader, writer, shards, false)
}

/// Answers each line of the input, in order, and carries on behind each for its tenant, as `driver::drive_host` does by
/// one host: whichever book the shards stood for before, what is written is what that book tells, and the shards then
/// stand for the book after it. Tells how many lines there were.
///
/// It reads, steps and writes as `serve_shards` does, with its faults. `NoMemory` comes too where there was none for
/// what a driver remembers, or for a step that it gave. After a fault the drivers aren't to be used again.
pub fn drive_shards<T: Threads + Sync, R: BufRead, W: Write, H: Handler + Send, S: Store + Send>(
    rt: &T,
    alloc: Global,
    reader: &mut Counted<R>,
    writer: &mut Counted<W>,
    shards: &mut Shards<H, S>,
) -> Result<u64, ServeFault>
    ensures all { IfOk result (λ count. DroveAllBy (ShardsDrive H.meaning) (R.remaining reader.old.inner)
        (W.contents writer.old.inner) (W.contents writer.new.inner) shards.old shards.new count) }
    ensures some { OnErr result (DroveSomeBy (ShardsDrive H.meaning)
        (R.remaining reader.old.inner) (R.remaining reader.new.inner)
        (W.contents writer.old.inner) (W.contents writer.new.inner) shards.old shards.new) }
    ensures read { result ≡ Err ServeFault.Read → HasRisen reader.old.failed reader.new.failed }
    ensures write { result ≡ Err ServeFault.Write → HasRisen writer.old.failed writer.new.failed }
    ensures read_same { result ≢ Err ServeFault.Read → reader.new.failed ≡ reader.old.failed }
    ensures write_same { result ≢ Err ServeFault.Write → writer.new.failed ≡ writer.old.failed }
{
    answer_by_shards(rt, alloc, reader, writer, shards, true)
}

/// Answers each line, and carries on behind it where the hosts are driven: the step of each line is done by the shard
/// that its tenant is dealt to, and the others stay.
fn answer_by_shards<T: Threads + Sync, R: BufRead, W: Write, H: Handler + Send, S: Store + Send>(
    rt: &T,
    alloc: Global,
    reader: &mut Counted<R>,
    writer: &mut Counted<W>,
    shards: &mut Shards<H, S>,
    drives: bool,
) -> Result<u64, ServeFault>
    ensures all { IfOk result (λ count. AnsweredAll (OneDoes (Tells H.meaning drives) (dealt (length shards.old)))
        (R.remaining reader.old.inner)
        (W.contents writer.old.inner) (W.contents writer.new.inner) shards.old shards.new count) }
    ensures some { OnErr result (AnsweredSome (OneDoes (Tells H.meaning drives) (dealt (length shards.old)))
        (R.remaining reader.old.inner) (R.remaining reader.new.inner)
        (W.contents writer.old.inner) (W.contents writer.new.inner) shards.old shards.new) }
    ensures many { length shards.new ≡ length shards.old }
    ensures read { result ≡ Err ServeFault.Read → HasRisen reader.old.failed reader.new.failed }
    ensures write { result ≡ Err ServeFault.Write → HasRisen writer.old.failed writer.new.failed }
    ensures read_same { result ≢ Err ServeFault.Read → reader.new.failed ≡ reader.old.failed }
    ensures write_same { result ≢ Err ServeFault.Write → writer.new.failed ≡ writer.old.failed }
{
    answer_on(
        rt,
        alloc,
        reader,
        writer,
        shards.shards.as_mut_slice(),
        drives,
    )
}

/// The same by a list of shards.
fn answer_on<T: Threads + Sync, R: BufRead, W: Write, H: Handler + Send, S: Store + Send>(
    rt: &T,
    alloc: Global,
    reader: &mut Counted<R>,
    writer: &mut Counted<W>,
    shards: &mut [Shard<H, S>],
    drives: bool,
) -> Result<u64, ServeFault>
    requires some { 0 < length shards.old }
    requires idle { AreIdle (map (λ s. s.steps.items) shards.old) }
    ensures idle { AreIdle (map (λ s. s.steps.items) shards.new) }
    ensures all { IfOk result (λ count. AnsweredAll (OneDoes (Tells H.meaning drives) (dealt (length shards.old)))
        (R.remaining reader.old.inner)
        (W.contents writer.old.inner) (W.contents writer.new.inner) (map (λ s. s.host) shards.old)
        (map (λ s. s.host) shards.new) count) }
    ensures some { OnErr result (AnsweredSome (OneDoes (Tells H.meaning drives) (dealt (length shards.old)))
        (R.remaining reader.old.inner) (R.remaining reader.new.inner)
        (W.contents writer.old.inner) (W.contents writer.new.inner) (map (λ s. s.host) shards.old)
        (map (λ s. s.host) shards.new)) }
    ensures read { result ≡ Err ServeFault.Read → HasRisen reader.old.failed reader.new.failed }
    ensures write { result ≡ Err ServeFault.Write → HasRisen writer.old.failed writer.new.failed }
    ensures read_same { result ≢ Err ServeFault.Read → reader.new.failed ≡ reader.old.failed }
    ensures write_same { result ≢ Err ServeFault.Write → writer.new.failed ≡ writer.old.failed }
{
    let Ok(mut block) = Block::new(alloc) else {
        return Err(ServeFault::NoMemory);
    };
    let Ok(mut desk) = Desk::new(alloc, shards.len()) else {
        return Err(ServeFault::NoMemory);
    };
    // Each line takes a call at least, so that the count of lines fits.
    let _most = reader.calls_left();
    loop {
        let is_end = match turn(
            rt, alloc, reader, writer, shards, &mut block, &mut desk, drives,
        ) {
            Ok(is_end) => is_end,
            Err(fault) => return Err(fault),
        };
        if is_end {
            return Ok(block.count);
        }
    }
}

/// Answers the lines that wait, unless there is more to read without waiting, and reads on. Tells whether the input
/// is at its end; all lines are answered then.
fn turn<T: Threads + Sync, R: BufRead, W: Write, H: Handler + Send, S: Store + Send>(
    rt: &T,
    alloc: Global,
    reader: &mut Counted<R>,
    writer: &mut Counted<W>,
    shards: &mut [Shard<H, S>],
    block: &mut Block,
    desk: &mut Desk,
    drives: bool,
) -> Result<bool, ServeFault>
    requires some { 0 < length shards.old }
    requires idle { AreIdle (map (λ s. s.steps.items) shards.old) }
    requires held { MAX_LINE_BYTES ≤ vec_capacity block.old.held }
    requires within { block.old.count + reader.old.left < 2 ^ 64 }
    ensures turns { (start : Ends (List (HostState H.State)))
        → Underway (OneDoes (Tells H.meaning drives) (dealt (length shards.old))) start
        (record {
          input = R.remaining reader.old.inner;
          out = W.contents writer.old.inner;
          hosts = map (λ s. s.host) shards.old;
        })
        (record {
          held = block.old.held.items;
          is_long = block.old.is_long;
          lines = block.old.lines;
          count = block.old.count;
        })
        → Turns (OneDoes (Tells H.meaning drives) (dealt (length shards.old))) result start
        (record {
          input = R.remaining reader.new.inner;
          out = W.contents writer.new.inner;
          hosts = map (λ s. s.host) shards.new;
        })
        (record {
          held = block.new.held.items;
          is_long = block.new.is_long;
          lines = block.new.lines;
          count = block.new.count;
        }) }
    ensures idle { AreIdle (map (λ s. s.steps.items) shards.new) }
    ensures goes { result ≡ Ok false → (MAX_LINE_BYTES ≤ vec_capacity block.new.held)
        × (block.new.count + reader.new.left < 2 ^ 64) × (reader.new.left < reader.old.left) }
    ensures read { result ≡ Err ServeFault.Read → HasRisen reader.old.failed reader.new.failed }
    ensures write { result ≡ Err ServeFault.Write → HasRisen writer.old.failed writer.new.failed }
    ensures read_same { result ≢ Err ServeFault.Read → reader.new.failed ≡ reader.old.failed }
    ensures write_same { result ≢ Err ServeFault.Write → writer.new.failed ≡ writer.old.failed }
{
    match answer_waiting(rt, alloc, writer, shards, block, desk, drives) {
        Ok(()) => read_more(rt, alloc, reader, writer, shards, block, desk, drives),
        Err(fault) => Err(fault),
    }
}

/// Reads on, where there is room for another line.
fn read_more<T: Threads + Sync, R: BufRead, W: Write, H: Handler + Send, S: Store + Send>(
    rt: &T,
    alloc: Global,
    reader: &mut Counted<R>,
    writer: &mut Counted<W>,
    shards: &mut [Shard<H, S>],
    block: &mut Block,
    desk: &mut Desk,
    drives: bool,
) -> Result<bool, ServeFault>
    requires some { 0 < length shards.old }
    requires idle { AreIdle (map (λ s. s.steps.items) shards.old) }
    requires room { length block.old.lines < MOST_LINES }
    requires held { MAX_LINE_BYTES ≤ vec_capacity block.old.held }
    requires within { block.old.count + reader.old.left < 2 ^ 64 }
    ensures turns { (start : Ends (List (HostState H.State)))
        → Underway (OneDoes (Tells H.meaning drives) (dealt (length shards.old))) start
        (record {
          input = R.remaining reader.old.inner;
          out = W.contents writer.old.inner;
          hosts = map (λ s. s.host) shards.old;
        })
        (record {
          held = block.old.held.items;
          is_long = block.old.is_long;
          lines = block.old.lines;
          count = block.old.count;
        })
        → Turns (OneDoes (Tells H.meaning drives) (dealt (length shards.old))) result start
        (record {
          input = R.remaining reader.new.inner;
          out = W.contents writer.new.inner;
          hosts = map (λ s. s.host) shards.new;
        })
        (record {
          held = block.new.held.items;
          is_long = block.new.is_long;
          lines = block.new.lines;
          count = block.new.count;
        }) }
    ensures idle { AreIdle (map (λ s. s.steps.items) shards.new) }
    ensures goes { result ≡ Ok false → (MAX_LINE_BYTES ≤ vec_capacity block.new.held)
        × (block.new.count + reader.new.left < 2 ^ 64) × (reader.new.left < reader.old.left) }
    ensures read { result ≡ Err ServeFault.Read → HasRisen reader.old.failed reader.new.failed }
    ensures write { result ≡ Err ServeFault.Write → HasRisen writer.old.failed writer.new.failed }
    ensures read_same { result ≢ Err ServeFault.Read → reader.new.failed ≡ reader.old.failed }
    ensures write_same { result ≢ Err ServeFault.Write → writer.new.failed ≡ writer.old.failed }
{
    let is_end = match take_part(reader, block) {
        Ok(is_end) => is_end,
        Err(fault) => {
            step_lines(rt, shards, &block.lines, desk, drives);
            return Err(fault);
        }
    };
    if !is_end {
        return Ok(false);
    }
    match answer_block(rt, alloc, writer, shards, block, desk, drives, false) {
        Ok(()) => Ok(true),
        Err(fault) => Err(fault),
    }
}

/// Answers the lines that wait, unless there is more to read without waiting and room for it.
///
/// `Write` comes only where the writer failed, and `NoMemory` where there was none for an answer.
fn answer_waiting<T: Threads + Sync, W: Write, H: Handler + Send, S: Store + Send>(
    rt: &T,
    alloc: Global,
    writer: &mut Counted<W>,
    shards: &mut [Shard<H, S>],
    block: &mut Block,
    desk: &mut Desk,
    drives: bool,
) -> Result<(), ServeFault>
    requires some { 0 < length shards.old }
    requires idle { AreIdle (map (λ s. s.steps.items) shards.old) }
    ensures ok { OnOk result ((start : Ends (List (HostState H.State))) (input : Option (List ℕ))
        → Underway (OneDoes (Tells H.meaning drives) (dealt (length shards.old))) start
        (record { input = input; out = W.contents writer.old.inner; hosts = map (λ s. s.host) shards.old })
        (record {
          held = block.old.held.items;
          is_long = block.old.is_long;
          lines = block.old.lines;
          count = block.old.count;
        })
        → Underway (OneDoes (Tells H.meaning drives) (dealt (length shards.old))) start
        (record { input = input; out = W.contents writer.new.inner; hosts = map (λ s. s.host) shards.new })
        (record {
          held = block.new.held.items;
          is_long = block.new.is_long;
          lines = block.new.lines;
          count = block.new.count;
        })) }
    ensures err { OnErr result ((start : Ends (List (HostState H.State))) (input : Option (List ℕ))
        → Underway (OneDoes (Tells H.meaning drives) (dealt (length shards.old))) start
        (record { input = input; out = W.contents writer.old.inner; hosts = map (λ s. s.host) shards.old })
        (record {
          held = block.old.held.items;
          is_long = block.old.is_long;
          lines = block.old.lines;
          count = block.old.count;
        })
        → Stopped (OneDoes (Tells H.meaning drives) (dealt (length shards.old))) start
        (record { input = input; out = W.contents writer.new.inner; hosts = map (λ s. s.host) shards.new })) }
    ensures room { OnOk result (length block.new.lines < MOST_LINES) }
    ensures held { block.new.held ≡ block.old.held }
    ensures count { block.new.count ≡ block.old.count }
    ensures idle { AreIdle (map (λ s. s.steps.items) shards.new) }
    ensures write { result ≡ Err ServeFault.Write → HasRisen writer.old.failed writer.new.failed }
    ensures read { result ≢ Err ServeFault.Read }
    ensures same { result ≢ Err ServeFault.Write → writer.new.failed ≡ writer.old.failed }
{
    let ahead = block.ahead;
    if ahead && !block.lines.is_full() {
        return Ok(());
    }
    answer_block(rt, alloc, writer, shards, block, desk, drives, ahead)
}

/// Answers the lines that wait. Their answers are flushed unless there is more to read without waiting.
fn answer_block<T: Threads + Sync, W: Write, H: Handler + Send, S: Store + Send>(
    rt: &T,
    alloc: Global,
    writer: &mut Counted<W>,
    shards: &mut [Shard<H, S>],
    block: &mut Block,
    desk: &mut Desk,
    drives: bool,
    ahead: bool,
) -> Result<(), ServeFault>
    requires some { 0 < length shards.old }
    requires idle { AreIdle (map (λ s. s.steps.items) shards.old) }
    ensures ok { OnOk result ((start : Ends (List (HostState H.State))) (input : Option (List ℕ))
        → Underway (OneDoes (Tells H.meaning drives) (dealt (length shards.old))) start
        (record { input = input; out = W.contents writer.old.inner; hosts = map (λ s. s.host) shards.old })
        (record {
          held = block.old.held.items;
          is_long = block.old.is_long;
          lines = block.old.lines;
          count = block.old.count;
        })
        → Underway (OneDoes (Tells H.meaning drives) (dealt (length shards.old))) start
        (record { input = input; out = W.contents writer.new.inner; hosts = map (λ s. s.host) shards.new })
        (record {
          held = block.new.held.items;
          is_long = block.new.is_long;
          lines = block.new.lines;
          count = block.new.count;
        })) }
    ensures err { OnErr result ((start : Ends (List (HostState H.State))) (input : Option (List ℕ))
        → Underway (OneDoes (Tells H.meaning drives) (dealt (length shards.old))) start
        (record { input = input; out = W.contents writer.old.inner; hosts = map (λ s. s.host) shards.old })
        (record {
          held = block.old.held.items;
          is_long = block.old.is_long;
          lines = block.old.lines;
          count = block.old.count;
        })
        → Stopped (OneDoes (Tells H.meaning drives) (dealt (length shards.old))) start
        (record { input = input; out = W.contents writer.new.inner; hosts = map (λ s. s.host) shards.new })) }
    ensures empty { OnOk result (block.new.lines ≡ []) }
    ensures held { block.new.held ≡ block.old.held }
    ensures long { block.new.is_long ≡ block.old.is_long }
    ensures count { block.new.count ≡ block.old.count }
    ensures idle { AreIdle (map (λ s. s.steps.items) shards.new) }
    ensures write { result ≡ Err ServeFault.Write → HasRisen writer.old.failed writer.new.failed }
    ensures read { result ≢ Err ServeFault.Read }
    ensures same { result ≢ Err ServeFault.Write → writer.new.failed ≡ writer.old.failed }
{
    match answer(rt, alloc, writer, shards, &block.lines, desk, drives) {
        Ok(()) => {
            block.lines.clear();
            flush_unless(writer, ahead)
        }
        Err(fault) => Err(fault),
    }
}
