//! `run`.

ghost use Rattle.std.specs.Prelude.{◌≡◌, []};

use crate::engine::Engine;
use handler::Handler;
use lines::{Counted, ServeFault};
use log::sink::Discard;
use log::{Log, error, info};
use narration::Hosted;
use reports::Judged;
use shared_log::Store;
use std::alloc::Global;
use std::io::{BufReader, BufWriter, Read, Write};
use std::thread::Threads;
use terminal::{BLOCK, Plural};
use words::RunWords;

/// How much of the input is read at once where several cores step it: their threads begin once for each block.
const WIDE_BLOCK: usize = 1_048_576;

/// How much of the input is read at once on so many cores.
pub(crate) fn block_for(cores: usize) -> usize {
    if cores > 1 { WIDE_BLOCK } else { BLOCK }
}

/// Answers each line of the input, over a store that acknowledged nothing yet, and audits each open tenant after the
/// last line where `audit` says so. Tells the status to end with, and says nothing else: 0 where all lines are
/// answered, 1 after a fault of input, output or memory, or where an audit doesn't say yes. For a program that has
/// streams of its own, and no words.
pub fn run_on<
    T: Threads + Sync + AllocGlobal,
    R: Read + Drop,
    W: Write + Drop,
    H: Handler + Clone + Send,
    S: Store,
>(rt: &T, hosted: Hosted<'_, H>, input: R, output: W, store: S, audit: bool) -> u8
    requires { S.log store ≡ [] }
{
    let asked = RunWords::of_audit(audit);
    run_asked(
        rt,
        &Discard,
        rt.alloc(),
        hosted,
        input,
        output,
        store,
        &asked,
    )
}

/// Answers each line of the input, over a store that acknowledged nothing yet, and tells the status to end with: 0
/// where all lines are answered, 1 after a fault of input, output or memory. Where it is asked for, each refusal is
/// told with its reason, and each open tenant is audited after the last line; 1 too where an audit doesn't say yes,
/// and else 3 where a line was refused, if that is asked for.
pub fn run_asked<
    T: Threads + Sync,
    L: Log,
    R: Read + Drop,
    W: Write + Drop,
    H: Handler + Clone + Send,
    S: Store,
>(
    rt: &T,
    told: &L,
    alloc: Global,
    hosted: Hosted<'_, H>,
    input: R,
    output: W,
    store: S,
    asked: &RunWords<'_>,
) -> u8
    requires { S.log store ≡ [] }
{
    let Ok(handler) = hosted.handler.clone() else {
        return no_buffers(told);
    };
    let engine = Engine::new(alloc, handler, store, asked);
    run_by(
        rt, told, alloc, &hosted, input, output, engine, BLOCK, asked,
    )
}

/// The same over stores in memory, on so many cores: tenants are dealt to as many hosts. On several, nothing that needs
/// a book may be asked for: no audit, and no reasons.
pub fn run_in_memory<
    T: Threads + Sync,
    L: Log,
    R: Read + Drop,
    W: Write + Drop,
    H: Handler + Clone + Send,
>(
    rt: &T,
    told: &L,
    alloc: Global,
    hosted: Hosted<'_, H>,
    input: R,
    output: W,
    cores: usize,
    asked: &RunWords<'_>,
) -> u8 {
    let Ok(engine) = Engine::in_memory(alloc, &hosted.handler, cores, asked) else {
        return no_buffers(told);
    };
    let block = block_for(cores);
    run_by(
        rt, told, alloc, &hosted, input, output, engine, block, asked,
    )
}

/// Answers each line of the input by an engine, reading so many bytes at once. Tells the status to end with.
fn run_by<T: Threads + Sync, L: Log, R: Read + Drop, W: Write + Drop, H: Handler + Send, S: Store>(
    rt: &T,
    told: &L,
    alloc: Global,
    hosted: &Hosted<'_, H>,
    input: R,
    output: W,
    engine: Engine<H, S>,
    block: usize,
    asked: &RunWords<'_>,
) -> u8 {
    let mut engine = engine;
    let (Ok(reader), Ok(writer)) = (
        BufReader::with_capacity(alloc, block, input),
        BufWriter::with_capacity(alloc, BLOCK, output),
    ) else {
        engine.forget();
        return no_buffers(told);
    };
    let mut reader = Counted::new(reader);
    let mut writer = Counted::new(Judged::new(writer));
    let explained = asked.explain.then_some(0);
    let answered = engine.answer_all(rt, told, alloc, hosted, &mut reader, &mut writer, explained);
    let status = match answered {
        Ok(count) => {
            tell_answered(told, count);
            engine.end_well(told, alloc, hosted, &mut writer.inner, asked)
        }
        Err(fault) => {
            // What was answered goes out, as far as it can.
            let _ = writer.inner.flush();
            tell(told, fault);
            1
        }
    };
    engine.forget();
    status
}

/// Tells how many lines were answered.
fn tell_answered<L: Log>(told: &L, count: u64) {
    info!(told; "answered {}", Plural(count, "line"));
}

/// Says that there is no memory to begin with, and tells the status to end with.
pub(crate) fn no_buffers<L: Log>(told: &L) -> u8 {
    error!(told; "there is no memory for the buffers: free some, and run again");
    1
}

/// Says what failed, and what to do.
fn tell<L: Log>(told: &L, fault: ServeFault) {
    match fault {
        ServeFault::Read => {
            error!(told; "the input can't be read: give the lines that have no reply yet to a new run");
        }
        ServeFault::Write => {
            error!(told; "the output can't be written: steps may be done whose replies are not out");
        }
        ServeFault::NoMemory => {
            error!(told; "there is no memory for a reply: the run ends, with the steps so far done");
        }
    }
}
