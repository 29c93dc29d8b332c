//! `run --journal` and `drive --journal`: the lines of the journal are stepped again, and then those of the input,
//! each of which stands in the journal before it is stepped.

use crate::engine::Engine;
use crate::run::{block_for, no_buffers};
use codec::Portable;
use durable::{Extent, FirstLines, Journaled, NoZeros, Skipping};
use files::{JournalFile, LastingFile, LockedJournal, Owner, Stand, Standing, open_journal};
use handler::Handler;
use journal::DurableReplies;
use lines::{Counted, ServeFault};
use log::{Log, error, info};
use model::NoMemory;
use narration::Hosted;
use reports::Judged;
use resumption::{Begun, Keeper, Snapshots};
use shared_log::MemoryStore;
use std::alloc::Global;
use std::fs::{File, Files};
use std::io;
use std::io::{BufReader, BufWriter, Read, Write};
use std::thread::Threads;
use std::time::Clock;
use terminal::{BLOCK, Plural};
use words::RunWords;

/// Where a run ended early.
#[derive(Clone, Copy)]
enum Place {
    // A line of the journal was read or stepped again.
    Again,
    // A line of the input was read or stepped.
    Input,
    // The input could not be made to last: what became of the journal.
    Journal(Standing),
}

/// What ended a run early, with so many lines in the journal.
#[derive(Clone, Copy)]
struct Stop {
    place: Place,
    fault: ServeFault,
    lines: u64,
}

/// Why a run ended early.
#[derive(Clone, Copy)]
enum Ending {
    // A journal of so many lines gives so many fewer than were asked to be left out.
    Short { lines: u64, fewer: u64 },
    // Something failed.
    Stopped(Stop),
}

/// The reader of a run's input, each block of which stands in the journal first.
type Input<'a, F, R> = Counted<BufReader<Journaled<NoZeros<R>, LastingFile<'a, F>>>>;

/// What writes the lines of a run.
type Output<W> = Counted<DurableReplies<Skipping<W>>>;

/// Steps the lines of the journal, answers those that were asked for, and then answers each line of the input. Where a
/// snapshot is beside the journal that the run can go on from, only the lines behind it are stepped; and others are
/// kept behind each so many lines, where that is asked for. Tells the status to end with, as `run_asked` does; 1 too
/// where the journal fails, or where a step finds no memory: its line stands unanswered in the journal; 2 where a line
/// is asked for that the journal doesn't have. Of several cores nothing that needs a book may be asked for, and no
/// snapshot.
pub fn run_journaled<
    'a,
    T: Threads + Sync,
    L: Log,
    F: Files<File = File> + Clock,
    R: Read + Drop,
    W: Write + Drop,
    H: Portable + Clone + Send,
>(
    rt: &T,
    told: &L,
    alloc: Global,
    hosted: Hosted<'_, H>,
    input: R,
    output: W,
    locked: LockedJournal<'a>,
    owner: &Owner<'_>,
    snapshots: Snapshots<'a, F>,
    cores: usize,
    asked: &RunWords<'_>,
) -> u8 {
    let Ok(writer) = BufWriter::with_capacity(alloc, BLOCK, output) else {
        return no_buffers(told);
    };
    let begun = snapshots.begun(told, alloc, &hosted.handler, &locked, asked);
    let stand = match &begun {
        Some(begun) => begun.stand,
        None => Stand::none(),
    };
    let Ok(made) = engine_on(alloc, &hosted.handler, cores, asked, begun) else {
        return no_buffers(told);
    };
    let mut engine = made;
    let from = first_answered(asked);
    let journal = match open_journal(snapshots.files, told, alloc, locked, owner, from, stand) {
        Ok(journal) => journal,
        Err(status) => {
            engine.forget();
            return status;
        }
    };
    let block = block_for(cores);
    let judged = Judged::new(writer);
    let skipping = Skipping::new(judged, skipped_of(asked, &stand), stand.written);
    let mut writer = Counted::new(DurableReplies::new(skipping));
    let mut keeper = Keeper::new(snapshots, stand);
    let gone_on = go_on(
        rt,
        told,
        alloc,
        &hosted,
        input,
        journal,
        &mut writer,
        &mut engine,
        &mut keeper,
        block,
        asked,
    );
    let status = match gone_on {
        Ok(()) => engine.end_well(told, alloc, &hosted, &mut writer.inner.inner.inner, asked),
        Err(ending) => {
            // What was answered goes out, as far as it can.
            let _ = writer.inner.inner.flush();
            match ending {
                Ending::Short { lines, fewer } => tell_short(told, lines, fewer),
                Ending::Stopped(stop) => tell(told, stop, writer.inner.is_refused),
            }
            1
        }
    };
    engine.forget();
    status
}

/// What answers the lines: on so many cores, or from a snapshot on. `NoMemory` comes where there is none for several
/// hosts.
fn engine_on<H: Portable + Clone + Send>(
    alloc: Global,
    handler: &H,
    cores: usize,
    asked: &RunWords<'_>,
    begun: Option<Begun<H>>,
) -> Result<Engine<H, MemoryStore>, NoMemory> {
    match begun {
        Some(begun) => Ok(Engine::going_on(begun)),
        None => Engine::in_memory(alloc, handler, cores, asked),
    }
}

/// The line of the journal from which on lines are answered, where one is asked for. What a driver writes is counted by
/// its own lines, so that all of the journal's are answered.
fn first_answered(asked: &RunWords<'_>) -> Option<u64> {
    if asked.drives {
        asked.from.map(|_| 0)
    } else {
        asked.from
    }
}

/// How many lines of what a driver writes whoever goes on has already, of those behind a snapshot.
fn skipped_of(asked: &RunWords<'_>, stand: &Stand) -> u64 {
    if asked.drives {
        asked.from.unwrap_or(0).saturating_sub(stand.written)
    } else {
        0
    }
}

/// Steps the lines of the journal, and then those of the input.
fn go_on<
    T: Threads + Sync,
    L: Log,
    F: Files<File = File>,
    R: Read + Drop,
    W: Write,
    H: Portable + Clone + Send,
>(
    rt: &T,
    told: &L,
    alloc: Global,
    hosted: &Hosted<'_, H>,
    input: R,
    journal: JournalFile<'_, F>,
    writer: &mut Output<W>,
    engine: &mut Engine<H, MemoryStore>,
    keeper: &mut Keeper<'_, F>,
    block: usize,
    asked: &RunWords<'_>,
) -> Result<(), Ending> {
    let JournalFile {
        file,
        extent,
        begun,
    } = journal;
    let lines = extent.lines;
    let again = step_again(
        rt,
        told,
        alloc,
        hosted,
        file.file(),
        &extent,
        &begun,
        writer,
        engine,
        block,
    );
    if let Err(fault) = again {
        return Err(stop_at(Place::Again, fault, lines));
    }
    let fewer = writer.inner.inner.left;
    if fewer > 0 {
        return Err(Ending::Short { lines, fewer });
    }
    keeper.pass(
        lines.saturating_sub(begun.lines),
        extent.whole.saturating_sub(begun.bytes),
        writer.inner.inner.came,
    );
    keeper.keep(
        told,
        alloc,
        &hosted.handler,
        engine.host(),
        engine.driver(),
        file.file(),
    );
    let Some(mut reader) = journaling(alloc, input, file) else {
        return Err(stop_at(Place::Input, ServeFault::NoMemory, lines));
    };
    let explained = asked.explain.then_some(lines);
    let answered = answer_input(
        rt,
        told,
        alloc,
        hosted,
        &mut reader,
        writer,
        engine,
        keeper,
        explained,
    );
    match answered {
        Ok(count) => {
            tell_answered(told, count, lines);
            Ok(())
        }
        Err(fault) => Err(stop_at_input(reader.inner.get_ref(), fault, lines)),
    }
}

/// Tells how many lines of the input were answered, behind so many of the journal.
fn tell_answered<L: Log>(told: &L, count: u64, lines: u64) {
    info!(told; "answered {}, behind {} of the journal", Plural(count, "line"), Plural(lines, "line"));
}

/// Answers each line of the input, and keeps a snapshot behind each so many, where that is asked for. Tells how many
/// lines there were.
fn answer_input<
    T: Threads + Sync,
    L: Log,
    F: Files<File = File>,
    R: Read + Drop,
    W: Write,
    H: Portable + Clone + Send,
>(
    rt: &T,
    told: &L,
    alloc: Global,
    hosted: &Hosted<'_, H>,
    reader: &mut Input<'_, F, R>,
    writer: &mut Output<W>,
    engine: &mut Engine<H, MemoryStore>,
    keeper: &mut Keeper<'_, F>,
    explained: Option<u64>,
) -> Result<u64, ServeFault> {
    let mut count = 0u64;
    for _ in 0..u64::MAX {
        let Some(left) = keeper.left() else {
            break;
        };
        let mut next = Counted::new(FirstLines::new(&mut reader.inner, left));
        let before = explained.map(|before| before.saturating_add(count));
        let answered = engine.answer_all(rt, told, alloc, hosted, &mut next, writer, before)?;
        count = count.saturating_add(answered);
        if !next.inner.is_through() {
            return Ok(count);
        }
        keeper.pass(next.inner.lines, next.inner.bytes, writer.inner.inner.came);
        let journal = reader.inner.get_ref().file().file();
        keeper.keep(
            told,
            alloc,
            &hosted.handler,
            engine.host(),
            engine.driver(),
            journal,
        );
    }
    engine.answer_all(rt, told, alloc, hosted, reader, writer, explained)
}

fn stop_at(place: Place, fault: ServeFault, lines: u64) -> Ending {
    Ending::Stopped(Stop {
        place,
        fault,
        lines,
    })
}

/// What ended the run at the input, where so many lines came before it.
fn stop_at_input<F: Files<File = File>, R>(
    journaled: &Journaled<R, LastingFile<'_, F>>,
    fault: ServeFault,
    before: u64,
) -> Ending {
    let place = if journaled.is_broken() {
        Place::Journal(journaled.file().standing())
    } else {
        Place::Input
    };
    stop_at(place, fault, before.saturating_add(journaled.lines()))
}

/// Steps each line of the journal as `serve` does, behind those that it is gone on from: the replies to those before
/// the one that is asked for go nowhere, and the others to the writer.
fn step_again<T: Threads + Sync, L: Log, W: Write, H: Handler + Send>(
    rt: &T,
    told: &L,
    alloc: Global,
    hosted: &Hosted<'_, H>,
    file: &File,
    extent: &Extent,
    begun: &Stand,
    writer: &mut Output<W>,
    engine: &mut Engine<H, MemoryStore>,
    block: usize,
) -> Result<(), ServeFault> {
    let Ok(mut reader) = BufReader::with_capacity(alloc, block, file) else {
        return Err(ServeFault::NoMemory);
    };
    let nowhere = Skipping::new(io::sink(), u64::MAX, 0);
    let mut nowhere = Counted::new(DurableReplies::new(nowhere));
    let before = reader
        .by_ref()
        .take(extent.before.saturating_sub(begun.bytes));
    let mut before = Counted::new(before);
    let seen = engine.answer_all(rt, told, alloc, hosted, &mut before, &mut nowhere, None);
    if seen.is_err() {
        writer.inner.is_refused = nowhere.inner.is_refused;
    }
    seen?;
    writer.inner.inner.came = writer
        .inner
        .inner
        .came
        .saturating_add(nowhere.inner.inner.came);
    let behind = reader.take(extent.whole.saturating_sub(extent.before));
    let mut behind = Counted::new(behind);
    engine.answer_all(rt, told, alloc, hosted, &mut behind, writer, None)?;
    Ok(())
}

/// A reader of the input that journals.
fn journaling<'a, F: Files<File = File>, R: Read + Drop>(
    alloc: Global,
    input: R,
    file: LastingFile<'a, F>,
) -> Option<Input<'a, F, R>> {
    let Ok(journaled) = Journaled::new(alloc, BLOCK, NoZeros::new(input), file) else {
        return None;
    };
    match BufReader::with_capacity(alloc, BLOCK, journaled) {
        Ok(reader) => Some(Counted::new(reader)),
        Err(_) => None,
    }
}

/// Says what failed, and what to do.
fn tell<L: Log>(told: &L, stop: Stop, is_refused: bool) {
    let lines = stop.lines;
    let has = Plural(lines, "line");
    match (stop.place, stop.fault) {
        (_, ServeFault::Write) if is_refused => {
            error!(told; "there is no memory for a step: its line is not answered, and stands in the journal, which has {has}: free some, and go on");
        }
        (Place::Again, ServeFault::Read) => {
            error!(told; "the journal can't be read: nothing of the input is read");
        }
        (Place::Input, ServeFault::Read) => {
            error!(told; "the input can't be read: the journal has {has}: give those from line {lines} on to a new run");
        }
        (Place::Journal(standing), ServeFault::Read) => tell_journal(told, standing, lines),
        (_, ServeFault::Write) => {
            error!(told; "the output can't be written: the journal has {has}: go on from the first whose reply is not out");
        }
        (_, ServeFault::NoMemory) => {
            error!(told; "there is no memory for a reply: the journal has {has}: free some, and go on");
        }
    }
}

/// Says that a journal of so many lines gives fewer than are to be left out.
fn tell_short<L: Log>(told: &L, lines: u64, fewer: u64) {
    let (has, fewer) = (Plural(lines, "line"), Plural(fewer, "line"));
    error!(told; "the journal, which has {has}, gives {fewer} fewer than are to be left out: nothing of the input is read");
}

/// Says what became of a journal that can't be written, which has so many lines that last.
fn tell_journal<L: Log>(told: &L, standing: Standing, lines: u64) {
    let has = Plural(lines, "line");
    match standing {
        Standing::Whole | Standing::CutBack => {
            error!(told; "the journal can't be written: it has {has}, and none behind them is stepped: give those from line {lines} on to a new run");
        }
        Standing::Unknown => {
            error!(told; "the journal can't be written, nor cut back to the {has} that last: how many it has isn't known, and a new run tells; none behind the {has} is stepped");
        }
        Standing::Replaced => {
            error!(told; "the journal was removed or replaced by somebody else: {has} stood in it, and none behind them is stepped");
        }
        Standing::Changed => {
            error!(told; "somebody else wrote to the journal, or cut it: {has} stood in it, and none behind them is stepped");
        }
    }
}
