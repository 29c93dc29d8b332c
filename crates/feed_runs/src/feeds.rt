//! `feeds`: inputs are feeds that run at once.

ghost use Rattle.std.specs.Prelude.{◌≡◌, []};

use crate::budget::{Budgeted, MOST};
use handler::Handler;
use lines::{Counted, LineFault, ServeFault, fault_reply, put_reply, read_feed};
use log::sink::Discard;
use log::{Log, error, info};
use model::{MAX_FEEDS, NoMemory, Reply, Step};
use reports::{audit_all, tell_kept};
use shared_log::{MemoryStore, Store};
use std::alloc::Global;
use std::cell::Cell;
use std::fs::{File, Files};
use std::io::{BufReader, BufWriter, Read, Write};
use std::sync::Wait;
use std::thread::Threads;
use std::time::Clock;
use terminal::{BLOCK, Bar, Plural};
use words::FeedsWords;
use workers::{Closed, Gate, RunFault, run_feeds};

/// The lines of a feed: none where a line is a step, or why it is not.
type Faults = Vec<Option<LineFault>>;

/// The feeds of the inputs, in their order: their steps, and which lines are none.
#[derive(Drop)]
struct Feeds {
    steps: Vec<Vec<Step>>,
    faults: Vec<Faults>,
}

/// A gate that tells a bar of each step of a feed.
#[derive(Drop)]
struct Counting<'a, R>(&'a Bar<'a, R>);

impl<'a, R: Eprint + Clock> Gate for Counting<'a, R> {
    fn before(&self, _feed: u32, _at: u32) {}

    fn after(&self, _feed: u32, _at: u32) {
        self.0.go_on(1, 1);
    }
}

/// Runs each input as a feed, all at once over a store in memory, writes the reply lines, feed by feed, and audits each
/// open tenant behind them where `audit` says so. Tells the status to end with, and says nothing else: 0 where all
/// lines are answered, 1 after a fault of input, output, memory or threads, or where an audit doesn't say yes. For a
/// program that has streams of its own, and no words.
pub fn feeds_on<
    R: Threads + Wait + Sync + Eprint + Clock + AllocGlobal,
    I: Read + Drop,
    W: Write + Drop,
    H: Handler + Copy + Send + Sync,
>(rt: &R, handler: H, inputs: Vec<I>, output: W, audit: bool) -> u8 {
    let Some(named) = unnamed(rt.alloc(), inputs) else {
        return 1;
    };
    let asked = FeedsWords::of_audit(rt.alloc(), audit);
    let store = MemoryStore::new(rt.alloc());
    feeds_asked(rt, &Discard, handler, store, named, output, &asked, false)
}

/// The inputs, each with an empty name. None where there is no memory for their list.
fn unnamed<I: Drop>(alloc: Global, inputs: Vec<I>) -> Option<Vec<(&'static str, I)>> {
    let mut named = Vec::new(alloc);
    for input in inputs {
        if named.push(("", input)).is_err() {
            return None;
        }
    }
    Some(named)
}

/// Runs each input as a feed, all at once over a store that acknowledged nothing yet, and then writes the reply lines
/// to the output, feed by feed in their order. An input comes with the name that it is told by. Tells the status to end
/// with: 0 where all lines are answered, 1 after a fault of input, output, memory or threads; where the feeds can't be
/// read or run, nothing is written. Where it is asked for, it audits each open tenant after the last reply; 1 too where
/// an audit doesn't say yes. Where it `shows`, a bar tells how far the steps are.
pub fn feeds_asked<
    R: Threads + Wait + Sync + Eprint + Clock + AllocGlobal,
    L: Log,
    I: Read + Drop,
    W: Write + Drop,
    H: Handler + Copy + Send + Sync,
    S: Store + Send,
>(
    rt: &R,
    told: &L,
    handler: H,
    store: S,
    inputs: Vec<(&str, I)>,
    output: W,
    asked: &FeedsWords<'_>,
    shows: bool,
) -> u8
    requires { S.log store ≡ [] }
{
    let alloc = rt.alloc();
    let Some(read) = read_all(told, alloc, inputs) else {
        return 1;
    };
    let Feeds { steps, faults } = read;
    if steps.len() > MAX_FEEDS {
        return too_many(told);
    }
    let count = count_steps(steps.as_slice());
    let bar = Bar::new(rt, shows.then_some(count));
    let ran = run_feeds(rt, alloc, handler, store, steps, &Counting(&bar));
    bar.clear();
    match ran {
        Ok(closed) => {
            let status = write_all(
                told,
                alloc,
                &handler,
                output,
                &closed,
                faults.as_slice(),
                asked,
            );
            closed.forget();
            status
        }
        Err(fault) => {
            tell_run(told, fault);
            1
        }
    }
}

/// How many steps all feeds have.
fn count_steps(feeds: &[Vec<Step>]) -> u64 {
    let mut count = 0u64;
    for steps in feeds {
        count = count.saturating_add(steps.len() as u64);
    }
    count
}

/// Reads all inputs, in order. None where one can't be read, which is told.
fn read_all<L: Log, I: Read + Drop>(
    told: &L,
    alloc: Global,
    inputs: Vec<(&str, I)>,
) -> Option<Feeds> {
    let left = Cell::new(MOST);
    let mut steps = Vec::new(alloc);
    let mut faults = Vec::new(alloc);
    for (path, input) in inputs {
        match read_one(alloc, Budgeted::new(&left, input)) {
            Ok((own_steps, own_faults)) => {
                if steps.push(own_steps).is_err() || faults.push(own_faults).is_err() {
                    tell_read(told, path, ServeFault::NoMemory, left.get());
                    return None;
                }
            }
            Err(fault) => {
                tell_read(told, path, fault, left.get());
                return None;
            }
        }
    }
    Some(Feeds { steps, faults })
}

/// Opens the files of these paths, in order, each with its path. None where one can't be opened, which is told.
pub fn open_feeds<'a, R: Files<File = File>, L: Log>(
    rt: &R,
    told: &L,
    alloc: Global,
    paths: &[&'a str],
) -> Option<Vec<(&'a str, File)>> {
    let mut inputs = Vec::new(alloc);
    for path in paths {
        let file = match File::open(rt, *path) {
            Ok(file) => file,
            Err(error) => {
                error!(told; "can't open {path:?}: {error}");
                return None;
            }
        };
        if inputs.push((*path, file)).is_err() {
            error!(told; "there is no memory for the feeds: no step is done");
            return None;
        }
    }
    Some(inputs)
}

/// Reads an input.
fn read_one<I: Read + Drop>(alloc: Global, input: I) -> Result<(Vec<Step>, Faults), ServeFault> {
    let Ok(reader) = BufReader::with_capacity(alloc, BLOCK, input) else {
        return Err(ServeFault::NoMemory);
    };
    let found = read_feed(alloc, &mut Counted::new(reader))?;
    match split(alloc, found) {
        Ok(feed) => Ok(feed),
        Err(NoMemory) => Err(ServeFault::NoMemory),
    }
}

/// The steps among the lines, and which lines are none.
fn split(
    alloc: Global,
    found: Vec<Result<Step, LineFault>>,
) -> Result<(Vec<Step>, Faults), NoMemory> {
    let mut steps = Vec::new(alloc);
    let mut faults = Vec::new(alloc);
    for line in found {
        match line {
            Ok(step) => {
                steps.push(step)?;
                faults.push(None)?;
            }
            Err(fault) => faults.push(Some(fault))?,
        }
    }
    Ok((steps, faults))
}

/// Writes the replies to all feeds, and the audit lines where they are asked for.
fn write_all<L: Log, H: Handler, S: Store, W: Write + Drop>(
    told: &L,
    alloc: Global,
    handler: &H,
    output: W,
    closed: &Closed<H, S>,
    faults: &[Faults],
    asked: &FeedsWords<'_>,
) -> u8 {
    let Ok(writer) = BufWriter::with_capacity(alloc, BLOCK, output) else {
        return no_replies(told);
    };
    let mut writer = Counted::new(writer);
    let written = write_feeds(alloc, &mut writer, closed, faults);
    let flushed = writer.inner.flush();
    if written.is_err() || flushed.is_err() {
        return cannot_write(told);
    }
    tell_answered(told, count_lines(faults), faults.len());
    tell_kept(told, closed.book().host(), asked.verbosity);
    if asked.audit {
        audit_all(told, alloc, handler, &mut writer.inner, closed.book())
    } else {
        0
    }
}

fn too_many<L: Log>(told: &L) -> u8 {
    error!(told; "there are too many feeds: name at most {MAX_FEEDS} files");
    1
}

fn no_replies<L: Log>(told: &L) -> u8 {
    error!(told; "there is no memory for the replies: all steps are done, and none is answered");
    1
}

fn cannot_write<L: Log>(told: &L) -> u8 {
    error!(told; "the replies can't be written: all steps are done, and replies are missing");
    1
}

/// Tells how many lines of how many feeds were answered.
fn tell_answered<L: Log>(told: &L, lines: u64, feeds: usize) {
    info!(told; "answered {} of {}", Plural(lines, "line"), Plural(feeds as u64, "feed"));
}

/// How many lines all feeds have.
fn count_lines(feeds: &[Faults]) -> u64 {
    let mut count = 0u64;
    for lines in feeds {
        count = count.saturating_add(lines.len() as u64);
    }
    count
}

/// Writes the replies to all feeds, in their order.
fn write_feeds<H: Handler, S: Store, W: Write>(
    alloc: Global,
    writer: &mut Counted<W>,
    closed: &Closed<H, S>,
    faults: &[Faults],
) -> Result<(), ServeFault> {
    let mut feed = 0u32;
    for lines in faults {
        let Ok(replies) = closed.replies(feed) else {
            return Err(ServeFault::NoMemory);
        };
        write_feed(alloc, writer, lines.as_slice(), replies.as_slice())?;
        feed = feed.wrapping_add(1);
    }
    Ok(())
}

/// Writes the reply to each line of a feed, in order.
fn write_feed<W: Write>(
    alloc: Global,
    writer: &mut Counted<W>,
    lines: &[Option<LineFault>],
    replies: &[Reply],
) -> Result<(), ServeFault> {
    let mut left = replies.iter();
    let mut text = Vec::new(alloc);
    for line in lines {
        match line {
            Some(fault) => put_reply(writer, &mut text, &fault_reply(*fault))?,
            None => {
                if let Some(reply) = left.next() {
                    put_reply(writer, &mut text, reply)?;
                }
            }
        }
    }
    Ok(())
}

/// Says why a feed can't be read, where so many bytes were left for it and those behind it.
fn tell_read<L: Log>(told: &L, path: &str, fault: ServeFault, left: u64) {
    match fault {
        ServeFault::NoMemory => {
            error!(told; "there is no memory for the feed {path:?}: no step is done");
        }
        _ if left == 0 => {
            error!(told; "the feeds have more than {MOST} bytes, up to {path:?}: no step is done; run them in parts");
        }
        _ => {
            error!(told; "the feed {path:?} can't be read: no step is done");
        }
    }
}

/// Says why the run gave no book.
fn tell_run<L: Log>(told: &L, fault: RunFault) {
    match fault {
        RunFault::NoMemory => {
            error!(told; "there is no memory for a step: the run ends, and no reply is written");
        }
        RunFault::NoThread => {
            error!(told; "a thread can't be started: the run ends, and no reply is written");
        }
        RunFault::Unmatched => {
            error!(told; "the history is not that of the feeds: no reply is written");
        }
    }
}
