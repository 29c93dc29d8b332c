//! Running feeds in threads.

ghost use Rattle.std.specs.Prelude.{◌≡◌, ◌<◌, ◌^◌, [], IfOk, length, map, vec_len};
ghost use denote.Param.Send.{IsSend};
ghost use Rattle.book.specs.Entries.{CountsDevice};
ghost use Rattle.book.specs.History.{IsRecordedIn};
ghost use Rattle.model.specs.History.{IsLegal};
ghost use Rattle.workers.specs.Interleaves.{HasReceipts, Interleaves};

use crate::closed::Closed;
use crate::fault::RunFault;
use crate::gate::Gate;
use crate::job::{Job, Nudge, log_named};
use crate::matched::{has_all_receipts, is_matched};
use book::Book;
use crossbeam_channel::Sender;
use handler::Handler;
use model::{NoMemory, Reply, Step};
use shared_log::Store;
use std::alloc::Global;
use std::sync::{Mutex, Wait};
use std::thread;
use std::thread::{JoinHandle, Scope, Threads};

type Started = JoinHandle<Result<Vec<Reply>, NoMemory>>;

/// Starts the thread of a feed.
fn start<
    's,
    E,
    R: Threads + Wait + Sync,
    H: Handler + Copy + Send + Sync,
    S: Store + Send,
    G: Gate + Sync,
>(rt: &'s R, scope: &Scope<'s, E>, job: Job<'s, H, S, G>) -> Result<Started, RunFault> {
    match scope.spawn(move || job.run(rt)) {
        Ok(started) => Ok(started),
        Err(_) => Err(RunFault::NoThread),
    }
}

/// Starts a thread for each feed. The last sender goes with the last of them.
fn start_all<
    's,
    E,
    R: Threads + Wait + Sync,
    H: Handler + Copy + Send + Sync,
    S: Store + Send,
    G: Gate + Sync,
>(
    rt: &'s R,
    scope: &Scope<'s, E>,
    alloc: Global,
    handler: H,
    shared: &'s Mutex<Book<H, S>>,
    feeds: &'s [Vec<Step>],
    gate: &'s G,
    to: Sender<Nudge>,
) -> Result<Vec<Started>, RunFault> {
    let mut threads = Vec::new(alloc);
    let mut feed = 0u32;
    for steps in feeds {
        let Ok(nudges) = to.clone() else {
            return Err(RunFault::NoMemory);
        };
        let job = Job {
            alloc,
            handler,
            shared,
            gate,
            nudges,
            feed,
            steps: steps.as_slice(),
        };
        if threads.reserve(1).is_err() {
            return Err(RunFault::NoMemory);
        }
        threads.push_reserved(start(rt, scope, job)?);
        feed = feed.wrapping_add(1);
    }
    Ok(threads)
}

/// Waits for the threads, and gives the receipts of each.
fn join_all<R: Threads + Wait>(
    rt: &R,
    alloc: Global,
    threads: Vec<Started>,
) -> Result<Vec<Vec<Reply>>, RunFault> {
    let mut receipts = Vec::new(alloc);
    for started in threads {
        if receipts.reserve(1).is_err() {
            return Err(RunFault::NoMemory);
        }
        receipts.push_reserved(started.join(rt)?);
    }
    Ok(receipts)
}

/// Runs each feed in a thread of its own, beside one logger, and gives the receipts of each.
fn do_all<
    R: Threads + Wait + Sync,
    H: Handler + Copy + Send + Sync,
    S: Store + Send,
    G: Gate + Sync,
>(
    rt: &R,
    alloc: Global,
    handler: H,
    shared: &Mutex<Book<H, S>>,
    feeds: &[Vec<Step>],
    gate: &G,
) -> Result<Vec<Vec<Reply>>, RunFault> {
    thread::scope(
        thread::scope_env(),
        rt,
        |scope| -> Result<Vec<Vec<Reply>>, RunFault>
            requires { IsSend S.row × IsSend H.State.row }
        {
            let Ok((to, from)) = crossbeam_channel::unbounded(alloc) else {
                return Err(RunFault::NoMemory);
            };
            let Ok(logger) = scope.spawn(move || log_named(rt, shared, from)) else {
                return Err(RunFault::NoThread);
            };
            let threads = start_all(rt, scope, alloc, handler, shared, feeds, gate, to)?;
            let receipts = join_all(rt, alloc, threads)?;
            logger.join(rt);
            Ok(receipts)
        },
    )
}

/// Closes a book whose history is that of the feeds, and has the replies that their threads kept as
/// receipts.
fn gather<H: Handler, S: Store>(
    alloc: Global,
    book: Book<H, S>,
    feeds: &[Vec<Step>],
    receipts: &[Vec<Reply>],
) -> Result<Closed<H, S>, RunFault>
    requires { length feeds.now < 2 ^ 32 }
    ensures interleaves { IfOk result (λ c. Interleaves (map (λ f. f.items) feeds.now) c.history) }
    ensures legal { IfOk result (λ c. IsLegal H.meaning c.history) }
    ensures recorded { IfOk result (λ c. IsRecordedIn H.meaning c.history c.log.records) }
    ensures device { IfOk result (λ c. CountsDevice c.history c.log.failures) }
    ensures same { IfOk result (λ c. c ≡ book) }
    ensures received { IfOk result (λ c. HasReceipts (length feeds.now) (map (λ r. r.items) receipts.now) c.history) }
{
    let history = book.history();
    if is_matched(history, feeds) && has_all_receipts(history, feeds.len(), receipts) {
        Ok(Closed::new(alloc, book))
    } else {
        Err(RunFault::Unmatched)
    }
}

/// Runs each feed in a thread of its own over one book, beside one logger for everybody, and gives
/// the closed book. It waits for all of them.
///
/// A feed's steps are done in order. The input of a step's turn is prepared under the lock, the
/// turn is worked outside it, and the step is committed if it still needs that turn. Where it needs
/// none, or was given back three times, it is done under the lock. After each accepted post, and each
/// accepted delivery whose turn was asked for, the logger is nudged, and flushes that unit. The thread keeps the
/// reply to each step, and at the end these receipts are compared with the history's replies to the feed.
///
/// On `Ok` the history is legal, holds each step of each feed once, in its feed's order, and between
/// them flushes by the logger alone; and no more entries say that the device failed than it counted
/// failures. `NoMemory` comes where there was none for a list, or for a step of a feed; `NoThread`
/// where a thread can't be started; `Unmatched` where the history isn't that of the feeds, or a
/// receipt isn't in it as its feed has it. There is no book then.
pub fn run_feeds<
    R: Threads + Wait + Sync,
    H: Handler + Copy + Send + Sync,
    S: Store + Send,
    G: Gate + Sync,
>(
    rt: &R,
    alloc: Global,
    handler: H,
    store: S,
    feeds: Vec<Vec<Step>>,
    gate: &G,
) -> Result<Closed<H, S>, RunFault>
    requires store { S.log store ≡ [] }
    requires feeds { vec_len feeds < 2 ^ 32 }
    ensures interleaves { IfOk result (λ c. Interleaves (map (λ f. f.items) feeds.items) c.history) }
    ensures legal { IfOk result (λ c. IsLegal H.meaning c.history) }
    ensures recorded { IfOk result (λ c. IsRecordedIn H.meaning c.history c.log.records) }
    ensures device { IfOk result (λ c. CountsDevice c.history c.log.failures) }
{
    let shared = Mutex::new(Book::new(alloc, handler, store));
    let receipts = do_all(rt, alloc, handler, &shared, feeds.as_slice(), gate)?;
    gather(
        alloc,
        shared.into_inner(),
        feeds.as_slice(),
        receipts.as_slice(),
    )
}
