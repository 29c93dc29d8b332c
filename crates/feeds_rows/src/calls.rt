//! A run of feeds, without what its contract says: the rows see it by what comes out.

ghost use Rattle.std.specs.Prelude.{◌≡◌, ◌<◌, ◌^◌, [], vec_len};

use handler::Handler;
use model::{Entry, Reply, Step};
use stable_log::Store;
use std::alloc::Global;
use std::sync::Wait;
use std::thread::Threads;
use workers::{Closed, Gate, run_feeds};

/// Runs the feeds.
pub(crate) fn run<
    R: Threads + Wait + Sync,
    H: Handler + Copy + Send + Sync,
    S: Store + Send,
    G: Gate + Sync,
>(
    rt: &R,
    alloc: Global,
    handler: H,
    store: S,
    feeds: Vec<Vec<Step>>,
    gate: &G,
) -> anyhow::Result<Closed<H, S>>
    requires store { S.log store ≡ [] }
    requires feeds { vec_len feeds < 2 ^ 32 }
{
    Ok(run_feeds(rt, alloc, handler, store, feeds, gate)?)
}

/// Runs the feeds, and leaves the closed book as it is: the program ends soon, and the proof of what a book lets go
/// of is long.
pub(crate) fn run_through<
    R: Threads + Wait + Sync,
    H: Handler + Copy + Send + Sync,
    S: Store + Send,
    G: Gate + Sync,
>(
    rt: &R,
    alloc: Global,
    handler: H,
    store: S,
    feeds: Vec<Vec<Step>>,
    gate: &G,
) -> anyhow::Result<()>
    requires store { S.log store ≡ [] }
    requires feeds { vec_len feeds < 2 ^ 32 }
{
    run(rt, alloc, handler, store, feeds, gate)?.forget();
    Ok(())
}

/// The replies to a feed.
pub(crate) fn replies<H: Handler, S: Store>(
    closed: &Closed<H, S>,
    feed: u32,
) -> anyhow::Result<Vec<Reply>> {
    Ok(closed.replies(feed)?)
}

/// The history of the closed book.
pub(crate) fn history<H: Handler, S: Store>(closed: &Closed<H, S>) -> &[Entry] {
    closed.book().history()
}
