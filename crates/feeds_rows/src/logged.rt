//! The logger beside a feed.

ghost use Rattle.std.specs.Prelude.{◌<◌, ◌^◌, IfOk, vec_len};

use crate::calls::{run, run_through};
use crate::gates::UntilTold;
use crate::steps::feed;
use crate::telling::{Telling, TellingWriter};
use handler::Sample;
use model::{NoMemory, Step};
use stable_log::{MemoryStore, WriterStore};
use std::alloc::Global;
use std::sync::Wait;
use std::sync::atomic::{AtomicBool, Ordering};
use std::thread::Threads;

/// One feed with an opening and two posts.
fn two_posts(alloc: Global) -> Result<Vec<Vec<Step>>, NoMemory>
    ensures { IfOk result (λ all. vec_len all < 2 ^ 32) }
{
    let mut steps = Vec::new(alloc);
    steps.push(feed(alloc, "a", 2, "x")?)?;
    Ok(steps)
}

/// Whether the first post is given to the store before the second post's turn.
pub(crate) fn logger_flushes_meanwhile<R: Threads + Wait + Sync>(
    rt: &R,
    alloc: Global,
) -> anyhow::Result<bool> {
    let appended = AtomicBool::new(false);
    let seen = AtomicBool::new(false);
    let store = Telling {
        inner: MemoryStore::new(alloc),
        appended: &appended,
    };
    let gate = UntilTold {
        told: &appended,
        seen: &seen,
    };
    run_through(rt, alloc, Sample, store, two_posts(alloc)?, &gate)?;
    Ok(seen.load(Ordering::SeqCst))
}

/// Whether the first post's line is written to the log before the second post's turn.
pub(crate) fn log_is_written_meanwhile<R: Threads + Wait + Sync>(
    rt: &R,
    alloc: Global,
) -> anyhow::Result<bool> {
    let written = AtomicBool::new(false);
    let seen = AtomicBool::new(false);
    let store = WriterStore::new(alloc, TellingWriter(&written));
    let gate = UntilTold {
        told: &written,
        seen: &seen,
    };
    run(rt, alloc, Sample, store, two_posts(alloc)?, &gate)?;
    Ok(seen.load(Ordering::SeqCst))
}
