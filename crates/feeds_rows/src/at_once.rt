//! Feeds that work at once.

use crate::calls::{run, run_through};
use crate::gates::{AtGate, Idle};
use crate::meeting::Meeting;
use crate::steps::feeds;
use crate::together::Together;
use handler::Sample;
use stable_log::MemoryStore;
use std::alloc::Global;
use std::sync::Wait;
use std::thread::Threads;

/// Whether two feeds meet before the turns of their posts, outside the lock.
pub(crate) fn feeds_meet<R: Threads + Wait + Sync>(rt: &R, alloc: Global) -> anyhow::Result<bool> {
    let meeting = Meeting::new();
    let store = MemoryStore::new(alloc);
    let steps = feeds(alloc, 1, ["x", "y"])?;
    run(rt, alloc, Sample, store, steps, &AtGate(&meeting))?;
    Ok(meeting.have_met())
}

/// Whether the turns of two feeds' posts are worked at once.
pub(crate) fn handlers_meet<R: Threads + Wait + Sync>(
    rt: &R,
    alloc: Global,
) -> anyhow::Result<bool> {
    let meeting = Meeting::new();
    let store = MemoryStore::new(alloc);
    let steps = feeds(alloc, 1, ["0", "1"])?;
    run_through(rt, alloc, Together(&meeting), store, steps, &Idle)?;
    Ok(meeting.have_met())
}
