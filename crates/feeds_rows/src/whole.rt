//! What a run leaves.

use crate::calls::{history, replies, run};
use crate::gates::Idle;
use crate::steps::feeds;
use handler::Sample;
use model::{Entry, Mark, Reply, Who};
use stable_log::MemoryStore;
use std::alloc::Global;
use std::sync::Wait;
use std::thread::Threads;
use workers::Closed;

type Whole = Closed<Sample, MemoryStore>;

/// How many posts a feed has between its opening and its status.
const POSTS: u32 = 98;

/// Whether these are an opening, 98 posts that were accepted, and a status after them.
fn are_all_accepted(replies: &[Reply]) -> bool {
    let accepted = replies
        .iter()
        .filter(|reply| matches!(reply, Reply::Accepted { .. }))
        .count();
    replies.len() == 100
        && accepted == 98
        && matches!(&replies[0], Reply::Opened { units: 1 })
        && is_status_after_posts(&replies[99])
}

fn is_status_after_posts(reply: &Reply) -> bool {
    let last = Mark {
        incarnation: 0,
        index: POSTS,
    };
    match reply {
        Reply::Status { at, outside, .. } => *outside == u64::from(POSTS) && *at == last,
        _ => false,
    }
}

/// How many of these entries are by feeds.
fn count_by_feeds(entries: &[Entry]) -> usize {
    entries
        .iter()
        .filter(|entry| matches!(&entry.who, Who::Feed { .. }))
        .count()
}

/// Whether two feeds of 100 steps have all their replies, and the history all their steps.
pub(crate) fn are_entered_whole<R: Threads + Wait + Sync>(
    rt: &R,
    alloc: Global,
) -> anyhow::Result<bool> {
    let store = MemoryStore::new(alloc);
    let steps = feeds(alloc, POSTS, ["x", "y"])?;
    let closed = run(rt, alloc, Sample, store, steps, &Idle)?;
    let found = are_whole(&closed);
    closed.forget();
    found
}

/// Whether each of two feeds had all accepted, a third has no replies, and the history has the steps of both.
fn are_whole(closed: &Whole) -> anyhow::Result<bool> {
    Ok(
        is_accepted(closed, 0)?
            && is_accepted(closed, 1)?
            && has_no_replies(closed, 2)?
            && count_by_feeds(history(closed)) == 200,
    )
}

fn is_accepted(closed: &Whole, feed: u32) -> anyhow::Result<bool> {
    let told = replies(closed, feed)?;
    Ok(are_all_accepted(told.as_slice()))
}

fn has_no_replies(closed: &Whole, feed: u32) -> anyhow::Result<bool> {
    let told = replies(closed, feed)?;
    Ok(told.is_empty())
}

/// Whether no feeds leave an empty history.
pub(crate) fn leave_no_history<R: Threads + Wait + Sync>(
    rt: &R,
    alloc: Global,
) -> anyhow::Result<bool> {
    let store = MemoryStore::new(alloc);
    let closed = run(rt, alloc, Sample, store, Vec::new(alloc), &Idle)?;
    let is_empty = history(&closed).is_empty();
    closed.forget();
    Ok(is_empty)
}
