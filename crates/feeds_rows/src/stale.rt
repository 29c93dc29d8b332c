//! A turn that another feed makes stale.
//!
//! Unit 0 is a `tee`, which sends a letter to unit 1, a `count`, upon each text. Feed 0 opens the tenant, posts to
//! unit 0 three times, and delivers some of the letters; feed 1, once these are made, posts to unit 1. Each delivery
//! changes the state that the post's turn was asked for.

ghost use Rattle.std.specs.Prelude.{◌<◌, ◌^◌, IfOk, vec_len};

use crate::calls::{replies, run};
use crate::gates::Overtaking;
use crate::steps::{both, deliver, open, post, push, push_posts};
use handler::Sample;
use model::{Mark, NoMemory, Reply, Step};
use stable_log::MemoryStore;
use std::alloc::Global;
use std::sync::Wait;
use std::sync::atomic::{AtomicBool, AtomicU32, Ordering};
use std::thread::Threads;
use workers::Closed;

/// How many letters are made.
const LETTERS: u32 = 3;

/// The feed that opens the tenant, and delivers so many letters.
fn first_feed(alloc: Global, deliveries: u32) -> Result<Vec<Step>, NoMemory> {
    let mut steps = Vec::new(alloc);
    push(&mut steps, open(alloc, "a", &["tee", "count"]))?;
    push_posts(alloc, &mut steps, "a", LETTERS, "x")?;
    for letter in 0..deliveries {
        push(&mut steps, deliver(alloc, "a", letter))?;
    }
    Ok(steps)
}

/// The feed that is overtaken. What it does for a tenant of its own is a place to wait at.
fn second_feed(alloc: Global) -> Result<Vec<Step>, NoMemory> {
    let mut steps = Vec::new(alloc);
    push(&mut steps, open(alloc, "b", &["echo"]))?;
    push(&mut steps, post(alloc, "b", 0, 0, "y"))?;
    push(&mut steps, post(alloc, "a", 1, 0, "y"))?;
    Ok(steps)
}

fn steps(alloc: Global, deliveries: u32) -> Result<Vec<Vec<Step>>, NoMemory>
    ensures { IfOk result (λ all. vec_len all < 2 ^ 32) }
{
    both(alloc, first_feed(alloc, deliveries)?, second_feed(alloc)?)
}

/// Whether the last of these replies is of a receipt that was accepted at this index.
fn ends_accepted_at(replies: &[Reply], index: u32) -> bool {
    let at = Mark {
        incarnation: 0,
        index,
    };
    match replies.last() {
        Some(Reply::Accepted { at: found, .. }) => *found == at,
        _ => false,
    }
}

/// How often the turn of a post was asked for that was overtaken so often; none where it wasn't accepted behind the
/// letters that overtook it.
fn asked_when_overtaken<R: Threads + Wait + Sync>(
    rt: &R,
    alloc: Global,
    times: u32,
) -> anyhow::Result<Option<u32>> {
    let ready = AtomicBool::new(false);
    let asked = AtomicU32::new(0);
    let delivered = AtomicU32::new(0);
    let gate = Overtaking {
        times,
        ready: &ready,
        asked: &asked,
        delivered: &delivered,
    };
    let store = MemoryStore::new(alloc);
    let closed = run(rt, alloc, Sample, store, steps(alloc, times)?, &gate)?;
    let is_accepted = is_behind(&closed, times.saturating_add(1));
    closed.forget();
    Ok(if is_accepted? {
        Some(asked.load(Ordering::SeqCst))
    } else {
        None
    })
}

/// Whether the second feed's post was accepted at this index.
fn is_behind(closed: &Closed<Sample, MemoryStore>, index: u32) -> anyhow::Result<bool> {
    let told = replies(closed, 1)?;
    Ok(ends_accepted_at(told.as_slice(), index))
}

/// Whether a turn that was made stale once is asked for once more.
pub(crate) fn is_asked_again<R: Threads + Wait + Sync>(
    rt: &R,
    alloc: Global,
) -> anyhow::Result<bool> {
    Ok(asked_when_overtaken(rt, alloc, 1)? == Some(2))
}

/// Whether a step whose turn was made stale three times is done all the same, and its turn not asked for again.
pub(crate) fn falls_back<R: Threads + Wait + Sync>(rt: &R, alloc: Global) -> anyhow::Result<bool> {
    Ok(asked_when_overtaken(rt, alloc, 3)? == Some(3))
}
