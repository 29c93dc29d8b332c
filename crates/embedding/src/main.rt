//! A program that answers step lines over streams of its own, and has no words.
//!
//! The lines of standard input are answered by `run_on`, which writes to standard output; the status that it tells
//! stands in a line behind. Then there are runs whose writer has room for 0, 1, 2 and so on bytes, and fails then: the
//! program tells for which room a run first ends with 0, with audits and without. Last the same is told of `feeds_on`,
//! whose two feeds are the first line: which comes first is told by nothing, but both replies together have one length.
#![tactic(auto)]

use anyhow::bail;
use feed_runs::feeds_on;
use handler::Sample;
use runs::{Hosted, run_on};
use shared_log::MemoryStore;
use stable_log::FuseWriter;
use std::io;
use std::io::Read;
use std::sync::Wait;
use std::thread::Threads;
use std::time::Clock;

/// What is hosted.
const HOSTED: Hosted<'static, Sample> = Hosted {
    handler: Sample,
    kinds: &["echo", "relay", "count", "adder", "tee"],
};

/// The most bytes that a writer has room for here.
const MOST_ROOM: usize = 10_000;

fn main(rt: HostRuntime) -> anyhow::Result<()> {
    let mut steps = Vec::new(rt.alloc());
    rt.reader().read_to_end(&mut steps)?;
    let steps = steps.as_slice();
    let store = MemoryStore::new(rt.alloc());
    let status = run_on(&rt, HOSTED, steps, io::writer(&rt), store, true);
    println!(rt; "run_on: {status}")?;
    for audit in [true, false] {
        println!(rt;
            "run_on, audit {audit}: a writer needs room for {} bytes",
            run_room(&rt, steps, audit)?
        )?;
    }
    for audit in [true, false] {
        println!(rt;
            "feeds_on, audit {audit}: a writer needs room for {} bytes",
            feeds_room(&rt, first_line(steps), audit)?
        )?;
    }
    Ok(())
}

/// The first line, with its line feed.
fn first_line(steps: &[u8]) -> &[u8] {
    match steps.iter().position(|byte| *byte == b'\n') {
        Some(end) => &steps[..end + 1],
        None => steps,
    }
}

/// The least room of a writer for which a run ends well.
fn run_room<R: Threads + Sync + AllocGlobal>(
    rt: &R,
    steps: &[u8],
    audit: bool,
) -> anyhow::Result<usize> {
    let alloc = rt.alloc();
    for room in 0..MOST_ROOM {
        let writer = FuseWriter::new(alloc, room);
        if run_on(rt, HOSTED, steps, writer, MemoryStore::new(alloc), audit) == 0 {
            return Ok(room);
        }
    }
    bail!("no writer had enough room")
}

/// The same of two equal feeds.
fn feeds_room<R: Threads + Wait + Sync + Eprint + Clock + AllocGlobal>(
    rt: &R,
    steps: &[u8],
    audit: bool,
) -> anyhow::Result<usize> {
    for room in 0..MOST_ROOM {
        if feeds_status(rt, steps, room, audit)? == 0 {
            return Ok(room);
        }
    }
    bail!("no writer had enough room")
}

/// How two equal feeds end whose writer has so much room.
fn feeds_status<R: Threads + Wait + Sync + Eprint + Clock + AllocGlobal>(
    rt: &R,
    steps: &[u8],
    room: usize,
    audit: bool,
) -> anyhow::Result<u8> {
    let alloc = rt.alloc();
    let mut inputs = Vec::new(alloc);
    inputs.push(steps)?;
    inputs.push(steps)?;
    let writer = FuseWriter::new(alloc, room);
    Ok(feeds_on(rt, Sample, inputs, writer, audit))
}
