//! One recovery unit that counts: a bench for it, and a script that calls it.
//!
//! With words it takes receipts, with a flush each 100 and, each 1,000, a checkpoint that becomes the base; then fails
//! and is restored some times, and prints how far it has counted. The first word is the count of receipts, the second
//! that of restarts. `tests/bench-rollback` times it.
//!
//! Without words each line of standard input is a call of the unit (`script`), and what it gave is printed with what
//! the unit is then. So each public call is seen with ample memory.
#![tactic(auto)]

mod bench;
mod receipts;
mod script;

use script::{Bench, number, obey, state};
use std::mem;

fn main(rt: HostRuntime) -> anyhow::Result<()> {
    let words: Vec<String> = std::env::args(&rt)?.collect(rt.alloc())?;
    match words.get(1) {
        Some(receipts) => timed(&rt, receipts, words.get(2)),
        None => scripted(&rt),
    }
}

/// Takes so many receipts, and restarts so many times.
fn timed(rt: &HostRuntime, receipts: &String, restarts: Option<&String>) -> anyhow::Result<()> {
    let receipts = number(receipts.as_str())?;
    let restarts = match restarts {
        Some(word) => number(word.as_str())?,
        None => 0,
    };
    let counted = bench::run(rt.alloc(), receipts, restarts)?;
    println!(rt; "{receipts} receipts, {restarts} restarts: {counted:?}")?;
    Ok(())
}

/// Makes the calls of standard input.
fn scripted(rt: &HostRuntime) -> anyhow::Result<()> {
    let mut bench = Bench::begin(rt.alloc())?;
    let done = obey_all(rt, &mut bench);
    mem::forget(bench);
    done
}

fn obey_all(rt: &HostRuntime, bench: &mut Bench) -> anyhow::Result<()> {
    for line in rt.lines(rt.alloc()) {
        let line = line?;
        let said = obey(rt.alloc(), bench, line.as_str())?;
        let state = state(rt.alloc(), bench)?;
        println!(rt; "{line}: {said}")?;
        println!(rt; "  {state}")?;
    }
    Ok(())
}
