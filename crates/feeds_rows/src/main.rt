//! What no clause says of feeds: that they work at once and outside the lock, that the logger flushes meanwhile, that a
//! turn which another feed made stale is asked for again, and that a run with ample memory and threads gives a book.
//!
//! - `meeting`: threads that wait for each other;
//! - `gates`: what is put around the turns of feeds; `telling`: a store and a writer that tell of their first call;
//!   `together`: a handler whose turns wait for each other;
//! - `steps`: the steps of feeds;
//! - `at_once`, `logged`, `stale`, `whole`: the rows. Each prints what was seen.
#![tactic(auto)]

mod at_once;
mod calls;
mod gates;
mod logged;
mod meeting;
mod stale;
mod steps;
mod telling;
mod together;
mod whole;

use at_once::{feeds_meet, handlers_meet};
use logged::{log_is_written_meanwhile, logger_flushes_meanwhile};
use stale::{falls_back, is_asked_again};
use whole::{are_entered_whole, leave_no_history};

fn main(rt: HostRuntime) -> anyhow::Result<()> {
    let alloc = rt.alloc();
    told(
        &rt,
        "two feeds meet before their turns",
        feeds_meet(&rt, alloc)?,
    )?;
    told(
        &rt,
        "two feeds meet within their turns",
        handlers_meet(&rt, alloc)?,
    )?;
    told(
        &rt,
        "the logger flushes before a feed ends",
        logger_flushes_meanwhile(&rt, alloc)?,
    )?;
    told(
        &rt,
        "the log is written before a feed ends",
        log_is_written_meanwhile(&rt, alloc)?,
    )?;
    told(
        &rt,
        "a turn that was made stale is asked for again",
        is_asked_again(&rt, alloc)?,
    )?;
    told(
        &rt,
        "after three stale turns a step is done under the lock",
        falls_back(&rt, alloc)?,
    )?;
    told(
        &rt,
        "two feeds of 100 steps are entered whole",
        are_entered_whole(&rt, alloc)?,
    )?;
    told(
        &rt,
        "no feeds leave no history",
        leave_no_history(&rt, alloc)?,
    )?;
    Ok(())
}

/// Prints whether something was seen.
fn told(rt: &HostRuntime, what: &str, was_seen: bool) -> anyhow::Result<()> {
    let seen = if was_seen { "yes" } else { "no" };
    println!(rt; "{what}: {seen}")?;
    Ok(())
}
