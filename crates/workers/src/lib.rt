//! Feeds in threads, with one logger.
//!
//! - `run_feeds`: one thread for each feed and one logger for everybody, over one book behind a
//!   lock. Turns are worked outside the lock, and committed only if the step still needs them. Each
//!   thread keeps the reply to each of its steps, as a receipt for the step.
//! - `Closed`: the book of a run that is over. Its history is legal, holds each step of each feed
//!   once, in the feed's order, and between them flushes by the logger alone.
//! - `Gate`: what a caller puts before and after each turn.
//! - `RunFault`: why a run gave no book.
//!
//! What the threads do is not trusted for any of this: the book keeps that it is the replay of its
//! history, and at the end `matched` compares that history with the feeds, and its replies with the
//! receipts that the threads kept.
//!
//! For a host that has several producers at once. A caller:
//!
//! ```
//! /// Whether two feeds meet before the turns of their posts, outside the lock.
//! pub(crate) fn feeds_meet<R: Threads + Wait + Sync>(rt: &R, alloc: Global) -> anyhow::Result<bool> {
//!     let meeting = Meeting::new();
//!     let store = MemoryStore::new(alloc);
//!     let steps = feeds(alloc, 1, ["x", "y"])?;
//!     run(rt, alloc, Sample, store, steps, &AtGate(&meeting))?;
//!     Ok(meeting.have_met())
//! }
//! ```
#![tactic(auto)]

mod closed;
mod fault;
mod gate;
mod job;
mod matched;
mod run;

pub use closed::Closed;
pub use fault::RunFault;
pub use gate::Gate;
pub use run::run_feeds;
