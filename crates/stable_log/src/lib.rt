//! Stable storage: the shared log, and all stores that it may stand over.
//!
//! - `Store`, `StoreFault`, `MemoryStore`, `Records`, `SharedLog`: of the crate `shared_log` below,
//!   which the tenant stands on, so that an edit of a line's form doesn't prove the tenant again.
//! - `WriterStore`: keeps its records, and writes a line of JSON for each, for people to read. `device` counts the
//!   failures of its writer.
//! - `FuseStore`: fails the appends and fetches that it is told to, for tests.
//! - `FuseWriter`: takes some bytes and then fails, for tests.
//!
//! `specs/Writing` says what a writer store is seen as, and what its lines are.
//!
//! For whoever opens a book over a log that people can read, and for tests of what a failing store leaves. A caller:
//!
//! ```
//! /// Whether the first post's line is written to the log before the second post's turn.
//! pub(crate) fn log_is_written_meanwhile<R: Threads + Wait + Sync>(
//!     rt: &R,
//!     alloc: Global,
//! ) -> anyhow::Result<bool> {
//!     let written = AtomicBool::new(false);
//!     let seen = AtomicBool::new(false);
//!     let store = WriterStore::new(alloc, TellingWriter(&written));
//!     let gate = UntilTold {
//!         told: &written,
//!         seen: &seen,
//!     };
//!     run(rt, alloc, Sample, store, two_posts(alloc)?, &gate)?;
//!     Ok(seen.load(Ordering::SeqCst))
//! }
//! ```
#![tactic(auto)]

mod device;
mod fuse_store;
mod fuse_writer;
mod writer_store;

pub use fuse_store::FuseStore;
pub use fuse_writer::FuseWriter;
pub use shared_log::{MemoryStore, Records, SharedLog, Store, StoreFault};
pub use writer_store::WriterStore;
