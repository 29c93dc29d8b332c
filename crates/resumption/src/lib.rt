//! What a journaled run goes on from, and what it keeps.
//!
//! - `Snapshots`: where a run finds the snapshot of its journal, and keeps others, thin over `snapshot` and `files`;
//! - `Keeper`: the snapshots of a run that goes on, each behind so many lines;
//! - `trim_on`: `trim`.
//!
//! For `runs` and `host_cli`. A caller:
//!
//! ```
//! let begun = snapshots.begun(told, alloc, &hosted.handler, &locked, asked);
//! ```
#![tactic(auto)]

mod snapshots;

pub use snapshots::{Begun, Keeper, Snapshots, trim_on};
