//! Several hosts as one: tenants are dealt to shards by their names, and the lines of a block are read and stepped in
//! threads.
//!
//! - `Shards`: some hosts, one for each thread. By isolation no tenant can tell that others stand on another host.
//! - `serve_shards`: answers each line of a reader, in order, as `lines::serve_host` does. What the reader shows at
//!   once is a block: its lines are read in threads and dealt, each shard does its own steps in a thread of its own,
//!   and the replies are written in the order of the lines.
//! - `drive_shards`: the same as `driver::drive_host` does. Each host has a driver of its own, whose steps behind a
//!   line are all for the line's tenant.
//! - `driven_run` (`laws`): what a run of new hosts that are driven is as a whole.
//!
//! `dealing` says which book some hosts stand for together, and its law `shards_run` what a run by them is as a
//! whole. `specs/Kept` says what is kept of a line, `specs/Blocks` what is read of a block and what is written of it,
//! and `specs/Underway` how far answering is. There an answer is a text: a reply's, or all that is written of a round.
//!
//! For a program that has more than one core. A caller:
//!
//! ```
//! let mut shards = Shards::new(alloc, Host::new(alloc, handler, MemoryStore::new(alloc)))?;
//! for _ in 1..cores {
//!     shards.add(Host::new(alloc, handler, MemoryStore::new(alloc)))?;
//! }
//! let count = serve_shards(rt, alloc, &mut reader, &mut writer, &mut shards)?;
//! ```
#![tactic(auto)]

mod answering;
mod block;
mod deal;
mod desk;
mod faults;
mod kept;
mod laws;
mod place;
mod reading;
mod serving;
mod shard;
mod shards;
mod span;
mod stepping;
mod writing;

pub use laws::driven_run;
pub use serving::{drive_shards, serve_shards};
pub use shards::Shards;
