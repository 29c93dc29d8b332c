//! One recovery unit of a tenant, by lists: what it keeps of its path, and how it goes back to an
//! earlier interval by replay (checkpoints, logging and replay after Strom and Yemini 1985).
//!
//! - `RecoveryUnit`: seat, progress, the intervals from its base on, its volatile records, and its shelf of
//!   snapshots. Contracts see it as `Recovering` of `specs/Units`.
//! - `Progress`: state and sessions after an interval. A receipt and its replay are one function, `advance`.
//! - `Interval`: what is kept of an interval, its vector and the letter that it received.
//! - `RecordDraft`: what a receipt's record says, which is made at its place among the volatile ones.
//! - `UnitParts`: what a unit is made of, for whoever writes it down and reads it again.
//! - `Effects`: what the turn of a receipt sends and puts out.
//!
//! That what is kept is enough is said of the definitions in `compact`.
//!
//! For the writer of another host: one whole unit, without letters and outputs. A caller:
//!
//! ```
//! /// Shelves a snapshot of the last interval and forgets what is before it.
//! fn shelve(alloc: Global, unit: &mut RecoveryUnit<Sample>) -> Result<(), NoMemory> {
//!     if unit.volatile_count() == 0 {
//!         unit.checkpoint(alloc, &Sample)?;
//!     }
//!     let last = unit.last_index();
//!     if unit.has_snapshot(last) {
//!         unit.forget(last);
//!     }
//!     Ok(())
//! }
//! ```
#![tactic(auto)]

mod effects;
mod interval;
mod parts;
mod path;
mod progress;
mod record_draft;
mod replay;
mod shelving;
mod unit;

pub use effects::Effects;
pub use interval::Interval;
pub use parts::UnitParts;
pub use progress::Progress;
pub use record_draft::RecordDraft;
pub use unit::RecoveryUnit;
