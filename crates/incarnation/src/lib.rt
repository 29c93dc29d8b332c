//! The table that tells where each incarnation of each unit starts (after the incarnation start table
//! of Strom and Yemini 1985).
//!
//! - `StartTable`: the rows of a tenant. Contracts see it as their list, and its look-ups by
//!   `model`'s words for rows and marks: `mark_told`, `mark_lost`.
//! - `filed`: the rows of one unit; `starts`: a search among their starts.
//!
//! For the writer of another host whose units go back. A caller:
//!
//! ```
//! /// Begins a unit's next incarnation at this length of its path, where it has one left.
//! pub fn begin_next(table: &mut StartTable, unit: Unit, start: u64) -> Result<bool, NoMemory> {
//!     let latest = table.latest(unit);
//!     if latest >= MAX_INCARNATION {
//!         return Ok(false);
//!     }
//!     let incarnation = latest + 1;
//!     table.append(Row {
//!         unit,
//!         incarnation,
//!         start,
//!     })?;
//!     Ok(true)
//! }
//! ```
#![tactic(auto)]

mod filed;
mod starts;
mod table;

pub use table::StartTable;
