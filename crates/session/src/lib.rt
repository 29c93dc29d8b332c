//! Session numbers: how many receipts a unit took from each source, and how many letters it sent to
//! each unit. A session is a pair of a source and a unit.
//!
//! - `Sessions`: the counts of one unit. Contracts see them as `Counts` of `specs/Counts`.
//! - `Arrival`: whether a receipt is the next of its session, a repeat, or leaves a gap.
//! - `Exchange`: what passed between two units.
//!
//! That these counts are those of the receipts and sends along a unit's path is a law of `layer_laws`.
//!
//! For the writer of another host whose units exchange numbered messages. A caller:
//!
//! ```
//! /// Counts a receipt if it is the next of its session, and tells whether it was.
//! pub fn take_next(sessions: &mut Sessions, source: Source, number: u64) -> bool
//!     ensures { IsTrue result → sessions.new ≡ advanced sessions.old source }
//! {
//!     if !matches!(sessions.test(source, number), Arrival::Next) || !sessions.has_room(source, 0) {
//!         return false;
//!     }
//!     sessions.advance(source);
//!     true
//! }
//! ```
#![tactic(auto)]

mod arrival;
mod exchange;
mod sessions;

pub use arrival::Arrival;
pub use exchange::Exchange;
pub use sessions::Sessions;
