//! The records of a unit that are not on stable storage yet (optimistic recovery: logging lags behind
//! execution, Strom and Yemini 1985).
//!
//! Contracts see a `VolatileLog` as the list of its records, and how many more can be pushed without
//! a growth.
//!
//! For the writer of another host whose logging lags behind. A caller:
//!
//! ```
//! /// Keeps a record until it is logged.
//! pub fn keep(unlogged: &mut VolatileLog, logged: Record) -> Result<(), NoMemory>
//!     ensures ok { IfOk result (λ _. unlogged.new.records ≡ unlogged.old.records ++ logged ∷ []) }
//!     ensures err { OnErr result (unlogged.new.records ≡ unlogged.old.records) }
//! {
//!     unlogged.reserve(1)?;
//!     unlogged.push(logged);
//!     Ok(())
//! }
//! ```
#![tactic(auto)]

mod log;

pub use log::VolatileLog;
pub use model::Record;
