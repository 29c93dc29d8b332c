//! A host as bytes, and back.
//!
//! - `save`, `load`: a host with its records in memory as bytes, and the host of such bytes, which is an equal one and
//!   so the replay of the same histories.
//! - `load_earlier`: the host of bytes of an earlier version of the form, by no law.
//! - `LoadFault`: why bytes aren't those of a host.
//!
//! The bytes are `RECALLSN`, the version of the form, a SHA-256 digest of all that follows it, a name of the handler
//! that the caller gives, the tenants in the order of opening, and the log with its live records, each by the codes of
//! `codec`. `specs/Hosts` says what a snapshot of a host is.
#![tactic(auto)]

mod earlier_forms;
mod entries;
mod holds;
mod load_fault;
mod log;
mod members;
mod outlets;
mod progress;
mod saved;
mod sealing;
mod tenants;
mod unit;

pub use earlier_forms::load_earlier;
pub use load_fault::LoadFault;
pub use saved::{load, save};
