//! What a run that goes on from the lines of an earlier one needs beside a list of them that lasts, which `durable`
//! has.
//!
//! - `DurableReplies`: a writer of replies that lets none through that a later run may not keep, as
//!   `memory_is_told` says.
//! - `host_runs`: the law of a run as a whole, by a host.
//! - `repeats` and `goes_on`: the laws that a run on the lines of an earlier one gives its replies, and
//!   goes on from them; `hosts_repeat` and `hosts_go_on` say it of hosts.
//!
//! `specs/Promises` says which replies are refused, and `specs/GoingOn` what the laws say.
#![tactic(auto)]

mod durable_replies;
mod laws;

pub use durable_replies::DurableReplies;
pub use laws::{goes_on, host_runs, hosts_go_on, hosts_repeat, memory_is_told, repeats};
