//! Why a line was refused, and what would help: for whoever reads a program's complaints.
//!
//! - `reason`: the sentence for a line and the refusal that it was answered with.
//! - `wait_reason`: the same of a letter that has to wait, where it is known for what.
//! - `left_behind` (`held`): for what the first output waits that a release left behind; `Waits`: that alone;
//! - `remedies` (`mending`): the shortest list of steps by which an output leaves.
//! - `refusal_in`: the refusal that a reply line tells, if it tells one.
//!
//! A refused step is told by its own words and the refusal (`steps`), a line that is no step by the first thing that is
//! wrong with it (`bad_lines`), form by form (`keys`). Nothing is asked of the tenant: what a reason says follows from
//! the line and its reply, of a letter that waits from what it is given, and of an output from the history.
#![tactic(auto)]

mod bad_lines;
mod held;
mod keys;
mod mending;
mod reply;
mod steps;

pub use held::{Shown, Waits, add_remedies, left_behind};
pub use mending::{Action, Remedy, is_lost, remedies};
pub use reply::refusal_in;
pub use steps::{reason, wait_reason};
