//! What a driver remembers, and what it decides.
//!
//! - `Driver`: what it remembers between two lines, a `Flow` for each open tenant: which units are up and hold
//!   something, and the letters that wait (`Waiting`). `hear` takes in what a reply tells, and `Done` counts.
//! - `Chore`: a step that it gives. It delivers, flushes, notices and releases, and gives no other step.
//! - `Driver::encode` and `decode` (`memory`): what it remembers as bytes, and back.
//!
//! What it decides depends on what it heard alone. But for the step of a chore no clause says what that is: it is read,
//! and tested with the built program (`tests/drive`). The theorems of `driver` hold whichever steps it gives.
//!
//! For `driver`, which gives the steps. A caller:
//!
//! ```
//! let mut driver = Driver::new(alloc);
//! drive_host(alloc, &mut reader, &mut writer, &mut host, &mut driver)?;
//! ```
#![tactic(auto)]

mod chore;
mod driver;
mod flow;
mod memory;

pub use chore::Chore;
pub use driver::{Done, Driver, Subject, hear, refusal_of, subject_of};
pub use flow::{Chores, Fate, Flow, MAX_DELIVERIES, Waiting};
