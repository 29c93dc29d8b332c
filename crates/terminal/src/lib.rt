//! What a program tells people, and how it waits for its streams.
//!
//! - `Diagnostics`: what is logged goes to standard error, line by line;
//! - `Bar` and `Watched` (`bar`): how far a run is, where standard error is a terminal;
//! - `report_each` (`ticking`): a line of it after each so many seconds;
//! - `Patient`: a stream that is non-blocking is waited for; `BLOCK`: how much of one is read or written at once;
//! - `Plural`: a number with its noun.
//!
//! For `host_cli` and the crates below it that tell of files and runs. A caller:
//!
//! ```
//! warn!(told; "the journal {path:?} has {}", Plural(extent.lines, "line"));
//! ```
#![tactic(auto)]

mod bar;
mod diagnostics;
mod patient;
mod plural;
mod ticking;

pub use bar::{Bar, Pace, Progress, Watched, input_size};
pub use diagnostics::Diagnostics;
pub use patient::{BLOCK, Patient};
pub use plural::Plural;
pub use ticking::report_each;
