//! A flow that runs itself: step lines in, reply lines and what was released out.
//!
//! - `drive`, `drive_host` (`driving`): answer each line of a reader as `serve` does, and then carry on for its tenant:
//!   letters are delivered, what they made is logged, and what is firm is released, a line for each text.
//!   `drive_host_step` does so of one step.
//! - `Driver`, `Flow`, `Waiting`, `Done` and `Chore` are those of `flows`: what it remembers between two lines, and
//!   which steps it gives.
//! - `outputs`: the line of a text that left.
//! - `released_is_told`, `book_released_is_told` (`laws`): each unit's output lines, and the outputs in its `release`
//!   replies, are what it released.
//!
//! What the driver does depends on the lines alone: not on a clock, nor on how the input comes. So the same lines
//! give the same bytes. `specs/Driving` says what is written, whatever the driver chooses to do; what it chooses is
//! read and tested.
//!
//! For a host whose user has inputs and wants outputs. A caller:
//!
//! ```
//! /// What a new host's driver writes upon these step lines.
//! fn driven(alloc: Global, steps: &[u8]) -> Result<Vec<u8>, ServeFault> {
//!     let mut reader = Counted::new(steps);
//!     let mut writer = Counted::new(Vec::new(alloc));
//!     let mut host = Host::new(alloc, Sample, MemoryStore::new(alloc));
//!     drive_host(alloc, &mut reader, &mut writer, &mut host, &mut Driver::new(alloc))?;
//!     Ok(writer.inner)
//! }
//! ```
#![tactic(auto)]

mod driving;
mod laws;
mod outputs;

pub use driving::{drive, drive_host, drive_host_step};
pub use flows::{Chore, Done, Driver, Flow, MAX_DELIVERIES, Waiting};
pub use laws::{book_released_is_told, released_is_told};
