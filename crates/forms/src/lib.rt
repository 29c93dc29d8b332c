//! The lines of the program: a line of JSON to a step, and a reply or a record to a line.
//!
//! - `read_step` (`reading`): the step that a line is; `read_addressed` gives it apart. `specs/Reading` says which line
//!   is which step, form by form, over the value that `serde_json` reads.
//! - `write_reply` (`writing`): the line that tells a reply, compact and with its keys in byte
//!   order. `specs/Writing` has the value of each reply.
//! - `write_record` (`records`): the line that tells a record of the log, in the same form.
//! - `LineFault` (`fault`): a line that is no step, or no memory to tell.
//!
//! None knows of line feeds or of the limit on a line's length: `lines` cuts the input.
//!
//! For whoever speaks the lines without serving them: a client, a tool. A caller:
//!
//! ```
//! /// The step that a line must be.
//! pub(crate) fn step_of(alloc: Global, line: &str) -> anyhow::Result<Step> {
//!     Ok(read_step(alloc, line.as_bytes())?)
//! }
//! ```
#![tactic(auto)]

mod fault;
mod reading;
mod records;
mod writing;

pub use fault::LineFault;
pub use reading::{read_addressed, read_step};
pub use records::write_record;
pub use writing::write_reply;
