//! What a tenant's units wait for, told to people and to programs.
//!
//! - `why_on` (`why`): each output that a unit holds, what it waits for, and the shortest list of steps that lets it
//!   go;
//! - `status_on` (`status`): a row for each unit, what is stuck longest first;
//! - `rows`: those rows; `parts`: where each tenant's entries stand; `replaying`: the lines that are looked at,
//!   stepped anew; `values`: what is told as JSON.
//!
//! What is told follows from `diagram::Situation`, and the steps are those of `reasons::remedies`. No clause says
//! that they help: `tests/views` gives them.
//!
//! For `host_cli`, which has the words. A caller:
//!
//! ```
//! why_on(rt, &told, handler, MemoryStore::new(alloc), &asked)
//! ```
#![tactic(auto)]

mod parts;
mod replaying;
mod rows;
mod status;
mod values;
mod why;

pub use status::status_on;
pub use why::why_on;
