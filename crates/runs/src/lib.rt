//! `run` and `drive`, for any handler: step lines in, reply lines out, and of `drive` what was released.
//!
//! - `run_asked` (`run`): reads and writes by blocks; `run_on`: so without words, over any streams; `run_in_memory`: so
//!   over stores in memory, on one core or several;
//! - `run_journaled` (`journaled_run`): the same behind a journal, thin over `durable` and `journal`, which carry
//!   their own theorems;
//! - `Engine`: a host, several of them, or a book where the past is asked for, thin over `serve_host` and `serve` of
//!   `lines`, `serve_shards` of `shards`, and `drive_host` and `drive` of `driver`, which carry the theorems.
//!
//! For `host_cli`, which has the streams and the words. A caller:
//!
//! ```
//! run_in_memory(rt, told, alloc, Hosted { handler, kinds: program.kinds }, input, output, cores, &run)
//! ```
#![tactic(auto)]

mod engine;
mod journaled_run;
mod run;

pub use journaled_run::run_journaled;
pub use narration::Hosted;
pub use run::{run_asked, run_in_memory, run_on};
