//! The whole command line of a program that hosts a handler: a `main` of a few lines over it is one.
//!
//! - `run_program` (`program_run`): reads the words and does what they ask for; `run_either`: so with a second handler;
//! - `run_asked`: `run` and `drive`, with a bar or lines of progress, thin over `runs`; `cores`: on how many cores;
//! - `journals`: `journal` and `trim`, thin over `files` and `runs`; `owners`: whose a journal and its snapshots are.
//!
//! `run`, `feeds`, `draw`, `why`, `status` and `load` stand in `runs`, `feed_runs`, `drawings`, `views` and `images`.
//!
//! For whoever has a handler and wants a program. A caller:
//!
//! ```
//! fn main(rt: HostRuntime) -> ExitCode {
//!     let terminals = Terminals {
//!         input: rt.stdin().is_terminal(),
//!         errors: rt.stderr().is_terminal(),
//!     };
//!     ExitCode::from(run_either(&rt, Sample, Programs, &RECALL, terminals))
//! }
//! ```
#![tactic(auto)]

mod cores;
mod journals;
mod owners;
mod program_run;
mod run_asked;

pub use program_run::{Terminals, run_either, run_program};
pub use words::{Hosting, Program};
