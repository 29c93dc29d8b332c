//! Whether what was released is what a run without failures puts out.
//!
//! A tenant that recovers from failures must have released no more than its units put out in some
//! run in which nothing fails. Its certificate is the list of moves of such a run. `check` makes
//! these moves over plain queues, where there is no kill, no log, no dependency and no incarnation,
//! and compares what each unit put out with what was released of it. Of the runtime it stands on `model`
//! and `handler` alone, so that whoever reads it need trust nothing else of it.
//!
//! - `network`: units at work and the packets between them, as the definitions' records.
//! - `moves`: one move, and all of them in order.
//! - `outputs`: the first unit whose outputs do not begin with its list.
//! - `verdict`: `check`, which puts these together.
//! - `line`: the line of JSON that tells an outcome.
//!
//! The definitions are those of `model`'s `FailureFree`; `specs/Audits` says what a verdict means.
//!
//! For an auditor, who trusts nothing else of the runtime. A caller:
//!
//! ```
//! /// The outcome of the audit of these lists, where it may be asked.
//! pub(crate) fn audit_of_lists(
//!     alloc: Global,
//!     seats: &[Seat],
//!     moves: &[Move],
//!     released: &[Texts],
//! ) -> Option<Result<Verdict, Flaw>> {
//!     if can_check(seats, moves, released) {
//!         Some(check(alloc, &Sample, seats, moves, released))
//!     } else {
//!         None
//!     }
//! }
//! ```
#![tactic(auto)]

mod line;
mod moves;
mod network;
mod outputs;
mod verdict;

pub use line::audit_line;
pub use model::Flaw;
pub use verdict::{Verdict, check};
