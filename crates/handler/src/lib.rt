//! What runs the units of a tenant.
//!
//! - `Handler`: the trait with its law. Its ghost member `meaning` says what every handler of the
//!   type means; each call gives that meaning, or finds no memory.
//! - `Turn`: what a unit does upon one receipt.
//! - `AskRef`: the whole input of a turn, where its parts lie. A tenant works its own turns by it.
//! - `Ask` and `Done`: the same as a value, and a turn that was worked from one. They part
//!   the working of a turn from the tenant whose turn it is.
//! - `Sample`: the handler of the program, with the kinds echo, relay, count, adder and tee.
//!
//! For whoever writes a handler (`docs/HANDLERS.md`), and for a host that works turns beside its tenants. A caller:
//!
//! ```
//! fn worked(alloc: Global, ask: Ask<Sample>) -> anyhow::Result<Done<Sample>> {
//!     Ok(ask.work(alloc, &Sample)?)
//! }
//! ```
#![tactic(auto)]

mod ask;
mod handler;
mod sample;
mod turn;

pub use ask::{Ask, AskRef, Done};
pub use handler::Handler;
pub use sample::Sample;
pub use turn::Turn;
