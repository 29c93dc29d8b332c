//! `draw`, for any handler: step lines in, a tenant's diagram out.
//!
//! - `draw_on` (`drawing`): draws to a file or to standard output;
//! - `diagram_of`: the diagram after all step lines of an input, thin over `diagram::draw` and `draw_page`;
//! - `followed`: what these steps have come to, and of which line each is.
//!
//! For `host_cli`, which has the words. A caller:
//!
//! ```
//! draw_on(rt, &told, handler, MemoryStore::new(alloc), &asked, shows)
//! ```
#![tactic(auto)]

mod diagram_of;
mod drawing;
mod followed;

pub use drawing::draw_on;
