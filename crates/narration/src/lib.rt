//! What `run` and `drive` tell people beside the replies.
//!
//! - `serve_explained` (`explained`): each refusal with its reason, each letter that came to wait, and what a release
//!   left behind, over the parts that `serve` of `lines` has, or over `drive` of `driver` for each line, and over
//!   `reasons`;
//! - `tell_driven`, `tell_done`, `tell_waiting`, `total` (`waits`): what drivers did, and the letters that wait;
//! - `Hosted`: a handler, and the names of the kinds that it knows.
//!
//! For `runs`. A caller:
//!
//! ```
//! serve_explained(
//!     told,
//!     alloc,
//!     hosted,
//!     &mut reader.inner,
//!     &mut writer.inner,
//!     book,
//!     driver,
//!     before,
//! )
//! ```
#![tactic(auto)]

mod explained;
mod hosted;
mod waits;

pub use explained::serve_explained;
pub use hosted::Hosted;
pub use waits::{tell_done, tell_driven, tell_waiting, total};
