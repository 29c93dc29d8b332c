//! Names, marks, refusals and limits: the words that all crates share.
//!
//! The types are those of `model`, which says what they mean, and so are the limits.
//!
//! For everybody: a host, a handler, an auditor. A caller:
//!
//! ```
//! /// The name of a tenant.
//! pub(crate) fn name_of(text: &str) -> anyhow::Result<TenantName> {
//!     match TenantName::new(text) {
//!         Some(name) => Ok(name),
//!         None => bail!("no name"),
//!     }
//! }
//! ```
#![tactic(auto)]

pub use model::{
    Kind, Letter, Letters, MAX_CHECKPOINTS, MAX_FEEDS, MAX_HELD_QUOTA, MAX_INCARNATION, MAX_INDEX,
    MAX_LETTERS_QUOTA, MAX_LINE_BYTES, MAX_NAME_BYTES, MAX_OPTIMISM, MAX_TEXT_BYTES,
    MAX_TURN_EFFECTS, MAX_UNITS, MAX_VOLATILE_QUOTA, Mark, Marks, Move, NoMemory, Quota, Refusal,
    Row, Seat, Source, Start, TenantName, Text, Texts, Unit,
};
