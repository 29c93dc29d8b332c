//! Dependency vectors: for each unit of a tenant the latest interval that an interval depends on
//! (Strom and Yemini 1985).
//!
//! Contracts see a `DepVector` as the list of its marks. That the vectors which `join` and `set_own`
//! make hold the greatest mark of each unit in a past is a law of `layer_laws`.
//!
//! For the writer of another host that tracks dependence. A caller:
//!
//! ```
//! /// The vector of an interval that comes after one with `before` and takes a letter of one with `sent`.
//! #[tactic(auto, using(depvector::proofs::Joins::joins))]
//! pub fn vector_of_receipt(
//!     mut before: DepVector,
//!     sent: &DepVector,
//!     unit: Unit,
//!     mark: Mark,
//! ) -> DepVector
//!     requires entries { length sent.now ≤ length before }
//!     requires own { unit < length before }
//!     ensures { result ≡ slice_set (joined before sent.now) unit mark }
//! {
//!     before.join(sent);
//!     before.set_own(unit, mark);
//!     before
//! }
//! ```
#![tactic(auto)]

mod marks;
mod shared;
mod vector;

pub use shared::SharedVector;
pub use vector::DepVector;
