//! Tests of dependency vectors against the rows of a tenant: what is blind, an orphan or unstable
//! (orphans are those of Strom and Yemini 1985).
//!
//! - `is_blind`, `is_orphan`, `unstable_units`: tests of one vector, and by its marks alone `any_blind`, `any_lost`,
//!   `count_unstable` and `any_unstable`;
//! - `first_orphan`: the first place of a path that is an orphan.
//!
//! Of vectors that hold the greatest mark of each unit in a past, these are the definitions' tests of
//! that past: `tenant::laws::vectors_tell`, and `layer_laws` for the count and the first orphan. None
//! takes memory, and each looks at every entry a constant number of times, however long paths and the
//! table are.
//!
//! For the writer of another host that has to tell which messages and intervals are void. A caller:
//!
//! ```
//! /// Whether a letter with this vector may be taken by a unit that knows so many rows.
//! pub fn may_be_taken(vector: &DepVector, table: &StartTable, known: usize) -> bool
//!     ensures { result ≡ (not (is_blind_by (take known table.now) vector.now)
//!         && not (is_orphan_by (take known table.now) vector.now)) }
//! {
//!     !is_blind(vector, table, known) && !is_orphan(vector, table, known)
//! }
//! ```
#![tactic(auto)]

mod paths;
mod vectors;
mod without_rows;

pub use paths::first_orphan;
pub use vectors::{
    any_blind, any_lost, any_unstable, count_unstable, is_blind, is_orphan, unstable_units,
};
