//! The snapshots of a unit, from which it is restored (checkpoints, Strom and Yemini 1985).
//!
//! - `Shelf`: a base, which never goes, and at most 64 others. Contracts see it as `Shelved` of
//!   `specs/Shelves`.
//! - `Snapshot`: what a unit was after one interval.
//!
//! For the writer of another host that restores units from snapshots. A caller:
//!
//! ```
//! /// The index of the snapshot from which a unit goes back to `target`, or 0: its beginning.
//! pub fn restart_index<S: Drop>(shelf: &Shelf<S>, target: u32) -> u32
//!     ensures { result ≡ option_map_or (λ x. x.index) (nearest_of shelf.now target) 0 }
//! {
//!     match shelf.nearest(target) {
//!         Some(snapshot) => snapshot.index,
//!         None => 0,
//!     }
//! }
//! ```
#![tactic(auto)]

mod shelf;
mod snapshot;

pub use shelf::Shelf;
pub use snapshot::Snapshot;
