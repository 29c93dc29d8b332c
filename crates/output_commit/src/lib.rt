//! Outputs that wait until all that they depend on is stable (output commit, Elnozahy, Alvisi, Wang
//! and Johnson 2002).
//!
//! - `Hold`: the outputs of a unit that wait, in order;
//! - `StableView`: which intervals are firm, lent to a hold;
//! - `Ticket`: the right to let one output out. It can be neither cloned nor dropped: `Outlet::emit`
//!   or `Hold::put_back` spends it;
//! - `Outlet`: what the units of a tenant released.
//!
//! Contracts see them by `specs/Holds`. That a hold gives a ticket just for a firm front is a law of
//! `layer_laws`. A look at the front is one comparison, however long paths and histories are.
//!
//! For the writer of another host whose outputs can't be taken back. A caller:
//!
//! ```
//! /// Lets the first output of a hold out, if it is firm, and tells whether it did. Nothing is lost where it can't
//! /// leave.
//! pub fn release_first(hold: &mut Hold, outlet: &mut Outlet, view: &StableView) -> bool
//!     requires unit { hold.old.unit < length outlet.old }
//!     requires front { hold.old.unit < length view.now.frontiers.now }
//!     ensures { IsTrue result → length outlet.new ≡ length outlet.old }
//! {
//!     let Some(ticket) = hold.take_front(view) else {
//!         return false;
//!     };
//!     match outlet.emit(ticket) {
//!         Ok(()) => true,
//!         Err(ticket) => {
//!             hold.put_back(ticket);
//!             false
//!         }
//!     }
//! }
//! ```
#![tactic(auto)]

mod held;
mod hold;
mod outlet;
mod ticket;
mod view;

pub use held::Held;
pub use hold::Hold;
pub use outlet::{Outlet, Released};
pub use ticket::Ticket;
pub use view::StableView;
