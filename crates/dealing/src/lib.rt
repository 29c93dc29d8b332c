//! Several hosts as one, as laws: tenants are dealt to hosts by their names.
//!
//! - `dealt_lines_serve`: where each step of some lines is done by the host that its tenant is dealt to, the hosts
//!   serve the lines together, as one book does.
//! - `shards_run`: a run of new hosts as a whole: a book is served the lines with these replies, whatever the number
//!   of hosts.
//!
//! `specs/Dealing` says which book some hosts stand for together: each is the replay of the part of its history that is
//! dealt to it. What a tenant owns is in one part, so that a history is legal where its parts are.
//!
//! For whoever steps the lines of different tenants at once.
#![tactic(auto)]

mod laws;

pub use laws::{dealt_lines_serve, shards_run};
