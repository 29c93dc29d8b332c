//! What two lists of steps have in common that agree on a tenant's own steps.
//!
//! - `headline_of_lists`: the headline of `book`, said of the steps that are given and not of the histories that they
//!   make; `headline_of_answers` says it where a device may fail.
//!
//! `specs/Lists` says what the law says.
#![tactic(auto)]

mod laws;

pub use laws::{headline_of_answers, headline_of_lists};
