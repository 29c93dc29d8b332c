//! What the steps of a tenant compute at one unit, by what its recovery unit keeps.
//!
//! - `refusals`: the tests of a receipt, before its turn and after it.
//! - `receipt`: the mark, vector and record of the interval that a receipt makes.
//! - `letters`: letters, with text and vector as long as they may be needed, and those that a receipt sends.
//! - `sent_letters`: all letters of a tenant, of which those at the front that are forgotten are kept packed.
//! - `frontier`: how far a path is firm.
//!
//! The definitions by lists stand in `specs/Receipts`. That these are what the steps of a tenant's compact state
//! compute is said by the laws of `specs/Laws`, whose lemmas stand in `proofs/Seen`.
#![tactic(auto)]

mod frontier;
mod letters;
mod new_letters;
mod receipt;
mod refusals;
mod sent_letters;

pub use frontier::frontier_after;
pub use letters::{Content, SentLetter, letters_by};
pub use new_letters::NewLetters;
pub use receipt::{mark_upon, vector_upon};
pub use refusals::{TenantView, arrival_refusal, letter_refusal, turn_refusal};
pub use sent_letters::{LetterRef, SentLetters};
