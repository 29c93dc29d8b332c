//! The lines that come most, read byte by byte or token by token, and all replies, written word by word.
//!
//! What a line means is said by `forms`, and stays what `serde_json` reads and writes: these functions have the clauses
//! of `forms`, and take its way where a line is none of the quick ones.
//!
//! - `read_addressed` (`steps`): the step that a line is, apart; quick are `post`, `deliver`, `join` and the steps that
//!   name a tenant and a unit alone, with whole numbers, and their keys in any order. Those in their shortest form
//!   (`shortest`) are compared with it.
//! - `write_reply` (`replies`): the line that tells a reply, put behind what a buffer holds: the words of its text, and
//!   its numbers, names and texts between them.
#![tactic(auto)]

mod replies;
mod shortest;
mod steps;

pub use replies::write_reply;
pub use steps::read_addressed;
