//! What is left of the letters whose contents are forgotten: from whom each was, and to whom.
//!
//! Traffic repeats: a letter goes round a ring, a flow runs down its chain. So the letters are kept in stretches, each
//! of which has its first letters in full, and tells by their period how many more follow. However many letters go
//! round the same way, they take the room of one stretch.
//!
//! - `SpentLetters`: a list of letters, which grows at its end. Contracts see it as that list.
//! - `Stretch`: a part of it, for whoever writes the list as bytes.
//!
//! The stretches are a function of the list (`packed` of `specs/Stretches`), so that the same letters are always
//! written as the same bytes.
#![tactic(auto)]

mod letter;
mod search;
mod spent_letters;
mod stretch;

pub use letter::SpentLetter;
pub use spent_letters::{MOST, SpentLetters};
pub use stretch::{HEAD, Stretch};
