//! The words of the command line of a program that hosts a handler.
//!
//! - `Program`: what such a program tells of itself, its handler's kinds among them; `Hosting`: the same of a second
//!   handler;
//! - `Pages`: the texts of it that are longer than a line;
//! - `read_words` (`command`): reads the words with `clap`, and prints help or what is wrong with them;
//! - `Asked` and the words of each command (`asked`): what is asked for; `Verbosity`: how much is told.
//!
//! For `host_cli`, which does what the words ask for. A caller:
//!
//! ```
//! match read_words(rt, &pages, words.as_slice()) {
//!     Asked::Run(run) => run_as_asked(rt, handler, program, &run),
//!     Asked::Ended(status) => status,
//! }
//! ```
#![tactic(auto)]

mod asked;
mod command;
mod pages;
mod program;
mod verbosity;

pub use asked::{
    Asked, DrawWords, FeedsWords, JournalWords, LoadWords, RunWords, StatusWords, TrimWords,
    ViewWords, WhyWords,
};
pub use command::read_words;
pub use pages::Pages;
pub use program::{Hosting, Program};
pub use verbosity::Verbosity;
