//! Serving: lines in, lines out.
//!
//! - `serve`: answers each line of a reader, in order, by the book, and writes each reply as a line; `serve_host` does
//!   it by a host, which stores no history.
//! - `read_feed`: the steps of all lines of a reader; `put_reply` and `fault_reply` answer them.
//! - `Counted`: a reader or a writer with a count of its failures, by which the contracts tell
//!   which end failed. What raises the count is private to the module `counted`.
//! - `FuseReader`: a reader for tests, which fails before a line.
//! - `part` and `input`: a line is read a part at a time, in one buffer whatever its length.
//! - `read_line`, `put_reply`, `put_bytes`, `flush_unless`: what another loop over lines is made of, as `driver` has
//!   one; `fill`, `Part`, `line_kind`, `heard_at_end`, `read_heard`: what a loop is made of that reads a line in
//!   parts.
//! - `read_step`, `write_reply` and `LineFault` are those of `forms`: what one line means.
//!
//! A line ends at a line feed, which is no part of it; what follows the last line feed is a line
//! where it isn't empty. `specs/Lines` says so, and `specs/Serving` what is answered.
//!
//! For a host that takes lines from anything that can be read, and answers to anything that can be written. A caller:
//!
//! ```
//! /// The reply lines of a new book to these step lines.
//! fn served(alloc: Global, steps: &[u8]) -> anyhow::Result<Vec<u8>> {
//!     let mut reader = Counted::new(steps);
//!     let mut writer = Counted::new(Vec::new(alloc));
//!     let mut book = new_book(alloc);
//!     serve_all(alloc, &mut reader, &mut writer, &mut book)?;
//!     Ok(writer.inner)
//! }
//! ```
#![tactic(auto)]

mod counted;
mod fault;
mod feed;
mod fuse_reader;
mod input;
mod part;
mod serving;

pub use counted::{Counted, fill, flush_unless, put_bytes};
pub use fault::ServeFault;
pub use feed::{read_feed, read_heard};
pub use forms::{LineFault, read_step, write_reply};
pub use fuse_reader::FuseReader;
pub use input::{LineRead, heard_at_end, line_kind, read_line};
pub use part::Part;
pub use serving::{fault_reply, memory_aside, put_reply, serve, serve_host};
