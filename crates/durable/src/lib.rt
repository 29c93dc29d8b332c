//! A list of lines that lasts: what stands in a file before it is acted on.
//!
//! - `Durable`: a file to which bytes are appended, and that is synced.
//! - `Journaled`: a reader that gives only bytes that stand, synced, in such a file.
//! - `measure`: the whole lines of such a file, and what a crash left of one more.
//! - `FirstLines`: the next lines of a reader; `NoZeros`: a reader without the byte 0; `Skipping`: a writer that leaves
//!   out the first lines.
//!
//! `specs/Standing` says what stands in a file, and `specs/Measuring` what is measured.
//!
//! For a program whose input must outlast it. A caller:
//!
//! ```
//! /// A reader of the input that journals.
//! fn journaling<'a, F: Files<File = File>, R: Read + Drop>(
//!     alloc: Global,
//!     input: R,
//!     file: LastingFile<'a, F>,
//! ) -> Option<Input<'a, F, R>> {
//!     let Ok(journaled) = Journaled::new(alloc, BLOCK, NoZeros::new(input), file) else {
//!         return None;
//!     };
//!     match BufReader::with_capacity(alloc, BLOCK, journaled) {
//!         Ok(reader) => Some(Counted::new(reader)),
//!         Err(_) => None,
//!     }
//! }
//! ```
#![tactic(auto)]

mod durable;
mod first_lines;
mod journaled;
mod measuring;
mod no_zeros;
mod skipping;

pub use durable::Durable;
pub use first_lines::FirstLines;
pub use journaled::Journaled;
pub use measuring::{Extent, measure};
pub use no_zeros::NoZeros;
pub use skipping::Skipping;
