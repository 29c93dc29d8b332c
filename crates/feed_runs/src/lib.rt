//! `feeds`, for any handler: files of step lines that run at once, and their reply lines.
//!
//! - `feeds_asked` (`feeds`), over any readers and any writer: thin over `workers::run_feeds`, which carries its own
//!   theorem; `feeds_on`: so without words; `open_feeds`: the readers of files;
//! - `budget`: how many bytes feeds may have.
//!
//! For `host_cli`, which has the words. A caller:
//!
//! ```
//! let inputs = open_feeds(rt, &told, alloc, asked.files.as_slice())?;
//! feeds_asked(rt, &told, handler, MemoryStore::new(alloc), inputs, output, &asked, shows)
//! ```
#![tactic(auto)]

mod budget;
mod feeds;

pub use feeds::{feeds_asked, feeds_on, open_feeds};
