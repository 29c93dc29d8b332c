//! Rows of flows that run themselves, over a store that fails: what a driver writes by a book, and by a host. Only
//! there is something lost that a letter rests on, so that it has to wait, or is an orphan.

use crate::calls::{drive_all, drive_all_by_host};
use crate::failing::{failing_calls, is_step};
use book::{Book, Host};
use handler::Sample;
use lines::Counted;
use stable_log::FuseStore;
use std::alloc::Global;

/// The step lines of a row, each with its line feed.
fn given(alloc: Global, lines: &str) -> anyhow::Result<String> {
    let mut given = String::new(alloc);
    for line in lines.lines() {
        if is_step(line) {
            given.push_str(line)?;
            given.push('\n')?;
        }
    }
    Ok(given)
}

/// What a driver wrote, and whether it came to the end of the lines.
#[derive(Debug, Drop)]
pub(crate) struct Written {
    pub(crate) bytes: Vec<u8>,
    pub(crate) is_whole: bool,
}

impl Written {
    /// Whether this is all of it.
    pub(crate) fn is(&self, due: &str) -> bool {
        self.is_whole && self.bytes.as_slice() == due.as_bytes()
    }
}

/// What a driver writes by a new book over a store that fails as the row tells.
pub(crate) fn written_by_a_book(alloc: Global, lines: &str) -> anyhow::Result<Written> {
    let given = given(alloc, lines)?;
    let mut reader = Counted::new(given.as_bytes());
    let mut writer = Counted::new(Vec::new(alloc));
    let (appends, fetches) = failing_calls(alloc, lines)?;
    let mut book = Book::new(alloc, Sample, FuseStore::new(alloc, appends, fetches));
    let is_whole = drive_all(alloc, &mut reader, &mut writer, &mut book);
    book.forget();
    let bytes = writer.inner;
    Ok(Written { bytes, is_whole })
}

/// What it writes by a new host.
pub(crate) fn written_by_a_host(alloc: Global, lines: &str) -> anyhow::Result<Written> {
    let given = given(alloc, lines)?;
    let mut reader = Counted::new(given.as_bytes());
    let mut writer = Counted::new(Vec::new(alloc));
    let (appends, fetches) = failing_calls(alloc, lines)?;
    let mut host = Host::new(alloc, Sample, FuseStore::new(alloc, appends, fetches));
    let is_whole = drive_all_by_host(alloc, &mut reader, &mut writer, &mut host);
    host.forget();
    let bytes = writer.inner;
    Ok(Written { bytes, is_whole })
}
