//! Rows whose input or output fails.

use crate::calls::{new_book, serve_all};
use lines::{Counted, FuseReader, ServeFault};
use stable_log::FuseWriter;
use std::alloc::Global;

/// Whether input that fails before each line in turn is answered up to there, and told to have failed.
pub(crate) fn answers_up_to_each(
    alloc: Global,
    steps: &str,
    replies: &str,
) -> anyhow::Result<bool> {
    let mut before = String::new(alloc);
    let mut number = 0u64;
    for reply in replies.lines() {
        if !answers_up_to(alloc, steps, number, before.as_str())? {
            return Ok(false);
        }
        before.push_str(reply)?;
        before.push('\n')?;
        number = number.saturating_add(1);
    }
    Ok(true)
}

/// Whether input that fails before the line of this number has these replies.
fn answers_up_to(alloc: Global, steps: &str, number: u64, replies: &str) -> anyhow::Result<bool> {
    let mut reader = Counted::new(FuseReader::new(steps.as_bytes(), number));
    let mut writer = Counted::new(Vec::new(alloc));
    let mut book = new_book(alloc);
    let ended = serve_all(alloc, &mut reader, &mut writer, &mut book);
    book.forget();
    Ok(matches!(ended, Err(ServeFault::Read)) && writer.inner.as_slice() == replies.as_bytes())
}

/// Whether output that takes each number of bytes in turn has just those, and is told to have failed.
pub(crate) fn writes_up_to_each(alloc: Global, steps: &str, replies: &str) -> bool {
    let replies = replies.as_bytes();
    for room in 0..replies.len() {
        if !writes_up_to(alloc, steps, &replies[..room]) {
            return false;
        }
    }
    true
}

/// Whether output that has room for just these bytes has them.
fn writes_up_to(alloc: Global, steps: &str, replies: &[u8]) -> bool {
    let mut reader = Counted::new(steps.as_bytes());
    let mut writer = Counted::new(FuseWriter::new(alloc, replies.len()));
    let mut book = new_book(alloc);
    let ended = serve_all(alloc, &mut reader, &mut writer, &mut book);
    book.forget();
    matches!(ended, Err(ServeFault::Write)) && writer.inner.bytes() == replies
}
